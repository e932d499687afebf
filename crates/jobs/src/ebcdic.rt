use std::fmt;

// The code of an ASCII character; 3F, a substitute, for one that is not in the table.
pub(crate) fn encode(character: u8) -> u8 {
    match character {
        b'A'..=b'I' => 0xC1 + (character - b'A'),
        b'J'..=b'R' => 0xD1 + (character - b'J'),
        b'S'..=b'Z' => 0xE2 + (character - b'S'),
        b'a'..=b'i' => 0x81 + (character - b'a'),
        b'j'..=b'r' => 0x91 + (character - b'j'),
        b's'..=b'z' => 0xA2 + (character - b's'),
        b'0'..=b'9' => 0xF0 + (character - b'0'),
        b' ' => 0x40,
        b'.' => 0x4B,
        b'(' => 0x4D,
        b'!' => 0x5A,
        b')' => 0x5D,
        b'-' => 0x60,
        b'/' => 0x61,
        b',' => 0x6B,
        b'?' => 0x6F,
        b':' => 0x7A,
        b'\'' => 0x7D,
        _ => 0x3F,
    }
}

// The ASCII character of a code; a point for one that is not in the table.
fn decode(byte: u8) -> u8 {
    match byte {
        0xC1..=0xC9 => b'A' + (byte - 0xC1),
        0xD1..=0xD9 => b'J' + (byte - 0xD1),
        0xE2..=0xE9 => b'S' + (byte - 0xE2),
        0x81..=0x89 => b'a' + (byte - 0x81),
        0x91..=0x99 => b'j' + (byte - 0x91),
        0xA2..=0xA9 => b's' + (byte - 0xA2),
        0xF0..=0xF9 => b'0' + (byte - 0xF0),
        0x40 => b' ',
        0x4D => b'(',
        0x5A => b'!',
        0x5D => b')',
        0x60 => b'-',
        0x61 => b'/',
        0x6B => b',',
        0x6F => b'?',
        0x7A => b':',
        0x7D => b'\'',
        _ => b'.',
    }
}

// Bytes of EBCDIC as text.
#[derive(Clone, Copy, Debug)]
pub struct Text<'a>(pub &'a [u8]);

impl<'a> fmt::Display for Text<'a> {
    fn fmt<W: fmt::Write>(&self, f: &mut fmt::Formatter<W>) -> fmt::Result {
        for byte in self.0 {
            write!(f, "{}", char::from(decode(*byte)))?;
        }
        Ok(())
    }
}

// Bytes in hexadecimal, a space before each.
#[derive(Clone, Copy, Debug)]
pub struct Hex<'a>(pub &'a [u8]);

impl<'a> fmt::Display for Hex<'a> {
    fn fmt<W: fmt::Write>(&self, f: &mut fmt::Formatter<W>) -> fmt::Result {
        for byte in self.0 {
            write!(f, " {byte:02X}")?;
        }
        Ok(())
    }
}

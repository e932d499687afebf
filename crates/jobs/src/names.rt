use format::refusal::Refusal;
use std::fmt;

// Names for people: each beside the weight of its bit, the number that stands for it in a byte.

pub const FLAGS: [(u8, &str); 8] = [
    (0x80, "CD"),
    (0x40, "CC"),
    (0x20, "SLI"),
    (0x10, "SKIP"),
    (0x08, "PCI"),
    (0x04, "IDA"),
    (0x02, "suspend"),
    (0x01, "MIDA"),
];

pub const DEVICE_STATUS: [(u8, &str); 8] = [
    (0x80, "attention"),
    (0x40, "status modifier"),
    (0x20, "control unit end"),
    (0x10, "busy"),
    (0x08, "channel end"),
    (0x04, "device end"),
    (0x02, "unit check"),
    (0x01, "unit exception"),
];

pub const SUBCHANNEL_STATUS: [(u8, &str); 2] = [
    (0x40, "incorrect length"),
    (0x20, "program check"),
];

// A byte, and the weights and names of its bits.
#[derive(Clone, Copy, Debug)]
pub struct Bits<'a>(pub u8, pub &'a [(u8, &'static str)]);

impl<'a> fmt::Display for Bits<'a> {
    fn fmt<W: fmt::Write>(&self, f: &mut fmt::Formatter<W>) -> fmt::Result {
        let byte = self.0;
        write!(f, "{byte:02X}")?;
        let mut listed = false;
        for (weight, name) in self.1 {
            if byte & *weight != 0 {
                let separator = if listed { ", " } else { " " };
                write!(f, "{separator}{name}")?;
                listed = true;
            }
        }
        Ok(())
    }
}

// The rule that a refusal stands for, in words.
#[derive(Clone, Copy, Debug)]
pub struct Rule(pub Refusal);

impl fmt::Display for Rule {
    fn fmt<W: fmt::Write>(&self, f: &mut fmt::Formatter<W>) -> fmt::Result {
        f.write_str(match self.0 {
            Refusal::Misaligned(_) => "a CCW address is a multiple of 8",
            Refusal::CcwOutside(_) => "the 8 bytes of a CCW are inside storage",
            Refusal::TransferMisplaced(_) => "a TIC is neither the first CCW nor reached by a TIC",
            Refusal::CodeInvalid(_) => "the code is valid, unless a command is in force",
            Refusal::FlagRefused(_) => "no flag 08, 02 or 01 is on",
            Refusal::CountZero(_) => "the count is not 0",
            Refusal::ListMisaligned(_) => "the address of an indirect list is a multiple of 4",
            Refusal::WordOutside(_) => "the 4 bytes of an indirect word are inside storage",
            Refusal::WordOffBoundary(_) => "a later indirect word starts its block",
            Refusal::AreaOutside(_) => "every byte of the area is inside storage",
            _ => "another rule",
        })
    }
}

ghost use Rattle.std.specs.Prelude.{◌≡◌, Some};
ghost use Rattle.format.specs.Bytes.{reader};
ghost use Rattle.format.specs.Layouts.{ccw_at, ccw_bytes};
ghost use Rattle.format.specs.Texts.{digit_of};

use super::big_endian::{three_bytes, word};
use super::flags::Flags;
use std::fmt;

// How a CCW is laid out.
#[derive(Clone, Copy, Debug, PartialEq, Eq)]
pub enum Format {
    Zero,
    One,
}

impl fmt::Display for Format {
    ghost output = { λ format. Some (digit_of format) };

    fn fmt<W: fmt::Write>(&self, f: &mut fmt::Formatter<W>) -> fmt::Result {
        f.write_str(match self {
            Format::Zero => "0",
            Format::One => "1",
        })
    }
}

// A channel command word, whatever its layout.
#[derive(Clone, Copy, Debug, Default, PartialEq, Eq)]
pub struct Ccw {
    pub code: u8,
    pub flags: Flags,
    pub count: u16,
    pub address: u32,
}

impl Ccw {
    pub fn decode(format: Format, bytes: [u8; 8]) -> Ccw
        ensures { result ≡ ccw_at format (reader bytes) 0 }
    {
        match format {
            Format::Zero => Ccw {
                code: bytes[0],
                flags: Flags::from(bytes[4]),
                count: u16::from_be_bytes([bytes[6], bytes[7]]),
                address: three_bytes([bytes[1], bytes[2], bytes[3]]),
            },
            Format::One => Ccw {
                code: bytes[0],
                flags: Flags::from(bytes[1]),
                count: u16::from_be_bytes([bytes[2], bytes[3]]),
                address: word([bytes[4], bytes[5], bytes[6], bytes[7]]),
            },
        }
    }

    // The eight bytes of a format 1 CCW, from which it comes back.
    #[tactic(auto, using(crate::proofs::ReadBack::ccw_back_from))]
    pub fn encode(self) -> [u8; 8]
        ensures is { result ≡ ccw_bytes self }
        ensures back { ccw_at Format.One (reader result) 0 ≡ self }
    {
        let [c0, c1] = self.count.to_be_bytes();
        let [a0, a1, a2, a3] = self.address.to_be_bytes();
        [self.code, u8::from(self.flags), c0, c1, a0, a1, a2, a3]
    }
}

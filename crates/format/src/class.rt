ghost use Rattle.std.specs.Prelude.{◌≡◌, Some, slice_index_or};
ghost use Rattle.format.specs.Classes.{class_of, class_in, class_table, reads_storage, backwards};
ghost use Rattle.format.specs.Texts.{name_of};

use super::ccw::Format;
use std::fmt;

// What a command code asks for.
#[derive(Clone, Copy, Debug, PartialEq, Eq)]
pub enum Class {
    Invalid,
    Write,
    Read,
    Control,
    Sense,
    TransferInChannel,
    ReadBackward,
}

// The class of a code by its low half and its low two bits, whatever the format.
impl From<u8> for Class {
    ghost from_gives = { λ code class. class ≡ class_of code };

    fn from(code: u8) -> Class {
        match code % 16 {
            0 => Class::Invalid,
            4 => Class::Sense,
            8 => Class::TransferInChannel,
            12 => Class::ReadBackward,
            _ => match code % 4 {
                1 => Class::Write,
                2 => Class::Read,
                _ => Class::Control,
            },
        }
    }
}

impl Class {
    // The class of a code in a format, which is its entry in the table of all 256.
    #[tactic(auto, using(crate::proofs::ClassTable::class_tabled))]
    pub fn in_format(format: Format, code: u8) -> Class
        ensures is { result ≡ class_in format code }
        ensures tabled { result ≡ slice_index_or (class_table format) code Class.Invalid }
    {
        match (format, Class::from(code)) {
            // a TIC of format 1 is exactly 08
            (Format::One, Class::TransferInChannel) if code != 8 => Class::Invalid,
            (_, class) => class,
        }
    }

    // Whether such a command moves bytes from the device into storage.
    pub fn reads(self) -> bool
        ensures { result ≡ reads_storage self }
    {
        matches!(self, Class::Read | Class::Sense | Class::ReadBackward)
    }

    // Whether its area goes down from the address.
    pub fn backward(self) -> bool
        ensures { result ≡ backwards self }
    {
        self == Class::ReadBackward
    }
}

impl fmt::Display for Class {
    ghost output = { λ class. Some (name_of class) };

    fn fmt<W: fmt::Write>(&self, f: &mut fmt::Formatter<W>) -> fmt::Result {
        f.write_str(match self {
            Class::Invalid => "invalid",
            Class::Write => "write",
            Class::Read => "read",
            Class::Control => "control",
            Class::Sense => "sense",
            Class::TransferInChannel => "transfer in channel",
            Class::ReadBackward => "read backward",
        })
    }
}

ghost use Rattle.std.specs.Prelude.{◌≡◌};
ghost use Rattle.disk.specs.Codes.{byte_of, decoded};

use unit::model::Fault;

// A command of the disk's own.
#[derive(Clone, Copy, Debug, PartialEq, Eq)]
pub enum Code {
    Write = 0x41,
    Read = 0x42,
    Locate = 0x43,
}

impl From<Code> for u8 {
    ghost from_gives = { λ code byte. byte ≡ byte_of code };

    fn from(code: Code) -> u8 {
        code as u8
    }
}

impl TryFrom<u8> for Code {
    type Error = Fault;

    ghost try_from_gives = { λ byte r. r ≡ decoded byte };

    fn try_from(byte: u8) -> Result<Code, Fault> {
        match byte {
            0x41 => Ok(Code::Write),
            0x42 => Ok(Code::Read),
            0x43 => Ok(Code::Locate),
            _ => Err(Fault::unknown_command()),
        }
    }
}

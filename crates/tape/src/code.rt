ghost use Rattle.std.specs.Prelude.{◌≡◌};
ghost use Rattle.tape.specs.Codes.{byte_of, decoded};

use unit::model::Fault;

// Which way a block is read: from its first byte on, or from its last byte back.
#[derive(Clone, Copy, Debug, PartialEq, Eq)]
pub enum Direction {
    Forward,
    Backward,
}

// A command of the tape's own.
#[derive(Clone, Copy, Debug, PartialEq, Eq)]
pub enum Code {
    Write,
    Read(Direction),
    Rewind,
}

impl From<Code> for u8 {
    ghost from_gives = { λ code byte. byte ≡ byte_of code };

    fn from(code: Code) -> u8 {
        match code {
            Code::Write => 0x01,
            Code::Read(Direction::Forward) => 0x02,
            Code::Read(Direction::Backward) => 0x0C,
            Code::Rewind => 0x07,
        }
    }
}

impl TryFrom<u8> for Code {
    type Error = Fault;

    ghost try_from_gives = { λ byte r. r ≡ decoded byte };

    fn try_from(byte: u8) -> Result<Code, Fault> {
        match byte {
            0x01 => Ok(Code::Write),
            0x02 => Ok(Code::Read(Direction::Forward)),
            0x0C => Ok(Code::Read(Direction::Backward)),
            0x07 => Ok(Code::Rewind),
            _ => Err(Fault::unknown_command()),
        }
    }
}

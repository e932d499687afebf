ghost use Rattle.std.specs.Prelude.{◌≡◌, min, ◌++◌, length, take as front, drop as behind};
ghost use Rattle.device.specs.Machine.{due, room};
ghost use Rattle.unit.specs.Core.{Core, is_open, unknown_command};
ghost use Rattle.unit.specs.CoreLaws.{CoreLaws};

use crate::sense::{COMMAND_REJECT, INTERVENTION_REQUIRED};
use crate::status::{FAILED, REFUSED};
use device::interface::Begun;
use std::error::Error;
use std::fmt;

// What a command that fails leaves: its status, and the sense byte that tells why.
#[derive(Clone, Copy, Debug, PartialEq, Eq)]
pub struct Fault {
    pub status: u8,
    pub sense: u8,
}

// The answer to a command that needs paper, a line, a byte or a block where none is left.
pub const NOTHING_LEFT: Fault = Fault {
    status: FAILED,
    sense: INTERVENTION_REQUIRED,
};

impl Fault {
    // The answer to a code that is no command of the device.
    pub fn unknown_command() -> Fault
        ensures { result ≡ unknown_command }
    {
        Fault {
            status: REFUSED,
            sense: COMMAND_REJECT,
        }
    }
}

impl fmt::Display for Fault {
    fn fmt<W: fmt::Write>(&self, f: &mut fmt::Formatter<W>) -> fmt::Result {
        write!(f, "status {:02X}, sense {:02X}", self.status, self.sense)
    }
}

impl Error for Fault {}

// A device's own commands.
pub trait Model {
    ghost core: { Core };

    ghost laws: { CoreLaws core };

    ghost state: { Self → core.State };

    // Whether a command is open.
    fn is_open(&self) -> bool
        ensures { result ≡ is_open (core.pending (state self.now)) };

    // Starts a command.
    fn begin(&mut self, code: u8) -> Result<Begun, Fault>
        ensures answer { result ≡ (core.started code (state self.old)).0 }
        ensures became { state self.new ≡ (core.started code (state self.old)).1 };

    // Hands out the next bytes of an open reading command, as many as there are and the buffer holds.
    fn give(&mut self, buffer: &mut [u8]) -> usize
        ensures count { result ≡ min (length buffer.old) (length (due (core.pending (state self.old)))) }
        ensures bytes { buffer.new ≡ front (length buffer.old) (due (core.pending (state self.old))) ++ behind result buffer.old }
        ensures became { state self.new ≡ core.given (length buffer.old) (state self.old) };

    // Accepts bytes of an open writing command, in order, as many as there is room for.
    fn take(&mut self, bytes: &[u8]) -> usize
        ensures count { result ≡ min (length bytes.now) (room (core.pending (state self.old))) }
        ensures became { state self.new ≡ core.taken bytes.now (state self.old) };

    // Closes the open command, and answers its status.
    fn end(&mut self) -> Result<u8, Fault>
        ensures answer { result ≡ (core.ended (state self.old)).0 }
        ensures became { state self.new ≡ (core.ended (state self.old)).1 };
}

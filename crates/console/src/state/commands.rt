ghost use Rattle.std.specs.Prelude.{◌≡◌};
ghost use Rattle.console.specs.ConsoleMachine.{begin_read, begin_write, console_core};
ghost use Rattle.console.specs.ConsoleLaws.{console_laws};
ghost use Rattle.console.specs.Meaning.{model_meaning};
ghost use Rattle.console.specs.Codes.{decoded};

use super::{ConsoleModel, Phase};
use device::interface::Begun;
use unit::copying::{append_to, hand_out};
use unit::model::{Fault, Model as DeviceModel, NOTHING_LEFT};
use unit::status::ENDED;

// A command of the console's own.
#[derive(Clone, Copy, Debug, PartialEq, Eq)]
enum Code {
    Write,
    Read,
}

impl TryFrom<u8> for Code {
    type Error = Fault;

    ghost try_from_gives = { λ code r. r ≡ decoded code };

    fn try_from(code: u8) -> Result<Code, Fault> {
        match code {
            0x09 => Ok(Code::Write),
            0x0A => Ok(Code::Read),
            _ => Err(Fault::unknown_command()),
        }
    }
}

impl ConsoleModel {
    // Opens a write on the paper that is left.
    fn begin_write(&mut self) -> Result<Begun, Fault>
        ensures answer { result ≡ (begin_write (model_meaning self.old)).0 }
        ensures became { model_meaning self.new ≡ (begin_write (model_meaning self.old)).1 }
    {
        if self.paper.is_full() {
            return Err(NOTHING_LEFT); // No paper is left.
        }
        self.phase = Phase::Printing;
        let most = self.paper.remaining_capacity() as u32;
        Ok(Begun::Open { least: 0, most })
    }

    // Opens a read of the line that waits.
    fn begin_read(&mut self) -> Result<Begun, Fault>
        ensures answer { result ≡ (begin_read (model_meaning self.old)).0 }
        ensures became { model_meaning self.new ≡ (begin_read (model_meaning self.old)).1 }
    {
        if self.line.is_empty() {
            return Err(NOTHING_LEFT); // No line waits.
        }
        self.phase = Phase::ReadingLine(0);
        let most = self.line.len() as u32;
        Ok(Begun::Open { least: most, most })
    }
}

impl DeviceModel for ConsoleModel {
    ghost core = { console_core };

    ghost laws = { console_laws };

    ghost state = { model_meaning };

    // Each model has this line over a phase of its own: there is no code to share.
    fn is_open(&self) -> bool {
        self.phase != Phase::Idle
    }

    fn begin(&mut self, code: u8) -> Result<Begun, Fault> {
        match Code::try_from(code)? {
            Code::Write => self.begin_write(),
            Code::Read => self.begin_read(),
        }
    }

    fn give(&mut self, buffer: &mut [u8]) -> usize {
        match self.phase {
            Phase::ReadingLine(gone) => {
                let n = hand_out(buffer, &self.line, gone);
                self.phase = Phase::ReadingLine(gone + n);
                n
            }
            Phase::Idle | Phase::Printing => 0,
        }
    }

    fn take(&mut self, bytes: &[u8]) -> usize {
        match self.phase {
            Phase::Printing => append_to(&mut self.paper, bytes),
            Phase::Idle | Phase::ReadingLine(_) => 0,
        }
    }

    fn end(&mut self) -> Result<u8, Fault> {
        if matches!(self.phase, Phase::ReadingLine(_)) {
            self.line.truncate(0);
        }
        self.phase = Phase::Idle;
        Ok(ENDED)
    }
}

ghost use Rattle.std.specs.Prelude.{◌≡◌, min, ◌++◌, length, take as front, drop as behind};
ghost use Rattle.device.specs.Machine.{due};
ghost use Rattle.unit.specs.UnitMachine.{unit_machine, sense_pending, sense_given};
ghost use Rattle.unit.specs.Meaning.{unit_meaning};
ghost use Rattle.unit.specs.UnitLaws.{unit_laws};

use super::{Sensing, Unit};
use crate::model::{Fault, Model};
use crate::sense::CLEAR;
use crate::status::{BUSY, ENDED, NO_STATUS};
use device::interface::{Begun, Device};

// The codes that each device knows. They are constants and no enum, since any other code is the model's.
const NO_OPERATION: u8 = 0x03;

const SENSE: u8 = 0x04;

// Hands out the sense byte, if the sense command is open, has it still, and the buffer holds one.
fn give_sense(sensing: &mut Sensing, byte: u8, buffer: &mut [u8]) -> usize
    ensures count { result ≡ min (length buffer.old) (length (due (sense_pending sensing.old byte))) }
    ensures bytes { buffer.new ≡ front (length buffer.old) (due (sense_pending sensing.old byte)) ++ behind result buffer.old }
    ensures became { sensing.new ≡ sense_given (length buffer.old) sensing.old }
{
    if *sensing != Sensing::Unread || buffer.is_empty() {
        return 0;
    }
    buffer[0] = byte;
    *sensing = Sensing::Read;
    1
}

impl<M> Unit<M> {
    // Keeps the sense byte of a fault, and answers its status. Its calls stand in a `match`: in a closure of
    // `unwrap_or_else` they were tried, and the goal on what it leaves in `self` did not close.
    fn report(&mut self, fault: Fault) -> u8
        ensures status { result ≡ fault.status }
        ensures became { self.new ≡ record self.old { sense = fault.sense } }
    {
        self.sense = fault.sense;
        fault.status
    }
}

impl<M: Model> Device for Unit<M> {
    ghost machine = { unit_machine M.Model.core };

    ghost laws = { unit_laws M.Model.core M.Model.laws };

    ghost state = { unit_meaning M.Model.core M.Model.state };

    fn begin(&mut self, code: u8) -> Begun {
        if self.model.is_open() || self.sensing != Sensing::Closed {
            return Begun::Immediate(BUSY);
        }
        match code {
            NO_OPERATION => Begun::Immediate(ENDED),
            SENSE => {
                self.sensing = Sensing::Unread;
                Begun::Open { least: 1, most: 1 }
            }
            _ => match self.model.begin(code) {
                Ok(begun) => begun,
                Err(fault) => Begun::Immediate(self.report(fault)),
            },
        }
    }

    fn give(&mut self, buffer: &mut [u8]) -> usize {
        if self.model.is_open() {
            return self.model.give(buffer);
        }
        give_sense(&mut self.sensing, self.sense, buffer)
    }

    fn take(&mut self, bytes: &[u8]) -> usize {
        if self.model.is_open() {
            return self.model.take(bytes);
        }
        0
    }

    fn end(&mut self) -> u8 {
        if self.model.is_open() {
            self.sensing = Sensing::Closed;
            return match self.model.end() {
                Ok(status) => status,
                Err(fault) => self.report(fault),
            };
        }
        if self.sensing == Sensing::Closed {
            return NO_STATUS;
        }
        self.sensing = Sensing::Closed;
        self.sense = CLEAR;
        ENDED
    }
}

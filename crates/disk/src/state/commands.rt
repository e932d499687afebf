ghost use Rattle.std.specs.Prelude.{◌≡◌, ◌^◌, ◌<◌, ◌≤◌, Ok};
ghost use Rattle.disk.specs.DiskMachine.{begin_read, begin_write, disk_core, location_by};
ghost use Rattle.disk.specs.DiskState.{location_end};
ghost use Rattle.disk.specs.DiskLaws.{disk_laws};
ghost use Rattle.disk.specs.Meaning.{Located, model_meaning};

use super::{DiskModel, PARAMETERS, Phase};
use crate::blocks::Location;
use crate::code::Code;
use crate::extent::Extent;
use arrayvec::ArrayVec;
use device::interface::Begun;
use format::laying::put_at;
use std::mem;
use unit::copying::{append_to, hand_out};
use unit::model::{Fault, Model as DeviceModel};
use unit::sense::COMMAND_REJECT;
use unit::status::{ENDED, FAILED, REFUSED};

// The answer to a write or a read without a location.
const NOT_LOCATED: Fault = Fault {
    status: REFUSED,
    sense: COMMAND_REJECT,
};

// The end of a locate that names no blocks of the disk.
const NO_SUCH_BLOCKS: Fault = Fault {
    status: FAILED,
    sense: COMMAND_REJECT,
};

// A command that moves exactly so many bytes.
fn open_for(size: usize) -> Begun
    requires { size < 2 ^ 32 }
    ensures { result ≡ Begun.Open size size }
{
    let most = size as u32;
    Begun::Open { least: most, most }
}

// The blocks that the bytes of a locate name, if they are enough bytes and the blocks exist.
fn named_location(parameters: &[u8]) -> Option<Location>
    ensures named { result ≡ location_by parameters.now }
    ensures exists { location_end result ≤ 64 }
{
    let bytes = <[u8; PARAMETERS]>::try_from(parameters).ok()?;
    let location = Location::from(bytes);
    location.exists().then_some(location)
}

impl DiskModel {
    // The addresses of the located blocks.
    fn located(&self) -> Result<Extent, Fault>
        ensures { Located self.now.location result }
    {
        let location = self.location.ok_or(NOT_LOCATED)?;
        Ok(location.extent())
    }
}

impl DeviceModel for DiskModel {
    ghost core = { disk_core };

    ghost laws = { disk_laws };

    ghost state = { model_meaning };

    // Each model has this line over a phase of its own: there is no code to share.
    fn is_open(&self) -> bool {
        self.phase != Phase::Idle
    }

    fn begin(&mut self, code: u8) -> Result<Begun, Fault> {
        let (phase, size) = match Code::try_from(code)? {
            Code::Locate => (Phase::Locating(ArrayVec::new()), PARAMETERS),
            Code::Write => {
                let extent = self.located()?;
                (Phase::Writing(extent), extent.size())
            }
            Code::Read => {
                let extent = self.located()?;
                (Phase::Reading(extent), extent.size())
            }
        };
        self.phase = phase;
        Ok(open_for(size))
    }

    fn give(&mut self, buffer: &mut [u8]) -> usize {
        match &mut self.phase {
            Phase::Reading(extent) => {
                let n = hand_out(buffer, &self.bytes[..extent.limit], extent.next);
                extent.next += n;
                n
            }
            Phase::Idle | Phase::Locating(_) | Phase::Writing(_) => 0,
        }
    }

    fn take(&mut self, bytes: &[u8]) -> usize {
        match &mut self.phase {
            Phase::Locating(parameters) => append_to(parameters, bytes),
            Phase::Writing(extent) => {
                let n = bytes.len().min(extent.size());
                put_at(&mut self.bytes, extent.next, &bytes[..n]);
                extent.next += n;
                n
            }
            Phase::Idle | Phase::Reading(_) => 0,
        }
    }

    fn end(&mut self) -> Result<u8, Fault> {
        match mem::replace(&mut self.phase, Phase::Idle) {
            Phase::Idle => {}
            Phase::Locating(parameters) => {
                self.location = named_location(&parameters);
                if self.location.is_none() {
                    return Err(NO_SUCH_BLOCKS);
                }
            }
            Phase::Writing(_) | Phase::Reading(_) => {
                self.location = None;
            }
        }
        Ok(ENDED)
    }
}

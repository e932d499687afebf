ghost use Rattle.std.specs.Prelude.{◌≡◌, ◌≤◌, true, false, length, MatchOption};
ghost use Rattle.tape.specs.TapeMachine.{tape_core, begin_write, has_room, kept};
ghost use Rattle.tape.specs.TapeLaws.{tape_laws};
ghost use Rattle.tape.specs.Meaning.{model_meaning, begin_in, block_in, block_left};

use super::{Phase, TapeModel};
use crate::code::{Code, Direction};
use crate::reel::{BLOCKS, CAPACITY};
use crate::reversing::hand_out_in;
use device::interface::Begun;
use std::mem;
use unit::model::{Fault, Model as DeviceModel, NOTHING_LEFT};
use unit::status::ENDED;

impl TapeModel {
    // Whether a block is left and a byte is left behind the blocks before the position.
    fn has_room(&self) -> bool
        ensures { result ≡ has_room (kept (model_meaning self.now)) }
    {
        self.position < BLOCKS && self.reel.start_of(self.position) < CAPACITY
    }

    fn begin_write(&mut self) -> Result<Begun, Fault>
        ensures answer { result ≡ (begin_write (model_meaning self.old)).0 }
        ensures became { model_meaning self.new ≡ (begin_write (model_meaning self.old)).1 }
    {
        if !self.has_room() {
            return Err(NOTHING_LEFT);
        }
        self.reel.truncate(self.position);
        self.phase = Phase::Writing;
        let most = self.reel.room() as u32;
        Ok(Begun::Open { least: 1, most })
    }

    // The next block in this direction, if one is left there.
    fn next_block(&self, direction: Direction) -> Option<&[u8]>
        ensures { MatchOption result (block_left direction self.now ≡ false) (λ found. (block_left direction self.now ≡ true) × (found.now ≡ block_in direction self.now) × (length found.now ≤ 8192)) }
    {
        match direction {
            Direction::Forward => self.reel.block(self.position),
            Direction::Backward => self.reel.block(self.position.checked_sub(1)?),
        }
    }

    fn begin_read(&mut self, direction: Direction) -> Result<Begun, Fault>
        ensures answer { result ≡ (begin_in direction (model_meaning self.old)).0 }
        ensures became { model_meaning self.new ≡ (begin_in direction (model_meaning self.old)).1 }
    {
        let block = self.next_block(direction).ok_or(NOTHING_LEFT)?;
        let most = block.len() as u32;
        self.phase = Phase::Reading(direction, 0);
        Ok(Begun::Open { least: most, most })
    }
}

impl DeviceModel for TapeModel {
    ghost core = { tape_core };

    ghost laws = { tape_laws };

    ghost state = { model_meaning };

    // Each model has this line over a phase of its own: there is no code to share.
    fn is_open(&self) -> bool {
        self.phase != Phase::Idle
    }

    fn begin(&mut self, code: u8) -> Result<Begun, Fault> {
        match Code::try_from(code)? {
            Code::Write => self.begin_write(),
            Code::Read(direction) => self.begin_read(direction),
            Code::Rewind => {
                self.position = 0;
                self.phase = Phase::Idle;
                Ok(Begun::Immediate(ENDED))
            }
        }
    }

    fn give(&mut self, buffer: &mut [u8]) -> usize {
        match self.phase {
            Phase::Reading(direction, gone) => {
                // A read opens only where a block is left.
                let block = self.next_block(direction).unwrap_or(&[]);
                let n = hand_out_in(direction, buffer, block, gone);
                self.phase = Phase::Reading(direction, gone + n);
                n
            }
            Phase::Idle | Phase::Writing => 0,
        }
    }

    fn take(&mut self, bytes: &[u8]) -> usize {
        match self.phase {
            Phase::Writing => self.reel.append(bytes),
            Phase::Idle | Phase::Reading(..) => 0,
        }
    }

    fn end(&mut self) -> Result<u8, Fault> {
        match mem::replace(&mut self.phase, Phase::Idle) {
            Phase::Idle => {}
            Phase::Writing => {
                if self.reel.written() > 0 {
                    self.reel.close();
                    self.position += 1;
                }
            }
            Phase::Reading(Direction::Forward, _) => self.position += 1,
            Phase::Reading(Direction::Backward, _) => self.position -= 1,
        }
        Ok(ENDED)
    }
}

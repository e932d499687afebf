ghost use Rattle.std.specs.Prelude.{◌≡◌, ◌<◌, ◌≤◌, [], length, MatchOption, slice_index_or};
ghost use Rattle.tape.specs.Cutting.{Holdable, cut};
ghost use Rattle.tape.specs.TapeMachine.{at_first};
ghost use Rattle.tape.specs.Meaning.{meaning, model_meaning};

use super::{Phase, Tape, TapeModel};
use crate::reel::Reel;
use unit::state::Unit;

// A rewound tape with the blocks of these lengths that the bytes are cut into, or none if they do not fit. The
// blocks come as a reel keeps them, all bytes in a row and the lengths to cut them by, and are copied at once;
// a slice of slices would have to be gathered block by block.
pub fn new_tape(bytes: &[u8], lengths: &[usize]) -> Option<Tape>
    ensures { MatchOption result (Holdable bytes.now lengths.now → ⊥) (λ made. Holdable bytes.now lengths.now × (meaning made ≡ at_first (cut lengths.now bytes.now))) }
{
    let reel = Reel::new(bytes, lengths)?;
    Some(Unit::new(TapeModel {
        reel,
        position: 0,
        phase: Phase::Idle,
    }))
}

impl TapeModel {
    // How many blocks stand on the tape.
    pub fn block_count(&self) -> usize
        ensures counts { result ≡ length (model_meaning self.now).blocks }
        ensures few { result ≤ 64 }
        ensures passed { (model_meaning self.now).position ≤ result }
    {
        self.reel.len()
    }

    // How many blocks stand before the position.
    pub fn position(&self) -> usize
        ensures { result ≡ (model_meaning self.now).position }
    {
        self.position
    }

    // The block at this index, the first of them at 0.
    pub fn block(&self, index: usize) -> Option<&[u8]>
        ensures { MatchOption result (length (model_meaning self.now).blocks ≤ index) (λ found. (index < length (model_meaning self.now).blocks) × (found.now ≡ slice_index_or (model_meaning self.now).blocks index []) × (0 < length found.now)) }
    {
        self.reel.block(index)
    }
}

ghost use Rattle.std.specs.Prelude.{◌+◌, ◌≤◌, length};
ghost use Rattle.tape.specs.Standing.{bytes_read, blocks_written, blocks_read, blocks_read_backward};

use crate::code::Direction;
use crate::reel::Reel;
use unit::state::Unit;

pub mod access;
pub mod commands;

// What the open command does; the number is how many bytes it has handed out.
#[derive(Clone, Copy, Debug, PartialEq, Eq)]
enum Phase {
    Idle,
    Writing,
    Reading(Direction, usize),
}

// What is a tape's own.
#[derive(Debug, Drop)]
pub struct TapeModel {
    reel: Reel,
    position: usize,
    phase: Phase,
    ghost read_fits: { bytes_read phase ≤ 8192 },
    ghost blocks_fit: { length reel.blocks + blocks_written phase ≤ 64 },
    ghost on_tape: { position + blocks_read phase ≤ length reel.blocks },
    ghost past_first: { blocks_read_backward phase ≤ position },
}

// The whole device.
pub type Tape = Unit<TapeModel>;

ghost use Rattle.std.specs.Prelude.{◌≤◌, length};
ghost use Rattle.short_list.specs.Lists.{items};
ghost use Rattle.console.specs.Handing.{handed};

use arrayvec::ArrayVec;
use short_list::list::ShortList;
use unit::state::Unit;

pub mod access;
pub mod commands;

// How many bytes the paper holds.
const PAPER: usize = 2048;

// How many bytes the waiting line may have.
const LINE: usize = 256;

// What the open command does; a number is how many bytes it has handed out.
#[derive(Clone, Copy, Debug, PartialEq, Eq)]
enum Phase {
    Idle,
    Printing,
    ReadingLine(usize),
}

// What is a console's own: what has been printed, the line that waits, and the open command. The line is a short
// list, which is emptied without a write to its bytes.
#[derive(Debug, Drop)]
pub struct ConsoleModel {
    paper: ArrayVec<u8, PAPER>,
    line: ShortList<u8, LINE>,
    phase: Phase,
    ghost within: { handed phase ≤ length (items line) },
}

// The whole device.
pub type Console = Unit<ConsoleModel>;

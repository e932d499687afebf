ghost use Rattle.std.specs.Prelude.{◌≡◌, ◌<◌, ◌≤◌, length, MatchOption};
ghost use Rattle.console.specs.ConsoleMachine.{at_first};
ghost use Rattle.console.specs.Meaning.{meaning, model_meaning};

use super::{Console, ConsoleModel, Phase};
use arrayvec::ArrayVec;
use short_list::list::ShortList;
use unit::state::Unit;

// A console with empty paper and this line waiting, or none if the line is too long.
pub fn new_console(line: &[u8]) -> Option<Console>
    ensures { MatchOption result (256 < length line.now) (λ made. (length line.now ≤ 256) × (meaning made ≡ at_first line.now)) }
{
    let line = ShortList::try_from(line).ok()?;
    Some(Unit::new(ConsoleModel {
        paper: ArrayVec::new(),
        line,
        phase: Phase::Idle,
    }))
}

impl ConsoleModel {
    // What has been printed.
    pub fn paper(&self) -> &[u8]
        ensures { result.now ≡ (model_meaning self.now).paper }
    {
        &self.paper
    }

    // The line that waits.
    pub fn line(&self) -> &[u8]
        ensures { result.now ≡ (model_meaning self.now).line }
    {
        &self.line
    }
}

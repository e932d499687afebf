ghost use Rattle.std.specs.Prelude.{◌≡◌, Ok};
ghost use Rattle.rules.specs.Rules.{unless};

use super::pieces::Pieces;
use format::ccw::Ccw;
use format::placed::Placed;
use format::refusal::Refusal;

// Where a program stands: a CCW address, whether none was run before it, and the code of the command
// in force, if one is. No enum of these two: rule 3 goes by `first` alone and the later ones by `command` alone, so each of the
// four pairs has an answer. A run meets three of them, but callers may ask for the fourth.
#[derive(Clone, Copy, Debug, Default, PartialEq, Eq)]
pub struct Place {
    pub address: u32,
    pub first: bool,
    pub command: Option<u8>,
}

// A rule that a place breaks.
#[derive(Clone, Copy, Debug, PartialEq, Eq)]
pub struct Broken {
    pub refusal: Refusal,
    // the CCW or TIC that was being taken up; a status word counts from it
    pub ccw: u32,
}

impl From<Broken> for Refusal {
    ghost from_gives = { λ broken refusal. refusal ≡ broken.refusal };

    fn from(broken: Broken) -> Refusal {
        broken.refusal
    }
}

// A CCW taken up.
#[derive(Clone, Copy, Debug, Default, PartialEq, Eq)]
pub struct Taken {
    pub ccw: Placed<Ccw>,
    // the command in force before it
    pub before: Option<u8>,
    // the command in force with it
    pub code: u8,
    pub pieces: Pieces,
}

// Refuses with a rule where it is broken.
pub(crate) fn refuse_if(broken: bool, refusal: Refusal, ccw: u32) -> Result<(), Broken>
    ensures { result ≡ unless broken refusal ccw (Ok tt) }
{
    if broken {
        return Err(Broken { refusal, ccw });
    }
    Ok(())
}

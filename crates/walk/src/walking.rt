ghost use Rattle.std.specs.Prelude.{◌≡◌, ℕ, ◌+◌, ◌^◌, ◌≤◌, true, [], IfOk, None as no_command};
ghost use Rattle.format.specs.Bytes.{reader};
ghost use Rattle.rules.specs.TakingUp.{answered, reach, cell_of};
ghost use Rattle.walk.specs.SoundTrails.{SoundTrail, OwnBytesAlone};
ghost use Rattle.walk.specs.Walks.{trail_of, behind, walk as trail};

use super::cells::{Visit, Walked};
use super::visited::Visited;
use rules::place::{Broken, Place, Taken};
use rules::storage::Storage;

// The place behind a CCW that chains data or a command.
fn place_behind(taken: &Taken) -> Option<Place>
    requires { taken.now.ccw.address + 8 ≤ 2 ^ 31 }
    ensures { result ≡ behind (cell_of taken.now) }
{
    let flags = taken.ccw.value.flags;
    (flags.cd || flags.cc).then_some(Place {
        address: taken.ccw.address + 8,
        first: false,
        command: flags.cd.then_some(taken.code),
    })
}

// Walks over the program that starts at an address, on a guest's storage in format 0.
pub fn walk_program<S: Storage>(storage: &S, start: u32) -> Result<Walked, Broken>
    ensures is { answered trail_of result ≡ trail 65 (reach (S.bytes storage.now)) (reader (S.bytes storage.now)) [] 0 start true no_command }
    ensures sound { IfOk result (λ w. SoundTrail (reach (S.bytes storage.now)) (reader (S.bytes storage.now)) start (trail_of w)) }
    ensures alone { IfOk result (λ w. OwnBytesAlone (S.bytes storage.now) start (trail_of w)) }
{
    let mut visited = Visited::none();
    let mut place = Place {
        address: start,
        first: true,
        command: None,
    };
    // A rule of the project: the walk is a loop, whose labelled break yields the index at which it closes.
    let closes = 'walk: loop {
        match visited.visit(storage, place)? {
            Visit::Met(index) => break 'walk Some(index),
            Visit::Fresh(taken) => {
                let next = place_behind(&taken);
                visited.push(taken);
                match next {
                    Some(behind) => place = behind,
                    None => break 'walk None,
                }
            }
        }
    };
    Ok(Walked {
        cells: visited.cells,
        closes,
    })
}

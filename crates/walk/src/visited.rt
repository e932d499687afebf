ghost use Rattle.std.specs.Prelude.{◌≡◌, ℕ, ◌+◌, ◌<◌, ◌≤◌, ◌&&◌, [], ◌∷◌, ◌++◌, length, IfOk, ◌==◌};
ghost use Rattle.format.specs.Bytes.{reader};
ghost use Rattle.rules.specs.Areas.{listed};
ghost use Rattle.rules.specs.TakingUp.{answered, reach, cell_of};
ghost use Rattle.walk.specs.SoundTrails.{pieces_in};
ghost use Rattle.walk.specs.Walks.{cells_of, same_command, met, seen_of, look_at, one_place, Fits, Inside};

use super::cells::{Cells, MOST_PLACES, Visit};
use format::ccw::Format;
use format::refusal::Refusal;
use rules::finding::find_ccw;
use rules::place::{Broken, Place, Taken};
use rules::storage::Storage;
use rules::taking_up::read_up;

// The most indirect words of a program's translation.
const MOST_WORDS: usize = 768;

// The CCWs that a walk met so far, and the words of their translation: one for each piece of their areas.
#[derive(Debug, Drop)]
pub(crate) struct Visited {
    pub(crate) cells: Cells,
    words: usize,
    ghost few: { length (cells_of cells) ≤ 64 },
    ghost counted: { words ≡ pieces_in (cells_of cells) },
    ghost short: { words ≤ 768 },
}

fn is_same_place(address: u32, before: Option<u8>, other: u32, command: Option<u8>) -> bool
    ensures { result ≡ (address == other && same_command before command) }
{
    address == other && before == command
}

impl Visited {
    pub(crate) fn none() -> Visited
        ensures cells { cells_of result.cells ≡ [] }
        ensures words { result.words ≡ 0 }
    {
        Visited {
            cells: Cells::new(),
            words: 0,
        }
    }

    // One CCW more.
    pub(crate) fn push(&mut self, taken: Taken)
        requires room { length (cells_of self.old.cells) < 64 }
        requires short { self.old.words + length (listed taken.pieces) ≤ 768 }
        ensures cells { cells_of self.new.cells ≡ cells_of self.old.cells ++ cell_of taken ∷ [] }
        ensures words { self.new.words ≡ self.old.words + length (listed taken.pieces) }
    {
        self.words += taken.pieces.len();
        self.cells.push(taken);
    }

    // The index of the first place met before.
    fn met_before(&self, address: u32, command: Option<u8>) -> Option<usize>
        ensures { result ≡ met address command (cells_of self.now.cells) 0 }
    {
        // A rule of the project: an inner search over the places met, whose labelled break yields the index.
        'met: {
            for (index, cell) in self.cells.iter().enumerate() {
                if is_same_place(cell.ccw.address, cell.before, address, command) {
                    break 'met Some(index);
                }
            }
            None
        }
    }

    // What stands at a CCW address: a place met before, or a CCW that fits the limits.
    fn look_at<S: Storage>(
        &self,
        storage: &S,
        address: u32,
        command: Option<u8>,
    ) -> Result<Visit, Broken>
        ensures is { answered seen_of result ≡ look_at (reach (S.bytes storage.now)) (reader (S.bytes storage.now)) (cells_of self.now.cells) self.now.words address command }
        ensures fits { IfOk result (Fits (length (cells_of self.now.cells)) self.now.words) }
    {
        if let Some(index) = self.met_before(address, command) {
            return Ok(Visit::Met(index));
        }
        if self.cells.len() == MOST_PLACES {
            return Err(Broken {
                refusal: Refusal::TooManyPlaces(address),
                ccw: address,
            });
        }
        let taken = read_up(storage, Format::Zero, address, command)?;
        if MOST_WORDS < self.words + taken.pieces.len() {
            return Err(Broken {
                refusal: Refusal::TooManyWords(address),
                ccw: address,
            });
        }
        Ok(Visit::Fresh(taken))
    }

    // What stands at a place.
    pub(crate) fn visit<S: Storage>(&self, storage: &S, place: Place) -> Result<Visit, Broken>
        ensures is { answered seen_of result ≡ one_place (reach (S.bytes storage.now)) (reader (S.bytes storage.now)) (cells_of self.now.cells) self.now.words place.address place.first place.command }
        ensures fits { IfOk result (Fits (length (cells_of self.now.cells)) self.now.words) }
        ensures inside { IfOk result Inside }
    {
        let address = find_ccw(storage, Format::Zero, place)?;
        self.look_at(storage, address, place.command)
    }
}

ghost use Rattle.std.specs.Prelude.{◌≡◌, ℕ, ◌+◌, ◌*◌, ◌≤◌, [], ◌∷◌, ◌++◌, length, is_some};
ghost use Rattle.rules.specs.Areas.{listed};
ghost use Rattle.rules.specs.TakingUp.{cell_of};
ghost use Rattle.walk.specs.Walks.{cells_of};
ghost use Rattle.walk.specs.OwnBytes.{extents_in, ccw_extent, list_extent, extents_of, overlaps as shares, touched, Tells, lowest, any_touched, overwrites, first_overwriting};

use super::super::cells::Cells;
use super::{Extent, OwnBytes};
use format::class::Class;
use rules::pieces::{Piece, Pieces};
use rules::place::Taken;
use short_list::list::ShortList;

fn ccw_bytes(taken: &Taken) -> Extent
    ensures { result ≡ ccw_extent (cell_of taken.now) }
{
    let flags = taken.ccw.value.flags;
    Extent {
        start: taken.ccw.address,
        size: if flags.cd || flags.cc { 16 } else { 8 },
    }
}

fn list_bytes(taken: &Taken) -> Extent
    ensures { result ≡ list_extent (cell_of taken.now) }
{
    Extent {
        start: taken.ccw.value.address,
        size: if taken.ccw.value.flags.ida {
            4 * taken.pieces.len() as u32
        } else {
            0
        },
    }
}

fn overlaps(extent: Extent, low: usize, size: usize) -> bool
    ensures { result ≡ shares extent low size }
{
    let start = extent.start as usize;
    let common = low.max(start);
    (common as u128) < low as u128 + size as u128 && common < start + extent.size as usize
}

fn lowest_byte(backward: bool, piece: Piece) -> usize
    ensures { result ≡ lowest backward piece }
{
    if backward {
        piece.first.saturating_sub(piece.size.saturating_sub(1))
    } else {
        piece.first
    }
}

impl OwnBytes {
    // The own bytes of no program.
    pub fn none() -> OwnBytes
        ensures { extents_in result ≡ [] }
    {
        OwnBytes {
            extents: ShortList::new(),
        }
    }

    // An own byte among the `size` bytes from `low` on.
    pub fn touch(&self, low: usize, size: usize) -> Option<usize>
        ensures is { result ≡ touched (extents_in self.now) low size }
        ensures tells { Tells (extents_in self.now) low size result }
    {
        self.extents
            .iter()
            .find(|extent| overlaps(**extent, low, size))
            .map(|extent| low.max(extent.start as usize))
    }

    fn push_cell(&mut self, taken: &Taken)
        requires { length (extents_in self.old) + 2 ≤ 128 }
        ensures list { extents_in self.new ≡ extents_in self.old ++ (ccw_extent (cell_of taken.now) ∷ list_extent (cell_of taken.now) ∷ []) }
        ensures len { length (extents_in self.new) ≡ length (extents_in self.old) + 2 }
    {
        self.extents.push(ccw_bytes(taken));
        self.extents.push(list_bytes(taken));
    }

    fn any_touches(&self, backward: bool, pieces: &Pieces) -> bool
        ensures { result ≡ any_touched (extents_in self.now) backward (listed pieces.now) }
    {
        pieces.iter().any(|piece| {
            self.touch(lowest_byte(backward, *piece), piece.size)
                .is_some()
        })
    }

    fn overwritten_by(&self, taken: &Taken) -> bool
        ensures { result ≡ overwrites (extents_in self.now) (cell_of taken.now) }
    {
        let class = Class::from(taken.code);
        class.reads()
            && !taken.ccw.value.flags.skip
            && self.any_touches(class.backward(), &taken.pieces)
    }
}

// The own bytes of a program.
pub fn own_bytes_of(cells: &Cells) -> OwnBytes
    ensures { extents_in result ≡ extents_of (cells_of cells.now) }
{
    let mut own = OwnBytes::none();
    // Tried without `iter()`: that iterator's contract does not say that there are at most 64.
    for taken in cells.iter() {
        own.push_cell(taken);
    }
    own
}

// The first CCW, in the order of the walk, that reads over the program itself.
pub fn first_overwriting_ccw(own: &OwnBytes, cells: &Cells) -> Option<u32>
    ensures { result ≡ first_overwriting (extents_in own.now) (cells_of cells.now) }
{
    cells
        .iter()
        .find(|taken| own.overwritten_by(taken))
        .map(|taken| taken.ccw.address)
}

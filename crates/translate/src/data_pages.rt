ghost use Rattle.std.specs.Prelude.{◌≡◌, ℕ, ◌<◌, Bool, true, false, ◌||◌, length, replicate, slice_index_or, slice_set};
ghost use Rattle.rules.specs.Areas.{listed};
ghost use Rattle.walk.specs.Walks.{cells_of};
ghost use Rattle.translate.specs.Translations.{piece_in, data_pages};

use map::address::PAGE_SIZE;
use map::interface::MOST_PAGES;
use rules::pieces::Pieces;
use walk::cells::Cells;

// For each page of a guest whether a program has data in it. A rule of the project: a set in fixed memory, with no heap.
#[derive(Clone, Copy, Debug, PartialEq, Eq)]
pub struct DataPages {
    flags: [bool; MOST_PAGES],
}

impl DataPages {
    pub(crate) fn none() -> DataPages
        ensures { result.flags ≡ replicate 128 false }
    {
        DataPages {
            flags: [false; MOST_PAGES],
        }
    }

    // Whether the program has data in a page.
    pub fn has(&self, page: usize) -> bool
        ensures { result ≡ slice_index_or self.now.flags page false }
    {
        self.flags.get(page).copied().unwrap_or(false)
    }

    // A page past the last is left out. By an index: the contract of `get_mut` does not say what a write through it leaves.
    fn mark_page(&mut self, page: usize)
        ensures { self.new.flags ≡ slice_set self.old.flags page true }
    {
        if page < MOST_PAGES {
            self.flags[page] = true;
        }
    }

    fn mark(&mut self, pieces: &Pieces)
        ensures size { length self.new.flags ≡ 128 }
        ensures pages { (page : ℕ) → page < 128 → slice_index_or self.new.flags page false ≡ (slice_index_or self.old.flags page false || piece_in page (listed pieces.now)) }
    {
        for piece in pieces {
            self.mark_page(piece.first / PAGE_SIZE as usize);
        }
    }
}

// The pages that a program has data in.
pub(crate) fn data_pages_of(cells: &Cells) -> DataPages
    ensures { result.flags ≡ data_pages (cells_of cells.now) }
{
    let mut pages = DataPages::none();
    for taken in cells {
        pages.mark(&taken.pieces);
    }
    pages
}

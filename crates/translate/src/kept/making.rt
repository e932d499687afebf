ghost use Rattle.std.specs.Prelude.{◌≡◌, ◌^◌, false, [], replicate};
ghost use Rattle.walk.specs.OwnBytes.{extents_in};
ghost use Rattle.walk.specs.Walks.{cells_of};
ghost use Rattle.translate.specs.Fitting.{Below};
ghost use Rattle.translate.specs.Kept.{keeping_in};
ghost use Rattle.translate.specs.Translations.{ccw_addresses, data_pages};

use super::super::back_table::BackTable;
use super::super::back_table::entries::back_table_of;
use super::super::data_pages::{DataPages, data_pages_of};
use super::Kept;
use walk::cells::Cells;
use walk::own_bytes::OwnBytes;

impl Kept {
    // What is kept of no program.
    pub fn none() -> Kept
        ensures { keeping_in result ≡ record { back = []; own = []; pages = replicate 128 false } }
    {
        Kept {
            back: BackTable::new(),
            own: OwnBytes::none(),
            pages: DataPages::none(),
        }
    }

    // What is kept of a program. Two arguments and a `requires`, so no `From`.
    pub(crate) fn of(cells: &Cells, own: OwnBytes) -> Kept
        requires { Below (2 ^ 31) (ccw_addresses (cells_of cells.now)) }
        ensures { keeping_in result ≡ record { back = ccw_addresses (cells_of cells.now); own = extents_in own; pages = data_pages (cells_of cells.now) } }
    {
        Kept {
            back: back_table_of(cells),
            own,
            pages: data_pages_of(cells),
        }
    }
}

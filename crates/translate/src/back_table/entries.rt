ghost use Rattle.std.specs.Prelude.{◌≡◌, ℕ, ◌+◌, ◌^◌, ◌<◌, ◌≤◌, List, [], ◌∷◌, ◌++◌, length};
ghost use Rattle.walk.specs.Walks.{cells_of};
ghost use Rattle.translate.specs.Translations.{guest_ccw, ccw_addresses};
ghost use Rattle.translate.specs.Kept.{addresses_in, entry_at};
ghost use Rattle.translate.specs.Fitting.{Below};

use super::BackTable;
use map::address::GuestAddress;
use walk::cells::{Cells, MOST_PLACES};

impl BackTable {
    pub(crate) fn new() -> BackTable
        ensures list { addresses_in result ≡ [] }
        ensures len { result.len ≡ 0 }
    {
        BackTable {
            addresses: [0; MOST_PLACES],
            len: 0,
        }
    }

    // The guest address of a cell's CCW.
    pub fn ccw_of(&self, cell: usize) -> Option<GuestAddress>
        ensures { result ≡ entry_at (addresses_in self.now) cell }
    {
        self.addresses[..self.len]
            .get(cell)
            .map(|address| GuestAddress(*address))
    }

    // The guest's CCW address for the host's in a status word: 8 above the CCW of the cell that the host's follows, 0 if
    // it follows no cell. A number, not an `Option`: a status word has 0 where there is no address.
    pub fn guest_ccw_address(&self, host: u32) -> u32
        ensures { result ≡ guest_ccw (addresses_in self.now) host }
    {
        if host == 0 || host % 8 != 0 {
            return 0;
        }
        match self.ccw_of((host as usize - 8) / 8) {
            Some(ccw) => ccw.0 + 8,
            None => 0,
        }
    }

    fn push(&mut self, address: u32)
        requires { (self.old.len < 64) × (address < 2 ^ 31) }
        ensures list { addresses_in self.new ≡ addresses_in self.old ++ address ∷ [] }
        ensures len { self.new.len ≡ self.old.len + 1 }
    {
        self.addresses[self.len] = address;
        self.len += 1;
    }
}

// The guest addresses of a program's CCWs.
pub(crate) fn back_table_of(cells: &Cells) -> BackTable
    requires { Below (2 ^ 31) (ccw_addresses (cells_of cells.now)) }
    ensures { addresses_in result ≡ ccw_addresses (cells_of cells.now) }
{
    let mut back = BackTable::new();
    // By `iter()`: the vector's own iterator does not say that there are at most 64 (see `own_bytes_of`).
    for taken in cells.iter() {
        back.push(taken.ccw.address);
    }
    back
}

ghost use Rattle.std.specs.Prelude.{◌≡◌, ℕ, ◌*◌, ◌<◌, ◌≤◌, MatchResult, slice_index};
ghost use Rattle.rules.specs.TakingUp.{answered, cell_of, taken_up};
ghost use Rattle.map.specs.Places.{end_of};
ghost use Rattle.map.specs.Views.{byte_at, guest_bytes, ByPlace, AsOnACopy};

use super::address::{GuestAddress, PAGE_SIZE};
use super::interface::Map;
use super::placing::place;
use format::ccw::Format;
use format::refusal::Refusal;
use rules::place::{Broken, Place, Taken};
use rules::storage::{Plain, Storage};
use rules::taking_up::take_up;

// A guest's storage where it lies in the host's.
#[derive_where(Clone, Copy)]
pub struct GuestView<'a, M> {
    pub map: &'a M,
    pub host: &'a [u8],
}

impl<'a, M: Map> GuestView<'a, M> {
    // The byte at a guest address.
    pub fn read(&self, address: GuestAddress) -> Result<u8, Refusal>
        ensures { MatchResult result
            (λ b. (address.0 < end_of (M.frames self.now.map.now))
            × (b ≡ byte_at (M.frames self.now.map.now) self.now.host.now address.0))
            (λ e. (end_of (M.frames self.now.map.now) ≤ address.0) × (e ≡ Refusal.PastGuestEnd address.0)) }
    {
        let at = place(self.map, address)?;
        let host = Plain { storage: self.host };
        Ok(host.byte(at.0 as usize))
    }

    // Takes up a place of the guest's program where it lies.
    #[tactic(auto, using(crate::proofs::Seen::seen))]
    pub fn take_up(&self, format: Format, place: Place) -> Result<Taken, Broken>
        ensures bytes { ByPlace (M.frames self.now.map.now) self.now.host.now
            (guest_bytes (M.frames self.now.map.now) self.now.host.now) }
        ensures answer { AsOnACopy (M.frames self.now.map.now) self.now.host.now format place result }
    {
        take_up(self, format, place)
    }
}

impl<'a, M: Map> Storage for GuestView<'a, M> {
    ghost bytes = { λ v. guest_bytes (M.Map.frames v.map.now) v.host.now };

    #[tactic(auto, using(crate::proofs::Seen::seen))]
    fn len(&self) -> usize {
        self.map.page_count() * PAGE_SIZE as usize
    }

    #[tactic(auto, using(crate::proofs::Seen::seen))]
    fn byte(&self, address: usize) -> u8 {
        if address >= self.len() {
            return 0;
        }
        self.read(GuestAddress(address as u32)).unwrap_or(0)
    }
}

ghost use Rattle.std.specs.Prelude.{◌≡◌, ℕ, ◌+◌, ◌*◌, ◌%◌, ◌<◌, ◌≤◌, length, IfOk, MatchOption, MatchResult, ◌≢◌, slice_index};
ghost use Rattle.map.specs.Places.{end_of, LiesAt, NothingAt, NeverShared, OffsetKept, HomeOfPlace, HomeOfOther};

use super::address::{GuestAddress, HostAddress, PAGE_SIZE};
use super::interface::Map;
use format::refusal::Refusal;

// The address with the same offset in another page or frame.
fn in_page(page: u32, address: u32) -> u32
    requires { page < 256 }
    ensures { result ≡ page * 4096 + address % 4096 }
{
    page * PAGE_SIZE + address % PAGE_SIZE
}

// The page that has a frame, if one does.
fn page_of<M: Map>(map: &M, frame: u32) -> Option<usize>
    ensures { MatchOption result
        ((k : ℕ) → k < length (M.frames map.now) → slice_index (M.frames map.now) k ≢ frame)
        (λ page. (page < length (M.frames map.now)) × (slice_index (M.frames map.now) page ≡ frame)) }
{
    (0..map.page_count()).position(|page| u32::from(map.frame_of(page)) == frame)
}

// The host address at which a guest address lies.
pub fn place<M: Map>(map: &M, address: GuestAddress) -> Result<HostAddress, Refusal>
    ensures answer { MatchResult result
        (λ host. LiesAt (M.frames map.now) address.0 host.0)
        (λ e. (end_of (M.frames map.now) ≤ address.0) × (e ≡ Refusal.PastGuestEnd address.0)) }
    ensures alone { IfOk result (λ host. NeverShared (M.frames map.now) address.0 host.0) }
    ensures offset { IfOk result (λ host. OffsetKept address.0 host.0) }
{
    let page = address.page();
    if page >= map.page_count() {
        return Err(Refusal::PastGuestEnd(address.0));
    }
    Ok(HostAddress(in_page(u32::from(map.frame_of(page)), address.0)))
}

// The guest address that lies at a host address, if one does.
pub fn home<M: Map>(map: &M, address: HostAddress) -> Option<GuestAddress>
    ensures answer { MatchOption result
        (NothingAt (M.frames map.now) address.0)
        (λ guest. LiesAt (M.frames map.now) guest.0 address.0) }
    ensures place { HomeOfPlace (M.frames map.now) address.0 result }
    ensures other { HomeOfOther (M.frames map.now) address.0 result }
{
    let page = page_of(map, address.frame())?;
    Some(GuestAddress(in_page(page as u32, address.0)))
}

ghost use Rattle.std.specs.Prelude.{◌≡◌, true, not, ◌&&◌, length, is_some, nat_lt};
ghost use Rattle.walk.specs.OwnBytes.{extents_in, touched};
ghost use Rattle.device.specs.Machine.{Machine};
ghost use Rattle.agree.specs.Agreement.{StoresAgree, StoreKeeps, MovesAgree, MoveKeeps};

use device::interface::Device;
use map::interface::Map;
use walk::own_bytes::OwnBytes;

// `device` is named by the clauses alone, and so is the `map` of `may_store`: they say of which kind of device and of
// which map a clause speaks.

// Whether a guest may store these bytes while its program runs: none of them is the program's own.
#[tactic(auto, using(crate::proofs::Staying::stores_agree))]
pub fn may_store<M: Map, D: Device>(
    map: &M,
    device: &D,
    own: &OwnBytes,
    address: usize,
    size: usize,
) -> bool
    ensures is { result ≡ not (is_some (touched (extents_in own.now) address size)) }
    ensures agree { StoresAgree D.machine (M.frames map.now) (M.free map.now) }
    ensures keeps { result ≡ true → StoreKeeps D.machine (M.frames map.now) (M.free map.now) (extents_in own.now) address size }
{
    own.touch(address, size).is_none()
}

// Whether a page may be moved to a frame while a program runs: the program has no data in it, and the map can put it there.
#[tactic(auto, using(crate::proofs::Staying::moves_agree))]
pub fn may_move<M: Map, D: Device>(
    map: &M,
    device: &D,
    page: usize,
    frame: u8,
    has_data: bool,
) -> bool
    ensures is { result ≡ ((not has_data && nat_lt page (length (M.frames map.now))) && M.free map.now frame) }
    ensures agree { MovesAgree D.machine (M.frames map.now) (M.free map.now) }
    ensures keeps { result ≡ true → MoveKeeps D.machine (M.frames map.now) (M.free map.now) page frame has_data }
{
    !has_data && page < map.page_count() && map.is_free(frame)
}

ghost use Rattle.std.specs.Prelude.{◌≡◌, ℕ, ◌+◌, ◌^◌, ◌<◌, ◌≤◌, List, length, slice_index};
ghost use Rattle.format.specs.Bytes.{reader, word_at};
ghost use Rattle.format.specs.Layouts.{ccw_at};
ghost use Rattle.rules.specs.TakingUp.{reach};

use format::ccw::{Ccw, Format};
use format::placed::Placed;
use std::array;

// The bytes of a CCW, which stands at a multiple of them.
pub const CCW_SIZE: u32 = 8;

// A storage that can be read: a length, and a byte at each address. A byte past the end reads 0, as in the
// definitions. `take_up` reads no such byte, since rules 2 and 8 come first: with an `Option` each reader would handle a
// case that never comes. And no public function here has a `requires`: `read_up` answers at every address.
pub trait Storage {
    ghost bytes: { Self → List ℕ };

    fn len(&self) -> usize
        ensures { result ≡ length (bytes self.now) };

    fn byte(&self, address: usize) -> u8
        ensures { result ≡ slice_index (bytes self.now) address };
}

// A storage as it stands in memory.
#[derive(Clone, Copy, Debug, PartialEq, Eq)]
pub struct Plain<'a> {
    pub storage: &'a [u8],
}

impl<'a> Storage for Plain<'a> {
    ghost bytes = { λ s. s.storage.now };

    fn len(&self) -> usize {
        self.storage.len()
    }

    fn byte(&self, address: usize) -> u8 {
        self.storage.get(address).copied().unwrap_or(0)
    }
}

// How many bytes can be addressed.
pub(crate) fn addressable<S: Storage>(storage: &S) -> usize
    ensures { result ≡ reach (S.bytes storage.now) }
{
    storage.len().min(0x8000_0000)
}

// The bytes from an address on.
fn bytes_at<S: Storage, const N: usize>(storage: &S, address: u32) -> [u8; N]
    requires { N ≤ 8 }
    ensures { (i : ℕ) → i < N → slice_index result i ≡ slice_index (S.bytes storage.now) (address + i) }
{
    array::from_fn(|i| storage.byte(address as usize + i))
}

// The CCWs of a storage, which are all laid out alike.
#[derive_where(Clone, Copy)]
pub(crate) struct Ccws<'a, S> {
    pub(crate) storage: &'a S,
    pub(crate) format: Format,
}

impl<'a, S: Storage> Ccws<'a, S> {
    // The CCW at an address.
    pub(crate) fn read(&self, address: u32) -> Placed<Ccw>
        ensures value { result.value ≡ ccw_at self.now.format (reader (S.bytes self.now.storage.now)) address }
        ensures place { result.address ≡ address }
    {
        let value = Ccw::decode(self.format, bytes_at(self.storage, address));
        Placed { value, address }
    }
}

// The indirect word at an address.
pub(crate) fn read_word<S: Storage>(storage: &S, address: u32) -> Placed<u32>
    ensures value { result.value ≡ word_at (reader (S.bytes storage.now)) address }
    ensures place { result.address ≡ address }
{
    let value = u32::from_be_bytes(bytes_at(storage, address));
    Placed { value, address }
}

ghost use Rattle.std.specs.Prelude.{◌≡◌, ◌+◌, ◌≤◌};
ghost use Rattle.disk.specs.Blocks.{address_of, range_exists};
ghost use Rattle.disk.specs.Naming.{named_by, naming};

use crate::extent::Extent;

// How many bytes a block has.
pub const BLOCK_SIZE: usize = 512;

// How many blocks there are.
pub const BLOCKS: usize = 64;

// How many bytes all the blocks have.
pub const STORE_SIZE: usize = BLOCK_SIZE * BLOCKS;

// Blocks that follow one another.
#[derive(Clone, Copy, Debug, PartialEq, Eq)]
pub struct Location {
    pub first: u16,
    pub count: u16,
}

impl Location {
    // Whether there are such blocks, at least one.
    pub fn exists(self) -> bool
        ensures { result ≡ range_exists self.first self.count }
    {
        self.count > 0 && usize::from(self.first) + usize::from(self.count) <= BLOCKS
    }

    // The addresses of the bytes of such blocks.
    pub(crate) fn extent(self) -> Extent
        requires { self.first + self.count ≤ 64 }
        ensures first { result.next ≡ address_of self.first }
        ensures last { result.limit ≡ address_of (self.first + self.count) }
    {
        let first = usize::from(self.first);
        let end = first + usize::from(self.count);
        Extent {
            next: address_of(first),
            limit: address_of(end),
        }
    }
}

// The blocks that the bytes of a locate name, whether they exist or not.
impl From<[u8; 4]> for Location {
    ghost from_gives = { λ bytes place. place ≡ named_by bytes };

    fn from(bytes: [u8; 4]) -> Location {
        let [count_high, count_low, first_high, first_low] = bytes;
        Location {
            first: u16::from_be_bytes([first_high, first_low]),
            count: u16::from_be_bytes([count_high, count_low]),
        }
    }
}

// The bytes of a locate that name these blocks.
impl From<Location> for [u8; 4] {
    ghost from_gives = { λ place bytes. bytes ≡ naming place };

    fn from(location: Location) -> [u8; 4] {
        let [count_high, count_low] = location.count.to_be_bytes();
        let [first_high, first_low] = location.first.to_be_bytes();
        [count_high, count_low, first_high, first_low]
    }
}

// The address of a block's first byte, or of the end behind the last block.
pub(crate) fn address_of(block: usize) -> usize
    requires { block ≤ 64 }
    ensures { result ≡ address_of block }
{
    block * BLOCK_SIZE
}

use super::cells::MOST_PLACES;
use short_list::list::ShortList;

pub mod asking;

// The most runs of bytes of a program: two for each CCW.
pub const MOST_EXTENTS: usize = 2 * MOST_PLACES;

// A run of bytes that belong to a program.
#[derive(Clone, Copy, Debug, Default, PartialEq, Eq)]
pub struct Extent {
    pub start: u32,
    pub size: u32,
}

// All bytes of a program: for each CCW its own and those right behind it, and its list.
#[derive(Clone, Copy, Debug, PartialEq, Eq)]
pub struct OwnBytes {
    extents: ShortList<Extent, MOST_EXTENTS>,
}

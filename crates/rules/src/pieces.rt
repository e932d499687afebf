use short_list::list::ShortList;

// The bytes of a block: no piece is longer.
pub const BLOCK: usize = 2048;

// No area has more pieces: a count below 65,536 reaches into at most 33 blocks.
pub const MOST_PIECES: usize = 33;

// A part of an area inside one block: its first byte in the order of the transfer, and its length.
#[derive(Clone, Copy, Debug, Default, PartialEq, Eq)]
pub struct Piece {
    pub first: usize,
    pub size: usize,
}

// The pieces of an area, in the order of the transfer.
pub type Pieces = ShortList<Piece, MOST_PIECES>;

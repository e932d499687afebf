ghost use Rattle.std.specs.Prelude.{◌≡◌, ℕ, ◌+◌, ◌*◌, ◌<◌, ◌≤◌, List, map as each, length, replicate};
ghost use Rattle.format.specs.Laying.{put_at};
ghost use Rattle.rules.specs.Areas.{listed};
ghost use Rattle.rules.specs.TakingUp.{cell_of};
ghost use Rattle.walk.specs.Walks.{cells_of, trail_of};
ghost use Rattle.map.specs.Places.{end_of, place_of};
ghost use Rattle.translate.specs.Frames.{cell_ccw, cells_bytes, transfer_to, closing_bytes, cells_part, filled, first_of, words_of, words_bytes, frame_of};
ghost use Rattle.translate.specs.Fitting.{Below, ClosesBelow, FitsFrame};

use format::big_endian::word_to_bytes;
use format::ccw::Ccw;
use format::flags::Flags;
use format::laying::put_at;
use map::address::GuestAddress;
use map::interface::Map;
use map::placing::place;
use rules::pieces::Pieces;
use rules::place::Taken;
use walk::cells::{Cells, Walked};

// The bytes of a program frame, and where the lists begin in it.
pub const FRAME_SIZE: usize = 4096;

const LISTS_START: usize = 1024;

// The bytes of a cell, and of a word of a list.
const CELL_SIZE: usize = 8;

const WORD_SIZE: usize = 4;

// The command code of a TIC.
const TIC: u8 = 0x08;

// The cell of a guest's CCW, with its list at an address of the frame.
fn cell_ccw(taken: &Taken, list: u32) -> Ccw
    ensures { result ≡ cell_ccw (cell_of taken.now) list }
{
    let found = taken.ccw.value;
    Ccw {
        code: taken.code,
        flags: Flags {
            cd: found.flags.cd,
            cc: found.flags.cc,
            sli: found.flags.sli,
            skip: found.flags.skip,
            ida: true,
            ..Flags::default()
        },
        count: found.count,
        address: list,
    }
}

// A TIC to a cell.
fn transfer_to(cell: usize) -> Ccw
    requires { cell < 64 }
    ensures { result ≡ transfer_to cell }
{
    Ccw {
        code: TIC,
        flags: Flags::default(),
        count: 0,
        address: (CELL_SIZE * cell) as u32,
    }
}

fn write_cells(part: &mut [u8], cells: &Cells)
    requires { 512 ≤ length part.old }
    ensures { part.new ≡ put_at 0 (cells_bytes (cells_of cells.now) 1024) part.old }
{
    let mut list = LISTS_START;
    for (index, taken) in cells.iter().enumerate() {
        let cell = cell_ccw(taken, list as u32);
        put_at(part, CELL_SIZE * index, &cell.encode());
        list += WORD_SIZE * taken.pieces.len();
    }
}

fn write_closing(part: &mut [u8], address: usize, closes: Option<usize>)
    requires { (address + 8 ≤ length part.old) × (ClosesBelow 64 closes) }
    ensures { part.new ≡ put_at address (closing_bytes closes) part.old }
{
    if let Some(cell) = closes {
        put_at(part, address, &transfer_to(cell).encode());
    }
}

// Writes the cells, and the TIC behind them if the program closes.
fn write_program(part: &mut [u8], walked: &Walked)
    requires { (part.old ≡ replicate 1024 0) × (ClosesBelow 64 walked.now.closes) }
    ensures { part.new ≡ filled 1024 (cells_part (trail_of walked.now)) }
{
    write_cells(part, &walked.cells);
    write_closing(part, CELL_SIZE * walked.cells.len(), walked.closes);
}

// The word of a guest address that the guest has: its place in the host.
fn host_word<M: Map>(map: &M, address: GuestAddress) -> u32
    requires { address.0 < end_of (M.frames map.now) }
    ensures { result ≡ place_of (M.frames map.now) address.0 }
{
    place(map, address).unwrap().0
}

fn write_list<M: Map>(map: &M, pieces: &Pieces, part: &mut [u8], address: usize)
    requires { (address + 4 * length (listed pieces.now) ≤ length part.old) × (Below (end_of (M.frames map.now)) (each first_of (listed pieces.now))) }
    ensures { part.new ≡ put_at address (words_bytes (each (place_of (M.frames map.now)) (each first_of (listed pieces.now)))) part.old }
{
    for (index, piece) in pieces.iter().enumerate() {
        let word = host_word(map, GuestAddress(piece.first as u32));
        put_at(part, address + WORD_SIZE * index, &word_to_bytes(word));
    }
}

// Writes the lists one after the other, and answers how many words they have.
fn write_lists<M: Map>(map: &M, cells: &Cells, part: &mut [u8]) -> usize
    requires { (4 * length (words_of (cells_of cells.now)) ≤ length part.old) × (Below (end_of (M.frames map.now)) (words_of (cells_of cells.now))) }
    ensures count { result ≡ length (words_of (cells_of cells.now)) }
    ensures lists { part.new ≡ put_at 0 (words_bytes (each (place_of (M.frames map.now)) (words_of (cells_of cells.now)))) part.old }
{
    let mut words = 0;
    for taken in cells {
        write_list(map, &taken.pieces, part, WORD_SIZE * words);
        words += taken.pieces.len();
    }
    words
}

// Writes the whole frame of an accepted program, and answers how many words it has.
pub(crate) fn write_frame<M: Map>(map: &M, walked: &Walked, frame: &mut [u8; FRAME_SIZE]) -> usize
    requires { FitsFrame (end_of (M.frames map.now)) (trail_of walked.now) }
    ensures count { result ≡ length (words_of (cells_of walked.now.cells)) }
    ensures frame { frame.new ≡ frame_of (place_of (M.frames map.now)) (trail_of walked.now) }
{
    *frame = [0; FRAME_SIZE];
    let (program, lists) = frame.split_at_mut(LISTS_START);
    write_program(program, walked);
    write_lists(map, &walked.cells, lists)
}

use super::{ANY, CHAIN_COMMAND, CHAIN_DATA, INDIRECT, SENSE, SKIP, SUPPRESS_LENGTH, TIC};
use crate::job::{Entry, Job};

// Command codes of the tape, as a guest writes them.
const WRITE: u8 = 0x01;

const READ: u8 = 0x02;

const REWIND: u8 = 0x07;

const READ_BACKWARD: u8 = 0x0C;

// With these flags a read of one byte goes past its block and stores nothing.
const PASS: u8 = CHAIN_COMMAND + SUPPRESS_LENGTH + SKIP;

// They run on one tape, which is empty at first.
pub const TAPE_JOBS: [Job; 3] = [
    Job {
        title: "Three blocks on a tape",
        about: "writes them, rewinds, goes past the first, reads the second forward and then backward, senses",
        contents: &[
            Entry::Ccw(0x100, WRITE, CHAIN_COMMAND, 16, 0x200),
            Entry::Ccw(0x108, WRITE, CHAIN_DATA, 18, 0x240),
            Entry::Ccw(0x110, ANY, CHAIN_COMMAND, 13, 0x280),
            Entry::Ccw(0x118, WRITE, CHAIN_COMMAND + INDIRECT, 29, 0x180),
            Entry::Ccw(0x120, REWIND, CHAIN_COMMAND, 1, 0x000),
            Entry::Ccw(0x128, READ, PASS, 1, 0x300),
            Entry::Ccw(0x130, READ, CHAIN_COMMAND, 31, 0x300),
            Entry::Ccw(0x138, READ_BACKWARD, CHAIN_COMMAND, 31, 0x80F),
            Entry::Ccw(0x140, SENSE, 0x00, 1, 0x380),
            Entry::Word(0x180, 0xFEF),
            Entry::Word(0x184, 0x2000),
            Entry::Text(0x200, "The first block."),
            Entry::Text(0x240, "The second block, "),
            Entry::Text(0x280, "in two parts."),
            Entry::Text(0xFEF, "The third block, "),
            Entry::Text(0x2000, "from a list."),
            Entry::Byte(0x380, 0xFF),
        ],
        start: 0x100,
    },
    Job {
        title: "The end of the tape",
        about: "goes past one block after the other, until none is left",
        contents: &[
            Entry::Ccw(0x100, READ, PASS, 1, 0x200),
            Entry::Ccw(0x108, TIC, 0x00, 0, 0x100),
        ],
        start: 0x100,
    },
    Job {
        title: "The cause",
        about: "senses why the read before was refused",
        contents: &[Entry::Ccw(0x100, SENSE, 0x00, 1, 0x200)],
        start: 0x100,
    },
];

use super::{ANY, CHAIN_COMMAND, CHAIN_DATA, SENSE};
use crate::job::{Entry, Job};

// Command codes of the disk, as a guest writes them.
const WRITE: u8 = 0x41;

const READ: u8 = 0x42;

const LOCATE: u8 = 0x43;

// They run on one disk, which holds zeros at first.
pub const DISK_JOBS: [Job; 3] = [
    Job {
        title: "Two blocks on a disk",
        about: "locates and writes blocks 5 and 6 from two areas, locates them again, reads them into a third",
        contents: &[
            Entry::Ccw(0x100, LOCATE, CHAIN_COMMAND, 4, 0x180),
            Entry::Ccw(0x108, WRITE, CHAIN_DATA, 512, 0x800),
            Entry::Ccw(0x110, ANY, CHAIN_COMMAND, 512, 0xC00),
            Entry::Ccw(0x118, LOCATE, CHAIN_COMMAND, 4, 0x180),
            Entry::Ccw(0x120, READ, 0x00, 1024, 0x1600),
            Entry::Word(0x180, 0x0002_0005),
            Entry::Text(0x800, "This stands in block 5."),
            Entry::Text(0xC00, "And this in block 6."),
        ],
        start: 0x100,
    },
    Job {
        title: "A locate past the last block",
        about: "asks for 2 blocks from 63 on, which is the last, so the read is not reached",
        contents: &[
            Entry::Ccw(0x100, LOCATE, CHAIN_COMMAND, 4, 0x180),
            Entry::Ccw(0x108, READ, 0x00, 1024, 0x800),
            Entry::Word(0x180, 0x0002_003F),
        ],
        start: 0x100,
    },
    Job {
        title: "The cause, and a better locate",
        about: "senses why the locate before failed, then locates block 63 alone",
        contents: &[
            Entry::Ccw(0x100, SENSE, CHAIN_COMMAND, 1, 0x200),
            Entry::Ccw(0x108, LOCATE, 0x00, 4, 0x180),
            Entry::Word(0x180, 0x0001_003F),
        ],
        start: 0x100,
    },
];

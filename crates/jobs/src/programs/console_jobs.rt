use super::{
    ANY, CHAIN_COMMAND, CHAIN_DATA, INDIRECT, INTERRUPT, NO_OPERATION, SENSE, SKIP,
    SUPPRESS_LENGTH, TIC,
};
use crate::job::{ConsoleJob, Entry, Halt, Job};

// Command codes of the console, as a guest writes them.
const WRITE: u8 = 0x09;

const READ: u8 = 0x0A;

pub const CONSOLE_JOBS: [ConsoleJob; 2] = [
    ConsoleJob {
        line: "NAME: ADA LOVELACE",
        job: CONVERSATION,
    },
    LONG_READ,
];

const CONVERSATION: Job = Job {
    title: "A conversation",
    about: "prints a greeting and a sentence in three parts, reads the line but for six bytes, senses",
    contents: &[
        Entry::Ccw(0x100, WRITE, CHAIN_COMMAND, 24, 0x200),
        Entry::Ccw(0x108, WRITE, CHAIN_DATA, 10, 0x240),
        Entry::Ccw(0x110, ANY, CHAIN_COMMAND + INDIRECT, 21, 0x280),
        Entry::Ccw(0x118, TIC, 0x00, 0, 0x140),
        Entry::Ccw(0x140, NO_OPERATION, CHAIN_COMMAND, 1, 0x000),
        Entry::Ccw(0x148, READ, CHAIN_DATA + SKIP, 6, 0x300),
        Entry::Ccw(0x150, ANY, CHAIN_COMMAND + SUPPRESS_LENGTH, 32, 0x320),
        Entry::Ccw(0x158, SENSE, 0x00, 1, 0x380),
        Entry::Text(0x200, "Hello from the channel. "),
        Entry::Text(0x240, "This line "),
        Entry::Word(0x280, 0xFFA),
        Entry::Word(0x284, 0x2000),
        Entry::Text(0xFFA, "comes "),
        Entry::Text(0x2000, "in three parts."),
        Entry::Byte(0x380, 0xFF),
    ],
    start: 0x100,
};

const LONG_READ: ConsoleJob = ConsoleJob {
    line: "HELLO",
    job: Job {
        title: "A read of 8 bytes from a line of 5",
        about: "the count is 3 too long, and nothing suppresses that",
        contents: &[Entry::Ccw(0x100, READ, 0x00, 8, 0x200)],
        start: 0x100,
    },
};

const LOOP: ConsoleJob = ConsoleJob {
    line: "",
    job: Job {
        title: "A loop",
        about: "a no-operation and a TIC back to it",
        contents: &[
            Entry::Ccw(0x100, NO_OPERATION, CHAIN_COMMAND, 1, 0x000),
            Entry::Ccw(0x108, TIC, 0x00, 0, 0x100),
        ],
        start: 0x100,
    },
};

const HALFWAY: ConsoleJob = ConsoleJob {
    line: "",
    job: Job {
        title: "A write that chains data",
        about: "the command is still open when the program is halted",
        contents: &[
            Entry::Ccw(0x100, WRITE, CHAIN_DATA, 4, 0x200),
            Entry::Ccw(0x108, ANY, 0x00, 4, 0x204),
            Entry::Text(0x200, "HALFWAY."),
        ],
        start: 0x100,
    },
};

pub const HALTS: [Halt; 4] = [
    Halt {
        job: LOOP,
        steps: 0,
    },
    Halt {
        job: LOOP,
        steps: 3,
    },
    Halt {
        job: HALFWAY,
        steps: 1,
    },
    Halt {
        job: LONG_READ,
        steps: 10,
    },
];

// One program for each rule that it breaks, on a console with no line.
pub const DAMAGED: [Job; 10] = [
    Job {
        title: "Rule 1",
        about: "the program starts at 000104",
        contents: &[Entry::Ccw(0x104, NO_OPERATION, 0x00, 1, 0x200)],
        start: 0x104,
    },
    Job {
        title: "Rule 2",
        about: "the last CCW in storage chains command",
        contents: &[Entry::Ccw(0x3FF8, NO_OPERATION, CHAIN_COMMAND, 1, 0x200)],
        start: 0x3FF8,
    },
    Job {
        title: "Rule 3",
        about: "the first CCW is a TIC",
        contents: &[
            Entry::Ccw(0x100, TIC, 0x00, 0, 0x108),
            Entry::Ccw(0x108, NO_OPERATION, 0x00, 1, 0x200),
        ],
        start: 0x100,
    },
    Job {
        title: "Rule 4",
        about: "the first CCW has code 00",
        contents: &[Entry::Ccw(0x100, 0x00, 0x00, 1, 0x200)],
        start: 0x100,
    },
    Job {
        title: "Rule 5",
        about: "flag 08 is on",
        contents: &[Entry::Ccw(0x100, NO_OPERATION, INTERRUPT, 1, 0x200)],
        start: 0x100,
    },
    Job {
        title: "Rule 6",
        about: "a data chain leads to a CCW with count 0",
        contents: &[
            Entry::Ccw(0x100, WRITE, CHAIN_DATA, 4, 0x200),
            Entry::Ccw(0x108, ANY, 0x00, 0, 0x204),
            Entry::Text(0x200, "STOP"),
        ],
        start: 0x100,
    },
    Job {
        title: "Rule 7",
        about: "the indirect list is at 000402",
        contents: &[
            Entry::Ccw(0x100, WRITE, INDIRECT, 1, 0x402),
            Entry::Word(0x402, 0x200),
        ],
        start: 0x100,
    },
    Job {
        title: "Rule 8",
        about: "the indirect list is behind the end of storage",
        contents: &[Entry::Ccw(0x100, WRITE, INDIRECT, 1, 0x4000)],
        start: 0x100,
    },
    Job {
        title: "Rule 9",
        about: "the second word of the indirect list leads into the middle of a block",
        contents: &[
            Entry::Ccw(0x100, WRITE, INDIRECT, 4, 0x400),
            Entry::Word(0x400, 0xFFE),
            Entry::Word(0x404, 0x3801),
        ],
        start: 0x100,
    },
    Job {
        title: "Rule 10",
        about: "the second byte of the area is behind the end of storage",
        contents: &[Entry::Ccw(0x100, WRITE, 0x00, 2, 0x3FFF)],
        start: 0x100,
    },
];

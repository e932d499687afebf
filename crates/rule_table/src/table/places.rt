use super::{BOTH, ONE, READ, TIC, WRITE, ZERO};
use crate::row::{Accepted, At, Entry, Refused, Row, Section};
use rules::pieces::Piece;

pub const RULE_1: Section = Section {
    rule: 1,
    title: "a CCW address is a multiple of 8",
    rows: &[
        Row {
            name: "start at 100",
            formats: BOTH,
            length: 0x2000,
            contents: &[Entry::Ccw(0x100, READ, 0x00, 1, 0x200)],
            place: At::First(0x100),
            expected: Ok(Accepted {
                ccw: 0x100,
                code: READ,
                area: &[Piece {
                    first: 0x200,
                    size: 1,
                }],
            }),
        },
        Row {
            name: "start at 101",
            formats: BOTH,
            length: 0x2000,
            contents: &[Entry::Ccw(0x101, READ, 0x00, 1, 0x200)],
            place: At::First(0x101),
            expected: Err(Refused {
                rule: 1,
                names: 0x101,
                counts_from: 0x101,
            }),
        },
        Row {
            name: "start at 104",
            formats: BOTH,
            length: 0x2000,
            contents: &[Entry::Ccw(0x104, READ, 0x00, 1, 0x200)],
            place: At::First(0x104),
            expected: Err(Refused {
                rule: 1,
                names: 0x104,
                counts_from: 0x104,
            }),
        },
        Row {
            name: "TIC to 100",
            formats: BOTH,
            length: 0x2000,
            contents: &[
                Entry::Ccw(0x100, READ, 0x00, 1, 0x200),
                Entry::Tic(0x108, 0x100),
            ],
            place: At::Later(0x108),
            expected: Ok(Accepted {
                ccw: 0x100,
                code: READ,
                area: &[Piece {
                    first: 0x200,
                    size: 1,
                }],
            }),
        },
        Row {
            name: "TIC to 104",
            formats: BOTH,
            length: 0x2000,
            contents: &[
                Entry::Ccw(0x104, READ, 0x00, 1, 0x200),
                Entry::Tic(0x110, 0x104),
            ],
            place: At::Later(0x110),
            expected: Err(Refused {
                rule: 1,
                names: 0x104,
                counts_from: 0x104,
            }),
        },
        Row {
            name: "rule 1 before rule 2: start at 2004, behind the end",
            formats: BOTH,
            length: 0x2000,
            contents: &[],
            place: At::First(0x2004),
            expected: Err(Refused {
                rule: 1,
                names: 0x2004,
                counts_from: 0x2004,
            }),
        },
    ],
};

pub const RULE_2: Section = Section {
    rule: 2,
    title: "the 8 bytes of a CCW are inside storage",
    rows: &[
        Row {
            name: "in the last 8 bytes of storage",
            formats: BOTH,
            length: 0x200,
            contents: &[Entry::Ccw(0x1F8, READ, 0x00, 1, 0x100)],
            place: At::First(0x1F8),
            expected: Ok(Accepted {
                ccw: 0x1F8,
                code: READ,
                area: &[Piece {
                    first: 0x100,
                    size: 1,
                }],
            }),
        },
        Row {
            name: "storage 1 byte shorter",
            formats: BOTH,
            length: 0x1FF,
            contents: &[Entry::Ccw(0x1F8, READ, 0x00, 1, 0x100)],
            place: At::First(0x1F8),
            expected: Err(Refused {
                rule: 2,
                names: 0x1F8,
                counts_from: 0x1F8,
            }),
        },
        Row {
            name: "at the end of storage",
            formats: BOTH,
            length: 0x200,
            contents: &[],
            place: At::First(0x200),
            expected: Err(Refused {
                rule: 2,
                names: 0x200,
                counts_from: 0x200,
            }),
        },
        Row {
            name: "TIC to the last 8 bytes of storage",
            formats: BOTH,
            length: 0x200,
            contents: &[
                Entry::Tic(0x108, 0x1F8),
                Entry::Ccw(0x1F8, READ, 0x00, 1, 0x100),
            ],
            place: At::Later(0x108),
            expected: Ok(Accepted {
                ccw: 0x1F8,
                code: READ,
                area: &[Piece {
                    first: 0x100,
                    size: 1,
                }],
            }),
        },
        Row {
            name: "the same TIC, storage 1 byte shorter",
            formats: BOTH,
            length: 0x1FF,
            contents: &[
                Entry::Tic(0x108, 0x1F8),
                Entry::Ccw(0x1F8, READ, 0x00, 1, 0x100),
            ],
            place: At::Later(0x108),
            expected: Err(Refused {
                rule: 2,
                names: 0x1F8,
                counts_from: 0x1F8,
            }),
        },
        Row {
            name: "a storage of 8 bytes",
            formats: BOTH,
            length: 0x08,
            contents: &[Entry::Ccw(0x00, READ, 0x00, 1, 0x00)],
            place: At::First(0x00),
            expected: Ok(Accepted {
                ccw: 0x00,
                code: READ,
                area: &[Piece {
                    first: 0x00,
                    size: 1,
                }],
            }),
        },
        Row {
            name: "a storage of 7 bytes",
            formats: BOTH,
            length: 0x07,
            contents: &[Entry::Ccw(0x00, READ, 0x00, 1, 0x00)],
            place: At::First(0x00),
            expected: Err(Refused {
                rule: 2,
                names: 0x00,
                counts_from: 0x00,
            }),
        },
        Row {
            name: "an empty storage",
            formats: BOTH,
            length: 0x00,
            contents: &[],
            place: At::First(0x00),
            expected: Err(Refused {
                rule: 2,
                names: 0x00,
                counts_from: 0x00,
            }),
        },
        Row {
            name: "start at the highest multiple of 8",
            formats: BOTH,
            length: 0x2000,
            contents: &[],
            place: At::First(0xFFFFFFF8),
            expected: Err(Refused {
                rule: 2,
                names: 0xFFFFFFF8,
                counts_from: 0xFFFFFFF8,
            }),
        },
        Row {
            name: "TIC to the highest multiple of 8",
            formats: ZERO,
            length: 0x2000,
            contents: &[Entry::Tic(0x108, 0xFFFFF8)],
            place: At::Later(0x108),
            expected: Err(Refused {
                rule: 2,
                names: 0xFFFFF8,
                counts_from: 0xFFFFF8,
            }),
        },
        Row {
            name: "TIC to the highest multiple of 8",
            formats: ONE,
            length: 0x2000,
            contents: &[Entry::Tic(0x108, 0xFFFFFFF8)],
            place: At::Later(0x108),
            expected: Err(Refused {
                rule: 2,
                names: 0xFFFFFFF8,
                counts_from: 0xFFFFFFF8,
            }),
        },
    ],
};

pub const RULE_3: Section = Section {
    rule: 3,
    title: "a TIC is neither the first place nor reached by a TIC",
    rows: &[
        Row {
            name: "TIC, not the first place",
            formats: BOTH,
            length: 0x2000,
            contents: &[
                Entry::Ccw(0x100, READ, 0x00, 1, 0x200),
                Entry::Tic(0x108, 0x100),
            ],
            place: At::Later(0x108),
            expected: Ok(Accepted {
                ccw: 0x100,
                code: READ,
                area: &[Piece {
                    first: 0x200,
                    size: 1,
                }],
            }),
        },
        Row {
            name: "the same TIC as the first place",
            formats: BOTH,
            length: 0x2000,
            contents: &[
                Entry::Ccw(0x100, READ, 0x00, 1, 0x200),
                Entry::Tic(0x108, 0x100),
            ],
            place: At::First(0x108),
            expected: Err(Refused {
                rule: 3,
                names: 0x108,
                counts_from: 0x108,
            }),
        },
        Row {
            name: "TIC inside a data chain",
            formats: BOTH,
            length: 0x2000,
            contents: &[
                Entry::Ccw(0x100, WRITE, 0x00, 1, 0x200),
                Entry::Tic(0x108, 0x100),
            ],
            place: At::InForce(0x108, READ),
            expected: Ok(Accepted {
                ccw: 0x100,
                code: READ,
                area: &[Piece {
                    first: 0x200,
                    size: 1,
                }],
            }),
        },
        Row {
            name: "TIC to a TIC",
            formats: BOTH,
            length: 0x2000,
            contents: &[
                Entry::Ccw(0x100, READ, 0x00, 1, 0x200),
                Entry::Tic(0x108, 0x110),
                Entry::Tic(0x110, 0x100),
            ],
            place: At::Later(0x108),
            expected: Err(Refused {
                rule: 3,
                names: 0x110,
                counts_from: 0x110,
            }),
        },
        Row {
            name: "TIC to a TIC inside a data chain",
            formats: BOTH,
            length: 0x2000,
            contents: &[
                Entry::Ccw(0x100, READ, 0x00, 1, 0x200),
                Entry::Tic(0x108, 0x110),
                Entry::Tic(0x110, 0x100),
            ],
            place: At::InForce(0x108, READ),
            expected: Err(Refused {
                rule: 3,
                names: 0x110,
                counts_from: 0x110,
            }),
        },
        Row {
            name: "TIC to itself",
            formats: BOTH,
            length: 0x2000,
            contents: &[Entry::Tic(0x108, 0x108)],
            place: At::Later(0x108),
            expected: Err(Refused {
                rule: 3,
                names: 0x108,
                counts_from: 0x108,
            }),
        },
        Row {
            name: "TIC to a TIC whose own target is no multiple of 8",
            formats: BOTH,
            length: 0x2000,
            contents: &[Entry::Tic(0x108, 0x110), Entry::Tic(0x110, 0x104)],
            place: At::Later(0x108),
            expected: Err(Refused {
                rule: 3,
                names: 0x110,
                counts_from: 0x110,
            }),
        },
        Row {
            name: "code 58, flags FF and count 65535, first place",
            formats: ZERO,
            length: 0x2000,
            contents: &[Entry::Ccw(0x100, 0x58, 0xFF, 65535, 0x200)],
            place: At::First(0x100),
            expected: Err(Refused {
                rule: 3,
                names: 0x100,
                counts_from: 0x100,
            }),
        },
        Row {
            name: "TIC to a code 18",
            formats: ZERO,
            length: 0x2000,
            contents: &[
                Entry::Ccw(0x100, READ, 0x00, 1, 0x200),
                Entry::Tic(0x108, 0x110),
                Entry::Ccw(0x110, 0x18, 0x00, 0, 0x100),
            ],
            place: At::Later(0x108),
            expected: Err(Refused {
                rule: 3,
                names: 0x110,
                counts_from: 0x110,
            }),
        },
        Row {
            name: "rule 3 before rule 5: TIC with a flag, first place",
            formats: ONE,
            length: 0x2000,
            contents: &[Entry::Ccw(0x100, TIC, 0x20, 0, 0x100)],
            place: At::First(0x100),
            expected: Err(Refused {
                rule: 3,
                names: 0x100,
                counts_from: 0x100,
            }),
        },
        Row {
            name: "rule 3 before rule 5: TIC to a TIC with a flag",
            formats: ONE,
            length: 0x2000,
            contents: &[
                Entry::Tic(0x108, 0x110),
                Entry::Ccw(0x110, TIC, 0x20, 0, 0x100),
            ],
            place: At::Later(0x108),
            expected: Err(Refused {
                rule: 3,
                names: 0x110,
                counts_from: 0x110,
            }),
        },
    ],
};

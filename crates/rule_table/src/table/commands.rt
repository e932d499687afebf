use super::{BOTH, ONE, READ, TIC, WRITE, ZERO};
use crate::row::{Accepted, At, Entry, Refused, Row, Section};
use rules::pieces::Piece;

pub const RULE_4: Section = Section {
    rule: 4,
    title: "the code is valid, unless a command is in force",
    rows: &[
        Row {
            name: "code 11",
            formats: BOTH,
            length: 0x2000,
            contents: &[Entry::Ccw(0x100, 0x11, 0x00, 1, 0x200)],
            place: At::First(0x100),
            expected: Ok(Accepted {
                ccw: 0x100,
                code: 0x11,
                area: &[Piece {
                    first: 0x200,
                    size: 1,
                }],
            }),
        },
        Row {
            name: "code 10",
            formats: BOTH,
            length: 0x2000,
            contents: &[Entry::Ccw(0x100, 0x10, 0x00, 1, 0x200)],
            place: At::First(0x100),
            expected: Err(Refused {
                rule: 4,
                names: 0x100,
                counts_from: 0x100,
            }),
        },
        Row {
            name: "code 00",
            formats: BOTH,
            length: 0x2000,
            contents: &[Entry::Ccw(0x100, 0x00, 0x00, 1, 0x200)],
            place: At::First(0x100),
            expected: Err(Refused {
                rule: 4,
                names: 0x100,
                counts_from: 0x100,
            }),
        },
        Row {
            name: "code 00, not the first place",
            formats: BOTH,
            length: 0x2000,
            contents: &[Entry::Ccw(0x100, 0x00, 0x00, 1, 0x200)],
            place: At::Later(0x100),
            expected: Err(Refused {
                rule: 4,
                names: 0x100,
                counts_from: 0x100,
            }),
        },
        Row {
            name: "code 00 with a write in force",
            formats: BOTH,
            length: 0x2000,
            contents: &[Entry::Ccw(0x100, 0x00, 0x00, 1, 0x200)],
            place: At::InForce(0x100, WRITE),
            expected: Ok(Accepted {
                ccw: 0x100,
                code: WRITE,
                area: &[Piece {
                    first: 0x200,
                    size: 1,
                }],
            }),
        },
        Row {
            name: "TIC to a code 00",
            formats: BOTH,
            length: 0x2000,
            contents: &[
                Entry::Ccw(0x100, 0x00, 0x00, 1, 0x200),
                Entry::Tic(0x108, 0x100),
            ],
            place: At::Later(0x108),
            expected: Err(Refused {
                rule: 4,
                names: 0x100,
                counts_from: 0x100,
            }),
        },
        Row {
            name: "TIC to a code 00 with a write in force",
            formats: BOTH,
            length: 0x2000,
            contents: &[
                Entry::Ccw(0x100, 0x00, 0x00, 1, 0x200),
                Entry::Tic(0x108, 0x100),
            ],
            place: At::InForce(0x108, WRITE),
            expected: Ok(Accepted {
                ccw: 0x100,
                code: WRITE,
                area: &[Piece {
                    first: 0x200,
                    size: 1,
                }],
            }),
        },
        Row {
            name: "code 18",
            formats: ZERO,
            length: 0x2000,
            contents: &[
                Entry::Ccw(0x100, READ, 0x00, 1, 0x200),
                Entry::Ccw(0x108, 0x18, 0x00, 0, 0x100),
            ],
            place: At::Later(0x108),
            expected: Ok(Accepted {
                ccw: 0x100,
                code: READ,
                area: &[Piece {
                    first: 0x200,
                    size: 1,
                }],
            }),
        },
        Row {
            name: "code 18",
            formats: ONE,
            length: 0x2000,
            contents: &[
                Entry::Ccw(0x100, READ, 0x00, 1, 0x200),
                Entry::Ccw(0x108, 0x18, 0x00, 0, 0x100),
            ],
            place: At::Later(0x108),
            expected: Err(Refused {
                rule: 4,
                names: 0x108,
                counts_from: 0x108,
            }),
        },
        Row {
            name: "code 18 with a write in force",
            formats: ZERO,
            length: 0x2000,
            contents: &[
                Entry::Ccw(0x100, READ, 0x00, 1, 0x200),
                Entry::Ccw(0x108, 0x18, 0x00, 0, 0x100),
            ],
            place: At::InForce(0x108, WRITE),
            expected: Ok(Accepted {
                ccw: 0x100,
                code: WRITE,
                area: &[Piece {
                    first: 0x200,
                    size: 1,
                }],
            }),
        },
        Row {
            name: "code 18 with a write in force",
            formats: ONE,
            length: 0x2000,
            contents: &[
                Entry::Ccw(0x100, READ, 0x00, 1, 0x200),
                Entry::Ccw(0x108, 0x18, 0x00, 0, 0x100),
            ],
            place: At::InForce(0x108, WRITE),
            expected: Err(Refused {
                rule: 4,
                names: 0x108,
                counts_from: 0x108,
            }),
        },
        Row {
            name: "TIC to a code 18",
            formats: ONE,
            length: 0x2000,
            contents: &[
                Entry::Ccw(0x100, READ, 0x00, 1, 0x200),
                Entry::Tic(0x108, 0x110),
                Entry::Ccw(0x110, 0x18, 0x00, 0, 0x100),
            ],
            place: At::Later(0x108),
            expected: Err(Refused {
                rule: 4,
                names: 0x110,
                counts_from: 0x110,
            }),
        },
        Row {
            name: "rule 4 before rule 3: code 18 as the first place",
            formats: ONE,
            length: 0x2000,
            contents: &[
                Entry::Ccw(0x100, READ, 0x00, 1, 0x200),
                Entry::Ccw(0x108, 0x18, 0x00, 0, 0x100),
            ],
            place: At::First(0x108),
            expected: Err(Refused {
                rule: 4,
                names: 0x108,
                counts_from: 0x108,
            }),
        },
        Row {
            name: "rule 4 before rule 5: code 00 with flag 08",
            formats: BOTH,
            length: 0x2000,
            contents: &[Entry::Ccw(0x100, 0x00, 0x08, 1, 0x200)],
            place: At::First(0x100),
            expected: Err(Refused {
                rule: 4,
                names: 0x100,
                counts_from: 0x100,
            }),
        },
    ],
};

pub const RULE_5: Section = Section {
    rule: 5,
    title: "no flag 08, 02 or 01 is on; a format 1 TIC has no flag and no count",
    rows: &[
        Row {
            name: "flag 80",
            formats: BOTH,
            length: 0x2000,
            contents: &[Entry::Ccw(0x100, READ, 0x80, 1, 0x200)],
            place: At::First(0x100),
            expected: Ok(Accepted {
                ccw: 0x100,
                code: READ,
                area: &[Piece {
                    first: 0x200,
                    size: 1,
                }],
            }),
        },
        Row {
            name: "flag 40",
            formats: BOTH,
            length: 0x2000,
            contents: &[Entry::Ccw(0x100, READ, 0x40, 1, 0x200)],
            place: At::First(0x100),
            expected: Ok(Accepted {
                ccw: 0x100,
                code: READ,
                area: &[Piece {
                    first: 0x200,
                    size: 1,
                }],
            }),
        },
        Row {
            name: "flag 20",
            formats: BOTH,
            length: 0x2000,
            contents: &[Entry::Ccw(0x100, READ, 0x20, 1, 0x200)],
            place: At::First(0x100),
            expected: Ok(Accepted {
                ccw: 0x100,
                code: READ,
                area: &[Piece {
                    first: 0x200,
                    size: 1,
                }],
            }),
        },
        Row {
            name: "flag 10",
            formats: BOTH,
            length: 0x2000,
            contents: &[Entry::Ccw(0x100, READ, 0x10, 1, 0x200)],
            place: At::First(0x100),
            expected: Ok(Accepted {
                ccw: 0x100,
                code: READ,
                area: &[Piece {
                    first: 0x200,
                    size: 1,
                }],
            }),
        },
        Row {
            name: "flag 08",
            formats: BOTH,
            length: 0x2000,
            contents: &[Entry::Ccw(0x100, READ, 0x08, 1, 0x200)],
            place: At::First(0x100),
            expected: Err(Refused {
                rule: 5,
                names: 0x100,
                counts_from: 0x100,
            }),
        },
        Row {
            name: "flag 04",
            formats: BOTH,
            length: 0x2000,
            contents: &[
                Entry::Ccw(0x100, READ, 0x04, 1, 0x200),
                Entry::Word(0x200, 0x300),
            ],
            place: At::First(0x100),
            expected: Ok(Accepted {
                ccw: 0x100,
                code: READ,
                area: &[Piece {
                    first: 0x300,
                    size: 1,
                }],
            }),
        },
        Row {
            name: "flag 02",
            formats: BOTH,
            length: 0x2000,
            contents: &[Entry::Ccw(0x100, READ, 0x02, 1, 0x200)],
            place: At::First(0x100),
            expected: Err(Refused {
                rule: 5,
                names: 0x100,
                counts_from: 0x100,
            }),
        },
        Row {
            name: "flag 01",
            formats: BOTH,
            length: 0x2000,
            contents: &[Entry::Ccw(0x100, READ, 0x01, 1, 0x200)],
            place: At::First(0x100),
            expected: Err(Refused {
                rule: 5,
                names: 0x100,
                counts_from: 0x100,
            }),
        },
        Row {
            name: "flags F4, all that are accepted",
            formats: BOTH,
            length: 0x2000,
            contents: &[
                Entry::Ccw(0x100, READ, 0xF4, 1, 0x200),
                Entry::Word(0x200, 0x300),
            ],
            place: At::First(0x100),
            expected: Ok(Accepted {
                ccw: 0x100,
                code: READ,
                area: &[Piece {
                    first: 0x300,
                    size: 1,
                }],
            }),
        },
        Row {
            name: "flags FC",
            formats: BOTH,
            length: 0x2000,
            contents: &[
                Entry::Ccw(0x100, READ, 0xFC, 1, 0x200),
                Entry::Word(0x200, 0x300),
            ],
            place: At::First(0x100),
            expected: Err(Refused {
                rule: 5,
                names: 0x100,
                counts_from: 0x100,
            }),
        },
        Row {
            name: "flag 08 with a read in force",
            formats: BOTH,
            length: 0x2000,
            contents: &[Entry::Ccw(0x100, READ, 0x08, 1, 0x200)],
            place: At::InForce(0x100, READ),
            expected: Err(Refused {
                rule: 5,
                names: 0x100,
                counts_from: 0x100,
            }),
        },
        Row {
            name: "TIC to a CCW with flag 01",
            formats: BOTH,
            length: 0x2000,
            contents: &[
                Entry::Ccw(0x100, READ, 0x01, 1, 0x200),
                Entry::Tic(0x108, 0x100),
            ],
            place: At::Later(0x108),
            expected: Err(Refused {
                rule: 5,
                names: 0x100,
                counts_from: 0x100,
            }),
        },
        Row {
            name: "code 58, flags FF and count 65535",
            formats: ZERO,
            length: 0x2000,
            contents: &[
                Entry::Ccw(0x100, READ, 0x00, 1, 0x200),
                Entry::Ccw(0x108, 0x58, 0xFF, 65535, 0x100),
            ],
            place: At::Later(0x108),
            expected: Ok(Accepted {
                ccw: 0x100,
                code: READ,
                area: &[Piece {
                    first: 0x200,
                    size: 1,
                }],
            }),
        },
        Row {
            name: "TIC with flags 00 and count 0",
            formats: ONE,
            length: 0x2000,
            contents: &[
                Entry::Ccw(0x100, READ, 0x00, 1, 0x200),
                Entry::Tic(0x108, 0x100),
            ],
            place: At::Later(0x108),
            expected: Ok(Accepted {
                ccw: 0x100,
                code: READ,
                area: &[Piece {
                    first: 0x200,
                    size: 1,
                }],
            }),
        },
        Row {
            name: "TIC with flag 80",
            formats: ONE,
            length: 0x2000,
            contents: &[
                Entry::Ccw(0x100, READ, 0x00, 1, 0x200),
                Entry::Ccw(0x108, TIC, 0x80, 0, 0x100),
            ],
            place: At::Later(0x108),
            expected: Err(Refused {
                rule: 5,
                names: 0x108,
                counts_from: 0x108,
            }),
        },
        Row {
            name: "TIC with flag 20",
            formats: ONE,
            length: 0x2000,
            contents: &[
                Entry::Ccw(0x100, READ, 0x00, 1, 0x200),
                Entry::Ccw(0x108, TIC, 0x20, 0, 0x100),
            ],
            place: At::Later(0x108),
            expected: Err(Refused {
                rule: 5,
                names: 0x108,
                counts_from: 0x108,
            }),
        },
        Row {
            name: "TIC with flag 01",
            formats: ONE,
            length: 0x2000,
            contents: &[
                Entry::Ccw(0x100, READ, 0x00, 1, 0x200),
                Entry::Ccw(0x108, TIC, 0x01, 0, 0x100),
            ],
            place: At::Later(0x108),
            expected: Err(Refused {
                rule: 5,
                names: 0x108,
                counts_from: 0x108,
            }),
        },
        Row {
            name: "TIC with count 1",
            formats: ONE,
            length: 0x2000,
            contents: &[
                Entry::Ccw(0x100, READ, 0x00, 1, 0x200),
                Entry::Ccw(0x108, TIC, 0x00, 1, 0x100),
            ],
            place: At::Later(0x108),
            expected: Err(Refused {
                rule: 5,
                names: 0x108,
                counts_from: 0x108,
            }),
        },
        Row {
            name: "rule 5 before rule 6: flag 08 and count 0",
            formats: BOTH,
            length: 0x2000,
            contents: &[Entry::Ccw(0x100, READ, 0x08, 0, 0x200)],
            place: At::First(0x100),
            expected: Err(Refused {
                rule: 5,
                names: 0x100,
                counts_from: 0x100,
            }),
        },
        Row {
            name: "rule 5 before rule 1: TIC with a flag to 104",
            formats: ONE,
            length: 0x2000,
            contents: &[Entry::Ccw(0x108, TIC, 0x20, 0, 0x104)],
            place: At::Later(0x108),
            expected: Err(Refused {
                rule: 5,
                names: 0x108,
                counts_from: 0x108,
            }),
        },
    ],
};

pub const RULE_6: Section = Section {
    rule: 6,
    title: "the count is not 0",
    rows: &[
        Row {
            name: "count 1",
            formats: BOTH,
            length: 0x2000,
            contents: &[Entry::Ccw(0x100, READ, 0x00, 1, 0x200)],
            place: At::First(0x100),
            expected: Ok(Accepted {
                ccw: 0x100,
                code: READ,
                area: &[Piece {
                    first: 0x200,
                    size: 1,
                }],
            }),
        },
        Row {
            name: "count 0",
            formats: BOTH,
            length: 0x2000,
            contents: &[Entry::Ccw(0x100, READ, 0x00, 0, 0x200)],
            place: At::First(0x100),
            expected: Err(Refused {
                rule: 6,
                names: 0x100,
                counts_from: 0x100,
            }),
        },
        Row {
            name: "count 256",
            formats: BOTH,
            length: 0x2000,
            contents: &[Entry::Ccw(0x100, READ, 0x00, 256, 0x200)],
            place: At::First(0x100),
            expected: Ok(Accepted {
                ccw: 0x100,
                code: READ,
                area: &[Piece {
                    first: 0x200,
                    size: 256,
                }],
            }),
        },
        Row {
            name: "count 0 with a read in force",
            formats: BOTH,
            length: 0x2000,
            contents: &[Entry::Ccw(0x100, READ, 0x00, 0, 0x200)],
            place: At::InForce(0x100, READ),
            expected: Err(Refused {
                rule: 6,
                names: 0x100,
                counts_from: 0x100,
            }),
        },
        Row {
            name: "TIC to a CCW with count 0",
            formats: BOTH,
            length: 0x2000,
            contents: &[
                Entry::Ccw(0x100, READ, 0x00, 0, 0x200),
                Entry::Tic(0x108, 0x100),
            ],
            place: At::Later(0x108),
            expected: Err(Refused {
                rule: 6,
                names: 0x100,
                counts_from: 0x100,
            }),
        },
        Row {
            name: "rule 6 before rule 7: count 0 and a list at 202",
            formats: BOTH,
            length: 0x2000,
            contents: &[Entry::Ccw(0x100, READ, 0x04, 0, 0x202)],
            place: At::First(0x100),
            expected: Err(Refused {
                rule: 6,
                names: 0x100,
                counts_from: 0x100,
            }),
        },
    ],
};

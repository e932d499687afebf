use super::{BOTH, ONE, READ, READ_BACKWARD, ZERO};
use crate::row::{Accepted, At, Entry, Refused, Row, Section};
use rules::pieces::Piece;

pub const RULE_7: Section = Section {
    rule: 7,
    title: "the address of an indirect list is a multiple of 4",
    rows: &[
        Row {
            name: "list at 200",
            formats: BOTH,
            length: 0x2000,
            contents: &[
                Entry::Ccw(0x100, READ, 0x04, 1, 0x200),
                Entry::Word(0x200, 0x300),
            ],
            place: At::First(0x100),
            expected: Ok(Accepted {
                ccw: 0x100,
                code: READ,
                area: &[Piece {
                    first: 0x300,
                    size: 1,
                }],
            }),
        },
        Row {
            name: "list at 201",
            formats: BOTH,
            length: 0x2000,
            contents: &[
                Entry::Ccw(0x100, READ, 0x04, 1, 0x201),
                Entry::Word(0x201, 0x300),
            ],
            place: At::First(0x100),
            expected: Err(Refused {
                rule: 7,
                names: 0x100,
                counts_from: 0x100,
            }),
        },
        Row {
            name: "list at 202",
            formats: BOTH,
            length: 0x2000,
            contents: &[
                Entry::Ccw(0x100, READ, 0x04, 1, 0x202),
                Entry::Word(0x202, 0x300),
            ],
            place: At::First(0x100),
            expected: Err(Refused {
                rule: 7,
                names: 0x100,
                counts_from: 0x100,
            }),
        },
        Row {
            name: "list at 203",
            formats: BOTH,
            length: 0x2000,
            contents: &[
                Entry::Ccw(0x100, READ, 0x04, 1, 0x203),
                Entry::Word(0x203, 0x300),
            ],
            place: At::First(0x100),
            expected: Err(Refused {
                rule: 7,
                names: 0x100,
                counts_from: 0x100,
            }),
        },
        Row {
            name: "list at 204",
            formats: BOTH,
            length: 0x2000,
            contents: &[
                Entry::Ccw(0x100, READ, 0x04, 1, 0x204),
                Entry::Word(0x204, 0x300),
            ],
            place: At::First(0x100),
            expected: Ok(Accepted {
                ccw: 0x100,
                code: READ,
                area: &[Piece {
                    first: 0x300,
                    size: 1,
                }],
            }),
        },
        Row {
            name: "address 202 without a list",
            formats: BOTH,
            length: 0x2000,
            contents: &[Entry::Ccw(0x100, READ, 0x00, 1, 0x202)],
            place: At::First(0x100),
            expected: Ok(Accepted {
                ccw: 0x100,
                code: READ,
                area: &[Piece {
                    first: 0x202,
                    size: 1,
                }],
            }),
        },
        Row {
            name: "TIC to a CCW with a list at 202",
            formats: BOTH,
            length: 0x2000,
            contents: &[
                Entry::Ccw(0x100, READ, 0x04, 1, 0x202),
                Entry::Word(0x202, 0x300),
                Entry::Tic(0x108, 0x100),
            ],
            place: At::Later(0x108),
            expected: Err(Refused {
                rule: 7,
                names: 0x100,
                counts_from: 0x100,
            }),
        },
        Row {
            name: "rule 7 before rule 8: list at 2002, behind the end",
            formats: BOTH,
            length: 0x2000,
            contents: &[Entry::Ccw(0x100, READ, 0x04, 1, 0x2002)],
            place: At::First(0x100),
            expected: Err(Refused {
                rule: 7,
                names: 0x100,
                counts_from: 0x100,
            }),
        },
    ],
};

pub const RULE_8: Section = Section {
    rule: 8,
    title: "the 4 bytes of an indirect word are inside storage",
    rows: &[
        Row {
            name: "list in the last 4 bytes of storage",
            formats: BOTH,
            length: 0x2000,
            contents: &[
                Entry::Ccw(0x100, READ, 0x04, 1, 0x1FFC),
                Entry::Word(0x1FFC, 0x300),
            ],
            place: At::First(0x100),
            expected: Ok(Accepted {
                ccw: 0x100,
                code: READ,
                area: &[Piece {
                    first: 0x300,
                    size: 1,
                }],
            }),
        },
        Row {
            name: "storage 1 byte shorter",
            formats: BOTH,
            length: 0x1FFF,
            contents: &[
                Entry::Ccw(0x100, READ, 0x04, 1, 0x1FFC),
                Entry::Word(0x1FFC, 0x300),
            ],
            place: At::First(0x100),
            expected: Err(Refused {
                rule: 8,
                names: 0x1FFC,
                counts_from: 0x100,
            }),
        },
        Row {
            name: "list 4 bytes further",
            formats: BOTH,
            length: 0x2000,
            contents: &[Entry::Ccw(0x100, READ, 0x04, 1, 0x2000)],
            place: At::First(0x100),
            expected: Err(Refused {
                rule: 8,
                names: 0x2000,
                counts_from: 0x100,
            }),
        },
        Row {
            name: "second word in the last 4 bytes of storage",
            formats: BOTH,
            length: 0x2000,
            contents: &[
                Entry::Ccw(0x100, READ, 0x04, 4, 0x1FF8),
                Entry::Word(0x1FF8, 0x7FE),
                Entry::Word(0x1FFC, 0x1000),
            ],
            place: At::First(0x100),
            expected: Ok(Accepted {
                ccw: 0x100,
                code: READ,
                area: &[
                    Piece {
                        first: 0x7FE,
                        size: 2,
                    },
                    Piece {
                        first: 0x1000,
                        size: 2,
                    },
                ],
            }),
        },
        Row {
            name: "second word behind the end",
            formats: BOTH,
            length: 0x2000,
            contents: &[
                Entry::Ccw(0x100, READ, 0x04, 4, 0x1FFC),
                Entry::Word(0x1FFC, 0x7FE),
            ],
            place: At::First(0x100),
            expected: Err(Refused {
                rule: 8,
                names: 0x2000,
                counts_from: 0x100,
            }),
        },
        Row {
            name: "second word behind the end, and not needed",
            formats: BOTH,
            length: 0x2000,
            contents: &[
                Entry::Ccw(0x100, READ, 0x04, 2, 0x1FFC),
                Entry::Word(0x1FFC, 0x7FE),
            ],
            place: At::First(0x100),
            expected: Ok(Accepted {
                ccw: 0x100,
                code: READ,
                area: &[Piece {
                    first: 0x7FE,
                    size: 2,
                }],
            }),
        },
        Row {
            name: "TIC to a CCW with a list behind the end",
            formats: BOTH,
            length: 0x2000,
            contents: &[
                Entry::Ccw(0x100, READ, 0x04, 1, 0x2000),
                Entry::Tic(0x108, 0x100),
            ],
            place: At::Later(0x108),
            expected: Err(Refused {
                rule: 8,
                names: 0x2000,
                counts_from: 0x100,
            }),
        },
        Row {
            name: "list at the highest multiple of 4",
            formats: ZERO,
            length: 0x2000,
            contents: &[Entry::Ccw(0x100, READ, 0x04, 1, 0xFFFFFC)],
            place: At::First(0x100),
            expected: Err(Refused {
                rule: 8,
                names: 0xFFFFFC,
                counts_from: 0x100,
            }),
        },
        Row {
            name: "list at the highest multiple of 4",
            formats: ONE,
            length: 0x2000,
            contents: &[Entry::Ccw(0x100, READ, 0x04, 1, 0xFFFFFFFC)],
            place: At::First(0x100),
            expected: Err(Refused {
                rule: 8,
                names: 0xFFFFFFFC,
                counts_from: 0x100,
            }),
        },
    ],
};

pub const RULE_9: Section = Section {
    rule: 9,
    title: "a later indirect word starts its block, or ends it for read backward",
    rows: &[
        Row {
            name: "words 7FE and 1000",
            formats: BOTH,
            length: 0x2000,
            contents: &[
                Entry::Ccw(0x100, READ, 0x04, 4, 0x200),
                Entry::Word(0x200, 0x7FE),
                Entry::Word(0x204, 0x1000),
            ],
            place: At::First(0x100),
            expected: Ok(Accepted {
                ccw: 0x100,
                code: READ,
                area: &[
                    Piece {
                        first: 0x7FE,
                        size: 2,
                    },
                    Piece {
                        first: 0x1000,
                        size: 2,
                    },
                ],
            }),
        },
        Row {
            name: "words 7FE and 1001",
            formats: BOTH,
            length: 0x2000,
            contents: &[
                Entry::Ccw(0x100, READ, 0x04, 4, 0x200),
                Entry::Word(0x200, 0x7FE),
                Entry::Word(0x204, 0x1001),
            ],
            place: At::First(0x100),
            expected: Err(Refused {
                rule: 9,
                names: 0x204,
                counts_from: 0x100,
            }),
        },
        Row {
            name: "words 7FE and FFF",
            formats: BOTH,
            length: 0x2000,
            contents: &[
                Entry::Ccw(0x100, READ, 0x04, 4, 0x200),
                Entry::Word(0x200, 0x7FE),
                Entry::Word(0x204, 0xFFF),
            ],
            place: At::First(0x100),
            expected: Err(Refused {
                rule: 9,
                names: 0x204,
                counts_from: 0x100,
            }),
        },
        Row {
            name: "words 7FE and 1001, the second not needed",
            formats: BOTH,
            length: 0x2000,
            contents: &[
                Entry::Ccw(0x100, READ, 0x04, 2, 0x200),
                Entry::Word(0x200, 0x7FE),
                Entry::Word(0x204, 0x1001),
            ],
            place: At::First(0x100),
            expected: Ok(Accepted {
                ccw: 0x100,
                code: READ,
                area: &[Piece {
                    first: 0x7FE,
                    size: 2,
                }],
            }),
        },
        Row {
            name: "words 7FE and 000, one block twice",
            formats: BOTH,
            length: 0x2000,
            contents: &[
                Entry::Ccw(0x100, READ, 0x04, 4, 0x200),
                Entry::Word(0x200, 0x7FE),
                Entry::Word(0x204, 0x00),
            ],
            place: At::First(0x100),
            expected: Ok(Accepted {
                ccw: 0x100,
                code: READ,
                area: &[
                    Piece {
                        first: 0x7FE,
                        size: 2,
                    },
                    Piece {
                        first: 0x00,
                        size: 2,
                    },
                ],
            }),
        },
        Row {
            name: "words 7FE, 1000 and 800",
            formats: BOTH,
            length: 0x2000,
            contents: &[
                Entry::Ccw(0x100, READ, 0x04, 2051, 0x200),
                Entry::Word(0x200, 0x7FE),
                Entry::Word(0x204, 0x1000),
                Entry::Word(0x208, 0x800),
            ],
            place: At::First(0x100),
            expected: Ok(Accepted {
                ccw: 0x100,
                code: READ,
                area: &[
                    Piece {
                        first: 0x7FE,
                        size: 2,
                    },
                    Piece {
                        first: 0x1000,
                        size: 2048,
                    },
                    Piece {
                        first: 0x800,
                        size: 1,
                    },
                ],
            }),
        },
        Row {
            name: "words 7FE, 1000 and 801",
            formats: BOTH,
            length: 0x2000,
            contents: &[
                Entry::Ccw(0x100, READ, 0x04, 2051, 0x200),
                Entry::Word(0x200, 0x7FE),
                Entry::Word(0x204, 0x1000),
                Entry::Word(0x208, 0x801),
            ],
            place: At::First(0x100),
            expected: Err(Refused {
                rule: 9,
                names: 0x208,
                counts_from: 0x100,
            }),
        },
        Row {
            name: "backward, words 1001 and 17FF",
            formats: BOTH,
            length: 0x2000,
            contents: &[
                Entry::Ccw(0x100, READ_BACKWARD, 0x04, 4, 0x200),
                Entry::Word(0x200, 0x1001),
                Entry::Word(0x204, 0x17FF),
            ],
            place: At::First(0x100),
            expected: Ok(Accepted {
                ccw: 0x100,
                code: READ_BACKWARD,
                area: &[
                    Piece {
                        first: 0x1001,
                        size: 2,
                    },
                    Piece {
                        first: 0x17FF,
                        size: 2,
                    },
                ],
            }),
        },
        Row {
            name: "backward, words 1001 and 17FE",
            formats: BOTH,
            length: 0x2000,
            contents: &[
                Entry::Ccw(0x100, READ_BACKWARD, 0x04, 4, 0x200),
                Entry::Word(0x200, 0x1001),
                Entry::Word(0x204, 0x17FE),
            ],
            place: At::First(0x100),
            expected: Err(Refused {
                rule: 9,
                names: 0x204,
                counts_from: 0x100,
            }),
        },
        Row {
            name: "backward, words 1001 and 1800",
            formats: BOTH,
            length: 0x2000,
            contents: &[
                Entry::Ccw(0x100, READ_BACKWARD, 0x04, 4, 0x200),
                Entry::Word(0x200, 0x1001),
                Entry::Word(0x204, 0x1800),
            ],
            place: At::First(0x100),
            expected: Err(Refused {
                rule: 9,
                names: 0x204,
                counts_from: 0x100,
            }),
        },
        Row {
            name: "backward in force, words 1001 and 17FF",
            formats: BOTH,
            length: 0x2000,
            contents: &[
                Entry::Ccw(0x100, READ, 0x04, 4, 0x200),
                Entry::Word(0x200, 0x1001),
                Entry::Word(0x204, 0x17FF),
            ],
            place: At::InForce(0x100, READ_BACKWARD),
            expected: Ok(Accepted {
                ccw: 0x100,
                code: READ_BACKWARD,
                area: &[
                    Piece {
                        first: 0x1001,
                        size: 2,
                    },
                    Piece {
                        first: 0x17FF,
                        size: 2,
                    },
                ],
            }),
        },
        Row {
            name: "backward in force, words 1001 and 1000",
            formats: BOTH,
            length: 0x2000,
            contents: &[
                Entry::Ccw(0x100, READ, 0x04, 4, 0x200),
                Entry::Word(0x200, 0x1001),
                Entry::Word(0x204, 0x1000),
            ],
            place: At::InForce(0x100, READ_BACKWARD),
            expected: Err(Refused {
                rule: 9,
                names: 0x204,
                counts_from: 0x100,
            }),
        },
        Row {
            name: "rule 9 before rule 10: words 7FE and 2001",
            formats: BOTH,
            length: 0x2000,
            contents: &[
                Entry::Ccw(0x100, READ, 0x04, 4, 0x200),
                Entry::Word(0x200, 0x7FE),
                Entry::Word(0x204, 0x2001),
            ],
            place: At::First(0x100),
            expected: Err(Refused {
                rule: 9,
                names: 0x204,
                counts_from: 0x100,
            }),
        },
        Row {
            name: "the first word before the second: words 27FE and 1001",
            formats: BOTH,
            length: 0x2000,
            contents: &[
                Entry::Ccw(0x100, READ, 0x04, 4, 0x200),
                Entry::Word(0x200, 0x27FE),
                Entry::Word(0x204, 0x1001),
            ],
            place: At::First(0x100),
            expected: Err(Refused {
                rule: 10,
                names: 0x27FE,
                counts_from: 0x100,
            }),
        },
    ],
};

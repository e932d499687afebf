use super::{BOTH, CONTROL, ONE, READ, READ_BACKWARD, WRITE, ZERO};
use crate::row::{Accepted, At, Entry, Refused, Row, Section};
use rules::pieces::Piece;

pub const RULE_10: Section = Section {
    rule: 10,
    title: "every byte of the area is inside storage",
    rows: &[
        Row {
            name: "from 1FFF, 1 byte",
            formats: BOTH,
            length: 0x2000,
            contents: &[Entry::Ccw(0x100, WRITE, 0x00, 1, 0x1FFF)],
            place: At::First(0x100),
            expected: Ok(Accepted {
                ccw: 0x100,
                code: WRITE,
                area: &[Piece {
                    first: 0x1FFF,
                    size: 1,
                }],
            }),
        },
        Row {
            name: "from 1FFF, 2 bytes",
            formats: BOTH,
            length: 0x2000,
            contents: &[Entry::Ccw(0x100, WRITE, 0x00, 2, 0x1FFF)],
            place: At::First(0x100),
            expected: Err(Refused {
                rule: 10,
                names: 0x2000,
                counts_from: 0x100,
            }),
        },
        Row {
            name: "from 2000, 1 byte",
            formats: BOTH,
            length: 0x2000,
            contents: &[Entry::Ccw(0x100, WRITE, 0x00, 1, 0x2000)],
            place: At::First(0x100),
            expected: Err(Refused {
                rule: 10,
                names: 0x2000,
                counts_from: 0x100,
            }),
        },
        Row {
            name: "from 2001, 1 byte",
            formats: BOTH,
            length: 0x2000,
            contents: &[Entry::Ccw(0x100, WRITE, 0x00, 1, 0x2001)],
            place: At::First(0x100),
            expected: Err(Refused {
                rule: 10,
                names: 0x2001,
                counts_from: 0x100,
            }),
        },
        Row {
            name: "from 7FE, 4 bytes",
            formats: BOTH,
            length: 0x2000,
            contents: &[Entry::Ccw(0x100, WRITE, 0x00, 4, 0x7FE)],
            place: At::First(0x100),
            expected: Ok(Accepted {
                ccw: 0x100,
                code: WRITE,
                area: &[
                    Piece {
                        first: 0x7FE,
                        size: 2,
                    },
                    Piece {
                        first: 0x800,
                        size: 2,
                    },
                ],
            }),
        },
        Row {
            name: "from 1000, 4096 bytes",
            formats: BOTH,
            length: 0x2000,
            contents: &[Entry::Ccw(0x100, READ, 0x00, 4096, 0x1000)],
            place: At::First(0x100),
            expected: Ok(Accepted {
                ccw: 0x100,
                code: READ,
                area: &[
                    Piece {
                        first: 0x1000,
                        size: 2048,
                    },
                    Piece {
                        first: 0x1800,
                        size: 2048,
                    },
                ],
            }),
        },
        Row {
            name: "from 1000, 4097 bytes",
            formats: BOTH,
            length: 0x2000,
            contents: &[Entry::Ccw(0x100, READ, 0x00, 4097, 0x1000)],
            place: At::First(0x100),
            expected: Err(Refused {
                rule: 10,
                names: 0x2000,
                counts_from: 0x100,
            }),
        },
        Row {
            name: "from 1FFF, 2 bytes, SKIP",
            formats: BOTH,
            length: 0x2000,
            contents: &[Entry::Ccw(0x100, READ, 0x10, 2, 0x1FFF)],
            place: At::First(0x100),
            expected: Err(Refused {
                rule: 10,
                names: 0x2000,
                counts_from: 0x100,
            }),
        },
        Row {
            name: "from 1FFF, 2 bytes, a control command",
            formats: BOTH,
            length: 0x2000,
            contents: &[Entry::Ccw(0x100, CONTROL, 0x00, 2, 0x1FFF)],
            place: At::First(0x100),
            expected: Err(Refused {
                rule: 10,
                names: 0x2000,
                counts_from: 0x100,
            }),
        },
        Row {
            name: "TIC to a CCW from 1FFF, 2 bytes",
            formats: BOTH,
            length: 0x2000,
            contents: &[
                Entry::Ccw(0x100, WRITE, 0x00, 2, 0x1FFF),
                Entry::Tic(0x108, 0x100),
            ],
            place: At::Later(0x108),
            expected: Err(Refused {
                rule: 10,
                names: 0x2000,
                counts_from: 0x100,
            }),
        },
        Row {
            name: "from the highest address",
            formats: ZERO,
            length: 0x2000,
            contents: &[Entry::Ccw(0x100, WRITE, 0x00, 65535, 0xFFFFFF)],
            place: At::First(0x100),
            expected: Err(Refused {
                rule: 10,
                names: 0xFFFFFF,
                counts_from: 0x100,
            }),
        },
        Row {
            name: "from the highest address",
            formats: ONE,
            length: 0x2000,
            contents: &[Entry::Ccw(0x100, WRITE, 0x00, 65535, 0xFFFFFFFF)],
            place: At::First(0x100),
            expected: Err(Refused {
                rule: 10,
                names: 0xFFFFFFFF,
                counts_from: 0x100,
            }),
        },
        Row {
            name: "backward from 1FFF, 1 byte",
            formats: BOTH,
            length: 0x2000,
            contents: &[Entry::Ccw(0x100, READ_BACKWARD, 0x00, 1, 0x1FFF)],
            place: At::First(0x100),
            expected: Ok(Accepted {
                ccw: 0x100,
                code: READ_BACKWARD,
                area: &[Piece {
                    first: 0x1FFF,
                    size: 1,
                }],
            }),
        },
        Row {
            name: "backward from 2000, 1 byte",
            formats: BOTH,
            length: 0x2000,
            contents: &[Entry::Ccw(0x100, READ_BACKWARD, 0x00, 1, 0x2000)],
            place: At::First(0x100),
            expected: Err(Refused {
                rule: 10,
                names: 0x2000,
                counts_from: 0x100,
            }),
        },
        Row {
            name: "backward from 2001, 2 bytes",
            formats: BOTH,
            length: 0x2000,
            contents: &[Entry::Ccw(0x100, READ_BACKWARD, 0x00, 2, 0x2001)],
            place: At::First(0x100),
            expected: Err(Refused {
                rule: 10,
                names: 0x2001,
                counts_from: 0x100,
            }),
        },
        Row {
            name: "backward from 1, 2 bytes",
            formats: BOTH,
            length: 0x2000,
            contents: &[Entry::Ccw(0x100, READ_BACKWARD, 0x00, 2, 0x01)],
            place: At::First(0x100),
            expected: Ok(Accepted {
                ccw: 0x100,
                code: READ_BACKWARD,
                area: &[Piece {
                    first: 0x01,
                    size: 2,
                }],
            }),
        },
        Row {
            name: "backward from 1, 3 bytes",
            formats: BOTH,
            length: 0x2000,
            contents: &[Entry::Ccw(0x100, READ_BACKWARD, 0x00, 3, 0x01)],
            place: At::First(0x100),
            expected: Err(Refused {
                rule: 10,
                names: 0xFFFFFFFF,
                counts_from: 0x100,
            }),
        },
        Row {
            name: "backward from 801, 4 bytes",
            formats: BOTH,
            length: 0x2000,
            contents: &[Entry::Ccw(0x100, READ_BACKWARD, 0x00, 4, 0x801)],
            place: At::First(0x100),
            expected: Ok(Accepted {
                ccw: 0x100,
                code: READ_BACKWARD,
                area: &[
                    Piece {
                        first: 0x801,
                        size: 2,
                    },
                    Piece {
                        first: 0x7FF,
                        size: 2,
                    },
                ],
            }),
        },
        Row {
            name: "backward in force, from 1, 2 bytes",
            formats: BOTH,
            length: 0x2000,
            contents: &[Entry::Ccw(0x100, READ, 0x00, 2, 0x01)],
            place: At::InForce(0x100, READ_BACKWARD),
            expected: Ok(Accepted {
                ccw: 0x100,
                code: READ_BACKWARD,
                area: &[Piece {
                    first: 0x01,
                    size: 2,
                }],
            }),
        },
        Row {
            name: "backward in force, from 1, 3 bytes",
            formats: BOTH,
            length: 0x2000,
            contents: &[Entry::Ccw(0x100, READ, 0x00, 3, 0x01)],
            place: At::InForce(0x100, READ_BACKWARD),
            expected: Err(Refused {
                rule: 10,
                names: 0xFFFFFFFF,
                counts_from: 0x100,
            }),
        },
        Row {
            name: "code 0C with a read in force, from 1, 3 bytes",
            formats: BOTH,
            length: 0x2000,
            contents: &[Entry::Ccw(0x100, READ_BACKWARD, 0x00, 3, 0x01)],
            place: At::InForce(0x100, READ),
            expected: Ok(Accepted {
                ccw: 0x100,
                code: READ,
                area: &[Piece {
                    first: 0x01,
                    size: 3,
                }],
            }),
        },
        Row {
            name: "a list, from 1EFF, 1 byte",
            formats: BOTH,
            length: 0x1F00,
            contents: &[
                Entry::Ccw(0x100, READ, 0x04, 1, 0x200),
                Entry::Word(0x200, 0x1EFF),
            ],
            place: At::First(0x100),
            expected: Ok(Accepted {
                ccw: 0x100,
                code: READ,
                area: &[Piece {
                    first: 0x1EFF,
                    size: 1,
                }],
            }),
        },
        Row {
            name: "a list, from 1EFF, 2 bytes",
            formats: BOTH,
            length: 0x1F00,
            contents: &[
                Entry::Ccw(0x100, READ, 0x04, 2, 0x200),
                Entry::Word(0x200, 0x1EFF),
            ],
            place: At::First(0x100),
            expected: Err(Refused {
                rule: 10,
                names: 0x1F00,
                counts_from: 0x100,
            }),
        },
        Row {
            name: "a list, from 1F00, 1 byte",
            formats: BOTH,
            length: 0x1F00,
            contents: &[
                Entry::Ccw(0x100, READ, 0x04, 1, 0x200),
                Entry::Word(0x200, 0x1F00),
            ],
            place: At::First(0x100),
            expected: Err(Refused {
                rule: 10,
                names: 0x1F00,
                counts_from: 0x100,
            }),
        },
        Row {
            name: "a list, second word 1800, up to the end",
            formats: BOTH,
            length: 0x1802,
            contents: &[
                Entry::Ccw(0x100, READ, 0x04, 4, 0x200),
                Entry::Word(0x200, 0x7FE),
                Entry::Word(0x204, 0x1800),
            ],
            place: At::First(0x100),
            expected: Ok(Accepted {
                ccw: 0x100,
                code: READ,
                area: &[
                    Piece {
                        first: 0x7FE,
                        size: 2,
                    },
                    Piece {
                        first: 0x1800,
                        size: 2,
                    },
                ],
            }),
        },
        Row {
            name: "a list, second word 1800, storage 1 byte shorter",
            formats: BOTH,
            length: 0x1801,
            contents: &[
                Entry::Ccw(0x100, READ, 0x04, 4, 0x200),
                Entry::Word(0x200, 0x7FE),
                Entry::Word(0x204, 0x1800),
            ],
            place: At::First(0x100),
            expected: Err(Refused {
                rule: 10,
                names: 0x1801,
                counts_from: 0x100,
            }),
        },
        Row {
            name: "a list, the highest word",
            formats: BOTH,
            length: 0x2000,
            contents: &[
                Entry::Ccw(0x100, READ, 0x04, 1, 0x200),
                Entry::Word(0x200, 0xFFFFFFFF),
            ],
            place: At::First(0x100),
            expected: Err(Refused {
                rule: 10,
                names: 0xFFFFFFFF,
                counts_from: 0x100,
            }),
        },
        Row {
            name: "backward, a list, from 1EFF, 1 byte",
            formats: BOTH,
            length: 0x1F00,
            contents: &[
                Entry::Ccw(0x100, READ_BACKWARD, 0x04, 1, 0x200),
                Entry::Word(0x200, 0x1EFF),
            ],
            place: At::First(0x100),
            expected: Ok(Accepted {
                ccw: 0x100,
                code: READ_BACKWARD,
                area: &[Piece {
                    first: 0x1EFF,
                    size: 1,
                }],
            }),
        },
        Row {
            name: "backward, a list, from 1F00, 1 byte",
            formats: BOTH,
            length: 0x1F00,
            contents: &[
                Entry::Ccw(0x100, READ_BACKWARD, 0x04, 1, 0x200),
                Entry::Word(0x200, 0x1F00),
            ],
            place: At::First(0x100),
            expected: Err(Refused {
                rule: 10,
                names: 0x1F00,
                counts_from: 0x100,
            }),
        },
        Row {
            name: "backward, a list, words 000 and 17FF",
            formats: BOTH,
            length: 0x2000,
            contents: &[
                Entry::Ccw(0x100, READ_BACKWARD, 0x04, 2, 0x200),
                Entry::Word(0x200, 0x00),
                Entry::Word(0x204, 0x17FF),
            ],
            place: At::First(0x100),
            expected: Ok(Accepted {
                ccw: 0x100,
                code: READ_BACKWARD,
                area: &[
                    Piece {
                        first: 0x00,
                        size: 1,
                    },
                    Piece {
                        first: 0x17FF,
                        size: 1,
                    },
                ],
            }),
        },
        Row {
            name: "backward, a list, words 000 and 27FF",
            formats: BOTH,
            length: 0x2000,
            contents: &[
                Entry::Ccw(0x100, READ_BACKWARD, 0x04, 2, 0x200),
                Entry::Word(0x200, 0x00),
                Entry::Word(0x204, 0x27FF),
            ],
            place: At::First(0x100),
            expected: Err(Refused {
                rule: 10,
                names: 0x27FF,
                counts_from: 0x100,
            }),
        },
    ],
};

use format::ccw::Format;
use rules::pieces::Piece;
use rules::place::Place;

// What is written into storage, with the address where it is written.
#[derive(Clone, Copy, Debug)]
pub enum Entry {
    // A CCW: its code, flags, count and address.
    Ccw(u32, u8, u8, u16, u32),
    // A TIC with neither flags nor a count: its target.
    Tic(u32, u32),
    // An indirect word: its value.
    Word(u32, u32),
}

// The place that is taken up.
#[derive(Clone, Copy, Debug)]
pub enum At {
    // The first place of a program.
    First(u32),
    // A later one, with no command in force.
    Later(u32),
    // A later one, with the code in force.
    InForce(u32, u8),
}

impl From<At> for Place {
    fn from(at: At) -> Place {
        match at {
            At::First(address) => Place {
                address,
                first: true,
                command: None,
            },
            At::Later(address) => Place {
                address,
                first: false,
                command: None,
            },
            At::InForce(address, code) => Place {
                address,
                first: false,
                command: Some(code),
            },
        }
    }
}

// A place that keeps the rules: the CCW's address, the code in force with it, and the pieces of its area.
#[derive(Clone, Copy, Debug, PartialEq, Eq)]
pub struct Accepted<'a> {
    pub ccw: u32,
    pub code: u8,
    pub area: &'a [Piece],
}

// One that breaks a rule: its number, the address that it names, and the one that a status word counts from. Numbers, as
// they are printed, apart from the enum that is checked.
#[derive(Clone, Copy, Debug, PartialEq, Eq)]
pub struct Refused {
    pub rule: u8,
    pub names: u32,
    pub counts_from: u32,
}

// A place in a storage of so many bytes, zeros but for the contents.
#[derive(Clone, Copy, Debug)]
pub struct Row {
    pub name: &'static str,
    pub formats: &'static [Format],
    pub length: usize,
    pub contents: &'static [Entry],
    pub place: At,
    // what taking up the place must answer
    pub expected: Result<Accepted<'static>, Refused>,
}

// The rows of one rule.
#[derive(Clone, Copy, Debug)]
pub struct Section {
    pub rule: u8,
    pub title: &'static str,
    pub rows: &'static [Row],
}

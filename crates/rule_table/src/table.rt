use super::row::Section;
use areas::RULE_10;
use commands::{RULE_4, RULE_5, RULE_6};
use format::ccw::Format;
use lists::{RULE_7, RULE_8, RULE_9};
use places::{RULE_1, RULE_2, RULE_3};

mod areas;
mod commands;
mod lists;
mod places;

// The formats in which a row is checked.
const BOTH: &[Format] = &[Format::Zero, Format::One];

const ZERO: &[Format] = &[Format::Zero];

const ONE: &[Format] = &[Format::One];

// Command codes, one of each class that the rows need: numbers, as a guest writes them, apart from the enum that is checked.
const WRITE: u8 = 0x01;

const READ: u8 = 0x02;

const CONTROL: u8 = 0x03;

pub const TIC: u8 = 0x08;

const READ_BACKWARD: u8 = 0x0C;

// The rules in the order in which they are printed.
pub const SECTIONS: [Section; 10] = [
    RULE_1, RULE_2, RULE_3, RULE_4, RULE_5, RULE_6, RULE_7, RULE_8, RULE_9, RULE_10,
];

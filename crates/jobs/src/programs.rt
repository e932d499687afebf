pub mod console_jobs;
pub mod disk_jobs;
pub mod tape_jobs;

// What stands in the jobs' programs, as a guest writes it: numbers, apart from the enums of the code that reads them.

// Command codes that every device knows, and the TIC.
const NO_OPERATION: u8 = 0x03;

const SENSE: u8 = 0x04;

const TIC: u8 = 0x08;

// In a data chain the code of a CCW does not count.
const ANY: u8 = 0x00;

// Flags.
const CHAIN_DATA: u8 = 0x80;

const CHAIN_COMMAND: u8 = 0x40;

const SUPPRESS_LENGTH: u8 = 0x20;

const SKIP: u8 = 0x10;

const INTERRUPT: u8 = 0x08;

const INDIRECT: u8 = 0x04;

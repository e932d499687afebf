// The tape: a device that keeps up to 64 blocks of bytes in a row, writes and reads them at a position, reads
// them backward, rewinds, and reports by a sense byte. `code` says which commands there are, `reel` keeps the
// blocks, `reversing` hands out the bytes of one forward or backward, and `state` is the device.
#![tactic(auto)]

pub mod code;
mod reel;
mod reversing;
pub mod state;

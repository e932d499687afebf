// The disk: a device of 64 blocks of 512 bytes. A program names blocks by a locate, and a write or a read
// that follows moves their bytes. `blocks` says where blocks lie, `extent` how far a move has come, `code`
// which commands there are, and `state` is the device.
#![tactic(auto)]

pub mod blocks;
pub mod code;
pub(crate) mod extent;
pub mod state;

// What a device is to the channel: a state, four calls that are fixed functions of it, and the laws
// that every device keeps. Code over a device is proved here once, for all of them.
#![tactic(auto)]

pub mod interface;
pub mod skipping;

// What stands in storage and in answers: CCWs of both formats, their flags and command classes, values with the address they
// were read at, refusals and status words; and the laying of bytes into a storage.
// Nothing here knows of devices, channels or guests.
#![tactic(auto)]

pub mod big_endian;
pub mod ccw;
pub mod class;
pub mod flags;
pub mod laying;
pub mod placed;
pub mod refusal;
pub mod status;

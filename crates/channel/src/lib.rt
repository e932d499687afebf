// The channel: a machine over a storage, a format and any device. One step of a run takes up and runs one CCW;
// bytes move piece by piece straight between storage and device.
#![tactic(auto)]

pub mod moving;
pub mod run;
pub mod step;

// What every device of this machine shares: a sense byte, the codes that report and do nothing, and the
// answers to unknown codes and to calls out of turn. A model adds what is a device's own, and the two
// together keep the laws of a device. `state` is the device, `model` what a model is, `status` and `sense` name
// the bytes that a device answers, and `copying` hands out bytes and keeps those that are accepted.
#![tactic(auto)]

pub mod copying;
pub mod model;
pub mod sense;
pub mod state;
pub mod status;

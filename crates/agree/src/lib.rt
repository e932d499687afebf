// A guest's channel program does on the host what the guest wrote. The host's channel runs the program frame, in format 1
// and with host addresses; beside it a channel could run the guest's own bytes in format 0. The two are held together
// here, CCW by CCW, for every map and every device.
#![tactic(auto)]

pub mod meanwhile;
pub mod twin;

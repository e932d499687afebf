// The console: a device that prints on paper, hands over one waiting line, and reports by a sense byte.
#![tactic(auto)]

pub mod state;

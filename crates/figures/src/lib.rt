// Worked cases of the channel, computed by the prover from the definitions and run by the code: the
// read of a waiting line with a count that is too long and one that fits, and two that turn on rules 3 and 4.
#![tactic(auto)]

pub mod console_read;

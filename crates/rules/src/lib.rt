// Taking up a place of a channel program: rules 1 to 10, for both formats, over any readable storage.
// The walk of the translator and the channel both go by this one crate. It also prints what was taken up, and what was broken.
#![tactic(auto)]

pub mod area;
pub mod finding;
pub mod pieces;
pub mod place;
pub mod printing;
pub mod storage;
pub mod taking_up;

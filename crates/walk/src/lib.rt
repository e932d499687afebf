// The walk over a guest's channel program: which CCWs it can come to, in which order, and where it closes.
// It says what a program's own bytes are, and refuses a program that is too long or reads over itself.
#![tactic(auto)]

pub mod cells;
pub mod own_bytes;
mod visited;
pub mod walking;

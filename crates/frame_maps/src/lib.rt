// Maps that have their frames themselves: a page table, with a frame for each page and a set of free frames, and
// a run of neighbouring frames.
#![tactic(auto)]

pub mod page_table;
pub mod run;

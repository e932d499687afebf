// Lists of at most a fixed number of elements, which lie in the value itself, are copied with it and never allocate.
// The kit's `ArrayVec` is such a list too, but no value that holds one is `Copy`.
#![tactic(auto)]

pub mod list;

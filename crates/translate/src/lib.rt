// A guest's channel program as one with host addresses: the program frame, the table that leads back from its cells
// to the guest's CCWs, the program's own bytes, and the pages that it has data in.
#![tactic(auto)]

pub mod back_table;
pub mod data_pages;
pub mod frame;
pub mod kept;
pub mod translating;

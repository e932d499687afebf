// Where a guest's storage lies in the host's. A map gives each page of a guest a frame of the host, and
// says which frames are free. Over every map alike, guest addresses are placed in the host and found again,
// and the guest's bytes are read where they lie.
#![tactic(auto)]

pub mod address;
pub mod interface;
pub mod placing;
pub mod view;

ghost use Rattle.std.specs.Prelude.{◌≡◌, ◌≤◌, length};
ghost use Rattle.disk.specs.DiskState.{location_end};

use crate::blocks::{Location, STORE_SIZE};
use crate::extent::Extent;
use arrayvec::ArrayVec;
use unit::state::Unit;

pub mod access;
pub mod commands;

// How many bytes a locate takes.
const PARAMETERS: usize = 4;

// What the open command does.
#[derive(Debug, Drop, PartialEq, Eq)]
enum Phase {
    Idle,
    // A locate, and the parameters that it has taken.
    Locating(ArrayVec<u8, PARAMETERS>),
    // A write or a read of what is left of the located blocks.
    Writing(Extent),
    Reading(Extent),
}

// What is a disk's own.
#[derive(Debug, Drop)]
pub struct DiskModel {
    bytes: [u8; STORE_SIZE],
    location: Option<Location>,
    phase: Phase,
    ghost full: { length bytes ≡ 32768 },
    ghost location_fits: { location_end location ≤ 64 },
}

// The whole device.
pub type Disk = Unit<DiskModel>;

ghost use Rattle.std.specs.Prelude.{◌≡◌, ◌<◌, ◌≤◌, length, replicate, MatchOption, ◌≢◌};
ghost use Rattle.disk.specs.Blocks.{block_at};
ghost use Rattle.disk.specs.DiskMachine.{at_first};
ghost use Rattle.disk.specs.DiskState.{Whole};
ghost use Rattle.disk.specs.Meaning.{meaning, model_meaning};

use super::{Disk, DiskModel, Phase};
use crate::blocks::{BLOCK_SIZE, Location, STORE_SIZE};
use unit::state::Unit;

// A disk that holds these bytes, with no location and nothing open.
fn disk_of(bytes: [u8; STORE_SIZE]) -> Disk
    ensures { meaning result ≡ at_first bytes }
{
    Unit::new(DiskModel {
        bytes,
        location: None,
        phase: Phase::Idle,
    })
}

// A disk that holds these bytes, or none if they are not as many as a disk has.
pub fn new_disk(bytes: &[u8]) -> Option<Disk>
    ensures { MatchOption result (length bytes.now ≢ 32768) (λ made. (length bytes.now ≡ 32768) × (meaning made ≡ at_first bytes.now)) }
{
    let store = <[u8; STORE_SIZE]>::try_from(bytes).ok()?;
    Some(disk_of(store))
}

// A disk of zeros.
pub fn zero_disk() -> Disk
    ensures { meaning result ≡ at_first (replicate 32768 0) }
{
    disk_of([0; STORE_SIZE])
}

impl DiskModel {
    // All the bytes.
    pub fn bytes(&self) -> &[u8]
        ensures value { result.now ≡ (model_meaning self.now).bytes }
        ensures whole { Whole (model_meaning self.now) }
    {
        &self.bytes[..]
    }

    // The bytes of a block, or none if there is no such block.
    pub fn block(&self, index: usize) -> Option<&[u8]>
        ensures { MatchOption result (64 ≤ index) (λ found. (index < 64) × (found.now ≡ block_at index (model_meaning self.now).bytes)) }
    {
        let (blocks, _) = self.bytes.as_chunks::<BLOCK_SIZE>();
        let block = blocks.get(index)?;
        Some(block)
    }

    // The blocks that the next write or read is for.
    pub fn location(&self) -> Option<Location>
        ensures { result ≡ (model_meaning self.now).location }
    {
        self.location
    }
}

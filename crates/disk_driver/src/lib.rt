// What a program does with a disk: blocks are located, written, and read back.
#![tactic(auto)]

ghost use Rattle.std.specs.Prelude.{◌≡◌, ℕ, min, true, [], ◌∷◌, ◌++◌, length, take, drop, if◌then◌else◌, Some};
ghost use Rattle.disk.specs.Blocks.{block_at, range_exists, size_of};
ghost use Rattle.disk.specs.Meaning.{meaning};
ghost use Rattle.disk_driver.specs.Programs.{after_read, Idle, located, locating_ends, overlaid, to_read, writing_ends, written};
ghost use Rattle.disk_driver.specs.Theorems.{NotLocated, ReadReturnsWhatWasWritten, WriteChangesNoOtherBlock};

use device::interface::Device;
use disk::blocks::Location;
use disk::code::Code;
use disk::state::Disk;

// Locates blocks, and answers the status.
fn locate(disk: &mut Disk, location: Location) -> u8
    ensures answer { result ≡ (locating_ends location.first location.count (meaning disk.old)).0 }
    ensures became { meaning disk.new ≡ located location.first location.count (meaning disk.old) }
    ensures returned { ReadReturnsWhatWasWritten }
    ensures others { WriteChangesNoOtherBlock }
{
    disk.begin(Code::Locate.into());
    disk.take(&<[u8; 4]>::from(location));
    disk.end()
}

// Writes the bytes to blocks, as a program does, and answers the status.
pub fn write_blocks(disk: &mut Disk, location: Location, bytes: &[u8]) -> u8
    ensures answer { result ≡ (writing_ends (bytes.now ∷ []) (located location.first location.count (meaning disk.old))).0 }
    ensures became { meaning disk.new ≡ written (bytes.now ∷ []) (located location.first location.count (meaning disk.old)) }
    ensures others { WriteChangesNoOtherBlock }
{
    locate(disk, location);
    disk.begin(Code::Write.into());
    disk.take(bytes);
    disk.end()
}

// Reads blocks, as a program does, and answers how many bytes it read.
pub fn read_blocks(disk: &mut Disk, location: Location, buffer: &mut [u8]) -> usize
    ensures became { meaning disk.new ≡ after_read (length buffer.old ∷ []) (located location.first location.count (meaning disk.old)) }
    ensures count { result ≡ min (length buffer.old) (length (to_read (located location.first location.count (meaning disk.old)))) }
    ensures filled { buffer.new ≡ take (length buffer.old) (to_read (located location.first location.count (meaning disk.old))) ++ drop result buffer.old }
    ensures returned { ReadReturnsWhatWasWritten }
{
    locate(disk, location);
    disk.begin(Code::Read.into());
    let n = disk.give(buffer);
    disk.end();
    n
}

// Writes the bytes to blocks and reads them back, if the blocks exist. The answer is whether they do, which the
// location alone tells: it is no mark on what the buffer holds, which is the caller's and is kept where they don't.
pub fn write_and_read_back(
    disk: &mut Disk,
    location: Location,
    bytes: &[u8],
    back: &mut [u8],
) -> bool
    ensures exists { result ≡ range_exists location.first location.count }
    ensures became { meaning disk.new ≡ (if range_exists location.first location.count then after_read (length back.old ∷ []) (located location.first location.count (written (bytes.now ∷ []) (located location.first location.count (meaning disk.old)))) else meaning disk.old) }
    ensures filled { back.new ≡ (if range_exists location.first location.count then overlaid (to_read (located location.first location.count (written (bytes.now ∷ []) (located location.first location.count (meaning disk.old))))) back.old else back.old) }
    ensures same { Idle (meaning disk.old) → result ≡ true → length bytes.now ≡ size_of location.count → length back.old ≡ size_of location.count → back.new ≡ bytes.now }
    ensures kept { Idle (meaning disk.old) → (block : ℕ) → NotLocated block (Some location) → block_at block (meaning disk.new).core.bytes ≡ block_at block (meaning disk.old).core.bytes }
{
    if !location.exists() {
        return false;
    }
    write_blocks(disk, location, bytes);
    read_blocks(disk, location, back);
    true
}

ghost use Rattle.std.specs.Prelude.{◌≡◌, ℕ, ◌≤◌, min, length};
ghost use Rattle.device.specs.Machine.{Machine, due};
ghost use Rattle.device.specs.Laws.{Laws};
ghost use Rattle.device.specs.Parts.{PartsAreOneMove};

use super::interface::Device;

// The bytes that a scratch block holds.
const SCRATCH: usize = 2048;

fn skip_block<D: Device>(size: usize, device: &mut D) -> usize
    requires { size ≤ 2048 }
    ensures moved { result ≡ min size (length (due (D.machine.pending (D.state device.old)))) }
    ensures became { D.state device.new ≡ D.machine.given size (D.state device.old) }
{
    let mut scratch = [0u8; SCRATCH];
    device.give(&mut scratch[..size])
}

// Has the device give that many bytes, block by block, and stores none of them.
pub fn skip<D: Device>(count: usize, device: &mut D) -> usize
    ensures moved { result ≡ min count (length (due (D.machine.pending (D.state device.old)))) }
    ensures became { D.state device.new ≡ D.machine.given count (D.state device.old) }
    ensures parts { PartsAreOneMove D.machine }
{
    let mut left = count;
    let mut moved = 0;
    while left > 0 {
        let size = left.min(SCRATCH);
        moved += skip_block(size, device);
        left -= size;
    }
    moved
}

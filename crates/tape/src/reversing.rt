#![tactic(auto, using(crate::proofs::Reversed::reversed))]

ghost use Rattle.std.specs.Prelude.{◌≡◌, ◌+◌, ◌-◌, ◌≤◌, min, ◌++◌, reverse, length, take, drop};
ghost use Rattle.tape.specs.Standing.{in_order};

use crate::code::Direction;
use unit::copying::hand_out;

// Copies the last bytes, the very last one first, as many as the buffer holds, and says how many.
fn copy_last_reversed(buffer: &mut [u8], bytes: &[u8]) -> usize
    ensures count { result ≡ min (length buffer.old) (length bytes.now) }
    ensures copied { buffer.new ≡ reverse (drop (length bytes.now - result) bytes.now) ++ drop result buffer.old }
{
    let n = buffer.len().min(bytes.len());
    let copied = &mut buffer[..n];
    copied.copy_from_slice(&bytes[bytes.len() - n..]);
    copied.reverse();
    n
}

// Copies what stands before the last `gone` bytes, the last one first, and says how many it copied.
fn hand_out_reversed(buffer: &mut [u8], bytes: &[u8], gone: usize) -> usize
    ensures count { result ≡ min (length buffer.old) (length (drop gone (reverse bytes.now))) }
    ensures copied { buffer.new ≡ take (length buffer.old) (drop gone (reverse bytes.now)) ++ drop result buffer.old }
    ensures left { drop (gone + result) (reverse bytes.now) ≡ drop (length buffer.old) (drop gone (reverse bytes.now)) }
{
    copy_last_reversed(buffer, &bytes[..bytes.len().saturating_sub(gone)])
}

// Copies what follows the bytes that are gone, read in this direction, and says how many it copied.
pub(crate) fn hand_out_in(
    direction: Direction,
    buffer: &mut [u8],
    bytes: &[u8],
    gone: usize,
) -> usize
    ensures count { result ≡ min (length buffer.old) (length (drop gone (in_order direction bytes.now))) }
    ensures copied { buffer.new ≡ take (length buffer.old) (drop gone (in_order direction bytes.now)) ++ drop result buffer.old }
    ensures left { drop (gone + result) (in_order direction bytes.now) ≡ drop (length buffer.old) (drop gone (in_order direction bytes.now)) }
{
    match direction {
        Direction::Forward => hand_out(buffer, bytes, gone),
        Direction::Backward => hand_out_reversed(buffer, bytes, gone),
    }
}

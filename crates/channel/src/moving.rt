ghost use Rattle.std.specs.Prelude.{◌≡◌, ℕ, ◌+◌, ◌<◌, ◌≤◌, min, true, false, List, ◌++◌, map, length};
ghost use Rattle.format.specs.Bytes.{reader};
ghost use Rattle.device.specs.Machine.{Machine, due, room};
ghost use Rattle.rules.specs.Areas.{listed, outside, run as addresses, area, sizes, Shaped};
ghost use Rattle.channel.specs.Moves.{lay};

use device::interface::Device;
use format::laying::put_at;
use rules::pieces::{BLOCK, Piece, Pieces};

// Storage, piece and device stay parameters here for the reason that stands in step.rt. The three reads say the same of count and
// device, since `read_piece` is one of the other two by its direction: a name for the two clauses would be no plainer.

// One piece upward, straight into storage.
fn read_upward<D: Device>(storage: &mut [u8], piece: Piece, device: &mut D) -> usize
    requires { piece.first + piece.size ≤ length storage.old }
    ensures moved { result ≡ min piece.size (length (due (D.machine.pending (D.state device.old)))) }
    ensures bytes { storage.new ≡ lay (addresses false piece.first piece.size) (due (D.machine.pending (D.state device.old))) storage.old }
    ensures became { D.state device.new ≡ D.machine.given piece.size (D.state device.old) }
{
    let Piece { first, size } = piece;
    device.give(&mut storage[first..first + size])
}

// Bytes laid from an address down: turned round, they go up to it.
fn store_downward(storage: &mut [u8], first: usize, size: usize, bytes: &mut [u8])
    requires { (first < length storage.old) × ((size ≤ first + 1) × (length bytes.old ≤ size)) }
    ensures { storage.new ≡ lay (addresses true first size) bytes.old storage.old }
{
    bytes.reverse();
    put_at(storage, first + 1 - bytes.len(), bytes);
}

// One piece downward, through a scratch as long as the piece.
fn read_through<D: Device>(
    storage: &mut [u8],
    first: usize,
    scratch: &mut [u8],
    device: &mut D,
) -> usize
    requires { (first < length storage.old) × (length scratch.old ≤ first + 1) }
    ensures moved { result ≡ min (length scratch.old) (length (due (D.machine.pending (D.state device.old)))) }
    ensures bytes { storage.new ≡ lay (addresses true first (length scratch.old)) (due (D.machine.pending (D.state device.old))) storage.old }
    ensures became { D.state device.new ≡ D.machine.given (length scratch.old) (D.state device.old) }
{
    let size = scratch.len();
    let got = device.give(scratch);
    store_downward(storage, first, size, &mut scratch[..got]);
    got
}

fn read_downward<D: Device>(storage: &mut [u8], piece: Piece, device: &mut D) -> usize
    requires { (piece.first < length storage.old) × ((piece.size ≤ piece.first + 1) × (piece.size ≤ 2048)) }
    ensures moved { result ≡ min piece.size (length (due (D.machine.pending (D.state device.old)))) }
    ensures bytes { storage.new ≡ lay (addresses true piece.first piece.size) (due (D.machine.pending (D.state device.old))) storage.old }
    ensures became { D.state device.new ≡ D.machine.given piece.size (D.state device.old) }
{
    let mut scratch = [0u8; BLOCK];
    read_through(storage, piece.first, &mut scratch[..piece.size], device)
}

fn read_piece<D: Device>(storage: &mut [u8], backward: bool, piece: Piece, device: &mut D) -> usize
    requires { (outside backward (length storage.old) piece.first piece.size ≡ false) × (piece.size ≤ 2048) }
    ensures moved { result ≡ min piece.size (length (due (D.machine.pending (D.state device.old)))) }
    ensures bytes { storage.new ≡ lay (addresses backward piece.first piece.size) (due (D.machine.pending (D.state device.old))) storage.old }
    ensures became { D.state device.new ≡ D.machine.given piece.size (D.state device.old) }
{
    if backward {
        read_downward(storage, piece, device)
    } else {
        read_upward(storage, piece, device)
    }
}

// A reading command: from the device into storage. The count is a parameter for the proof alone: it bounds the sum. Tried as a
// ghost value below 65,536: the callers have the count behind a `&Taken`, where no fact bounds it.
pub(crate) fn read_pieces<D: Device>(
    storage: &mut [u8],
    backward: bool,
    pieces: &Pieces,
    count: u16,
    device: &mut D,
) -> usize
    requires { Shaped backward (length storage.old) false count (listed pieces.now) }
    ensures moved { result ≡ min (sizes (listed pieces.now)) (length (due (D.machine.pending (D.state device.old)))) }
    ensures bytes { storage.new ≡ lay (area backward (listed pieces.now)) (due (D.machine.pending (D.state device.old))) storage.old }
    ensures became { D.state device.new ≡ D.machine.given (sizes (listed pieces.now)) (D.state device.old) }
{
    let mut moved = 0;
    for piece in pieces {
        moved += read_piece(storage, backward, *piece, device);
    }
    moved
}

// One piece upward, straight out of storage.
fn write_piece<D: Device>(storage: &[u8], piece: Piece, device: &mut D) -> usize
    requires { piece.first + piece.size ≤ length storage.now }
    ensures moved { result ≡ min piece.size (room (D.machine.pending (D.state device.old))) }
    ensures became { D.state device.new ≡ D.machine.taken (map (reader storage.now) (addresses false piece.first piece.size)) (D.state device.old) }
{
    let Piece { first, size } = piece;
    device.take(&storage[first..first + size])
}

// A writing command: from storage to the device. The count is a parameter for the reason that stands at `read_pieces`.
pub(crate) fn write_pieces<D: Device>(
    storage: &[u8],
    pieces: &Pieces,
    count: u16,
    device: &mut D,
) -> usize
    requires { Shaped false (length storage.now) false count (listed pieces.now) }
    ensures moved { result ≡ min (sizes (listed pieces.now)) (room (D.machine.pending (D.state device.old))) }
    ensures became { D.state device.new ≡ D.machine.taken (map (reader storage.now) (area false (listed pieces.now))) (D.state device.old) }
{
    let mut moved = 0;
    for piece in pieces {
        moved += write_piece(storage, *piece, device);
    }
    moved
}

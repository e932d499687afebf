// What a program does with a tape: a block is written, and read back forward or backward.
#![tactic(auto)]

ghost use Rattle.std.specs.Prelude.{◌≡◌, ◌<◌, ◌≤◌, min, ◌++◌, reverse, length, take, drop};
ghost use Rattle.device.specs.Machine.{shut, room};
ghost use Rattle.tape.specs.TapeMachine.{tape_machine};
ghost use Rattle.tape.specs.Meaning.{meaning};
ghost use Rattle.tape.specs.Codes.{byte_of};
ghost use Rattle.tape.specs.declared.code.Code.TheVariants.{Read};
ghost use Rattle.tape_driver.specs.Theorems.{after_begin, after_rewind, after_write, after_read, heard, FitsHere, WrittenIsReadBack, WrittenIsReadBackward, BlocksBeforeStay};

use device::interface::Device;
use tape::code::{Code, Direction};
use tape::state::Tape;

// Writes the bytes as one block at the position, and says how many of them the tape took.
pub fn write_block(tape: &mut Tape, bytes: &[u8]) -> usize
    ensures count { result ≡ min (length bytes.now) (room (tape_machine.pending (after_begin 0x01 (meaning tape.old)))) }
    ensures became { meaning tape.new ≡ after_write bytes.now (meaning tape.old) }
{
    tape.begin(Code::Write.into());
    let taken = tape.take(bytes);
    tape.end();
    taken
}

// Reads one block in this direction into the buffer, and says how many bytes it got.
fn read_block(tape: &mut Tape, direction: Direction, buffer: &mut [u8]) -> usize
    ensures count { result ≡ min (length buffer.old) (length (heard (byte_of (Read direction)) (meaning tape.old))) }
    ensures bytes { buffer.new ≡ take (length buffer.old) (heard (byte_of (Read direction)) (meaning tape.old)) ++ drop result buffer.old }
    ensures became { meaning tape.new ≡ after_read (byte_of (Read direction)) (length buffer.old) (meaning tape.old) }
{
    tape.begin(Code::Read(direction).into());
    let given = tape.give(buffer);
    tape.end();
    given
}

fn rewind(tape: &mut Tape)
    ensures { meaning tape.new ≡ after_rewind (meaning tape.old) }
{
    tape.begin(Code::Rewind.into());
}

// Reads the block before the position, its last byte first. One line, but what it answers stands in a contract so.
fn read_backward(tape: &mut Tape, buffer: &mut [u8]) -> usize
    ensures count { result ≡ min (length buffer.old) (length (heard 0x0C (meaning tape.old))) }
    ensures bytes { buffer.new ≡ take (length buffer.old) (heard 0x0C (meaning tape.old)) ++ drop result buffer.old }
    ensures became { meaning tape.new ≡ after_read 0x0C (length buffer.old) (meaning tape.old) }
{
    read_block(tape, Direction::Backward, buffer)
}

// Rewinds, writes the bytes as the only block, rewinds, and reads it into the buffer.
pub fn write_and_read_back(tape: &mut Tape, bytes: &[u8], buffer: &mut [u8]) -> usize
    ensures count { result ≡ min (length buffer.old) (length (heard 0x02 (after_rewind (after_write bytes.now (after_rewind (meaning tape.old)))))) }
    ensures bytes { buffer.new ≡ take (length buffer.old) (heard 0x02 (after_rewind (after_write bytes.now (after_rewind (meaning tape.old))))) ++ drop result buffer.old }
    ensures became { meaning tape.new ≡ after_read 0x02 (length buffer.old) (after_rewind (after_write bytes.now (after_rewind (meaning tape.old)))) }
    ensures same { tape_machine.pending (meaning tape.old) ≡ shut → 0 < length bytes.now → length bytes.now ≤ 4096 → length bytes.now ≤ length buffer.old → (result ≡ length bytes.now) × (take result buffer.new ≡ bytes.now) }
    ensures always { WrittenIsReadBack }
{
    rewind(tape);
    write_block(tape, bytes);
    rewind(tape);
    read_block(tape, Direction::Forward, buffer)
}

// Writes the bytes as one block at the position, and reads it backward into the buffer.
pub fn write_and_read_backward(tape: &mut Tape, bytes: &[u8], buffer: &mut [u8]) -> usize
    ensures count { result ≡ min (length buffer.old) (length (heard 0x0C (after_write bytes.now (meaning tape.old)))) }
    ensures bytes { buffer.new ≡ take (length buffer.old) (heard 0x0C (after_write bytes.now (meaning tape.old))) ++ drop result buffer.old }
    ensures became { meaning tape.new ≡ after_read 0x0C (length buffer.old) (after_write bytes.now (meaning tape.old)) }
    ensures same { tape_machine.pending (meaning tape.old) ≡ shut → FitsHere bytes.now (meaning tape.old) → length bytes.now ≤ length buffer.old → (result ≡ length bytes.now) × (take result buffer.new ≡ reverse bytes.now) × ((meaning tape.new).core.position ≡ (meaning tape.old).core.position) }
    ensures always { WrittenIsReadBackward }
    ensures stay { BlocksBeforeStay }
{
    write_block(tape, bytes);
    read_backward(tape, buffer)
}

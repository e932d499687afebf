ghost use Rattle.std.specs.Prelude.{◌≡◌};
ghost use Rattle.figures.specs.Cases.{read_program, read_answer, WorkedCases};

use console::state::access::new_console;
use format::ccw::Format;
use format::status::StatusWord;
use program::Program;

// A storage with the CCW at 000100, that reads into 000200.
fn storage_with(count: u16) -> [u8; 1024]
    ensures { result ≡ read_program count }
{
    let mut storage = [0u8; 1024];
    storage[0x100] = 0x0A;
    storage[0x102] = 0x02;
    let [high, low] = count.to_be_bytes();
    storage[0x106] = high;
    storage[0x107] = low;
    storage
}

// Reads `count` bytes of a waiting line of five, by a CCW at 000100, and answers the status word.
#[tactic(auto, using(crate::proofs::Computed::worked))]
pub fn read_line_of_five(count: u16) -> Option<StatusWord>
    ensures is { result ≡ read_answer count }
    ensures cases { WorkedCases }
{
    let mut storage = storage_with(count);
    let mut console = new_console(b"HELLO")?;
    let mut program = Program::start(Format::Zero, 0x100);
    program.advance(&mut storage, &mut console, 1);
    program.status()
}

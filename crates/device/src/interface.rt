ghost use Rattle.std.specs.Prelude.{◌≡◌, min, ◌++◌, length, take as front, drop as behind};
ghost use Rattle.device.specs.Machine.{Machine, due, room};
ghost use Rattle.device.specs.Laws.{Laws};

// How a device answers a command code.
#[derive(Clone, Copy, Debug, PartialEq, Eq)]
pub enum Begun {
    // Done at once, with this status.
    Immediate(u8),
    // Open: it moves at most `most` bytes, and fewer than `least` is an incorrect length.
    Open { least: u32, most: u32 },
}

pub trait Device {
    ghost machine: { Machine };

    ghost laws: { Laws machine };

    ghost state: { Self → machine.State };

    // Begins a command.
    fn begin(&mut self, code: u8) -> Begun
        ensures answer { result ≡ (machine.begun code (state self.old)).0 }
        ensures became { state self.new ≡ (machine.begun code (state self.old)).1 };

    // Hands out the next bytes of an open reading command, as many as there are and the buffer holds.
    fn give(&mut self, buffer: &mut [u8]) -> usize
        ensures count { result ≡ min (length buffer.old) (length (due (machine.pending (state self.old)))) }
        ensures bytes { buffer.new ≡ front (length buffer.old) (due (machine.pending (state self.old))) ++ behind result buffer.old }
        ensures became { state self.new ≡ machine.given (length buffer.old) (state self.old) };

    // Accepts bytes of an open writing command, in order, as many as there is room for.
    fn take(&mut self, bytes: &[u8]) -> usize
        ensures count { result ≡ min (length bytes.now) (room (machine.pending (state self.old))) }
        ensures became { state self.new ≡ machine.taken bytes.now (state self.old) };

    // Closes the open command and answers its status.
    fn end(&mut self) -> u8
        ensures answer { result ≡ (machine.ended (state self.old)).0 }
        ensures became { state self.new ≡ (machine.ended (state self.old)).1 };
}

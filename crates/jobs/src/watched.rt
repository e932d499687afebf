use device::interface::{Begun, Device};

// What was said to a device and what it answered.
#[derive(Clone, Copy, Debug, Default, PartialEq, Eq)]
pub struct Notes {
    pub begun: Option<Begun>,
    // bytes handed out, and bytes accepted
    pub given: usize,
    pub taken: usize,
    pub ended: Option<u8>,
}

// A device that hands every call on to another, and keeps notes of them. Like a device it is neither printed nor compared.
#[derive(Drop)]
pub struct Watched<D> {
    pub device: D,
    pub notes: Notes,
}

impl<D> Watched<D> {
    pub(crate) fn new(device: D) -> Watched<D> {
        Watched {
            device,
            notes: Notes::default(),
        }
    }

    // Clears the notes.
    pub(crate) fn forget(&mut self) {
        self.notes = Notes::default();
    }
}

impl<D: Device> Device for Watched<D> {
    ghost machine = { D.Device.machine };

    ghost laws = { D.Device.laws };

    ghost state = { λ w. D.Device.state w.device };

    fn begin(&mut self, code: u8) -> Begun {
        let begun = self.device.begin(code);
        self.notes.begun = Some(begun);
        begun
    }

    fn give(&mut self, buffer: &mut [u8]) -> usize {
        let count = self.device.give(buffer);
        self.notes.given = self.notes.given.saturating_add(count);
        count
    }

    fn take(&mut self, bytes: &[u8]) -> usize {
        let count = self.device.take(bytes);
        self.notes.taken = self.notes.taken.saturating_add(count);
        count
    }

    fn end(&mut self) -> u8 {
        let status = self.device.end();
        self.notes.ended = Some(status);
        status
    }
}

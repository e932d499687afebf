ghost use Rattle.std.specs.Prelude.{◌≡◌, ◌/◌};

// The bytes of a page of a guest's storage, and of a frame of the host's.
pub const PAGE_SIZE: u32 = 4096;

// An address in a guest's storage.
#[derive(Clone, Copy, Debug, PartialEq, Eq)]
pub struct GuestAddress(pub u32);

// An address in the host's storage.
#[derive(Clone, Copy, Debug, PartialEq, Eq)]
pub struct HostAddress(pub u32);

impl GuestAddress {
    // The page that the byte lies in.
    pub(crate) fn page(self) -> usize
        ensures { result ≡ self.0 / 4096 }
    {
        (self.0 / PAGE_SIZE) as usize
    }
}

impl HostAddress {
    // The frame that the byte lies in, also one past the last that a host may have.
    pub(crate) fn frame(self) -> u32
        ensures { result ≡ self.0 / 4096 }
    {
        self.0 / PAGE_SIZE
    }
}

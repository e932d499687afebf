ghost use Rattle.std.specs.Prelude.{◌≡◌, ◌-◌, ◌≤◌};

// The addresses that an open write or read has still to come to: from that of the next byte up to the end.
#[derive(Clone, Copy, Debug, PartialEq, Eq)]
pub(crate) struct Extent {
    pub(crate) next: usize,
    pub(crate) limit: usize,
    ghost in_order: { next ≤ limit },
    ghost inside: { limit ≤ 32768 },
}

impl Extent {
    // How many bytes are still to be moved.
    pub(crate) fn size(self) -> usize
        ensures { result ≡ self.limit - self.next }
    {
        self.limit - self.next
    }
}

ghost use Rattle.std.specs.Prelude.{◌≡◌};
ghost use Rattle.format.specs.Bytes.{reader, three_bytes_at, word_at, word_bytes};

// The number in three bytes: an address of format 0.
pub(crate) fn three_bytes(bytes: [u8; 3]) -> u32
    ensures { result ≡ three_bytes_at (reader bytes) 0 }
{
    let [high, middle, low] = bytes;
    u32::from_be_bytes([0, high, middle, low])
}

// The number in four bytes: the address of a format 1 CCW, or an indirect word. A promise to callers: rules reads its
// indirect words by `u32::from_be_bytes` itself.
pub fn word(bytes: [u8; 4]) -> u32
    ensures { result ≡ word_at (reader bytes) 0 }
{
    u32::from_be_bytes(bytes)
}

// The four bytes of a number.
pub fn word_to_bytes(number: u32) -> [u8; 4]
    ensures { result ≡ word_bytes number }
{
    number.to_be_bytes()
}

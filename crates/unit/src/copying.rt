ghost use Rattle.std.specs.Prelude.{◌≡◌, ◌+◌, ◌-◌, ◌≤◌, min, ◌++◌, length, take, drop};
ghost use Rattle.arrayvec.specs.ArrayVec.{array_vec_len};

use arrayvec::ArrayVec;

// Copies the first bytes, as many as there are and the buffer holds, and says how many.
fn copy_first(buffer: &mut [u8], bytes: &[u8]) -> usize
    ensures count { result ≡ min (length buffer.old) (length bytes.now) }
    ensures copied { buffer.new ≡ take (length buffer.old) bytes.now ++ drop result buffer.old }
{
    let n = buffer.len().min(bytes.len());
    buffer[..n].copy_from_slice(&bytes[..n]);
    n
}

// Copies what follows the bytes that are gone, and says how many it copied.
pub fn hand_out(buffer: &mut [u8], bytes: &[u8], gone: usize) -> usize
    ensures count { result ≡ min (length buffer.old) (length (drop gone bytes.now)) }
    ensures copied { buffer.new ≡ take (length buffer.old) (drop gone bytes.now) ++ drop result buffer.old }
    ensures left { drop (gone + result) bytes.now ≡ drop (length buffer.old) (drop gone bytes.now) }
    ensures within { gone ≤ length bytes.now → gone + result ≤ length bytes.now }
{
    let start = gone.min(bytes.len());
    copy_first(buffer, &bytes[start..])
}

// Writes the bytes behind the first `used` of the sheet, as many as it holds, and says how many.
pub fn append(sheet: &mut [u8], used: usize, bytes: &[u8]) -> usize
    ensures count { result ≡ min (length bytes.now) (length sheet.old - used) }
    ensures appended { take (used + result) sheet.new ≡ take used sheet.old ++ take (length sheet.old - used) bytes.now }
{
    let start = used.min(sheet.len());
    copy_first(&mut sheet[start..], bytes)
}

// Keeps the bytes behind those that are held, as many as there is room for, and says how many.
pub fn append_to<const N: usize>(held: &mut ArrayVec<u8, N>, bytes: &[u8]) -> usize
    ensures count { result ≡ min (length bytes.now) (N - array_vec_len held.old) }
    ensures appended { held.new.items ≡ held.old.items ++ take (N - array_vec_len held.old) bytes.now }
{
    let count = bytes.len().min(held.remaining_capacity());
    // They fit, as no more of them are kept than there is room for.
    let _fits = held.try_extend_from_slice(&bytes[..count]);
    count
}

ghost use Rattle.std.specs.Prelude.{◌≡◌, ◌+◌, ◌-◌, ◌≤◌, length, take};
ghost use Rattle.format.specs.Laying.{put_at};

// Lays the bytes into a storage, from an address on. What lies behind the storage's end is left out.
pub fn put_at(storage: &mut [u8], address: usize, bytes: &[u8])
    ensures cut { storage.new ≡ put_at address (take (length storage.old - address) bytes.now) storage.old }
    ensures whole { address + length bytes.now ≤ length storage.old → storage.new ≡ put_at address bytes.now storage.old }
{
    let start = address.min(storage.len());
    let count = bytes.len().min(storage.len() - start);
    storage[start..start + count].copy_from_slice(&bytes[..count]);
}

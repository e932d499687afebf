use super::row::{Entry, Row};
use super::table::TIC;
use format::ccw::Format;
use format::laying::put_at;
use std::alloc::{AllocError, Global};

// A byte of a format 0 CCW that has no meaning, so that any value must do.
const IGNORED: u8 = 0xFF;

// Laid out by hand, so that the table does not rest on the code that it checks.
fn ccw_bytes(format: Format, code: u8, flags: u8, count: u16, address: u32) -> [u8; 8] {
    let [c0, c1] = count.to_be_bytes();
    let [a0, a1, a2, a3] = address.to_be_bytes();
    match format {
        Format::Zero => [code, a1, a2, a3, flags, IGNORED, c0, c1],
        Format::One => [code, flags, c0, c1, a0, a1, a2, a3],
    }
}

fn write_entry(storage: &mut [u8], format: Format, entry: Entry) {
    match entry {
        Entry::Ccw(at, code, flags, count, address) => {
            put_at(
                storage,
                at as usize,
                &ccw_bytes(format, code, flags, count, address),
            );
        }
        Entry::Tic(at, target) => put_at(
            storage,
            at as usize,
            &ccw_bytes(format, TIC, 0x00, 0, target),
        ),
        Entry::Word(at, value) => put_at(storage, at as usize, &value.to_be_bytes()),
    }
}

// The storage of a row.
pub(crate) fn build(heap: Global, format: Format, row: &Row) -> Result<Vec<u8>, AllocError> {
    let mut storage = vec![in heap; 0u8; row.length]?;
    for entry in row.contents {
        write_entry(&mut storage, format, *entry);
    }
    Ok(storage)
}

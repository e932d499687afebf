use super::ebcdic::encode;
use format::laying::put_at;
use std::alloc::{AllocError, Global};

// How many bytes the storage of a job has.
const STORAGE: usize = 16384;

// What stands in storage, with the address where it stands. `rule_table` has a type of its own for this: another program,
// whose entries are other ones. A CCW is laid out by hand in both, as a guest would.
#[derive(Clone, Copy, Debug)]
pub enum Entry {
    // A CCW of format 0: its code, flags, count and address.
    Ccw(u32, u8, u8, u16, u32),
    // An indirect word, or the count of blocks to locate and the first of them.
    Word(u32, u32),
    // Text in EBCDIC.
    Text(u32, &'static str),
    Byte(u32, u8),
}

// A channel program with its data.
#[derive(Clone, Copy, Debug)]
pub struct Job {
    pub title: &'static str,
    // what happens, in words
    pub about: &'static str,
    pub contents: &'static [Entry],
    pub start: u32,
}

// A job on a console where this line waits.
#[derive(Clone, Copy, Debug)]
pub struct ConsoleJob {
    pub line: &'static str,
    pub job: Job,
}

// A job that is given so many steps and is then halted.
#[derive(Clone, Copy, Debug)]
pub struct Halt {
    pub job: ConsoleJob,
    pub steps: u64,
}

// Characters behind the end of storage are left out.
fn write_text(storage: &mut [u8], at: u32, text: &str) {
    for (place, character) in storage.iter_mut().skip(at as usize).zip(text.as_bytes()) {
        *place = encode(*character);
    }
}

fn write_entry(storage: &mut [u8], entry: Entry) {
    match entry {
        Entry::Ccw(at, code, flags, count, address) => {
            let [c0, c1] = count.to_be_bytes();
            let [_, a1, a2, a3] = address.to_be_bytes();
            put_at(storage, at as usize, &[code, a1, a2, a3, flags, 0, c0, c1]);
        }
        Entry::Word(at, value) => put_at(storage, at as usize, &value.to_be_bytes()),
        Entry::Text(at, text) => write_text(storage, at, text),
        Entry::Byte(at, byte) => put_at(storage, at as usize, &[byte]),
    }
}

impl Job {
    // The storage before the job runs.
    pub(crate) fn storage(&self, heap: Global) -> Result<Vec<u8>, AllocError> {
        let mut storage = vec![in heap; 0u8; STORAGE]?;
        for entry in self.contents {
            write_entry(&mut storage, *entry);
        }
        Ok(storage)
    }
}

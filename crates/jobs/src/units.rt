use super::ebcdic::{Text, encode};
use super::watched::Watched;
use anyhow::Context;
use console::state::access::new_console;
use console::state::{Console, ConsoleModel};
use disk::blocks::{BLOCK_SIZE, Location};
use disk::state::DiskModel;
use std::alloc::Global;
use std::io;
use tape::state::access::new_tape;
use tape::state::{Tape, TapeModel};

// What is a device's own, as a person wants to see it.
pub trait Shown {
    fn show(&self, rt: &HostRuntime) -> io::Result<()>;
}

// A console where this line waits.
pub(crate) fn console_with(heap: Global, line: &str) -> anyhow::Result<Watched<Console>> {
    let bytes: Vec<u8> = line.bytes().map(encode).collect(heap)?;
    let console = new_console(&bytes).context("the line is too long")?;
    Ok(Watched::new(console))
}

impl Shown for ConsoleModel {
    fn show(&self, rt: &HostRuntime) -> io::Result<()> {
        let paper = self.paper();
        let line = self.line();
        println!(rt; "Paper, length {}: \"{}\"", paper.len(), Text(paper))?;
        println!(rt; "Waiting line, length {}: \"{}\"", line.len(), Text(line))
    }
}

// A tape with no blocks.
pub(crate) fn empty_tape() -> anyhow::Result<Watched<Tape>> {
    let tape = new_tape(&[], &[]).context("no tape was made")?;
    Ok(Watched::new(tape))
}

impl Shown for TapeModel {
    fn show(&self, rt: &HostRuntime) -> io::Result<()> {
        let count = self.block_count();
        let position = self.position();
        println!(rt; "Tape, block count {count}, position past {position} of them")?;
        for (index, block) in (0..count).filter_map(|at| self.block(at)).enumerate() {
            let length = block.len();
            println!(rt; "  block {index}, length {length}: \"{}\"", Text(block))?;
        }
        Ok(())
    }
}

// How many bytes stand before the zeros at the end.
fn length_without_zeros(bytes: &[u8]) -> usize {
    bytes
        .iter()
        .rposition(|byte| *byte != 0)
        .map_or(0, |last| last + 1)
}

// A block of a disk, if it is not all zeros.
fn show_block(rt: &HostRuntime, index: usize, block: &[u8]) -> io::Result<()> {
    let length = length_without_zeros(block);
    if length == 0 {
        return Ok(());
    }
    let address = index.saturating_mul(BLOCK_SIZE);
    let front = Text(block.get(..length).unwrap_or(block));
    println!(rt;
        "  block {index} at {address:06X}, length {length} without the zeros at its end: \"{front}\""
    )
}

impl Shown for DiskModel {
    fn show(&self, rt: &HostRuntime) -> io::Result<()> {
        match self.location() {
            Some(Location { first, count }) => println!(rt;
                "Disk, location: first block {first}, count {count}"
            )?,
            None => println!(rt; "Disk, location: none")?,
        }
        for (index, block) in self.bytes().chunks(BLOCK_SIZE).enumerate() {
            show_block(rt, index, block)?;
        }
        Ok(())
    }
}

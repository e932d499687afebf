use super::ebcdic::{Hex, Text};
use super::names::{Bits, DEVICE_STATUS, SUBCHANNEL_STATUS};
use super::units::Shown;
use program::Program;
use std::io;
use unit::model::Model;
use unit::state::Unit;

// The status word in one line.
pub(crate) fn show_word(rt: &HostRuntime, program: &Program) -> io::Result<()> {
    match program.status() {
        Some(word) => println!(rt;
            "Status word {:08X} {:02X} {:02X} {:04X}",
            word.ccw_address, word.device_status, word.subchannel_status, word.residual
        ),
        None => println!(rt; "No status word, since the program has not ended"),
    }
}

// The status word and its parts.
pub(crate) fn show_status(rt: &HostRuntime, program: &Program) -> io::Result<()> {
    show_word(rt, program)?;
    if let Some(word) = program.status() {
        let device = Bits(word.device_status, &DEVICE_STATUS);
        let subchannel = Bits(word.subchannel_status, &SUBCHANNEL_STATUS);
        println!(rt; "  CCW address        {:08X}", word.ccw_address)?;
        println!(rt; "  device status      {device}")?;
        println!(rt; "  subchannel status  {subchannel}")?;
        println!(rt; "  residual           {}", word.residual)?;
    }
    Ok(())
}

// What a person sees at the device, and its sense byte.
pub(crate) fn show_unit<M: Model + Shown>(rt: &HostRuntime, unit: &Unit<M>) -> io::Result<()> {
    unit.model().show(rt)?;
    println!(rt; "Sense byte {:02X}", unit.sense())
}

fn show_range(
    rt: &HostRuntime,
    start: usize,
    end: usize,
    before: &[u8],
    after: &[u8],
) -> io::Result<()> {
    if let (Some(old), Some(new)) = (before.get(start..end), after.get(start..end)) {
        println!(rt; "  {start:06X} length {}", old.len())?;
        println!(rt; "    before {} \"{}\"", Hex(old), Text(old))?;
        println!(rt; "    after  {} \"{}\"", Hex(new), Text(new))?;
    }
    Ok(())
}

// The ranges of storage that are no longer as they were.
pub(crate) fn show_changes(rt: &HostRuntime, before: &[u8], after: &[u8]) -> io::Result<()> {
    if before == after {
        return println!(rt; "No storage changed");
    }
    println!(rt; "Storage that changed:")?;
    let mut start = None;
    for (at, (old, new)) in before.iter().zip(after).enumerate() {
        if *old != *new {
            start.get_or_insert(at);
        } else if let Some(first) = start {
            show_range(rt, first, at, before, after)?;
            start = None;
        }
    }
    if let Some(first) = start {
        show_range(rt, first, before.len(), before, after)?;
    }
    Ok(())
}

use format::refusal::Refusal;
use map::address::{GuestAddress, HostAddress};
use map::interface::Map;
use map::placing::{home, place};
use std::fmt;

// A refusal as it is printed here, in other words than its own.
#[derive(Clone, Copy, Debug)]
pub struct Refused(pub Refusal);

impl fmt::Display for Refused {
    fn fmt<W: fmt::Write>(&self, f: &mut fmt::Formatter<W>) -> fmt::Result {
        let number = self.0.number();
        match self.0.address() {
            0 => write!(f, "refused {number}"),
            address => write!(f, "refused {number}, names {address:05X}"),
        }
    }
}

// The frames of a map by page, and its free frames.
pub(crate) fn print_map<M: Map>(rt: &HostRuntime, name: &str, map: &M) -> anyhow::Result<()> {
    print!(rt; "{name}: frames")?;
    for page in 0..map.page_count() {
        print!(rt; " {}", map.frame_of(page))?;
    }
    print!(rt; ", free")?;
    for frame in (0..=u8::MAX).filter(|frame| map.is_free(*frame)) {
        print!(rt; " {frame}")?;
    }
    println!(rt; "")?;
    Ok(())
}

pub(crate) fn print_place<M: Map>(rt: &HostRuntime, map: &M, address: u32) -> anyhow::Result<()> {
    match place(map, GuestAddress(address)) {
        Ok(host) => println!(rt; "  place of {address:05X}: {:05X}", host.0)?,
        Err(refusal) => println!(rt; "  place of {address:05X}: {}", Refused(refusal))?,
    }
    Ok(())
}

pub(crate) fn print_home<M: Map>(rt: &HostRuntime, map: &M, address: u32) -> anyhow::Result<()> {
    match home(map, HostAddress(address)) {
        Some(guest) => println!(rt; "  home of {address:05X}: {:05X}", guest.0)?,
        None => println!(rt; "  home of {address:05X}: none")?,
    }
    Ok(())
}

// How a call ended, whatever it made.
pub(crate) fn print_outcome<T: Drop>(
    rt: &HostRuntime,
    outcome: Result<T, Refusal>,
) -> anyhow::Result<()> {
    match outcome {
        Ok(_) => println!(rt; "done")?,
        Err(refusal) => println!(rt; "{}", Refused(refusal))?,
    }
    Ok(())
}

pub(crate) fn print_put<M: Map>(
    rt: &HostRuntime,
    map: &mut M,
    page: usize,
    frame: u8,
) -> anyhow::Result<()> {
    print!(rt; "  put page {page}, frame {frame}: ")?;
    print_outcome(rt, map.put(page, frame))
}

use super::piled::window;
use super::printing::{print_outcome, print_place, print_put};
use format::refusal::Refusal;
use frame_maps::page_table::PageTable;
use frame_maps::run::Run;
use window::Window;

// Listed and free frames.
#[derive(Clone, Copy, Debug)]
struct Given {
    listed: &'static [u8],
    free: &'static [u8],
}

const TABLES: [Given; 8] = [
    Given {
        listed: &[255],
        free: &[],
    },
    Given {
        listed: &[0],
        free: &[],
    },
    Given {
        listed: &[1],
        free: &[255],
    },
    Given {
        listed: &[1],
        free: &[0],
    },
    Given {
        listed: &[6, 8],
        free: &[7, 7],
    },
    Given {
        listed: &[6, 6],
        free: &[],
    },
    Given {
        listed: &[6, 7],
        free: &[7],
    },
    Given {
        listed: &[],
        free: &[7],
    },
];

// First frame and number of pages.
const RUNS: [(u8, usize); 9] = [
    (1, 127),
    (1, 128),
    (1, 129),
    (1, 0),
    (0, 1),
    (255, 1),
    (255, 2),
    (128, 128),
    (129, 128),
];

// First page and number of pages of windows on four pages.
const WINDOWS: [(usize, usize); 7] = [(0, 4), (3, 1), (0, 0), (4, 0), (0, 5), (1, 4), (4, 1)];

// Page and frame of puts on two pages.
const PUTS: [(usize, u8); 6] = [(2, 255), (0, 3), (0, 4), (0, 0), (1, 255), (0, 3)];

// A page table of so many pages, in the frames from 1 on.
fn print_long_table(rt: &HostRuntime, count: u8) -> anyhow::Result<()> {
    let listed: Vec<u8> = (1..=count).collect(rt.alloc())?;
    print!(rt; "  page table, page count {count}: ")?;
    print_outcome(rt, PageTable::new(&listed, &[]))
}

fn print_tables(rt: &HostRuntime) -> anyhow::Result<()> {
    for given in TABLES {
        print!(rt; "  page table {:?}, free {:?}: ", given.listed, given.free)?;
        print_outcome(rt, PageTable::new(given.listed, given.free))?;
    }
    Ok(())
}

fn print_runs(rt: &HostRuntime) -> anyhow::Result<()> {
    for (first, count) in RUNS {
        print!(rt; "  run from frame {first}, page count {count}: ")?;
        print_outcome(rt, Run::new(first, count))?;
    }
    Ok(())
}

fn opened(first: usize, count: usize) -> Result<Window<Run>, Refusal> {
    window(Run::new(1, 4)?, first, count)
}

fn print_windows(rt: &HostRuntime) -> anyhow::Result<()> {
    for (first, count) in WINDOWS {
        print!(rt; "  window on four pages from page {first}, page count {count}: ")?;
        print_outcome(rt, opened(first, count))?;
    }
    Ok(())
}

// The last byte of the largest guest, and the first past it.
fn print_last_bytes(rt: &HostRuntime) -> anyhow::Result<()> {
    let run = Run::new(128, 128)?;
    for address in [0x7FFFF, 0x80000, 0xFFFFFFFF] {
        print_place(rt, &run, address)?;
    }
    Ok(())
}

fn print_puts(rt: &HostRuntime) -> anyhow::Result<()> {
    let mut table = PageTable::new(&[5, 3], &[255])?;
    for (page, frame) in PUTS {
        print_put(rt, &mut table, page, frame)?;
    }
    Ok(())
}

pub(crate) fn tour(rt: &HostRuntime) -> anyhow::Result<()> {
    println!(rt; "edges")?;
    for count in [127, 128, 129] {
        print_long_table(rt, count)?;
    }
    print_tables(rt)?;
    print_runs(rt)?;
    print_windows(rt)?;
    print_last_bytes(rt)?;
    print_puts(rt)
}

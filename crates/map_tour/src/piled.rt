use super::printing::{print_home, print_map, print_place, print_put};
use format::refusal::Refusal;
use frame_maps::page_table::PageTable;
use map::interface::Map;
use window::Window;

// The addresses at the edges of the pages of a map of two pages, and one past its end.
const PLACED: [u32; 5] = [0x0000, 0x0ABC, 0x1000, 0x1FFF, 0x2000];

// An address in each frame that is listed or free at some time, and one in frame 0.
const SOUGHT: [u32; 7] = [
    0x09ABC, 0x02FFF, 0x05000, 0x03000, 0x07000, 0x04ABC, 0x00ABC,
];

// A window, or why there is none; the map below is let go then.
pub(crate) fn window<M: Map + Drop>(
    below: M,
    first: usize,
    count: usize,
) -> Result<Window<M>, Refusal> {
    Window::new(below, first, count).map_err(|refused| refused.refusal)
}

fn print_addresses<M: Map>(rt: &HostRuntime, map: &M) -> anyhow::Result<()> {
    for address in PLACED {
        print_place(rt, map, address)?;
    }
    for address in SOUGHT {
        print_home(rt, map, address)?;
    }
    Ok(())
}

// Addresses before and after a put, and puts that are refused.
fn print_changes<M: Map>(rt: &HostRuntime, name: &str, map: &mut M) -> anyhow::Result<()> {
    print_map(rt, name, map)?;
    print_addresses(rt, map)?;
    print_put(rt, map, 0, 7)?;
    print_map(rt, name, map)?;
    print_addresses(rt, map)?;
    print_put(rt, map, 0, 7)?;
    print_put(rt, map, 2, 4)
}

pub(crate) fn tour(rt: &HostRuntime) -> anyhow::Result<()> {
    let table = PageTable::new(&[5, 3, 9, 2], &[7, 4])?;
    print_map(rt, "page table", &table)?;
    let outer = window(table, 1, 3)?;
    print_map(rt, "window on pages 1 to 3", &outer)?;
    let mut inner = window(outer, 1, 2)?;
    print_changes(rt, "window on its pages 1 to 2", &mut inner)?;
    let outer = inner.into_below();
    print_map(rt, "window on pages 1 to 3", &outer)?;
    print_map(rt, "page table", &outer.into_below())
}

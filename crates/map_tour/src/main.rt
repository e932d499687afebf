// A tour of the maps: a page table under a window under a window, with places, homes and a put through
// both; then what is refused at the edges; then a small program that is taken up where it lies in the host
// and on a plain copy.
#![tactic(auto)]

mod edges;
mod piled;
mod printing;
mod program;

fn tour(rt: &HostRuntime) -> anyhow::Result<()> {
    piled::tour(rt)?;
    edges::tour(rt)?;
    program::tour(rt)
}

fn main(rt: HostRuntime) -> anyhow::Result<()> {
    tour(&rt)
}

use rules::place::Taken;
use short_list::list::ShortList;

// The most places of a program.
pub const MOST_PLACES: usize = 64;

// The CCWs that a walk met, in order.
pub type Cells = ShortList<Taken, MOST_PLACES>;

// A walk that came to its end: its CCWs, and the index of the place at which it closed, if it did.
#[derive(Clone, Copy, Debug, PartialEq, Eq)]
pub struct Walked {
    pub cells: Cells,
    pub closes: Option<usize>,
}

// What stands at a place: one met before, or a CCW. Neither is an error or nothing, so it is no Result and no Option.
#[derive(Clone, Copy, Debug, PartialEq, Eq)]
pub enum Visit {
    Met(usize),
    Fresh(Taken),
}

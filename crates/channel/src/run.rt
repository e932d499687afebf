use format::status::StatusWord;
use rules::place::Place;

// Where a program stands.
#[derive(Clone, Copy, Debug, PartialEq, Eq)]
pub enum Run {
    // At a place, with how many bytes of the least that the device asked for are still owed.
    Running { place: Place, owed: u32 },
    Ended { status: StatusWord },
}

// How a program goes on after a CCW, whatever its address.
#[derive(Clone, Copy, Debug, PartialEq, Eq)]
pub enum Next {
    // With the same command in force, and this many bytes still owed.
    Data {
        owed: u32,
    },
    // With no command in force.
    Command,
    End {
        device_status: u8,
        subchannel_status: u8,
        residual: u16,
    },
}

pub mod access;
pub mod commands;

// The sense command.
#[derive(Clone, Copy, Debug, PartialEq, Eq)]
enum Sensing {
    Closed,
    // Open, and the sense byte is still to be handed out.
    Unread,
    // Open, and the sense byte has been handed out.
    Read,
}

// A device: a model and a sense byte. Nothing prints or compares a whole device, so it derives neither.
#[derive(Drop)]
pub struct Unit<M> {
    model: M,
    sense: u8,
    sensing: Sensing,
}

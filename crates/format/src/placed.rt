// A value of any kind with the address it was read at: a CCW, or an indirect word.
#[derive(Clone, Copy, Debug, Default, PartialEq, Eq)]
pub struct Placed<T> {
    pub value: T,
    pub address: u32,
}

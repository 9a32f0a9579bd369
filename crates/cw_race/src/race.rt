/// A race: a cell, and two accesses of it that no inner block keeps apart, by their nodes. `second` comes after `first`.
#[derive(Clone, Copy, PartialEq, Eq, Debug)]
pub struct Race {
    pub cell: u32,
    pub first: u32,
    pub second: u32,
}

/// An access: the column of the strand that made it, and its stamp.
#[derive(Clone, Copy, PartialEq, Eq, Debug)]
pub struct Mark {
    pub strand: u32,
    pub stamp: u64,
}

/// A live access of a cell: whether it wrote, and the cell's value after it and before it.
#[derive(Clone, Copy, PartialEq, Eq, Debug)]
pub struct Entry {
    pub mark: Mark,
    pub wrote: bool,
    pub value: i64,
    pub old: i64,
}

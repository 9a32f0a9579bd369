/// A part of code that is open at a place: an atomic block that was begun, or a part that was forked.
#[derive(Clone, Copy, PartialEq, Eq, Debug)]
pub enum Part {
    Block,
    Fork,
}

/// The situation at a place: the height of the operand stack, and the number of the nesting of the open parts.
#[derive(Clone, Copy, PartialEq, Eq, Debug)]
pub struct Level {
    pub height: u64,
    pub nesting: u32,
}

/// A level, and the place that gave it.
#[derive(Clone, Copy, PartialEq, Eq, Debug)]
pub struct Arrival {
    pub from: u32,
    pub level: Level,
}

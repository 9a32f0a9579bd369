//! What steps are for.
use cw_base::Seq;
use cw_code::Back;
use cw_tree::Conflict;

/// What a number is drawn for. An access has the cell's value after it. A fork has the columns of both strands, and the gap that
/// both then use; for an inline fork these are the forking strand's own. A cancel has what it puts back.
#[derive(Drop)]
pub enum Draw {
    Access { cell: u32, wrote: bool, value: i64 },
    Fork { left: u32, right: u32, gap: u32 },
    Out { value: i64 },
    Cancel { back: Seq<Back> },
    Begin,
    End { aborted: bool },
}

/// Why the lock of a slot is acquired.
#[derive(Clone, Copy, Debug)]
pub enum Aim {
    Access,
    Undo,
    Look,
    Fork,
    Split,
    Merge,
}

/// What was done while a lock was held. `used` is the number of columns in use.
#[derive(Drop)]
pub enum Home {
    Plain,
    Refused(Conflict),
    Split { fork: u32, used: u32 },
    Merge { fork: u32, used: u32 },
    Inline { used: u32 },
    Early { before: u32, used: u32 },
}

ghost use Rattle.std.specs.Prelude.{◌≡◌, IfOk};

use cw_base::{OutOfMemory, Seq};
use cw_code::Back;
use std::alloc::Global;

/// What a node of the tree is.
#[derive(Drop)]
pub enum Kind {
    Strand,
    Fork,
    Block,
    Read { cell: u32, value: i64 },
    Write { cell: u32, value: i64 },
    Out { value: i64 },
    /// An access that was refused.
    Tried { cell: u32 },
    /// A block was given up: what is put back.
    Cancel { back: Seq<Back> },
}

impl Kind {
    /// Returns a copy of the kind.
    pub fn try_clone(&self, alloc: Global) -> Result<Kind, OutOfMemory>
        ensures { IfOk result (λ k. k ≡ self.now) }
    {
        Ok(match self {
            Kind::Strand => Kind::Strand,
            Kind::Fork => Kind::Fork,
            Kind::Block => Kind::Block,
            Kind::Read { cell, value } => Kind::Read {
                cell: *cell,
                value: *value,
            },
            Kind::Write { cell, value } => Kind::Write {
                cell: *cell,
                value: *value,
            },
            Kind::Out { value } => Kind::Out { value: *value },
            Kind::Tried { cell } => Kind::Tried { cell: *cell },
            Kind::Cancel { back } => Kind::Cancel {
                back: Seq::from_vec(Vec::from_slice(alloc, back.as_slice())?),
            },
        })
    }
}

/// What has become of a block. Other nodes are committed.
#[derive(Clone, Copy, PartialEq, Eq, Debug)]
pub enum BlockState {
    Pending,
    Committed,
    Aborted,
}

/// A node of the tree: the number of its parent, what it is, the stamp at which it was made, or 0 if it has none, and
/// for a closed block the stamp of its end.
#[derive(Drop)]
pub struct Node {
    pub parent: u32,
    pub kind: Kind,
    pub state: BlockState,
    pub stamp: u64,
    pub end: u64,
}

ghost use Rattle.std.specs.Prelude.{◌≡◌, IfOk};

use cw_base::{OutOfMemory, Seq};
use std::alloc::Global;

/// A refused access of a cell. Accesses and blocks are named by their stamps. `last` is the last access of the cell,
/// `block` a pending block that stood in the way, and `victim` the block that has to roll back, or 0 if there is none.
/// `asker` is the node of the refused access, `attempt` says which attempt was refused, and `chain` has the newest live
/// accesses of the cell, at most eight, oldest first.
#[derive(Drop)]
pub struct Conflict {
    pub cell: u32,
    pub last: u64,
    pub asker: u32,
    pub block: u64,
    pub victim: u64,
    pub attempt: u32,
    pub chain: Seq<u64>,
}

impl Conflict {
    /// Returns a copy of the conflict.
    pub fn try_clone(&self, alloc: Global) -> Result<Conflict, OutOfMemory>
        ensures { IfOk result (λ c. c ≡ self.now) }
    {
        let chain = Vec::from_slice(alloc, self.chain.as_slice())?;
        Ok(Conflict {
            cell: self.cell,
            last: self.last,
            asker: self.asker,
            block: self.block,
            victim: self.victim,
            attempt: self.attempt,
            chain: Seq::from_vec(chain),
        })
    }
}

use cw_base::Seq;
use cw_tree::{Conflict, Node};

/// What a strand did, from its begin on. Nodes are numbered within this log, and node 0 is the strand itself. `conflicts` are the
/// conflicts of its refused accesses, and their askers are such numbers. The log hangs from `fork`, a node of the log with the
/// column `from`; both are 0 for the log of the root.
#[derive(Drop)]
pub struct Log {
    pub column: u32,
    pub from: u32,
    pub fork: u32,
    pub nodes: Seq<Node>,
    pub conflicts: Seq<Conflict>,
}

/// A pending block that another seat began: the stamp of its begin, the column of its strand, and its attempt number.
#[derive(Clone, Copy, Debug)]
pub struct Above {
    pub begin: u64,
    pub column: u32,
    pub attempt: u32,
}

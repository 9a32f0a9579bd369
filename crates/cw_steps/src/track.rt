//! A token's log, and where its strand stands in it.
ghost use Rattle.std.specs.Prelude.{◌≡◌, ◌+◌, ◌<◌, ◌≤◌, ◌^◌, [], ◌∷◌, length};
ghost use Rattle.cw_tree.specs.declared.node.Kind.TheVariants.{Strand};
ghost use Rattle.cw_tree.specs.Nodes.{fresh_node};

mod moves;
mod parting;
mod pending;
mod turning;

use cw_log::{Above, LogRoom, Logs, Side};
use cw_tree::{Conflict, Node};

/// The end of the nodes that go in one place: the number of rolled-back blocks there, or of refused accesses of `cell`.
#[derive(Clone, Copy, Drop, Debug)]
pub struct Tail {
    pub aborted: u32,
    pub tried: u32,
    pub cell: u32,
}

/// No rolled-back blocks and no refused accesses at the end.
pub(crate) const PLAIN: Tail = Tail {
    aborted: 0,
    tried: 0,
    cell: 0,
};

/// Where a strand that forked stands: the side of that fork on which the token goes on, the strand's node in the log, the place
/// behind the fork, its column, its gap and that gap's word, and the number of pending blocks around that place.
#[derive(Clone, Copy, Drop, Debug)]
pub struct Stood {
    pub side: Side,
    pub strand: u32,
    pub place: u32,
    pub column: u32,
    pub gap: u32,
    pub word: u64,
    pub pending: usize,
}

/// The right strand of a fork whose token is yet to be split off: the fork's number and its node in the log, and the strand's
/// column and gap.
#[derive(Clone, Copy, Drop, Debug)]
pub struct Ahead {
    pub fork: u32,
    pub node: u32,
    pub column: u32,
    pub gap: u32,
}

/// What a right strand begins with: the nodes of its log, room for the pending blocks around it, and room for its log in
/// the list of the token that takes it in.
#[derive(Drop)]
pub(crate) struct Spare {
    pub(crate) nodes: Vec<Node>,
    pub(crate) pending: Vec<Above>,
    pub(crate) room: LogRoom,
    ghost one: { nodes.items ≡ fresh_node 0 Strand 0 ∷ [] },
    ghost none: { pending.items ≡ [] },
}

/// What a token did, from its begin on, and where its strand stands. `place` is the node beneath which the next one goes, and `gap`
/// the gap that the strand uses, with its `word`. `outer` holds the strands that wait for forks of this log, innermost last.
/// `pending` holds the pending blocks around its place, including those of other seats, outermost first. The log has the column
/// `first`, and hangs from `fork` of the log with the column `from`.
#[derive(Drop)]
pub struct Track {
    pub(crate) first: u32,
    pub(crate) from: u32,
    pub(crate) fork: u32,
    pub(crate) nodes: Vec<Node>,
    pub(crate) conflicts: Vec<Conflict>,
    pub(crate) joined: Logs,
    pub(crate) strand: u32,
    pub(crate) place: u32,
    pub(crate) column: u32,
    pub(crate) gap: u32,
    pub(crate) word: u64,
    pub(crate) outer: Vec<Stood>,
    pub(crate) pending: Vec<Above>,
    pub(crate) tail: Tail,
    pub(crate) ahead: Option<Ahead>,
    /// The number of inline forks behind which it went since its last draw; and whether it then went into the right strand of one.
    pub(crate) behind: u32,
    pub(crate) second: bool,
    /// Room for its log in the list of the token that takes it in, if one may.
    pub(crate) room: Option<LogRoom>,
    pub(crate) spare: Option<Spare>,
    ghost few: { length nodes.items < 2 ^ 32 },
    ghost behind_few: { behind + length outer.items ≤ length nodes.items },
}

//! What a token stands for. A board may keep it as it is, or in a form of its own.
use crate::{Log, Logs};
use cw_base::Stack;
use cw_tree::Halt;

/// How a token was stopped, and where: the column of its log, and the strand in that log.
#[derive(Clone, Copy, Drop, Debug)]
pub struct Stop {
    pub halt: Halt,
    pub column: u32,
    pub strand: u32,
}

/// The side of a fork on which a token stands.
#[derive(Clone, Copy, Drop, PartialEq, Eq, Debug)]
pub enum Side {
    /// In the left strand of the fork with this number, whose right strand has a token of its own.
    Beside(u32),
    /// In the left strand of an inline fork, whose right strand has this node number.
    First(u32),
    /// In the right strand of an inline fork.
    Second,
}

/// Where the strand that forked stands: its number, its place, and the begin stamps of the pending blocks around that place.
#[derive(Drop)]
pub struct Open {
    pub side: Side,
    pub strand: u32,
    pub place: u32,
    pub around: Stack<u64>,
}

/// What the token may do next.
#[derive(Clone, Copy, Drop, PartialEq, Eq, Debug)]
pub enum Phase {
    /// Its strand goes on.
    Going,
    /// It belongs to a right strand whose fork is neither split nor taken back yet.
    Waiting,
    /// It belongs to a left strand whose right one was taken back: it can only be joined.
    Over,
    /// It comes from the join of the fork with this number, which was split: the merge comes first.
    Parted(u32),
}

/// What the token of a strand stands for.
#[derive(Drop)]
pub struct Token {
    /// Its own log, and those of the tokens that were joined to it.
    pub own: Log,
    pub joined: Logs,
    /// The strand for which it stands, and the node of its own log beneath which its next node goes.
    pub strand: u32,
    pub place: u32,
    /// The pending blocks around that place, by their begin stamps, innermost first.
    pub around: Stack<u64>,
    /// The forks of its own log in whose strands it stands, innermost first.
    pub forks: Stack<Open>,
    /// The number of the fork as whose right strand it began, or 0 for the root; and whether that fork was split.
    pub fork: u32,
    pub split: bool,
    pub phase: Phase,
    pub stop: Option<Stop>,
    /// Whether it has learnt that some token has halted.
    pub told: bool,
}

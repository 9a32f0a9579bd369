//! What lies in the slots, and what a seat knows.
use crate::Aim;
use cw_base::Seq;
use cw_log::Phase;
use cw_stack::Cell;
use cw_trace::Tier;
use cw_tree::{Conflict, Halt, Node};

/// What lies in a slot: a cell or the tier, or nothing while a token has taken that out.
#[derive(Drop)]
pub enum Slot {
    Cell(Cell),
    Tier(Tier),
    Empty,
}

/// The parameters of a table: the cells' first values, the most columns that the tier may have, and the most attempts of a block or
/// an access.
#[derive(Drop)]
pub struct Key {
    pub first: Seq<i64>,
    pub columns: u32,
    pub aborts: u32,
}

/// A node of a log, with its number and its parent's in the run's tree. Ghost state, never constructed at run time.
pub struct Placed {
    pub node: Node,
    pub number: u64,
    pub under: u64,
}

/// The log of one strand: its column, the position of its fork, and its nodes and conflicts. Parents and askers are numbers in this
/// log. Ghost state, never constructed at run time.
pub struct Logged {
    pub column: u64,
    pub from: u64,
    pub fork: u64,
    pub nodes: Seq<Placed>,
    pub conflicts: Seq<Conflict>,
}

/// A strand that waits for a fork whose right strand has a token of its own: its column, its gap and that gap's word. Ghost state,
/// never constructed at run time.
pub struct Whereabouts {
    pub column: u64,
    pub gap: u64,
    pub word: u64,
}

/// The right strand of a fork whose seat is yet to be split off: the fork's number, and the strand's column and gap. Ghost state,
/// never constructed at run time.
pub struct Coming {
    pub fork: u64,
    pub column: u64,
    pub gap: u64,
}

/// A word of the table, and what the seat found in it or left there. Ghost state, never constructed at run time.
pub struct WordNote {
    pub word: u64,
    pub value: u64,
}

/// A change of the tier that the holder of its lock makes: the tier that comes, the words stored since the version was made odd, and
/// whether the version is even since. Ghost state, never constructed at run time.
pub struct Change {
    pub come: Tier,
    pub stored: Seq<u64>,
    pub even: bool,
}

/// A lock that a seat holds: its slot, why it was acquired, and what lay there, with the accesses or columns drawn since. `used` is
/// the number of columns in use with which the tier has to come home, if the lock is the tier's, and `change` what is under way
/// there. Ghost state, never constructed at run time.
pub struct Turn {
    pub slot: u64,
    pub aim: Aim,
    pub cell: Option<Cell>,
    pub tier: Option<Tier>,
    pub used: u64,
    pub change: Option<Change>,
}

/// What a query found in the way of an access. Ghost state, never constructed at run time.
pub struct Found {
    pub cell: u64,
    pub last: u64,
    pub block: u64,
    pub chain: Seq<u64>,
}

/// Ghost state: what a seat knows. Never constructed at run time.
pub struct View {
    /// False once it was joined away, and for a seat that only carries a note.
    pub here: bool,
    /// Its strand's column, the gap in use and that gap's word.
    pub column: u64,
    pub gap: u64,
    pub word: u64,
    /// The begin stamps of the pending blocks around its strand's place, innermost first; then those around the places of the
    /// strands that wait for forks of its log, from the innermost of these on. All as of its last draw.
    pub arounds: Seq<Seq<u64>>,
    /// The strands that wait for forks of its log with two tokens, innermost first.
    pub outer: Seq<Whereabouts>,
    pub coming: Option<Coming>,
    /// The number of the fork as whose right strand it began, or 0; whether that fork was split; and what the seat may do next.
    pub fork: u64,
    pub split: bool,
    pub phase: Phase,
    /// A number that it has drawn and not shown yet, of a begin or of an end.
    pub drawn: u64,
    pub ends: bool,
    /// It has undone something of its innermost block.
    pub undoing: bool,
    /// The greatest number that it knows: it drew none above, and no stamp that it has to bring home is above.
    pub seen: u64,
    /// The locks that it holds, newest first.
    pub turns: Seq<Turn>,
    /// The newest access of the cell whose lock it holds does not conflict with the access that it makes next.
    pub clear: bool,
    pub found: Option<Found>,
    pub halt: Option<Halt>,
    /// It saw that some token has halted.
    pub told: bool,
    /// What it found in words that it read and left in words that it wrote, newest first.
    pub notes: Seq<WordNote>,
    /// The numbers that it may still draw.
    pub room: u64,
    /// The columns in use that it owns: at least one for each log of its list.
    pub owns: u64,
    /// Its own log first, and those that were joined to it.
    pub logs: Seq<Logged>,
    /// The strands of the seats that were split off it and not joined to it.
    pub lent: Seq<u64>,
}

use cw_base::Seq;
use cw_code::Back;
use cw_tree::{Conflict, Halt};

/// What a strand does, or what is done to its fork. Strands and forks are named by their nodes.
#[derive(Clone, Copy, Debug)]
pub enum Event {
    Fork {
        strand: u32,
    },
    Begin {
        strand: u32,
    },
    /// A read if `write` is `None`, otherwise a write of its value.
    Access {
        strand: u32,
        cell: u32,
        write: Option<i64>,
    },
    Out {
        strand: u32,
        value: i64,
    },
    /// Gives up the innermost pending block of the strand, which stays pending. Writes have to put back what it wrote.
    Cancel {
        strand: u32,
    },
    /// Commits the innermost pending block of the strand.
    Commit {
        strand: u32,
    },
    /// Undoes and aborts the innermost pending block of the strand.
    Roll {
        strand: u32,
    },
    Finish {
        strand: u32,
        dead: bool,
    },
    /// Cuts the trace of the fork there. Its right strand may then run while its left one does.
    Split {
        fork: u32,
    },
    /// Joins a fork whose strands have finished. The strand that forked goes on.
    Join {
        fork: u32,
    },
    Stop {
        halt: Halt,
    },
}

/// The reply to an event.
#[derive(Drop)]
pub enum Reply {
    Done,
    Value(i64),
    Conflict(Conflict),
    /// The cells that the block wrote, by rising number, each with its value from before the block first accessed it.
    Back(Seq<Back>),
    Forked { left: u32, right: u32, fork: u32 },
    /// The fork got no columns, so it cannot be split.
    Inline { left: u32, right: u32 },
    /// The fork `before` has to be split first.
    Early { before: u32 },
}

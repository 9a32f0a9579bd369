//! A pool of workers, each on a thread, that runs the strands of a program. `work` runs them on any board; `run` makes a board for
//! them, and returns the record.
//! `specs/Tasks.antt` says what a task stands for (`IsRunning`): a strand that runs, with its token and its body, and what waits
//! for it. That is the invariant of the type `Running`. Each function keeps it, and most have no other clause.
//! Contracts cite `specs/Accesses.antt` and `specs/Blocks.antt` (what small calls return), `specs/Forks.antt` (a strand between the
//! fork of its body and the fork on the board), `specs/Ends.antt` (when a strand may end, how the strand that forked goes on after
//! both its strands, and what is true of the root's token at the end), `specs/Recorded.antt` (what the record of a run is) and
//! `specs/Starts.antt` (a default job).
#![tactic(auto)]

mod access;
mod blocks;
mod boxes;
mod cancels;
mod crew;
mod ends;
mod forks;
mod frames;
mod idle;
mod joins;
mod last;
mod moves;
mod naming;
mod recording;
mod scene;
mod sides;
mod splits;
mod tally;
mod task;
mod turns;
mod worker;
mod works;

pub use last::Ended;
pub use naming::RunName;
pub use recording::run;
pub use scene::Scene;
pub use task::{Base, Below, Memo, Mode, Running};
pub use works::work;

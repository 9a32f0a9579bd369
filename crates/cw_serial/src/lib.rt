//! The machine with one memory, which runs the strands of a program, and its end under given picks. Use it to replay an
//! order of picks, or to say in a contract what a replay gives.
//! Contracts cite `specs/StrandTree.antt`, `specs/Wants.antt` and `specs/Machine.antt` (the machine, over any strands),
//! `specs/MachineOf.antt` (that of a job), `specs/Forks.antt` (how forks and joins are made), `specs/InMemory.antt`
//! with `specs/TableInMemory.antt`, `specs/Spots.antt` and `specs/AreOf.antt` (what the machine in memory means), and
//! `specs/Orders.antt` (the strands that an order names).
#![tactic(auto)]

ghost use Rattle.cw_serial.specs.Forks.{ForksAreMade};
ghost use Rattle.cw_job.specs.Jobs.{Job};
ghost use Rattle.cw_job.specs.Room.Strands.{strands_of_job};
ghost use Rattle.cw_serial.specs.Worked.{CrossingEnds};
ghost use Rattle.cw_serial.specs.WorkedPrograms.{Ends, StrandEnds, CancelEnds, CancelLists};

mod ends;
mod machine;
mod orders;
mod play;
mod table;
mod undo;

pub use cw_code::{CellInfo, FaultKind, Limits, Program};
pub use cw_job::{Standing, first_memory, takes_words, value_at};
pub use cw_strand::Saved;
pub use cw_tree::{Name, Picks};
pub use ends::SerialEnd;
pub use machine::Machine;
pub use play::{Play, serial};
pub use undo::Undo;

/// Worked runs of the machine.
pub fn worked_runs()
    ensures main { Ends }
    ensures strands { StrandEnds }
    ensures cancels { CancelEnds }
    ensures lists { CancelLists }
    ensures crossing { CrossingEnds }
{}

/// A strand that wants a fork makes it at once. After both its strands have ended, the strand that forked goes on,
/// however many forks and joins follow each other.
pub fn forks_are_made()
    ensures { (job : Job) → ForksAreMade (strands_of_job job) }
{}

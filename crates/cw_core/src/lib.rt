//! The core: the computation tree, traces, query and cells of strands that run at the same time, all on one thread.
//! Each event is a run of the open machine.
//! Use it to run strands event by event: `fits` tells whether an event may be made, `step` makes it, `close` returns what is left.
//! Contracts cite `specs/State.antt` (what a caller sees), `specs/Events.antt` (which events fit, the steps of each, and the
//! replies), `specs/Laws.antt` (what is true between events) and `specs/Closing.antt` (what a core leaves).
//! `specs/Worked.antt` tries them.
#![tactic(auto)]

ghost use Rattle.cw_core.specs.Laws.{AlikeAnswer, AlikeStay, CellsAreChains, EventsAreRuns, ListsAreRuns, SplitsAreAnswered, SplitsChangeNoAnswer, SplitsChangeNothing, StartsAreCores, StrandsGoOn};
ghost use Rattle.cw_core.specs.Worked.{Budgets, Cancels, Joins, Rolls, Splits};

mod beneath;
mod cores;
mod event;
mod held;
mod linked;
mod row;
mod undo;

pub use cores::Core;
pub use event::{Event, Reply};

/// Law: each event that fits is a run of the open machine by exactly the steps that it stands for. The core then represents the
/// machine's state, and its tier the tree. The same holds for each list of events that fit.
pub fn events_are_runs()
    ensures start { StartsAreCores }
    ensures events { EventsAreRuns }
    ensures lists { ListsAreRuns }
{}

/// Law: in each core the lists of cells are chains of exactly the live accesses, and the query's premise holds for each strand that
/// may step.
pub fn cores_stand()
    ensures chains { CellsAreChains }
    ensures goes_on { StrandsGoOn }
{}

/// Law: a split is early exactly if a fork outward in the trace of its fork was neither split nor joined. The reply names the next
/// one outward.
pub fn splits_are_answered()
    ensures early { SplitsAreAnswered }
{}

/// Law: a split changes no later replies except those to splits, and the block that a conflict names. Lists of events that differ
/// only in their splits have the same other replies.
pub fn splits_change_no_answer()
    ensures splits { SplitsChangeNothing }
    ensures answers { AlikeAnswer }
    ensures stay { AlikeStay }
    ensures lists { SplitsChangeNoAnswer }
{}

/// Computed examples: what the definitions say of lists of events.
pub fn worked_events()
    ensures splits { Splits }
    ensures rolls { Rolls }
    ensures joins { Joins }
    ensures cancels { Cancels }
    ensures budgets { Budgets }
{}

//! The simulation: several virtual workers run the strands of a program over one core, each when its turn comes.
//! Use `simulate` to run a program in the order of moves that a list or a seed gives.
//! Contracts cite `specs/Workers.antt` (the state of a simulation), `Turns` (who makes which move), `Moves` (what each move does,
//! and runs), `Kept` (what is true between moves), `Laws` (what holds of moves), `Runs` (the whole run, and its record) and
//! `OneWorker` (runs of one worker). `Worked` tries them on small sources.
#![tactic(auto)]

ghost use Rattle.cw_sim.specs.Laws.{ForksAreThere, MovesFit, NoneIsEarly, OpensWell};
ghost use Rattle.cw_sim.specs.OneWorker.{OneIsUnrefused, OneSplitsNone, UnsplitAreUnrefused};
ghost use Rattle.cw_sim.specs.Worked.{Rows};
ghost use Rattle.cw_sim.specs.Runs.{RecordsAreCoherent, RunsAreClosed};
ghost use Rattle.cw_strand.specs.Strands.{Strands};

mod by_node;
mod moves;
mod simulating;
mod turns;
mod worker;

pub use simulating::simulate;

/// Law: everything in `specs/Kept.antt` holds before the first move.
pub fn opens_well<S>()
    ensures { (s : Strands S) → OpensWell s }
{}

/// Law: every event that a move makes fits. While the run is not over, everything in `specs/Kept.antt` holds.
pub fn moves_fit<S>()
    ensures { (s : Strands S) → MovesFit s }
{}

/// Law: the oldest fork of a deque is never split too early. A fork that a worker takes back is the newest that waits.
pub fn deques_are_in_order<S>()
    ensures oldest { (s : Strands S) → NoneIsEarly s }
    ensures newest { (s : Strands S) → ForksAreThere s }
{}

/// Law: the moves of workers lead to a closed run, whoever makes which move.
pub fn runs_are_closed<S>()
    ensures { (s : Strands S) → RunsAreClosed s }
{}

/// Law: the record of the moves of any workers over a compiled program is coherent and has its outputs.
pub fn records_are_coherent()
    ensures { RecordsAreCoherent }
{}

/// Law: one worker splits no fork. If no fork is split, left strands go first, so no access is refused.
pub fn one_worker_is_unrefused<S>()
    ensures splits { (s : Strands S) → OneSplitsNone s }
    ensures unsplit { UnsplitAreUnrefused }
    ensures unrefused { (s : Strands S) → OneIsUnrefused s }
{}

/// Computed examples: what the definitions say of runs of small sources.
pub fn worked_moves()
    ensures { Rows }
{}

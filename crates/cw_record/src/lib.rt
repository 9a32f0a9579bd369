//! Records: what a run keeps (its tree, journals, order and end), the run of one worker, and the record of a closed run.
//! Use `depth_first` to run a program with one worker, `build` to make the record of another run, and `check` to replay a record.
//! Contracts cite `specs/Records.antt` (the run of one worker), `Coherent` (coherent records), `Order` (the order), `Replay` (one
//! memory does what a record says), `Checking` (what a check says), `ClosedRun` and `Built` (closed runs and their records) and
//! `Moved` (what strands did, in depth-first order). `WorkedRecord`, `WorkedEnds` and `WorkedClosed` are small examples.
#![tactic(auto)]

ghost use Rattle.cw_job.specs.Room.Strands.{StrandState};
ghost use Rattle.cw_record.specs.ClosedRun.{ClosedAreCoherent};
ghost use Rattle.cw_record.specs.Moved.{StrandsStay};
ghost use Rattle.cw_record.specs.WorkedClosed.{ClosedEarly, ClosedLate};
ghost use Rattle.cw_record.specs.WorkedEnds.{Ends};
ghost use Rattle.cw_record.specs.WorkedRecord.{Coherent};

mod checking;
mod disagreement;
mod drawing;
mod items;
mod left;
mod levels;
mod links;
mod listed;
mod order;
mod passing;
mod place;
mod record;
mod record_end;
mod replaying;
mod strands;
mod worker;

pub use checking::{Checked, check};
pub use items::OrderItem;
pub use left::outputs_of;
pub use order::order_of;
pub use record::{Record, build, depth_first};
pub use record_end::RecordEnd;

/// Computed example: a small record is coherent, and is not if one thing is changed.
pub fn worked_record()
    ensures coherent { Coherent }
{}

/// Computed examples: small records with each end that is not main's own are coherent, and are not if one thing is changed.
pub fn worked_ends()
    ensures { Ends }
{}

/// Computed examples: small runs in which a step came late are closed runs, and are not if one thing is changed.
pub fn worked_closed_runs()
    ensures late { ClosedLate }
    ensures early { ClosedEarly }
{}

/// Law: the tree of a closed run in depth-first order, with its journals and conflicts, is coherent, whatever its end.
pub fn closed_runs()
    ensures { ClosedAreCoherent StrandState }
{}

/// Law: what strands did in a tree, they also did in the tree in depth-first order. Its states are those of the renamed nodes.
pub fn strands_stay<S>()
    ensures { StrandsStay S }
{}

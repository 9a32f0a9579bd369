//! Laws on records: every coherent record replays, over code and over the syntax of its source. Others say what a record tells of
//! refusals. No code here runs.
//! Use them to conclude, from the coherence of a record, that one memory does what its run did.
//! Contracts cite `specs/RecordsReplay.antt` (the law behind every run that is not one worker's), `WorkedReplays` (examples),
//! `SameMachines` (two laws of strands that want the same), `OverSource` (records over sources), `LeftFirst` (runs in which left
//! strands went first), `Spawning` (sources that spawn) and `Attempts` (attempts recorded one by one).
#![tactic(auto)]

ghost use Rattle.cw_replay.specs.Attempts.{AttemptsAreRecorded, ConflictsNeedForks};
ghost use Rattle.cw_replay.specs.LeftFirst.{ClosedWentLeftFirst, DepthFirstIsOne, LeftFirstIsDepthFirst};
ghost use Rattle.cw_replay.specs.OverSource.{ForksNeedSpawns, RecordsReplayOverSource};
ghost use Rattle.cw_replay.specs.RecordsReplay.{KeptRecordsReplay, PicksLeadThere, RecordsReplay};
ghost use Rattle.cw_replay.specs.SameMachines.{SameEnds, SameMachines, SameReplays};
ghost use Rattle.cw_replay.specs.WorkedReplays.{WorkedReplays};
ghost use Rattle.cw_strand.specs.Pasts.{WantTheSame};
ghost use Rattle.cw_strand.specs.Strands.{IsDeep, Strands};

/// Law: if the depth of strands falls, each coherent record of them that has its outputs replays, however its run ended.
pub fn replays<S>()
    ensures { (s : Strands S) → IsDeep s → RecordsReplay s }
{}

/// Law: if a run replays, the picks of its order lead the machine to its end.
pub fn picks_lead_there<S>()
    ensures { (s : Strands S) → PicksLeadThere s }
{}

/// Law: if left strands went first in a closed run, they did so too in its depth-first order.
pub fn closed_went_left_first<S>()
    ensures went { ClosedWentLeftFirst S }
{}

/// Law: if left strands went first in a run that ended by itself or at a fault, its order is the depth-first one. One memory goes
/// through what the run of one worker goes through.
pub fn left_first_is_depth_first()
    ensures depth_first { LeftFirstIsDepthFirst }
{}

/// Law: if the orders of two runs of one job are the depth-first one, the runs have the same picks and the same end.
pub fn depth_first_is_one()
    ensures one { DepthFirstIsOne }
{}

/// Law: a coherent record with its program, its outputs and its order replays, and a check agrees with it.
pub fn kept_records_replay()
    ensures { KeptRecordsReplay }
{}

/// Examples: a small record for each end replays.
pub fn worked_replays()
    ensures { WorkedReplays }
{}

/// Law: only strands that run at the same time have conflicts.
pub fn conflicts_need_forks()
    ensures { ConflictsNeedForks }
{}

/// Law: if a strand spent its budget, there is a conflict for each attempt that it had.
pub fn attempts_are_recorded()
    ensures { AttemptsAreRecorded }
{}

/// Law: let two laws of strands be deep and want the same, and let the first memory have no more elements than the cells have.
/// Under the same picks, the machine with one memory does the same over both, and reaches the same end.
pub fn same_wants_same_machine<A, B>()
    ensures machines { (s : Strands A) (t : Strands B) → IsDeep s → IsDeep t → WantTheSame s t → SameMachines s t }
    ensures ends { (s : Strands A) (t : Strands B) → IsDeep s → IsDeep t → WantTheSame s t → SameEnds s t }
{}

/// Law: let two laws of strands be deep and want the same. From such a first memory, a record replays over one exactly if it
/// replays over the other.
pub fn same_wants_replay<A, B>()
    ensures { (s : Strands A) (t : Strands B) → IsDeep s → IsDeep t → WantTheSame s t → SameReplays s t }
{}

/// Law: a record of a compiled program replays over its code exactly if it replays over the syntax tree of its source.
pub fn records_replay_over_source()
    ensures { RecordsReplayOverSource }
{}

/// Law: a record of a compiled program has a fork only if its source has a `spawn`.
pub fn forks_need_spawns()
    ensures { ForksNeedSpawns }
{}

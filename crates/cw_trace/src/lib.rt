//! Traces: which strands of a fork-join program make a trace, and the gaps that lead to its pending blocks. A `Tier` holds all
//! traces. It cuts a trace at a stolen fork, and puts the parts together again.
//! Use it with `cw_xconf` to tell from a few words whether an access conflicts.
//! Contracts cite `specs/Columns.antt` (what calls make of the columns), `Traces` (what a caller sees) and `Laws` (what calls
//! keep). `Keeps`, `Segments` and `Stands` say when a tier represents a tree. `Running` says which nodes are open, and `Outward`
//! which fork bars a split. `Runs` and `OrderedRuns` are about whole runs, `Hands` about the steps of other strands.
#![tactic(auto)]

ghost use Rattle.cw_trace.specs.Laws.{Reading, RootStands, Leaf, Begin, Close, Join, GoesOnBeneath};
ghost use Rattle.cw_trace.specs.Runs.{EachRunStands, EachRunGoesOn, Suspended};

mod asks;
mod brackets;
mod columns;
mod gaps;
mod hands;
mod queries;
mod reads;
mod tier;
mod touched;
mod verdict;

pub use asks::told_laws;
pub use columns::Columns;
pub use gaps::{GapReader, Gaps};
pub use hands::{
    hands_differ, later_stays, loads_decide, order_is_kept, told_of_moments, worked_hands,
};
pub use queries::query_laws;
pub use tier::{Early, Inline, Row, Tier, TierReader, Trace};
pub use verdict::Verdict;

/// Laws: what a tier that represents a tree tells of the tree, and which steps besides the calls keep it so.
pub fn tier_laws()
    ensures reading { Reading }
    ensures goes_on { GoesOnBeneath }
    ensures start { RootStands }
    ensures leaf { Leaf }
    ensures begin { Begin }
    ensures close { Close }
    ensures join { Join }
    ensures suspended { Suspended }
{}

/// Law: if each event of a run is allowed when it is made, the tier represents the tree.
pub fn tier_runs()
    ensures stands { EachRunStands }
    ensures goes_on { EachRunGoesOn }
{}

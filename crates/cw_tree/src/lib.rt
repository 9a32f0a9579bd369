//! The computation tree of a run: what a node is, what is above it, which blocks are still pending, which accesses
//! conflict, and what strands are called. Use it for whatever records or checks a run.
//! Contracts cite `specs/Nodes.antt` (nodes), `specs/Walks.antt` (what is above a node), `specs/Names.antt` (names of
//! strands) and `specs/ForkCounts.antt` (how forks are counted). `Series`, `Attempts`, `Accesses`, `Shape`, `Journals`,
//! `Cancels`, `Refusals` and `Histories` have what the layers above say of a tree, its accesses, its cancels and its
//! conflicts. `AccessStacks` has the accesses of a cell with their entries, `VictimsAt` the victim of an access at a
//! place, `NextNodes` where a node may be made next and with which stamp, `Newest` which accesses are newest. `InOrder`
//! has a tree, its conflicts and its end with the nodes numbered depth first. `OneTree` says when two trees differ only
//! in the numbers of their nodes. `Laws`, `ChainLaws` and `OrderLaws` are laws on them. `Worked` and `WorkedRun` try
//! them.
#![tactic(auto)]

ghost use Rattle.cw_tree.specs.Laws.{SeriesOrParallel};
ghost use Rattle.cw_tree.specs.Worked.{Ancestors, Conflicts, Orders, Names, Texts, Attempts, Places, Values, Chains};
ghost use Rattle.cw_tree.specs.WorkedRun.{AllHold, Stops, Breaks, GivenUp};

mod access;
mod closed;
mod conflict;
mod laws;
mod node;
mod picks;
mod tree;

pub use access::{Entry, Mark};
pub use closed::{Closed, Halt};
pub use conflict::Conflict;
pub use laws::{
    chains_by_stamps, chains_stay, conflicts_at_places, orders_rename, stacks_stay, trees_are_one,
    trees_stay_sound, victims_at_places,
};
pub use node::{BlockState, Kind, Node};
pub use picks::{Name, Picks, Turn};
pub use tree::{Family, Tree};

/// If neither of two nodes is an ancestor of the other, one is before the other or they are parallel.
pub fn series_or_parallel()
    ensures { SeriesOrParallel }
{}

/// What the definitions say of small trees.
pub fn worked_trees()
    ensures ancestors { Ancestors }
    ensures conflicts { Conflicts }
    ensures orders { Orders }
    ensures names { Names }
    ensures texts { Texts }
    ensures attempts { Attempts }
    ensures places { Places }
    ensures values { Values }
    ensures chains { Chains }
{}

/// All that is said of what a run leaves holds of a small run, and fails if one thing is changed. A cancel tells what
/// its block puts back, and nothing else.
pub fn worked_run()
    ensures holds { AllHold }
    ensures stops { Stops }
    ensures breaks { Breaks }
    ensures given_up { GivenUp }
{}

//! Two depth-first orders of a computation tree, in which two comparisons tell whether two accesses are in parallel.
//! Use `Pairs` for a tree whose leaves are asked for many times.
//! Contracts cite `specs/Orders.antt` (the orders, leaves) and `specs/Laws.antt` (what the orders tell of two nodes).
//! `specs/Worked.antt` tries them.
#![tactic(auto)]

ghost use Rattle.cw_sp.specs.Laws.{EnglishIsDepthFirst, LeavesAreApart, LeavesByOrders, TwoOrders};
ghost use Rattle.cw_sp.specs.Worked.{Leaves, Orders, Pairs};

mod line;
mod pairs;

pub use pairs::Pairs;

/// Law: if neither of two nodes is an ancestor of the other, one is before the other exactly if it comes first in both
/// orders, and the two are parallel exactly if the orders differ on them. A leaf is no other node's ancestor, so the
/// orders tell of any two leaves whether they are parallel. The English order is the depth-first one.
pub fn two_orders()
    ensures orders { TwoOrders }
    ensures apart { LeavesAreApart }
    ensures leaves { LeavesByOrders }
    ensures english { EnglishIsDepthFirst }
{}

/// Computed examples: small trees in both orders, and which of their nodes are leaves and in parallel.
pub fn worked_orders()
    ensures leaves { Leaves }
    ensures orders { Orders }
    ensures pairs { Pairs }
{}

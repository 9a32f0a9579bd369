ghost use Rattle.std.specs.Prelude.{◌↔◌, ℕ, ◌-◌, ◌<◌, IfOk, length};
ghost use Rattle.cw_tree.specs.Nodes.{parent_of};
ghost use Rattle.cw_audit.specs.Moments.{AreBesides, AreFirstStamps, HoldsUnder, IsUnder, PredatesBeneath, PredatesBeside, PredatesPast, PredatesWithin};

use cw_base::OutOfMemory;
use cw_tree::Tree;
use std::alloc::Global;

/// For each node, returns the least stamp after it in series, if there is one. Takes two passes over the nodes.
pub(crate) fn firsts(alloc: Global, tree: &Tree) -> Result<Vec<Option<u64>>, OutOfMemory>
    ensures { IfOk result (λ v. AreFirstStamps tree.now v.items) }
{
    let mut firsts = firsts_beside(alloc, tree)?;
    // what is after the parent of a node is after the node too
    for n in 1..tree.nodes().len() as u32 {
        let beside = firsts[n as usize];
        let above = firsts[tree.parent(n) as usize];
        firsts[n as usize] = lesser(beside, above);
    }
    Ok(firsts)
}

/// For each node but the root, returns the least stamp in the later children of its parent, if there is one. Takes one pass over the
/// nodes.
fn firsts_beside(alloc: Global, tree: &Tree) -> Result<Vec<Option<u64>>, OutOfMemory>
    ensures { IfOk result (λ v. AreBesides tree.now v.items) }
{
    let count = tree.nodes().len();
    let mut firsts: Vec<Option<u64>> = vec![in alloc; None; count]?;
    // for each node the least stamp in its children so far
    let mut past: Vec<Option<u64>> = vec![in alloc; None; count]?;
    let mut n = count as u32;
    // children have greater numbers than their parents
    while n > 1 {
        n -= 1;
        let parent = tree.parent(n) as usize;
        let later = past[parent];
        firsts[n as usize] = first_beside(tree, n, later);
        let within = first_within(tree, n, past[n as usize]);
        past[parent] = lesser(later, within);
    }
    Ok(firsts)
}

/// Returns the least stamp in the later children of the parent of node `n`, or none if these are in parallel.
fn first_beside(tree: &Tree, n: u32, later: Option<u64>) -> Option<u64>
    requires there { n < length tree.now }
    requires child { 0 < n }
    requires later { HoldsUnder (PredatesPast tree.now n (parent_of tree.now n)) later }
    ensures { HoldsUnder (PredatesBeside tree.now n) result }
{
    if tree.is_fork(tree.parent(n)) {
        None
    } else {
        later
    }
}

/// Returns the least stamp of node `n` and of what is beneath it, if there is one.
fn first_within(tree: &Tree, n: u32, beneath: Option<u64>) -> Option<u64>
    requires there { n < length tree.now }
    requires beneath { HoldsUnder (PredatesBeneath tree.now n) beneath }
    ensures { HoldsUnder (PredatesWithin tree.now n) result }
{
    let stamp = tree.node(n).stamp;
    if stamp > 0 {
        lesser(Some(stamp), beneath)
    } else {
        beneath
    }
}

/// Returns the lesser of two limits.
fn lesser(one: Option<u64>, other: Option<u64>) -> Option<u64>
    ensures { (v : ℕ) → IsUnder v result ↔ (IsUnder v one × IsUnder v other) }
{
    match (one, other) {
        (Some(a), Some(b)) => Some(a.min(b)),
        (Some(a), None) => Some(a),
        (None, limit) => limit,
    }
}

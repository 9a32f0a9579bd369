ghost use Rattle.std.specs.Prelude.{◌≡◌, ◌-◌, ◌<◌, IfOk, IsTrue, filter, length};
ghost use Rattle.cw_tree.specs.Nodes.{all_nodes, is_strand, parent_of};
ghost use Rattle.cw_tree.specs.Walks.{is_ancestor};
ghost use Rattle.cw_tree.specs.Series.{depth_first};

use cw_base::OutOfMemory;
use cw_tree::Tree;
use std::alloc::Global;

/// Returns the strands of a tree, depth first.
pub(crate) fn strands(alloc: Global, tree: &Tree) -> Result<Vec<u32>, OutOfMemory>
    ensures { IfOk result (λ found. found.items ≡ filter (is_strand tree.now) (depth_first tree.now)) }
{
    if is_in_order(tree) {
        by_numbers(alloc, tree)
    } else {
        by_walk(alloc, tree)
    }
}

// Returns the strands by their numbers.
fn by_numbers(alloc: Global, tree: &Tree) -> Result<Vec<u32>, OutOfMemory>
    ensures { IfOk result (λ found. found.items ≡ filter (is_strand tree.now) (all_nodes tree.now)) }
{
    let mut found = Vec::new(alloc);
    for n in 0..tree.nodes().len() as u32 {
        if tree.is_strand(n) {
            found.push(n)?;
        }
    }
    Ok(found)
}

// Returns the strands in the order of a depth-first walk.
fn by_walk(alloc: Global, tree: &Tree) -> Result<Vec<u32>, OutOfMemory>
    ensures { IfOk result (λ found. found.items ≡ filter (is_strand tree.now) (depth_first tree.now)) }
{
    // a hint to the prover: the root is there, and each other node has a smaller parent
    let _ = tree.nodes();
    let order = tree.depth_first()?;
    let mut found = Vec::new(alloc);
    for n in &order {
        if tree.is_strand(*n) {
            found.push(*n)?;
        }
    }
    Ok(found)
}

// Returns whether the nodes are numbered depth first.
fn is_in_order(tree: &Tree) -> bool
    ensures { IsTrue result → depth_first tree.now ≡ all_nodes tree.now }
{
    for n in 1..tree.nodes().len() as u32 {
        if !hangs(tree, n) {
            return false;
        }
    }
    true
}

/// Returns whether node `n` hangs from the node before it, or from a node above that one. If all nodes before it do, the nodes
/// passed on the way up are done: no later node hangs from them.
pub(crate) fn hangs(tree: &Tree, n: u32) -> bool
    requires there { n < length tree.now }
    requires child { 0 < n }
    ensures { IsTrue result → IsTrue (is_ancestor tree.now (parent_of tree.now n) (n - 1)) }
{
    let parent = tree.parent(n);
    let mut at = n - 1;
    while at > parent {
        at = tree.parent(at);
    }
    at == parent
}

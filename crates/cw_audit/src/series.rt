ghost use Rattle.std.specs.Prelude.{◌≡◌, ◌↔◌, ◌<◌, IfOk, IsTrue, length, map};
ghost use Rattle.cw_tree.specs.Nodes.{all_nodes, below};
ghost use Rattle.cw_tree.specs.Shape.{PendingLast};
ghost use Rattle.cw_tree.specs.Walks.{xparent};
ghost use Rattle.cw_audit.specs.Later.{AreLaters, IsPendingLast, is_at_end, is_last};

use crate::blocks::blocks_above;
use cw_base::OutOfMemory;
use cw_tree::Tree;
use std::alloc::Global;

/// For each node but the root, returns whether a child of its parent comes after it. Takes one pass over the nodes.
pub(crate) fn laters(alloc: Global, tree: &Tree) -> Result<Vec<bool>, OutOfMemory>
    ensures { IfOk result (λ v. AreLaters tree.now v.items) }
{
    let count = tree.nodes().len();
    let mut laters = vec![in alloc; false; count]?;
    // whether a child of each node was met
    let mut met = vec![in alloc; false; count]?;
    let mut n = count as u32;
    // from the last node down, each is met after those that come after it
    while n > 1 {
        n -= 1;
        let parent = tree.parent(n) as usize;
        laters[n as usize] = met[parent];
        met[parent] = true;
    }
    Ok(laters)
}

/// Returns whether nothing comes after a pending block in series, and the blocks above one are pending.
pub(crate) fn pending_is_last(
    alloc: Global,
    tree: &Tree,
    laters: &[bool],
) -> Result<bool, OutOfMemory>
    requires { AreLaters tree.now laters.now }
    ensures { IfOk result (λ b. IsTrue b ↔ PendingLast tree.now) }
{
    let ends = ends(alloc, tree, laters)?;
    let blocks = blocks_above(alloc, tree)?;
    for n in 0..tree.nodes().len() as u32 {
        if !is_pending_last(tree, n, ends[n as usize], blocks[n as usize]) {
            return Ok(false);
        }
    }
    Ok(true)
}

/// Returns whether a node, if it is a pending block, is at its end, and the innermost block above it is pending.
fn is_pending_last(tree: &Tree, n: u32, at_end: bool, block: Option<u32>) -> bool
    requires there { n < length tree.now }
    requires end { at_end ≡ is_at_end tree.now n }
    requires block { block ≡ xparent tree.now n }
    ensures { IsTrue result ↔ IsPendingLast tree.now n }
{
    // a hint to the prover: each node but the root has a smaller parent
    let _ = tree.nodes();
    if !tree.is_pending(n) {
        return true;
    }
    if !at_end {
        return false;
    }
    match block {
        Some(around) => tree.is_pending(around),
        None => true,
    }
}

/// For each node, returns whether nothing comes after it in series. Takes one pass over the nodes.
fn ends(alloc: Global, tree: &Tree, laters: &[bool]) -> Result<Vec<bool>, OutOfMemory>
    requires { AreLaters tree.now laters.now }
    ensures { IfOk result (λ v. v.items ≡ map (is_at_end tree.now) (all_nodes tree.now)) }
{
    let count = tree.nodes().len();
    let mut ends = Vec::with_capacity(alloc, count)?;
    for n in 0..count as u32 {
        let end = is_at_end(tree, laters, ends.as_slice(), n);
        ends.push(end)?;
    }
    Ok(ends)
}

/// The same for one node, given that of the nodes before it.
fn is_at_end(tree: &Tree, laters: &[bool], before: &[bool], n: u32) -> bool
    requires there { n < length tree.now }
    requires laters { AreLaters tree.now laters.now }
    requires before { before.now ≡ map (is_at_end tree.now) (below n) }
    ensures { result ≡ is_at_end tree.now n }
{
    if n == 0 {
        return true;
    }
    if !is_last(tree, laters, n) {
        return false;
    }
    before[tree.parent(n) as usize]
}

/// Returns whether no child of its parent is after a node in series.
fn is_last(tree: &Tree, laters: &[bool], n: u32) -> bool
    requires there { n < length tree.now }
    requires child { 0 < n }
    requires laters { AreLaters tree.now laters.now }
    ensures { result ≡ is_last tree.now n }
{
    tree.is_fork(tree.parent(n)) || !laters[n as usize]
}

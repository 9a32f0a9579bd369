ghost use Rattle.std.specs.Prelude.{◌≡◌, ◌↔◌, ℕ, ◌+◌, ◌<◌, IfOk, IsTrue, length, slice_index};
ghost use Rattle.cw_tree.specs.Nodes.{parent_of};
ghost use Rattle.cw_audit.specs.Latest.{ComesLate, EndsLast, IsLeast, TopsBefore, TopsBehind, TopsBeneath, TopsWithin};
ghost use Rattle.cw_audit.specs.Moments.{AreFloors};

use crate::kinds::is_closed;
use cw_base::OutOfMemory;
use cw_tree::Tree;
use std::alloc::Global;

/// For each node, returns the greatest stamp or end beneath it, or 0. Takes one pass over the nodes.
pub(crate) fn latest_beneath(alloc: Global, tree: &Tree) -> Result<Vec<u64>, OutOfMemory>
    ensures len { IfOk result (λ v. length v.items ≡ length tree.now) }
    ensures each { IfOk result (λ v. (n : ℕ) → n < length tree.now → IsLeast (TopsBeneath tree.now n) (slice_index v.items n)) }
{
    let count = tree.nodes().len();
    let mut latest = vec![in alloc; 0u64; count]?;
    let mut n = count as u32;
    // children have greater numbers than their parents
    while n > 1 {
        n -= 1;
        let within = latest_within(tree, n, latest[n as usize]);
        let parent = tree.parent(n) as usize;
        latest[parent] = latest[parent].max(within);
    }
    Ok(latest)
}

/// Returns the greatest stamp or end of node `n` and of what is beneath it.
fn latest_within(tree: &Tree, n: u32, beneath: u64) -> u64
    requires there { n < length tree.now }
    requires beneath { IsLeast (TopsBeneath tree.now n) beneath }
    ensures { IsLeast (TopsWithin tree.now n) result }
{
    let node = tree.node(n);
    node.stamp.max(node.end).max(beneath)
}

/// Returns whether each stamp exceeds all that is before it. Takes one pass over the nodes.
pub(crate) fn stamps_rise(alloc: Global, tree: &Tree, latest: &[u64]) -> Result<bool, OutOfMemory>
    requires len { length latest.now ≡ length tree.now }
    requires latest { (n : ℕ) → n < length tree.now → IsLeast (TopsBeneath tree.now n) (slice_index latest.now n) }
    ensures { IfOk result (λ b. IsTrue b ↔ ((m : ℕ) → m < length tree.now → ComesLate tree.now m)) }
{
    let floors = floors(alloc, tree, latest)?;
    for n in 0..tree.nodes().len() as u32 {
        if !comes_late(tree, n, floors[n as usize]) {
            return Ok(false);
        }
    }
    Ok(true)
}

/// For each node, returns what its stamp has to exceed: the greatest stamp or end before it in series, or begin of a block above it.
/// Takes one pass over the nodes.
pub(crate) fn floors(alloc: Global, tree: &Tree, latest: &[u64]) -> Result<Vec<u64>, OutOfMemory>
    requires len { length latest.now ≡ length tree.now }
    requires latest { (n : ℕ) → n < length tree.now → IsLeast (TopsBeneath tree.now n) (slice_index latest.now n) }
    ensures { IfOk result (λ v. AreFloors tree.now v.items) }
{
    let count = tree.nodes().len();
    let mut floors = vec![in alloc; 0u64; count]?;
    // for each node what its next child has to exceed
    let mut behind = vec![in alloc; 0u64; count]?;
    for n in 1..count as u32 {
        let parent = tree.parent(n);
        let floor = behind[parent as usize];
        floors[n as usize] = floor;
        behind[n as usize] = floor_inside(tree, n, floor);
        let within = latest_within(tree, n, latest[n as usize]);
        behind[parent as usize] = floor_behind(tree, n, floor, within);
    }
    Ok(floors)
}

/// Returns whether the stamp of node `n`, if it has one, exceeds what is before it.
fn comes_late(tree: &Tree, n: u32, floor: u64) -> bool
    requires there { n < length tree.now }
    requires floor { IsLeast (TopsBefore tree.now n) floor }
    ensures { IsTrue result ↔ ComesLate tree.now n }
{
    let stamp = tree.node(n).stamp;
    stamp == 0 || floor < stamp
}

/// Returns what the first child of node `n` has to exceed.
fn floor_inside(tree: &Tree, n: u32, floor: u64) -> u64
    requires there { n < length tree.now }
    requires child { 0 < n }
    requires floor { IsLeast (TopsBefore tree.now n) floor }
    ensures { IsLeast (TopsBehind tree.now (n + 1) n) result }
{
    // a hint to the prover: children have greater numbers than their parents
    let _ = tree.nodes();
    if tree.is_block(n) {
        floor.max(tree.node(n).stamp)
    } else {
        floor
    }
}

/// Returns what the next child of the parent of node `n` has to exceed.
fn floor_behind(tree: &Tree, n: u32, floor: u64, within: u64) -> u64
    requires there { n < length tree.now }
    requires child { 0 < n }
    requires floor { IsLeast (TopsBehind tree.now n (parent_of tree.now n)) floor }
    requires within { IsLeast (TopsWithin tree.now n) within }
    ensures { IsLeast (TopsBehind tree.now (n + 1) (parent_of tree.now n)) result }
{
    if tree.is_fork(tree.parent(n)) {
        floor
    } else {
        floor.max(within)
    }
}

/// Returns whether each closed block ends after all that is beneath it.
pub(crate) fn blocks_end_last(tree: &Tree, latest: &[u64]) -> bool
    requires len { length latest.now ≡ length tree.now }
    requires latest { (n : ℕ) → n < length tree.now → IsLeast (TopsBeneath tree.now n) (slice_index latest.now n) }
    ensures { IsTrue result ↔ ((b : ℕ) → b < length tree.now → EndsLast tree.now b) }
{
    for b in 0..tree.nodes().len() as u32 {
        if !ends_last(tree, b, latest[b as usize]) {
            return false;
        }
    }
    true
}

/// Returns whether node `b`, if it is a closed block, ends after all that is beneath it.
fn ends_last(tree: &Tree, b: u32, latest: u64) -> bool
    requires there { b < length tree.now }
    requires latest { IsLeast (TopsBeneath tree.now b) latest }
    ensures { IsTrue result ↔ EndsLast tree.now b }
{
    !is_closed(tree, b) || latest < tree.node(b).end
}

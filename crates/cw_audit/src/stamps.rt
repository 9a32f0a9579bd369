ghost use Rattle.std.specs.Prelude.{◌≡◌, ◌↔◌, ℕ, ◌<◌, IfOk, IsTrue, length, nat_eq};
ghost use Rattle.std.specs.List.{IsDistinct, flat_map};
ghost use Rattle.std.specs.List.Sorted.{IsStrictlyIncreasing};
ghost use Rattle.cw_tree.specs.Nodes.{all_nodes};
ghost use Rattle.cw_tree.specs.Shape.{AreStamps, IsTree};
ghost use Rattle.cw_audit.specs.Stamps.{HasItsStamps, times_of};

use crate::kinds::{has_stamp, is_closed};
use crate::latest::{blocks_end_last, latest_beneath, stamps_rise};
use cw_base::OutOfMemory;
use cw_tree::Tree;
use std::alloc::Global;

/// Decides part 1: whether stamps and end stamps differ, and rise along the tree.
pub(crate) fn stamps_hold(alloc: Global, tree: &Tree) -> Result<bool, OutOfMemory>
    requires { IsTree tree.now }
    ensures { IfOk result (λ b. IsTrue b ↔ AreStamps tree.now) }
{
    if !have_their_stamps(tree) {
        return Ok(false);
    }
    if !times_differ(alloc, tree)? {
        return Ok(false);
    }
    let latest = latest_beneath(alloc, tree)?;
    if !blocks_end_last(tree, latest.as_slice()) {
        return Ok(false);
    }
    stamps_rise(alloc, tree, latest.as_slice())
}

/// Returns whether the nodes that have a stamp are those that should, and the same for ends.
fn have_their_stamps(tree: &Tree) -> bool
    ensures { IsTrue result ↔ ((n : ℕ) → n < length tree.now → HasItsStamps tree.now n) }
{
    for n in 0..tree.nodes().len() as u32 {
        if !has_its_stamps(tree, n) {
            return false;
        }
    }
    true
}

/// The same for one node.
fn has_its_stamps(tree: &Tree, n: u32) -> bool
    requires { n < length tree.now }
    ensures { IsTrue result ↔ HasItsStamps tree.now n }
{
    let node = tree.node(n);
    if (node.stamp > 0) != has_stamp(tree, n) {
        return false;
    }
    if is_closed(tree, n) {
        node.stamp < node.end
    } else {
        node.end == 0
    }
}

/// Returns whether all stamps and ends differ.
fn times_differ(alloc: Global, tree: &Tree) -> Result<bool, OutOfMemory>
    ensures { IfOk result (λ b. IsTrue b ↔ IsDistinct nat_eq (flat_map (times_of tree.now) (all_nodes tree.now))) }
{
    let mut times = times(alloc, tree)?;
    times.sort()?;
    Ok(rises(times.as_slice()))
}

/// Returns all stamps and ends.
fn times(alloc: Global, tree: &Tree) -> Result<Vec<u64>, OutOfMemory>
    ensures { IfOk result (λ v. v.items ≡ flat_map (times_of tree.now) (all_nodes tree.now)) }
{
    let mut times = Vec::with_capacity(alloc, tree.nodes().len())?;
    for n in 0..tree.nodes().len() as u32 {
        let node = tree.node(n);
        if node.stamp > 0 {
            times.push(node.stamp)?;
        }
        if node.end > 0 {
            times.push(node.end)?;
        }
    }
    Ok(times)
}

/// Returns whether each number is less than the next.
pub(crate) fn rises(numbers: &[u64]) -> bool
    ensures { IsTrue result ↔ IsStrictlyIncreasing numbers.now }
{
    for i in 1..numbers.len() {
        if numbers[i - 1] >= numbers[i] {
            return false;
        }
    }
    true
}

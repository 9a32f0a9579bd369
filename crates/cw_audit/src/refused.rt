ghost use Rattle.std.specs.Prelude.{◌≡◌, ℕ, ◌↔◌, ◌<◌, All, IfOk, IsTrue, filter, length, map};
ghost use Rattle.std.specs.List.Sorted.{IsNonDecreasing};
ghost use Rattle.cw_tree.specs.Nodes.{all_nodes, below, is_tried};
ghost use Rattle.cw_tree.specs.Refusals.{is_victim};
ghost use Rattle.cw_tree.specs.Series.{depth_first};
ghost use Rattle.cw_tree.specs.Shape.{AreStamps};
ghost use Rattle.cw_audit.specs.Victims.{AskersAreRefused, VictimFits, VictimsFit, is_among, is_in_victim, victim_stamps};

use crate::kinds::{is_committed, is_tried};
use crate::victims::{is_among, victims};
use cw_base::OutOfMemory;
use cw_tree::{Conflict, Tree};
use std::alloc::Global;

/// Returns whether each refused access has one conflict, in the tree's depth-first order.
pub(crate) fn askers_are_refused(
    alloc: Global,
    tree: &Tree,
    conflicts: &[Conflict],
) -> Result<bool, OutOfMemory>
    ensures { IfOk result (λ b. IsTrue b ↔ AskersAreRefused tree.now conflicts.now) }
{
    let order = tree.depth_first()?;
    let refused = refused(alloc, tree, order.as_slice())?;
    let askers = askers(alloc, conflicts)?;
    Ok(askers.as_slice() == refused.as_slice())
}

/// Returns the refused accesses among nodes in depth-first order.
fn refused(alloc: Global, tree: &Tree, order: &[u32]) -> Result<Vec<u32>, OutOfMemory>
    requires { order.now ≡ depth_first tree.now }
    ensures { IfOk result (λ v. v.items ≡ filter (is_tried tree.now) order.now) }
{
    // a hint to the prover: the root is there
    let _ = tree.nodes();
    let mut refused = Vec::new(alloc);
    for i in 0..order.len() {
        if is_tried(tree, order[i]) {
            refused.push(order[i])?;
        }
    }
    Ok(refused)
}

/// Returns the accesses that conflicts name.
fn askers(alloc: Global, conflicts: &[Conflict]) -> Result<Vec<u32>, OutOfMemory>
    ensures { IfOk result (λ v. v.items ≡ map (λ c. c.asker) conflicts.now) }
{
    let mut askers = Vec::with_capacity(alloc, conflicts.len())?;
    for conflict in conflicts {
        askers.push(conflict.asker)?;
    }
    Ok(askers)
}

/// Returns whether what was rolled back is in a victim, and no victim was committed.
pub(crate) fn victims_fit(
    alloc: Global,
    tree: &Tree,
    conflicts: &[Conflict],
) -> Result<bool, OutOfMemory>
    requires { AreStamps tree.now }
    ensures { IfOk result (λ b. IsTrue b ↔ VictimsFit tree.now conflicts.now) }
{
    let victims = victims(alloc, conflicts)?;
    let inside = in_victims(alloc, tree, conflicts, victims.as_slice())?;
    for n in 0..tree.nodes().len() as u32 {
        if !victim_fits(tree, conflicts, victims.as_slice(), n, inside[n as usize]) {
            return Ok(false);
        }
    }
    Ok(true)
}

/// The same for one node, given whether it is in a victim.
fn victim_fits(tree: &Tree, conflicts: &[Conflict], victims: &[u64], n: u32, inside: bool) -> bool
    requires there { n < length tree.now }
    requires stamps { AreStamps tree.now }
    requires sorted { IsNonDecreasing victims.now }
    requires victims { (s : ℕ) → is_among s victims.now ≡ is_among s (victim_stamps conflicts.now) }
    requires inside { inside ≡ is_in_victim tree.now conflicts.now n }
    ensures { IsTrue result ↔ VictimFits tree.now conflicts.now n }
{
    if tree.is_aborted(n) {
        return inside;
    }
    if is_committed(tree, n) {
        return !is_victim(tree, conflicts, victims, n);
    }
    true
}

/// Returns whether a node is the victim of a conflict.
fn is_victim(tree: &Tree, conflicts: &[Conflict], victims: &[u64], n: u32) -> bool
    requires there { n < length tree.now }
    requires stamps { AreStamps tree.now }
    requires sorted { IsNonDecreasing victims.now }
    requires victims { (s : ℕ) → is_among s victims.now ≡ is_among s (victim_stamps conflicts.now) }
    ensures { result ≡ is_victim tree.now conflicts.now n }
{
    if !tree.is_block(n) {
        return false;
    }
    is_among(victims, tree.node(n).stamp)
}

/// For each node, returns whether it or a block above it is a victim. Takes one pass over the nodes.
fn in_victims(
    alloc: Global,
    tree: &Tree,
    conflicts: &[Conflict],
    victims: &[u64],
) -> Result<Vec<bool>, OutOfMemory>
    requires stamps { AreStamps tree.now }
    requires sorted { IsNonDecreasing victims.now }
    requires victims { (s : ℕ) → is_among s victims.now ≡ is_among s (victim_stamps conflicts.now) }
    ensures { IfOk result (λ v. v.items ≡ map (is_in_victim tree.now conflicts.now) (all_nodes tree.now)) }
{
    let count = tree.nodes().len();
    let mut inside = Vec::with_capacity(alloc, count)?;
    for n in 0..count as u32 {
        let is_in = is_in_victim(tree, conflicts, victims, inside.as_slice(), n);
        inside.push(is_in)?;
    }
    Ok(inside)
}

/// The same for one node, given that of the nodes before it.
fn is_in_victim(
    tree: &Tree,
    conflicts: &[Conflict],
    victims: &[u64],
    before: &[bool],
    n: u32,
) -> bool
    requires there { n < length tree.now }
    requires stamps { AreStamps tree.now }
    requires sorted { IsNonDecreasing victims.now }
    requires victims { (s : ℕ) → is_among s victims.now ≡ is_among s (victim_stamps conflicts.now) }
    requires before { before.now ≡ map (is_in_victim tree.now conflicts.now) (below n) }
    ensures { result ≡ is_in_victim tree.now conflicts.now n }
{
    if is_victim(tree, conflicts, victims, n) {
        return true;
    }
    if n == 0 {
        return false;
    }
    before[tree.parent(n) as usize]
}

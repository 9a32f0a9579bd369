ghost use Rattle.std.specs.Prelude.{◌≡◌, ℕ, ◌↔◌, ◌<◌, All, IfOk, IsTrue, length};
ghost use Rattle.std.specs.List.{list_all};
ghost use Rattle.std.specs.List.Sorted.{IsNonDecreasing};
ghost use Rattle.cw_tree.specs.Nodes.{is_tried};
ghost use Rattle.cw_tree.specs.Refusals.{RollsBack};
ghost use Rattle.cw_tree.specs.Shape.{AreStamps};
ghost use Rattle.cw_audit.specs.Later.{AreLaters};
ghost use Rattle.cw_audit.specs.Victims.{asker_is_last, is_among, rolls_on, victim_stamps};

use cw_base::OutOfMemory;
use cw_tree::{Conflict, Tree};
use std::alloc::Global;

/// Returns whether a strand that rolls back does nothing else until it is at the place of its victim.
pub(crate) fn rolls_back(
    alloc: Global,
    tree: &Tree,
    conflicts: &[Conflict],
    laters: &[bool],
) -> Result<bool, OutOfMemory>
    requires stamps { AreStamps tree.now }
    requires laters { AreLaters tree.now laters.now }
    requires askers { All (λ c. IsTrue (is_tried tree.now c.asker)) conflicts.now }
    ensures { IfOk result (λ b. IsTrue b ↔ RollsBack tree.now conflicts.now) }
{
    if !askers_are_last(tree, conflicts, laters) {
        return Ok(false);
    }
    let victims = victims(alloc, conflicts)?;
    for n in 0..tree.nodes().len() as u32 {
        if !rolls_on(tree, conflicts, victims.as_slice(), laters, n) {
            return Ok(false);
        }
    }
    Ok(true)
}

/// Returns whether what conflicts with a victim refused comes last in its place.
fn askers_are_last(tree: &Tree, conflicts: &[Conflict], laters: &[bool]) -> bool
    requires laters { AreLaters tree.now laters.now }
    requires askers { All (λ c. IsTrue (is_tried tree.now c.asker)) conflicts.now }
    ensures { result ≡ list_all (asker_is_last tree.now) conflicts.now }
{
    for i in 0..conflicts.len() {
        if !asker_is_last(tree, &conflicts[i], laters) {
            return false;
        }
    }
    true
}

/// The same for one conflict.
fn asker_is_last(tree: &Tree, conflict: &Conflict, laters: &[bool]) -> bool
    requires laters { AreLaters tree.now laters.now }
    requires asker { IsTrue (is_tried tree.now conflict.now.asker) }
    ensures { result ≡ asker_is_last tree.now conflict.now }
{
    // a hint to the prover: the root is a strand
    let _ = tree.nodes();
    if conflict.victim == 0 {
        return true;
    }
    !laters[conflict.asker as usize]
}

/// Returns the begin stamps of the victims, rising, and 0 for each conflict without one.
pub(crate) fn victims(alloc: Global, conflicts: &[Conflict]) -> Result<Vec<u64>, OutOfMemory>
    ensures sorted { IfOk result (λ v. IsNonDecreasing v.items) }
    ensures same { IfOk result (λ v. (s : ℕ) → is_among s v.items ≡ is_among s (victim_stamps conflicts.now)) }
{
    let mut victims = stamps(alloc, conflicts)?;
    victims.sort()?;
    Ok(victims)
}

/// The same in the order of the conflicts.
fn stamps(alloc: Global, conflicts: &[Conflict]) -> Result<Vec<u64>, OutOfMemory>
    ensures { IfOk result (λ v. v.items ≡ victim_stamps conflicts.now) }
{
    let mut stamps = Vec::with_capacity(alloc, conflicts.len())?;
    for conflict in conflicts {
        stamps.push(conflict.victim)?;
    }
    Ok(stamps)
}

/// Returns whether node `n`, if it was rolled back, is a victim or comes last in its place.
fn rolls_on(tree: &Tree, conflicts: &[Conflict], victims: &[u64], laters: &[bool], n: u32) -> bool
    requires there { n < length tree.now }
    requires stamps { AreStamps tree.now }
    requires laters { AreLaters tree.now laters.now }
    requires sorted { IsNonDecreasing victims.now }
    requires victims { (s : ℕ) → is_among s victims.now ≡ is_among s (victim_stamps conflicts.now) }
    ensures { result ≡ rolls_on tree.now conflicts.now n }
{
    // a hint to the prover: the root is a strand
    let _ = tree.nodes();
    if !tree.is_aborted(n) {
        return true;
    }
    if is_among(victims, tree.node(n).stamp) {
        return true;
    }
    !laters[n as usize]
}

/// Returns whether a stamp is among some that rise.
pub(crate) fn is_among(sorted: &[u64], stamp: u64) -> bool
    requires { IsNonDecreasing sorted.now }
    ensures { result ≡ is_among stamp sorted.now }
{
    sorted.binary_search(&stamp).is_ok()
}

ghost use Rattle.std.specs.Prelude.{◌≡◌, ◌↔◌, ◌<◌, ◌&&◌, ◌==◌, IfOk, IsTrue, length, map};
ghost use Rattle.cw_tree.specs.Nodes.{all_nodes, is_pending};
ghost use Rattle.cw_tree.specs.Series.{place, strand_of};
ghost use Rattle.cw_strand.specs.Strands.{is_over};
ghost use Rattle.cw_strand.specs.declared.want.Want.TheVariants as Want;
ghost use Rattle.cw_job.specs.Jobs.{Job};
ghost use Rattle.cw_job.specs.Room.Strands.{strands_of_job};
ghost use Rattle.cw_audit.specs.Settled.{IsSome, MayLeave};
ghost use Rattle.cw_audit.specs.Visits.{IsPlaceOf, comes_later};
ghost use Rattle.cw_audit.specs.Walkers.{IsTold, law_of_told, state_there};

use crate::ending::is_live_strand;
use crate::strands::wants::{is_over, wants};
use cw_base::OutOfMemory;
use cw_code::FaultKind;
use cw_job::{Standing, Task};
use cw_record::RecordEnd;
use cw_strand::Want;
use cw_tree::Tree;
use std::alloc::Global;

/// What a walk over a tree reads.
#[derive(Drop)]
pub(crate) struct Told<'a> {
    pub(crate) alloc: Global,
    pub(crate) task: Task<'a>,
    pub(crate) tree: &'a Tree,
    /// For each node but the root, whether a child of its parent comes after it.
    pub(crate) laters: &'a [bool],
    /// For each node, whether no block above it was rolled back.
    pub(crate) lives: &'a [bool],
    pub(crate) end: &'a RecordEnd,
    /// The node in which the strand of a fault stopped.
    pub(crate) place: u32,
}

impl<'a> Told<'a> {
    /// Returns whether something comes after node `n`. Nothing comes after the root.
    pub(crate) fn has_later(&self, n: u32) -> bool
        requires told { IsTold self.now }
        requires there { n < length self.now.tree.now }
        ensures { result ≡ comes_later self.now.tree.now n }
    {
        n > 0 && self.laters[n as usize]
    }

    /// Returns whether node `n` may be left by a strand that is here, so far as the end of the run tells.
    pub(crate) fn may_leave(&self, n: u32, strand: &Option<Standing>) -> bool
        requires told { IsTold self.now }
        requires there { n < length self.now.tree.now }
        ensures { IsTrue result ↔ MayLeave (law_of_told self.now) self.now.tree.now self.now.end.now n (state_there strand.now) }
    {
        match self.end {
            RecordEnd::Finished { .. } => may_end(is_live_strand(self.tree, self.lives, n), strand),
            RecordEnd::Fault { kind, .. } => may_stop(n, self.place, *kind, strand),
            RecordEnd::Budget { .. } | RecordEnd::Moves => true,
        }
    }
}

/// Returns whether a strand has ended, if it is a live one.
fn may_end(live: bool, strand: &Option<Standing>) -> bool
    ensures { (job : Job) → IsTrue result ↔ (IsTrue live → IsSome (λ a. IsTrue (is_over ((strands_of_job job).want a))) (state_there strand.now)) }
{
    if !live {
        return true;
    }
    is_over(strand)
}

/// Returns whether a strand is at a fault, if node `n` is the place where the strand of the fault stopped.
fn may_stop(n: u32, place: u32, kind: FaultKind, strand: &Option<Standing>) -> bool
    ensures { (job : Job) → IsTrue result ↔ (n ≡ place → IsSome (λ a. (strands_of_job job).want a ≡ Want.Fault kind) (state_there strand.now)) }
{
    if n != place {
        return true;
    }
    wants(strand, Want::Fault(kind))
}

/// Returns the node in which the strand of a fault stopped. For any other end it returns some number.
pub(crate) fn place_of_fault(tree: &Tree, end: &RecordEnd) -> Result<u32, OutOfMemory>
    ensures { IfOk result (λ p. IsPlaceOf tree.now end.now p) }
{
    match end {
        RecordEnd::Fault { strand, .. } => place_in(tree, *strand),
        _ => Ok(0),
    }
}

/// Returns the last pending block that was begun in a strand, otherwise the strand.
fn place_in(tree: &Tree, strand: u32) -> Result<u32, OutOfMemory>
    ensures { IfOk result (λ p. p ≡ place tree.now strand) }
{
    let strands = tree.strands()?;
    let mut place = strand;
    for n in 0..tree.nodes().len() as u32 {
        if is_begun_in(tree, strands.as_slice(), strand, n) {
            place = n;
        }
    }
    Ok(place)
}

/// Returns whether node `n` is a pending block that was begun in a strand, given the strand of each node.
fn is_begun_in(tree: &Tree, strands: &[u32], strand: u32, n: u32) -> bool
    requires strands { strands.now ≡ map (strand_of tree.now) (all_nodes tree.now) }
    requires there { n < length tree.now }
    ensures { result ≡ (is_pending tree.now n && (strand_of tree.now n == strand)) }
{
    tree.is_pending(n) && strands[n as usize] == strand
}

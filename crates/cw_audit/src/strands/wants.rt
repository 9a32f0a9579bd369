ghost use Rattle.std.specs.Prelude.{◌≡◌, ◌↔◌, IfOk, IsTrue, option_map};
ghost use Rattle.cw_job.specs.Jobs.{Job};
ghost use Rattle.cw_job.specs.Room.Strands.{strands_of_job};
ghost use Rattle.cw_strand.specs.Strands.{is_over};
ghost use Rattle.cw_audit.specs.Settled.{IsSome, IsWantedAs};
ghost use Rattle.cw_audit.specs.Visits.{answer_told};
ghost use Rattle.cw_audit.specs.Walkers.{state_there};

use cw_base::{OutOfMemory, Seq};
use cw_job::Standing;
use cw_strand::{Given, Want};
use cw_tree::Kind;
use std::alloc::Global;

/// Returns whether a strand with this want does what a node tells. What is inside the node, or after it, is not looked at.
pub(crate) fn is_wanted(kind: &Kind, want: Want) -> bool
    ensures { IsTrue result ↔ IsWantedAs kind.now want }
{
    match (kind, want) {
        (Kind::Strand, _) => true,
        (Kind::Fork, Want::Fork) => true,
        (Kind::Block, Want::Begin) => true,
        (Kind::Read { cell, .. }, Want::Load(element)) => *cell == element,
        (Kind::Write { cell, value }, Want::Store(element, stored)) => {
            *cell == element && *value == stored
        }
        (Kind::Out { value }, Want::Out(shown)) => *value == shown,
        (Kind::Tried { cell }, Want::Load(element) | Want::Store(element, _)) => element == *cell,
        (Kind::Cancel { .. }, Want::Cancel) => true,
        _ => false,
    }
}

/// Returns the answer that a node gives to its strand.
pub(crate) fn answer_of(alloc: Global, kind: &Kind) -> Result<Given, OutOfMemory>
    ensures { IfOk result (λ given. given ≡ answer_told kind.now) }
{
    match kind {
        Kind::Read { value, .. } => Ok(Given::Value(*value)),
        Kind::Cancel { back } => {
            let list = Vec::from_slice(alloc, back.as_slice())?;
            Ok(Given::Back(Seq::from_vec(list)))
        }
        _ => Ok(Given::Nothing),
    }
}

/// Returns whether a strand is there and has ended.
pub(crate) fn is_over(strand: &Option<Standing>) -> bool
    ensures { (job : Job) → IsTrue result ↔ IsSome (λ a. IsTrue (is_over ((strands_of_job job).want a))) (state_there strand.now) }
{
    match strand {
        Some(strand) => matches!(strand.want(), Want::Sync | Want::Done),
        None => false,
    }
}

/// Returns whether a strand is there and has this want.
pub(crate) fn wants(strand: &Option<Standing>, want: Want) -> bool
    ensures { (job : Job) → IsTrue result ↔ IsSome (λ a. (strands_of_job job).want a ≡ want) (state_there strand.now) }
{
    match strand {
        Some(strand) => strand.want() == want,
        None => false,
    }
}

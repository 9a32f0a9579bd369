ghost use Rattle.std.specs.Prelude.{◌≡◌, ◌↔◌, IfOk, IsTrue, map, option_map};
ghost use Rattle.cw_tree.specs.Accesses.{is_live};
ghost use Rattle.cw_tree.specs.Nodes.{all_nodes, is_strand};
ghost use Rattle.cw_tree.specs.Refusals.{MaySpend, Spent, may_be_last, refused_node, telling, tells};
ghost use Rattle.cw_tree.specs.Series.{last_of, strand_of};
ghost use Rattle.cw_record.specs.Coherent.{halt_of};
ghost use Rattle.cw_record.specs.Order.{ending_strand};

use crate::kinds::{is_strand, is_tried};
use cw_base::OutOfMemory;
use cw_record::RecordEnd;
use cw_tree::{Conflict, Tree};

/// Returns whether a conflict tells that the strand of a spent budget, if the run stopped at one, has spent it. Takes a pass over the
/// nodes for each conflict that tells of the last attempt.
pub(crate) fn spent_holds(
    tree: &Tree,
    conflicts: &[Conflict],
    budget: u32,
    lives: &[bool],
    end: &RecordEnd,
) -> Result<bool, OutOfMemory>
    requires { lives.now ≡ map (is_live tree.now) (all_nodes tree.now) }
    ensures { IfOk result (λ b. IsTrue b ↔ (IsTrue (is_strand tree.now (ending_strand end.now)) → MaySpend tree.now conflicts.now budget (halt_of end.now))) }
{
    match end {
        RecordEnd::Budget { strand } => has_spent(tree, conflicts, budget, lives, *strand),
        _ => Ok(true),
    }
}

/// Returns whether a strand has spent its budget. What is no strand of the tree may have.
fn has_spent(
    tree: &Tree,
    conflicts: &[Conflict],
    budget: u32,
    lives: &[bool],
    strand: u32,
) -> Result<bool, OutOfMemory>
    requires { lives.now ≡ map (is_live tree.now) (all_nodes tree.now) }
    ensures { IfOk result (λ b. IsTrue b ↔ (IsTrue (is_strand tree.now strand) → Spent tree.now conflicts.now budget strand)) }
{
    if !is_strand(tree, strand) {
        return Ok(true);
    }
    let strands = tree.strands()?;
    match telling(tree, strands.as_slice(), conflicts, budget, strand) {
        Some(conflict) => Ok(may_be_last(tree, lives, conflict)),
        None => Ok(false),
    }
}

/// Returns the first conflict that tells that a strand has spent its budget, given the strand of each node.
fn telling<'c>(
    tree: &Tree,
    strands: &[u32],
    conflicts: &'c [Conflict],
    budget: u32,
    strand: u32,
) -> Option<&'c Conflict>
    requires { strands.now ≡ map (strand_of tree.now) (all_nodes tree.now) }
    ensures { option_map (λ c. c.now) result ≡ telling tree.now conflicts.now budget strand }
{
    let last = last_of(tree, strands, strand);
    for conflict in conflicts {
        if conflict.attempt == budget && tells(tree, strands, last, strand, conflict) {
            return Some(conflict);
        }
    }
    None
}

/// Returns whether a conflict of the right attempt tells that `strand`, whose last node is `last`, has spent its budget.
fn tells(tree: &Tree, strands: &[u32], last: u32, strand: u32, conflict: &Conflict) -> bool
    requires strands { strands.now ≡ map (strand_of tree.now) (all_nodes tree.now) }
    requires last { last ≡ last_of tree.now strand }
    ensures { result ≡ tells tree.now conflict.now.attempt strand conflict.now }
{
    if conflict.victim == 0 {
        return last == conflict.asker;
    }
    match tree.block_with_stamp(conflict.victim) {
        Some(block) => strands[block as usize] == strand,
        None => false,
    }
}

/// Returns the last node that a strand made, or the strand itself.
fn last_of(tree: &Tree, strands: &[u32], strand: u32) -> u32
    requires { strands.now ≡ map (strand_of tree.now) (all_nodes tree.now) }
    ensures { result ≡ last_of tree.now strand }
{
    let mut n = tree.nodes().len() as u32;
    while n > 0 {
        n -= 1;
        if strands[n as usize] == strand {
            return n;
        }
    }
    strand
}

/// Returns whether what a conflict refused may be the end of a run: the block is pending, or the access is the last, and no block
/// above was rolled back.
fn may_be_last(tree: &Tree, lives: &[bool], conflict: &Conflict) -> bool
    requires { lives.now ≡ map (is_live tree.now) (all_nodes tree.now) }
    ensures { result ≡ may_be_last tree.now conflict.now }
{
    let n = refused_node(tree, conflict);
    if n as usize >= tree.nodes().len() {
        return false;
    }
    lives[n as usize] && (is_tried(tree, n) || tree.is_pending(n))
}

/// Returns the block or the access that a conflict refused.
fn refused_node(tree: &Tree, conflict: &Conflict) -> u32
    ensures { result ≡ refused_node tree.now conflict.now }
{
    if conflict.victim == 0 {
        return conflict.asker;
    }
    tree.block_with_stamp(conflict.victim).unwrap_or(0)
}

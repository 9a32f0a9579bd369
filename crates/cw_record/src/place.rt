ghost use Rattle.std.specs.Prelude.{◌≡◌, ◌<◌, IfOk, length, map, option_map};
ghost use Rattle.std.specs.Option.{option_map_or};
ghost use Rattle.cw_tree.specs.Nodes.{all_nodes};
ghost use Rattle.cw_tree.specs.Series.{strand_of, place, last_of};
ghost use Rattle.cw_tree.specs.Refusals.{tells, telling};
ghost use Rattle.cw_record.specs.Items.{place_of_refused, place_of_end};

use crate::RecordEnd;
use cw_base::OutOfMemory;
use cw_tree::{Conflict, Tree};

/// Returns the place where a run ended.
pub(crate) fn place_of_end(
    tree: &Tree,
    conflicts: &[Conflict],
    aborts: u32,
    end: &RecordEnd,
) -> Result<u32, OutOfMemory>
    requires { 0 < length tree.now }
    ensures { IfOk result (λ p. p ≡ place_of_end tree.now conflicts.now aborts end.now) }
{
    match end {
        RecordEnd::Fault { strand, .. } => {
            let strands = tree.strands()?;
            Ok(place(tree, strands.as_slice(), *strand))
        }
        RecordEnd::Budget { strand } => {
            let strands = tree.strands()?;
            Ok(place_of_budget(tree, strands.as_slice(), conflicts, aborts, *strand))
        }
        _ => Ok(0),
    }
}

// Returns the place of the next node of `strand`.
fn place(tree: &Tree, strands: &[u32], strand: u32) -> u32
    requires { strands.now ≡ map (strand_of tree.now) (all_nodes tree.now) }
    ensures { result ≡ place tree.now strand }
{
    let mut n = tree.nodes().len() as u32;
    while n > 0 {
        n -= 1;
        if tree.is_pending(n) && strands[n as usize] == strand {
            return n;
        }
    }
    strand
}

// Returns the last node that `strand` made.
fn last_of(tree: &Tree, strands: &[u32], strand: u32) -> u32
    requires { strands.now ≡ map (strand_of tree.now) (all_nodes tree.now) }
    ensures { result ≡ last_of tree.now strand }
{
    let mut n = tree.nodes().len() as u32;
    while n > 0 {
        n -= 1;
        if strands[n as usize] == strand {
            return n;
        }
    }
    strand
}

// Returns where `strand` spent its budget: the place of what was refused by the first conflict that tells so, or the root if there
// is none.
fn place_of_budget(
    tree: &Tree,
    strands: &[u32],
    conflicts: &[Conflict],
    budget: u32,
    strand: u32,
) -> u32
    requires there { 0 < length tree.now }
    requires strands { strands.now ≡ map (strand_of tree.now) (all_nodes tree.now) }
    ensures { result
        ≡ option_map_or (place_of_refused tree.now) (telling tree.now conflicts.now budget strand) 0 }
{
    match find_telling(tree, strands, conflicts, budget, strand) {
        Some(conflict) => place_of_refused(tree, conflict),
        None => 0,
    }
}

/// Returns the first conflict that tells that `strand` has spent its budget.
pub(crate) fn telling<'c>(
    tree: &Tree,
    conflicts: &'c [Conflict],
    budget: u32,
    strand: u32,
) -> Result<Option<&'c Conflict>, OutOfMemory>
    ensures { IfOk result (λ found. option_map (λ c. c.now) found ≡ telling tree.now conflicts.now budget strand) }
{
    let strands = tree.strands()?;
    Ok(find_telling(tree, strands.as_slice(), conflicts, budget, strand))
}

// Returns the same, given the strand of each node.
fn find_telling<'c>(
    tree: &Tree,
    strands: &[u32],
    conflicts: &'c [Conflict],
    budget: u32,
    strand: u32,
) -> Option<&'c Conflict>
    requires { strands.now ≡ map (strand_of tree.now) (all_nodes tree.now) }
    ensures { option_map (λ c. c.now) result ≡ telling tree.now conflicts.now budget strand }
{
    let last = last_of(tree, strands, strand);
    for conflict in conflicts {
        if conflict.attempt == budget && tells(tree, strands, last, strand, conflict) {
            return Some(conflict);
        }
    }
    None
}

// Returns whether a conflict of the right attempt tells that `strand`, whose last node is `last`, has spent its budget.
fn tells(tree: &Tree, strands: &[u32], last: u32, strand: u32, conflict: &Conflict) -> bool
    requires strands { strands.now ≡ map (strand_of tree.now) (all_nodes tree.now) }
    requires last { last ≡ last_of tree.now strand }
    ensures { result ≡ tells tree.now conflict.now.attempt strand conflict.now }
{
    if conflict.victim == 0 {
        return last == conflict.asker;
    }
    match tree.block_with_stamp(conflict.victim) {
        Some(block) => strands[block as usize] == strand,
        None => false,
    }
}

// Returns the place of what a conflict refused.
fn place_of_refused(tree: &Tree, conflict: &Conflict) -> u32
    requires { 0 < length tree.now }
    ensures { result ≡ place_of_refused tree.now conflict.now }
{
    if conflict.victim == 0 {
        return conflict.asker;
    }
    tree.parent(tree.block_with_stamp(conflict.victim).unwrap_or(0))
}

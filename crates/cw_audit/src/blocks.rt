ghost use Rattle.std.specs.Prelude.{◌≡◌, ◌↔◌, ℕ, ◌<◌, false, IfOk, IfSome, IsTrue, None, Some, length, map};
ghost use Rattle.cw_tree.specs.Journals.{EndedBetween, FitsCells, JournalsEnded};
ghost use Rattle.cw_tree.specs.Nodes.{all_nodes, below, end_of, stamp_of};
ghost use Rattle.cw_tree.specs.Walks.{xparent};
ghost use Rattle.cw_audit.specs.Ended.{AreShortcuts, EndedUpTo, has_ended_by};
ghost use Rattle.cw_audit.specs.LiveAccesses.{all_live_accesses};
ghost use Rattle.cw_audit.specs.Spans.{AreSpans};

use crate::accesses::cell_accessed;
use crate::kinds::is_committed;
use crate::spans::Spans;
use cw_base::OutOfMemory;
use cw_tree::Tree;
use std::alloc::Global;

/// Decides part 3: whether all blocks around a live access and not around the next one of its cell were committed before that. Takes
/// one pass over the live accesses, which are given oldest first.
pub(crate) fn blocks_hold(
    alloc: Global,
    tree: &Tree,
    accesses: &[u32],
    cells: usize,
) -> Result<bool, OutOfMemory>
    requires accesses { accesses.now ≡ all_live_accesses tree.now }
    requires cells { FitsCells tree.now cells }
    ensures { IfOk result (λ b. IsTrue b ↔ JournalsEnded tree.now cells) }
{
    // a hint to the prover: each node but the root has a smaller parent
    let _ = tree.nodes();
    let spans = Spans::of_tree(alloc, tree)?;
    let mut ways = blocks_above(alloc, tree)?;
    // the last access of each cell so far
    let mut last: Vec<Option<u32>> = vec![in alloc; None; cells]?;
    for i in 0..accesses.len() {
        let next = accesses[i];
        let Some(cell) = cell_accessed(tree, next) else {
            continue;
        };
        if !may_follow(tree, &spans, &mut ways, last[cell as usize], next) {
            return Ok(false);
        }
        last[cell as usize] = Some(next);
    }
    Ok(true)
}

/// Returns whether an access may follow the last one of its cell, if there is one.
fn may_follow(
    tree: &Tree,
    spans: &Spans,
    ways: &mut Vec<Option<u32>>,
    last: Option<u32>,
    next: u32,
) -> bool
    requires last { IfSome last (λ u. u < length tree.now) }
    requires next { next < length tree.now }
    requires spans { AreSpans tree.now spans.now.first.items spans.now.last.items }
    requires ways { AreShortcuts tree.now (stamp_of tree.now next) ways.old.items }
    ensures ended { IsTrue result ↔ ((u : ℕ) → last ≡ Some u → EndedBetween tree.now u next) }
    ensures ways { AreShortcuts tree.now (stamp_of tree.now next) ways.new.items }
{
    match last {
        Some(access) => ended_between(tree, spans, ways, access, next),
        None => true,
    }
}

/// Returns whether all blocks around an access and not around the next one were committed before that.
fn ended_between(
    tree: &Tree,
    spans: &Spans,
    ways: &mut Vec<Option<u32>>,
    access: u32,
    next: u32,
) -> bool
    requires access { access < length tree.now }
    requires next { next < length tree.now }
    requires spans { AreSpans tree.now spans.now.first.items spans.now.last.items }
    requires ways { AreShortcuts tree.now (stamp_of tree.now next) ways.old.items }
    ensures ended { IsTrue result ↔ EndedBetween tree.now access next }
    ensures ways { AreShortcuts tree.now (stamp_of tree.now next) ways.new.items }
{
    // a hint to the prover: each node but the root has a smaller parent
    let _ = tree.nodes();
    let time = tree.node(next).stamp;
    match first_open(tree, ways, access, time) {
        Some(block) => spans.is_above(tree, block, next),
        None => true,
    }
}

/// Returns the innermost block above a node that has not ended by this time, and shortens the ways that it takes.
fn first_open(tree: &Tree, ways: &mut Vec<Option<u32>>, node: u32, time: u64) -> Option<u32>
    requires node { node < length tree.now }
    requires ways { AreShortcuts tree.now time ways.old.items }
    ensures open { IfSome result (λ b. has_ended_by tree.now time b ≡ false) }
    ensures there { IfSome result (λ b. b < length tree.now) }
    ensures ended { EndedUpTo tree.now time node result }
    ensures ways { AreShortcuts tree.now time ways.new.items }
{
    // a hint to the prover: what is above a node has a smaller number
    let _ = tree.nodes();
    let mut at = node;
    loop {
        let Some(block) = ways[at as usize] else {
            return None;
        };
        if !has_ended_by(tree, block, time) {
            return Some(block);
        }
        ways[at as usize] = ways[block as usize];
        at = block;
    }
}

/// Returns whether a node is a block that was committed before this time.
fn has_ended_by(tree: &Tree, n: u32, time: u64) -> bool
    requires { n < length tree.now }
    ensures { result ≡ has_ended_by tree.now time n }
{
    is_committed(tree, n) && tree.node(n).end < time
}

/// For each node, returns the innermost block above it. Takes one pass over the nodes.
pub(crate) fn blocks_above(alloc: Global, tree: &Tree) -> Result<Vec<Option<u32>>, OutOfMemory>
    ensures { IfOk result (λ v. v.items ≡ map (xparent tree.now) (all_nodes tree.now)) }
{
    let count = tree.nodes().len();
    let mut blocks = Vec::with_capacity(alloc, count)?;
    for n in 0..count as u32 {
        let block = block_above(tree, blocks.as_slice(), n);
        blocks.push(block)?;
    }
    Ok(blocks)
}

/// Returns the innermost block above node `n`, given those of the nodes before it.
fn block_above(tree: &Tree, before: &[Option<u32>], n: u32) -> Option<u32>
    requires there { n < length tree.now }
    requires before { before.now ≡ map (xparent tree.now) (below n) }
    ensures { result ≡ xparent tree.now n }
{
    if n == 0 {
        return None;
    }
    let parent = tree.parent(n);
    if tree.is_block(parent) {
        Some(parent)
    } else {
        before[parent as usize]
    }
}

ghost use Rattle.std.specs.Prelude.{◌≡◌, ◌<◌, All, IfOk, IsTrue, length, map};
ghost use Rattle.cw_tree.specs.Nodes.{all_nodes, is_strand};
ghost use Rattle.cw_tree.specs.Series.{strand_of};
ghost use Rattle.cw_record.specs.Listed.{strand_number};
ghost use Rattle.cw_record.specs.Order.{ending_strand, node_of, order_of, order_through, pick_of};

use crate::RecordEnd;
use crate::items::{OrderItem, items};
use crate::listed::Listed;
use cw_base::{OutOfMemory, Seq};
use cw_tree::{Conflict, Picks, Tree};
use std::alloc::Global;

/// Returns the order of a run whose budget is `aborts` attempts: for each item a pick of the strand that did it. At the root and in
/// each block, accesses, outputs and cancels come by their stamps, committed blocks by the stamps of their ends. A block appears as
/// its begin, what is in it, and its end. At the place where an unfinished run ended, the pending blocks come last. Strands have
/// the same names as in an attempt that was rolled back. Nodes with equal stamps come by their numbers.
pub fn order_of(
    alloc: Global,
    tree: &Tree,
    conflicts: &[Conflict],
    aborts: u32,
    end: &RecordEnd,
) -> Result<Picks, OutOfMemory>
    requires { IsTrue (is_strand tree.now (ending_strand end.now)) }
    ensures { IfOk result (λ p. p ≡ order_of tree.now conflicts.now aborts end.now) }
{
    let items = items(alloc, tree, conflicts, aborts, end)?;
    order_through(alloc, tree, items.as_slice(), end)
}

/// Returns the order of a run with these items.
pub(crate) fn order_through(
    alloc: Global,
    tree: &Tree,
    items: &[OrderItem],
    end: &RecordEnd,
) -> Result<Picks, OutOfMemory>
    requires strand { IsTrue (is_strand tree.now (ending_strand end.now)) }
    requires there { All (λ i. node_of i < length tree.now) items.now }
    ensures { IfOk result (λ p. p ≡ order_through tree.now items.now end.now) }
{
    // a hint to the prover: each node but the root has a smaller parent
    let _ = tree.nodes();
    let listed = Listed::of_tree(alloc, tree)?;
    let list = picks(alloc, tree, &listed, items)?;
    let last = listed.numbers[ending_strand(end) as usize];
    Ok(Picks {
        names: Seq::from_vec(listed.names),
        list,
        last,
    })
}

/// Returns the strand that an end names, or the root.
pub(crate) fn ending_strand(end: &RecordEnd) -> u32
    ensures { result ≡ ending_strand end.now }
{
    match end {
        RecordEnd::Fault { strand, .. } | RecordEnd::Budget { strand } => *strand,
        RecordEnd::Finished { .. } | RecordEnd::Moves => 0,
    }
}

/// Returns the pick of each item.
fn picks(
    alloc: Global,
    tree: &Tree,
    listed: &Listed,
    items: &[OrderItem],
) -> Result<Seq<u32>, OutOfMemory>
    requires numbers { listed.now.numbers.items
        ≡ map (λ n. strand_number tree.now (strand_of tree.now n)) (all_nodes tree.now) }
    requires there { All (λ i. node_of i < length tree.now) items.now }
    ensures { IfOk result (λ list. list ≡ map (pick_of tree.now) items.now) }
{
    let mut list = Vec::with_capacity(alloc, items.len())?;
    for item in items {
        list.push(listed.numbers[item.node() as usize])?;
    }
    Ok(Seq::from_vec(list))
}

ghost use Rattle.std.specs.Prelude.{◌≡◌, ◌↔◌, ◌&&◌, ℤ, IsTrue, List, map};
ghost use Rattle.cw_tree.specs.Accesses.{is_live};
ghost use Rattle.cw_tree.specs.declared.node.Node.{Node};
ghost use Rattle.cw_tree.specs.Nodes.{all_nodes, is_strand};
ghost use Rattle.cw_tree.specs.Refusals.{MayFault};
ghost use Rattle.cw_tree.specs.Shape.{NonePending};
ghost use Rattle.cw_record.specs.Coherent.{HasMemory, IsMemory, halt_of};

use crate::kinds::is_strand;
use cw_record::RecordEnd;
use cw_tree::Tree;

/// Returns whether the strand of a fault, if the run stopped at one, is a live strand of the tree.
pub(crate) fn may_fault(tree: &Tree, lives: &[bool], end: &RecordEnd) -> bool
    requires { lives.now ≡ map (is_live tree.now) (all_nodes tree.now) }
    ensures { IsTrue result ↔ MayFault tree.now (halt_of end.now) }
{
    match end {
        RecordEnd::Fault { strand, .. } => is_live_strand(tree, lives, *strand),
        _ => true,
    }
}

/// Returns whether a number is that of a live strand.
pub(crate) fn is_live_strand(tree: &Tree, lives: &[bool], n: u32) -> bool
    requires { lives.now ≡ map (is_live tree.now) (all_nodes tree.now) }
    ensures { result ≡ (is_strand tree.now n && is_live tree.now n) }
{
    is_strand(tree, n) && lives[n as usize]
}

/// Returns whether a run that finished leaves the memory that its end says, given what it left.
pub(crate) fn has_memory(end: &RecordEnd, left: &[i64]) -> bool
    ensures { (t : List Node) (first : List ℤ) → IsMemory t first left.now → IsTrue result ↔ HasMemory t first end.now }
{
    match end {
        RecordEnd::Finished { memory, .. } => memory.as_slice() == left,
        _ => true,
    }
}

/// Returns whether no block is left pending.
pub(crate) fn none_pending(tree: &Tree) -> bool
    ensures { IsTrue result ↔ NonePending tree.now }
{
    for n in 0..tree.nodes().len() as u32 {
        if tree.is_pending(n) {
            return false;
        }
    }
    true
}

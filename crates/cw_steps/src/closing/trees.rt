//! The tree of logs: one log after another, each beneath the fork from which it hangs.
ghost use Rattle.std.specs.Prelude.{◌≡◌, ◌+◌, ◌++◌, ◌∷◌, [], map, length, IfOk, OnOk, IsTrue};
ghost use Rattle.cw_tree.specs.declared.node.Node.{Node};
ghost use Rattle.cw_tree.specs.declared.node.Kind.TheVariants.{Strand};
ghost use Rattle.cw_tree.specs.Nodes.{fresh_node};
ghost use Rattle.cw_course.specs.Closings.{hung, tree_of};
ghost use Rattle.cw_steps.specs.Leaving.{logs_of_track, HasBases, IsPlain};

use super::bases::Bases;
use crate::Track;
use cw_base::OutOfMemory;
use cw_tree::{BlockState, Kind, Node, Tree};
use std::alloc::Global;

/// Whether a node is committed and has no end.
fn is_plain(node: &Node) -> bool
    ensures { IsTrue result → IsPlain node.now }
{
    matches!(node.state, BlockState::Committed) && node.end == 0
}

/// Whether a node is that of a strand, unchanged since it was made.
fn is_root(node: &Node) -> bool
    ensures { IsTrue result → record node.now { parent = 0 } ≡ fresh_node 0 Strand 0 }
{
    matches!(node.kind, Kind::Strand) && node.stamp == 0 && is_plain(node)
}

/// Adds a copy of `node` beneath `parent`, if that exists.
fn hang(alloc: Global, tree: &mut Tree, parent: u32, node: &Node) -> Result<(), OutOfMemory>
    ensures { OnOk result (tree.new ≡ tree.old ++ record node.now { parent = parent } ∷ []) }
{
    if parent as usize >= tree.nodes().len() {
        return Err(OutOfMemory);
    }
    let number = tree.add(parent, node.kind.try_clone(alloc)?, node.stamp)?;
    if tree.is_block(number) {
        tree.close(number, node.state, node.end);
        Ok(())
    } else if is_plain(node) {
        Ok(())
    } else {
        Err(OutOfMemory)
    }
}

/// Adds the nodes of a log behind its first node, which has the number `base`.
fn hang_all(alloc: Global, tree: &mut Tree, base: u32, nodes: &[Node]) -> Result<(), OutOfMemory>
    ensures { OnOk result (tree.new ≡ tree.old ++ map (λ (y : Node). record y { parent = base + y.parent }) nodes.now) }
{
    for node in nodes {
        let Some(parent) = base.checked_add(node.parent) else {
            return Err(OutOfMemory);
        };
        hang(alloc, tree, parent, node)?;
    }
    Ok(())
}

/// Adds the nodes of a log, whose first node is its strand, beneath the fork `under`.
fn hang_log(alloc: Global, tree: &mut Tree, under: u32, nodes: &[Node]) -> Result<(), OutOfMemory>
    ensures { OnOk result (tree.new ≡ tree.old ++ hung (length tree.old) under nodes.now) }
{
    let base = tree.nodes().len() as u32;
    let Some((first, rest)) = nodes.split_first() else {
        return Ok(());
    };
    hang(alloc, tree, under, first)?;
    hang_all(alloc, tree, base, rest)
}

/// Makes the tree of the root's log.
fn root_log(alloc: Global, nodes: &[Node]) -> Result<Tree, OutOfMemory>
    ensures { IfOk result (λ t. t ≡ hung 0 0 nodes.now) }
{
    let Some((first, rest)) = nodes.split_first() else {
        return Err(OutOfMemory);
    };
    if !is_root(first) {
        return Err(OutOfMemory);
    }
    let mut tree = Tree::new(alloc)?;
    hang_all(alloc, &mut tree, 0, rest)?;
    Ok(tree)
}

pub(crate) fn tree_of(alloc: Global, track: &Track, bases: &Bases) -> Result<Tree, OutOfMemory>
    requires { HasBases bases.now (logs_of_track track.now) }
    ensures { IfOk result (λ t. t ≡ tree_of (logs_of_track track.now)) }
{
    if bases.number(track.from, track.fork)? > 0 {
        return Err(OutOfMemory);
    }
    let mut tree = root_log(alloc, track.nodes.as_slice())?;
    for log in track.joined.iter() {
        let under = match bases.number(log.from, log.fork) {
            Ok(under) => under,
            Err(fault) => {
                drop(tree);
                return Err(fault);
            }
        };
        match hang_log(alloc, &mut tree, under, log.nodes.as_slice()) {
            Ok(_) => {}
            Err(fault) => {
                drop(tree);
                return Err(fault);
            }
        }
    }
    Ok(tree)
}

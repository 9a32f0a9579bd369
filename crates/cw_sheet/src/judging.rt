ghost use Rattle.std.specs.Prelude.{◌≡◌, ◌≤◌, ◌<◌, ◌+◌, ◌^◌, All, IfOk, IfSome, None, OnOk, Some, length, map, slice_get, take};
ghost use Rattle.cw_tree.specs.Nodes.{all_nodes, is_block, is_fork, is_strand, parent_of};
ghost use Rattle.cw_sheet.specs.Beneath.{beneath_more, beneath_of, is_two};
ghost use Rattle.cw_sheet.specs.Contents.{HasLine};
ghost use Rattle.cw_sheet.specs.Reading.{hangs_well, is_misplaced, misplaced};
ghost use Rattle.cw_sheet.specs.Taking.{IsTreeOf};

use crate::{SheetFault, SheetKind, SheetRefusal};
use cw_base::OutOfMemory;
use cw_tree::{Kind, Node, Tree};
use std::alloc::Global;

/// What hangs beneath a node, as far as a fork asks.
#[derive(Clone, Copy)]
pub(crate) enum Beneath {
    Nothing,
    OneStrand,
    TwoStrands,
    Other,
}

// What hangs beneath a node with one child more.
fn beneath_more(beneath: Beneath, is_strand: bool) -> Beneath
    ensures { result ≡ beneath_more beneath is_strand }
{
    match (beneath, is_strand) {
        (Beneath::Nothing, true) => Beneath::OneStrand,
        (Beneath::OneStrand, true) => Beneath::TwoStrands,
        _ => Beneath::Other,
    }
}

fn is_two(beneath: Beneath) -> bool
    ensures { result ≡ is_two beneath }
{
    matches!(beneath, Beneath::TwoStrands)
}

fn node_at(nodes: &[Node], n: usize) -> &Node
    requires { n < length nodes.now }
    ensures { slice_get nodes.now n ≡ Some result.now }
{
    &nodes[n]
}

fn is_strand(nodes: &[Node], n: usize) -> bool
    requires { n < length nodes.now }
    ensures { result ≡ is_strand nodes.now n }
{
    matches!(node_at(nodes, n).kind, Kind::Strand)
}

fn is_fork(nodes: &[Node], n: usize) -> bool
    requires { n < length nodes.now }
    ensures { result ≡ is_fork nodes.now n }
{
    matches!(node_at(nodes, n).kind, Kind::Fork)
}

fn is_block(nodes: &[Node], n: usize) -> bool
    requires { n < length nodes.now }
    ensures { result ≡ is_block nodes.now n }
{
    matches!(node_at(nodes, n).kind, Kind::Block)
}

fn parent_of(nodes: &[Node], n: usize) -> usize
    requires { n < length nodes.now }
    ensures { result ≡ parent_of nodes.now n }
{
    node_at(nodes, n).parent as usize
}

// For each node, what hangs beneath it.
#[tactic(auto, using(crate::proofs::Beneath::met_over))]
fn all_beneath(alloc: Global, nodes: &[Node]) -> Result<Vec<Beneath>, OutOfMemory>
    ensures { IfOk result (λ v. v.items ≡ map (beneath_of nodes.now (length nodes.now)) (all_nodes nodes.now)) }
{
    let count = nodes.len();
    let mut beneath = vec![in alloc; Beneath::Nothing; count]?;
    for n in 1..count {
        let parent = parent_of(nodes, n);
        if parent >= count {
            continue;
        }
        beneath[parent] = beneath_more(beneath[parent], is_strand(nodes, n));
    }
    Ok(beneath)
}

// Whether a node hangs where one of its kind may hang.
fn hangs_well(nodes: &[Node], n: usize) -> bool
    requires { n < length nodes.now }
    ensures { result ≡ hangs_well nodes.now n }
{
    if n == 0 {
        return is_strand(nodes, 0);
    }
    let parent = parent_of(nodes, n);
    if parent >= n {
        return false;
    }
    if is_fork(nodes, parent) {
        return true;
    }
    (is_strand(nodes, parent) || is_block(nodes, parent)) && !is_strand(nodes, n)
}

// Whether a node is misplaced, given what hangs beneath it.
fn is_misplaced(nodes: &[Node], n: usize, beneath: Beneath) -> bool
    requires there { n < length nodes.now }
    requires beneath { beneath ≡ beneath_of nodes.now (length nodes.now) n }
    ensures { result ≡ is_misplaced nodes.now n }
{
    if !hangs_well(nodes, n) {
        return true;
    }
    is_fork(nodes, n) && !is_two(beneath)
}

// The number of the first node that is misplaced, counted from 1.
fn misplaced(alloc: Global, nodes: &[Node]) -> Result<Option<usize>, OutOfMemory>
    ensures exact { IfOk result (λ m. m ≡ misplaced nodes.now) }
    ensures there { IfOk result (λ m. IfSome m (λ n. n ≤ length nodes.now)) }
{
    let beneath = all_beneath(alloc, nodes)?;
    if nodes.is_empty() {
        return Ok(Some(0));
    }
    for n in 0..nodes.len() {
        if is_misplaced(nodes, n, beneath[n]) {
            return Ok(Some(n + 1));
        }
    }
    Ok(None)
}

// Adds node `n` to the tree of the nodes before it.
fn add_node(alloc: Global, tree: &mut Tree, nodes: &[Node], n: usize) -> Result<(), OutOfMemory>
    requires before { tree.old ≡ take n nodes.now }
    requires there { n < length nodes.now }
    requires low { parent_of nodes.now n < n }
    requires lines { All HasLine nodes.now }
    ensures { OnOk result (tree.new ≡ take (n + 1) nodes.now) }
{
    let node = node_at(nodes, n);
    let kind = node.kind.try_clone(alloc)?;
    let number = tree.add(node.parent, kind, node.stamp)?;
    if !is_block(nodes, n) {
        return Ok(());
    }
    tree.close(number, node.state, node.end);
    Ok(())
}

// Makes the tree of nodes of which none is misplaced.
fn built(alloc: Global, nodes: &[Node]) -> Result<Tree, OutOfMemory>
    requires placed { misplaced nodes.now ≡ None }
    requires lines { All HasLine nodes.now }
    requires root { parent_of nodes.now 0 ≡ 0 }
    ensures { IfOk result (λ t. t ≡ nodes.now) }
{
    let mut tree = Tree::new(alloc)?;
    for n in 1..nodes.len() {
        add_node(alloc, &mut tree, nodes, n)?;
    }
    Ok(tree)
}

/// Makes the tree of these nodes, whose lines begin behind `line`, or refuses the first that is misplaced.
pub(crate) fn tree_of(alloc: Global, nodes: &[Node], line: u32) -> Result<Tree, SheetRefusal>
    requires short { line + length nodes.now < 2 ^ 32 }
    requires lines { All HasLine nodes.now }
    requires root { misplaced nodes.now ≡ None → parent_of nodes.now 0 ≡ 0 }
    ensures { IsTreeOf result line nodes.now }
{
    match misplaced(alloc, nodes)? {
        Some(place) => Err(SheetRefusal::Sheet(SheetFault {
            kind: SheetKind::BadTree,
            line: line + place as u32,
        })),
        None => Ok(built(alloc, nodes)?),
    }
}

ghost use Rattle.std.specs.Prelude.{◌≡◌, ◌<◌, length};
ghost use Rattle.cw_tree.specs.Nodes.{touches, tries};
ghost use Rattle.cw_tree.specs.Refusals.{outermost_apart};
ghost use Rattle.cw_tree.specs.Series.{parallel};
ghost use Rattle.cw_audit.specs.Spans.{AreSpans};

use crate::spans::Spans;
use cw_tree::{Kind, Tree};

/// Returns whether a node reads or writes this cell.
pub(crate) fn touches(tree: &Tree, cell: u32, n: u32) -> bool
    requires { n < length tree.now }
    ensures { result ≡ touches tree.now cell n }
{
    match tree.node(n).kind {
        Kind::Read { cell: own, .. } => own == cell,
        Kind::Write { cell: own, .. } => own == cell,
        _ => false,
    }
}

/// Returns whether a number is that of a refused access of this cell.
pub(crate) fn tries(tree: &Tree, cell: u32, n: u32) -> bool
    ensures { result ≡ tries tree.now cell n }
{
    (n as usize) < tree.nodes().len() && tries_there(tree, cell, n)
}

/// The same for a node.
fn tries_there(tree: &Tree, cell: u32, n: u32) -> bool
    requires { n < length tree.now }
    ensures { result ≡ tries tree.now cell n }
{
    match tree.node(n).kind {
        Kind::Tried { cell: own } => own == cell,
        _ => false,
    }
}

/// Returns whether two nodes part at a fork. Takes as many steps as it is from both to where they part.
pub(crate) fn parallel(tree: &Tree, spans: &Spans, a: u32, b: u32) -> bool
    requires a { a < length tree.now }
    requires b { b < length tree.now }
    requires spans { AreSpans tree.now spans.now.first.items spans.now.last.items }
    ensures { result ≡ parallel tree.now a b }
{
    // a hint to the prover: each node but the root has a smaller parent
    let _ = tree.nodes();
    if spans.is_ancestor(tree, a, b) || spans.is_ancestor(tree, b, a) {
        return false;
    }
    tree.is_fork(tree.lca(a, b))
}

/// Returns the outermost block above node `v` that is not above node `u`. Takes as many steps as it is from `v` to where the two part.
pub(crate) fn outermost_apart(tree: &Tree, spans: &Spans, u: u32, v: u32) -> Option<u32>
    requires u { u < length tree.now }
    requires v { v < length tree.now }
    requires spans { AreSpans tree.now spans.now.first.items spans.now.last.items }
    ensures { result ≡ outermost_apart tree.now u v }
{
    let mut found = None;
    let mut at = v;
    while at > 0 {
        at = tree.parent(at);
        // what is above this is above `u` too
        if spans.is_above(tree, at, u) {
            return found;
        }
        if tree.is_block(at) {
            found = Some(at);
        }
    }
    found
}

ghost use Rattle.std.specs.Prelude.{◌≡◌, ◌<◌, length};
ghost use Rattle.cw_tree.specs.Nodes.{is_committed, is_strand, is_tried};
ghost use Rattle.cw_tree.specs.Shape.{has_stamp, is_closed};

use cw_tree::{BlockState, Kind, Tree};

/// Returns whether a number is that of a strand of the tree.
pub(crate) fn is_strand(tree: &Tree, n: u32) -> bool
    ensures { result ≡ is_strand tree.now n }
{
    (n as usize) < tree.nodes().len() && tree.is_strand(n)
}

/// Returns whether a node is a refused access.
pub(crate) fn is_tried(tree: &Tree, n: u32) -> bool
    requires { n < length tree.now }
    ensures { result ≡ is_tried tree.now n }
{
    matches!(tree.node(n).kind, Kind::Tried { .. })
}

/// Returns whether a node is a block that was committed.
pub(crate) fn is_committed(tree: &Tree, n: u32) -> bool
    requires { n < length tree.now }
    ensures { result ≡ is_committed tree.now n }
{
    tree.is_block(n) && matches!(tree.node(n).state, BlockState::Committed)
}

/// Returns whether a node is a block that is not pending.
pub(crate) fn is_closed(tree: &Tree, n: u32) -> bool
    requires { n < length tree.now }
    ensures { result ≡ is_closed tree.now n }
{
    tree.is_block(n) && !tree.is_pending(n)
}

/// Returns whether a node is of a kind that has a stamp.
pub(crate) fn has_stamp(tree: &Tree, n: u32) -> bool
    requires { n < length tree.now }
    ensures { result ≡ has_stamp tree.now n }
{
    !(tree.is_strand(n) || is_tried(tree, n))
}

ghost use Rattle.std.specs.Prelude.{◌≡◌, IfOk, map};
ghost use Rattle.std.specs.List.{filter};
ghost use Rattle.cw_tree.specs.Nodes.{all_nodes};
ghost use Rattle.cw_audit.specs.Stamped.{AreByStamp, IsNodeAt, is_stamped, stamped_node};

use cw_base::OutOfMemory;
use cw_tree::Tree;
use std::alloc::Global;

/// A node, and its stamp.
#[derive(Clone, Copy)]
pub(crate) struct Stamped {
    node: u32,
    stamp: u64,
}

/// Returns all nodes that have a stamp, oldest first.
pub(crate) fn nodes_by_stamp(alloc: Global, tree: &Tree) -> Result<Vec<Stamped>, OutOfMemory>
    ensures { IfOk result (λ v. AreByStamp tree.now v.items) }
{
    let mut nodes = stamped_nodes(alloc, tree)?;
    nodes.sort_by_key(|node| node.stamp)?;
    Ok(nodes)
}

/// Returns the nodes that have a stamp by their numbers.
fn stamped_nodes(alloc: Global, tree: &Tree) -> Result<Vec<Stamped>, OutOfMemory>
    ensures { IfOk result (λ v. v.items ≡ map (stamped_node tree.now) (filter (is_stamped tree.now) (all_nodes tree.now))) }
{
    let mut nodes = Vec::new(alloc);
    for n in 0..tree.nodes().len() as u32 {
        let stamp = tree.node(n).stamp;
        if stamp > 0 {
            nodes.push(Stamped { node: n, stamp })?;
        }
    }
    Ok(nodes)
}

/// Returns the node that has a stamp, if there is one, given all that have one, oldest first.
pub(crate) fn node_at(tree: &Tree, nodes: &[Stamped], stamp: u64) -> Option<u32>
    requires { AreByStamp tree.now nodes.now }
    ensures { IsNodeAt tree.now stamp result }
{
    match nodes.binary_search_by_key(&stamp, |node| node.stamp) {
        Ok(place) => Some(nodes[place].node),
        Err(_) => None,
    }
}

ghost use Rattle.std.specs.Prelude.{◌≡◌, ◌+◌, ◌-◌, ◌<◌, ◌^◌, ◌++◌, ◌∷◌, [], length, vec_len, vec_capacity, slice_get, Some, OnOk, OnErr, IfOk, IsErr, IsTrue};
ghost use Rattle.cw_tree.specs.NextNodes.{fork_nodes};
ghost use Rattle.cw_tree.specs.Nodes.{parent_of, is_block, is_pending, fresh_node, closed};
ghost use Rattle.cw_tree.specs.Walks.{IsNumbered};
ghost use Rattle.cw_core.specs.Links.{AreLinks, put_link, next_in_walk};

use cw_base::OutOfMemory;
use cw_tree::{BlockState, Kind, Node, Tree};
use std::alloc::Global;
use std::marker::Model;

/// The links of a node: its last child, and the child of its parent before it.
#[derive(Clone, Copy, Drop)]
pub(crate) struct Link {
    pub(crate) last: Option<u32>,
    pub(crate) elder: Option<u32>,
}

/// A computation tree with links from each node to its children, from the last one on.
#[derive(Drop)]
pub(crate) struct Linked {
    tree: Tree,
    links: Vec<Link>,
}

impl Model for Linked {
    ghost use Rattle.std.specs.Prelude.{List};
    ghost use Rattle.cw_tree.specs.declared.node.Node.{Node};
    ghost use Rattle.cw_core.specs.Links.{AreLinks};

    ghost Value = { List Node };

    ghost view = { λ t. t.tree };

    ghost invariant = { λ t. AreLinks t.tree t.links.items };
}

/// Makes `node` the last child of `parent`.
fn put_last(links: &mut Vec<Link>, parent: u32, node: u32)
    requires parent { parent < vec_len links.old }
    requires room { vec_len links.old < vec_capacity links.old }
    ensures links { links.new.items ≡ put_link parent node links.old.items }
    ensures room { vec_capacity links.new ≡ vec_capacity links.old }
{
    let over = &mut links[parent as usize];
    let elder = over.last;
    over.last = Some(node);
    links.push_reserved(Link { last: None, elder });
}

impl Linked {
    ghost use Rattle.cw_tree.specs.declared.node.Kind.TheVariants.{Strand};

    /// Returns the tree with the root strand alone.
    pub(crate) fn new(alloc: Global) -> Result<Linked, OutOfMemory>
        ensures { IfOk result (λ t. t ≡ fresh_node 0 Strand 0 ∷ []) }
    {
        let mut links = Vec::with_capacity(alloc, 1)?;
        links.push_reserved(Link {
            last: None,
            elder: None,
        });
        Ok(Linked {
            tree: Tree::new(alloc)?,
            links,
        })
    }

    /// Returns the tree.
    pub(crate) fn tree(&self) -> &Tree
        ensures { result.now ≡ self.now }
    {
        &self.tree
    }

    /// Returns node `n`.
    pub(crate) fn node(&self, n: u32) -> &Node
        requires { n < length self.now }
        ensures { slice_get self.now n ≡ Some result.now }
    {
        self.tree.node(n)
    }

    /// Returns the tree and its links.
    pub(crate) fn into_parts(self) -> (Tree, Vec<Link>)
        ensures tree { result.0 ≡ self }
        ensures links { AreLinks self result.1.items }
    {
        (self.tree, self.links)
    }

    /// Returns a tree with its links.
    pub(crate) fn of_parts(tree: Tree, links: Vec<Link>) -> Linked
        requires { AreLinks tree links.items }
        ensures { result ≡ tree }
    {
        Linked { tree, links }
    }

    /// Returns the parent of node `n`. The root is its own parent.
    pub(crate) fn parent(&self, n: u32) -> u32
        requires { n < length self.now }
        ensures parent { result ≡ parent_of self.now n }
        ensures low { 0 < n → result < n }
        ensures numbered { IsNumbered self.now }
    {
        self.tree.parent(n)
    }

    /// Returns whether node `n` is a pending block.
    pub(crate) fn is_pending(&self, n: u32) -> bool
        requires { n < length self.now }
        ensures { result ≡ is_pending self.now n }
    {
        self.tree.is_pending(n)
    }

    /// Adds a node beneath `parent`, and returns its number.
    pub(crate) fn add(&mut self, parent: u32, kind: Kind, stamp: u64) -> Result<u32, OutOfMemory>
        requires { parent < length self.old }
        ensures number { IfOk result (λ n. n ≡ length self.old) }
        ensures ok { OnOk result (self.new ≡ self.old ++ fresh_node parent kind stamp ∷ []) }
        ensures err { OnErr result (self.new ≡ self.old) }
        ensures full { length self.old ≡ 2 ^ 32 - 1 → IsErr result }
    {
        // A hint to the prover, without effect: each parent has a smaller number.
        let _ = self.tree.nodes();
        self.links.reserve(1)?;
        let node = self.tree.add(parent, kind, stamp)?;
        put_last(&mut self.links, parent, node);
        Ok(node)
    }

    /// Adds a fork beneath `parent`, with its left and its right strand, and returns the number of the fork. On an error it adds
    /// nothing.
    pub(crate) fn fork(&mut self, parent: u32, stamp: u64) -> Result<u32, OutOfMemory>
        requires { parent < length self.old }
        ensures number { IfOk result (λ n. n ≡ length self.old) }
        ensures ok { OnOk result (self.new ≡ self.old ++ fork_nodes (length self.old) parent stamp) }
        ensures few { OnOk result (length self.old + 3 < 2 ^ 32) }
        ensures err { OnErr result (self.new ≡ self.old) }
    {
        // A hint to the prover, without effect: each parent has a smaller number.
        let _ = self.tree.nodes();
        self.links.reserve(3)?;
        let fork = self.tree.fork(parent, stamp)?;
        put_last(&mut self.links, parent, fork);
        put_last(&mut self.links, fork, fork + 1);
        put_last(&mut self.links, fork, fork + 2);
        Ok(fork)
    }

    /// Closes `block` with the given state, at the stamp `end`.
    pub(crate) fn close(&mut self, block: u32, state: BlockState, end: u64)
        requires { IsTrue (is_block self.old block) }
        ensures { self.new ≡ closed self.old block state end }
    {
        self.tree.close(block, state, end);
    }

    /// Returns the next step of a walk beneath a block. If the walk came `down` to `node`, it goes to the last child. If all
    /// beneath `node` is done, it goes to the child before it or up to its parent. It leaves out what is beneath an aborted block.
    pub(crate) fn next_in_walk(&self, node: u32, down: bool) -> (u32, bool)
        requires { node < length self.now }
        ensures { result ≡ next_in_walk self.now node down }
    {
        let link = self.links[node as usize];
        if down {
            if self.tree.is_aborted(node) {
                return (node, false);
            }
            match link.last {
                Some(child) => (child, true),
                None => (node, false),
            }
        } else {
            match link.elder {
                Some(elder) => (elder, true),
                None => (self.tree.parent(node), false),
            }
        }
    }
}

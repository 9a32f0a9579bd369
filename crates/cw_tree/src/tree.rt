ghost use Rattle.std.specs.Prelude.{◌≡◌, ◌+◌, ◌-◌, false, ◌<◌, ◌≤◌, ◌^◌, ◌++◌, ◌∷◌, [], length, slice_get, Some, OnOk, OnErr, IfOk, IsErr, IsTrue};
ghost use Rattle.cw_tree.specs.NextNodes.{fork_nodes};
ghost use Rattle.cw_tree.specs.Nodes.{is_block_kind, parent_of, is_strand, is_fork, is_block, is_pending, is_aborted, fresh_node, closed};
ghost use Rattle.cw_tree.specs.Walks.{IsNumbered};

mod family;
mod name;
mod order;
mod strands;
mod walks;

use crate::{BlockState, Kind, Node};
use cw_base::OutOfMemory;
pub use family::Family;
use std::alloc::Global;
use std::marker::Model;

/// A computation tree: its nodes, each with its parent. Node 0 is the root strand.
#[derive(Drop)]
pub struct Tree {
    nodes: Vec<Node>,
}

impl Model for Tree {
    ghost use Rattle.std.specs.Prelude.{List};
    ghost use Rattle.cw_tree.specs.declared.node.Node.{Node};
    ghost use Rattle.cw_tree.specs.Walks.{IsNumbered};

    ghost Value = { List Node };

    ghost view = { λ t. t.nodes.items };

    ghost invariant = { λ t. IsNumbered t.nodes.items };
}

impl Tree {
    ghost use Rattle.cw_tree.specs.declared.node.Kind.TheVariants.{Strand};

    /// Returns the tree of the root strand alone.
    pub fn new(alloc: Global) -> Result<Tree, OutOfMemory>
        ensures { IfOk result (λ t. t ≡ fresh_node 0 Strand 0 ∷ []) }
    {
        let mut nodes = Vec::new(alloc);
        nodes.push(Node {
            parent: 0,
            kind: Kind::Strand,
            state: BlockState::Committed,
            stamp: 0,
            end: 0,
        })?;
        Ok(Tree { nodes })
    }

    /// The nodes, by their numbers.
    pub fn nodes(&self) -> &[Node]
        ensures nodes { result.now ≡ self.now }
        ensures numbered { IsNumbered self.now }
    {
        self.nodes.as_slice()
    }

    /// The node with the number `n`.
    pub fn node(&self, n: u32) -> &Node
        requires { n < length self.now }
        ensures { slice_get self.now n ≡ Some result.now }
    {
        &self.nodes[n as usize]
    }

    /// The parent of a node.
    pub fn parent(&self, n: u32) -> u32
        requires { n < length self.now }
        ensures parent { result ≡ parent_of self.now n }
        ensures low { 0 < n → result < n }
        ensures numbered { IsNumbered self.now }
    {
        self.nodes[n as usize].parent
    }

    pub fn is_strand(&self, n: u32) -> bool
        requires { n < length self.now }
        ensures { result ≡ is_strand self.now n }
    {
        matches!(self.node(n).kind, Kind::Strand)
    }

    pub fn is_fork(&self, n: u32) -> bool
        requires { n < length self.now }
        ensures { result ≡ is_fork self.now n }
    {
        matches!(self.node(n).kind, Kind::Fork)
    }

    pub fn is_block(&self, n: u32) -> bool
        requires { n < length self.now }
        ensures { result ≡ is_block self.now n }
    {
        matches!(self.node(n).kind, Kind::Block)
    }

    /// Whether a node is a block that is pending.
    pub fn is_pending(&self, n: u32) -> bool
        requires { n < length self.now }
        ensures { result ≡ is_pending self.now n }
    {
        self.is_block(n) && matches!(self.node(n).state, BlockState::Pending)
    }

    /// Whether a node is a block that was rolled back.
    pub fn is_aborted(&self, n: u32) -> bool
        requires { n < length self.now }
        ensures { result ≡ is_aborted self.now n }
    {
        self.is_block(n) && matches!(self.node(n).state, BlockState::Aborted)
    }

    /// Adds a node beneath `parent` and returns its number.
    pub fn add(&mut self, parent: u32, kind: Kind, stamp: u64) -> Result<u32, OutOfMemory>
        requires { parent < length self.old }
        ensures number { IfOk result (λ n. n ≡ length self.old) }
        ensures ok { OnOk result (self.new ≡ self.old ++ fresh_node parent kind stamp ∷ []) }
        ensures err { OnErr result (self.new ≡ self.old) }
        // A tree has room for 2 ^ 32 - 1 nodes.
        ensures full { length self.old ≡ 2 ^ 32 - 1 → IsErr result }
    {
        let number = self.nodes.len();
        if number == u32::MAX as usize {
            return Err(OutOfMemory);
        }
        let state = match kind {
            Kind::Block => BlockState::Pending,
            _ => BlockState::Committed,
        };
        self.nodes.push(Node {
            parent,
            kind,
            state,
            stamp,
            end: 0,
        })?;
        Ok(number as u32)
    }

    /// Adds a fork beneath `parent` with its left and its right strand, and returns the number of the fork. After an
    /// `Err` nothing was added.
    pub fn fork(&mut self, parent: u32, stamp: u64) -> Result<u32, OutOfMemory>
        requires { parent < length self.old }
        ensures number { IfOk result (λ n. n ≡ length self.old) }
        ensures ok { OnOk result (self.new ≡ self.old ++ fork_nodes (length self.old) parent stamp) }
        ensures few { OnOk result (length self.old + 3 < 2 ^ 32) }
        ensures err { OnErr result (self.new ≡ self.old) }
    {
        let number = self.nodes.len();
        if number > u32::MAX as usize - 3 {
            return Err(OutOfMemory);
        }
        self.nodes.reserve(3)?;
        let fork = number as u32;
        self.nodes
            .push_reserved(leaf_node(parent, Kind::Fork, stamp));
        self.nodes.push_reserved(leaf_node(fork, Kind::Strand, 0));
        self.nodes.push_reserved(leaf_node(fork, Kind::Strand, 0));
        Ok(fork)
    }

    /// Closes a block: `state` says how it ended, `end` is the stamp of its end.
    pub fn close(&mut self, block: u32, state: BlockState, end: u64)
        requires { IsTrue (is_block self.old block) }
        ensures { self.new ≡ closed self.old block state end }
    {
        let node = &mut self.nodes[block as usize];
        node.state = state;
        node.end = end;
    }
}

// A new node that is no block.
fn leaf_node(parent: u32, kind: Kind, stamp: u64) -> Node
    requires { is_block_kind kind ≡ false }
    ensures { result ≡ fresh_node parent kind stamp }
{
    Node {
        parent,
        kind,
        state: BlockState::Committed,
        stamp,
        end: 0,
    }
}

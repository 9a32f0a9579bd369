ghost use Rattle.std.specs.Prelude.{◌≡◌, ◌<◌, length, map, IfOk};
ghost use Rattle.cw_tree.specs.InOrder.{in_order, node_in_order, renamed};
ghost use Rattle.cw_tree.specs.Nodes.{all_nodes};
ghost use Rattle.cw_tree.specs.Series.{depth_first};

use crate::{Family, Node, Tree};
use cw_base::OutOfMemory;

// Each call takes memory and steps for each node of the tree, however deep it is.
impl Tree {
    /// Returns the nodes, depth first.
    pub fn depth_first(&self) -> Result<Vec<u32>, OutOfMemory>
        ensures { IfOk result (λ order. order.items ≡ depth_first self.now) }
    {
        // a hint to the prover: the root is there, and each other node has a smaller parent
        let _ = self.nodes();
        let alloc = *self.nodes.allocator();
        let family = Family::of_tree(self)?;
        let mut order = Vec::new(alloc);
        // the nodes that are still to be visited, the next one last
        let mut stack = Vec::new(alloc);
        stack.push(0)?;
        while let Some(n) = stack.pop() {
            family.push_children(n, &mut stack)?;
            order.push(n)?;
        }
        Ok(order)
    }

    /// Returns the tree with its nodes numbered depth first, and for each node its new number.
    pub fn in_order(&self) -> Result<(Tree, Vec<u32>), OutOfMemory>
        ensures tree { IfOk result (λ r. r.0 ≡ in_order self.now) }
        ensures numbers { IfOk result (λ r. r.1.items ≡ map (renamed self.now) (all_nodes self.now)) }
    {
        // a hint to the prover: the root is there, and each other node has a smaller parent
        let _ = self.nodes();
        let order = self.depth_first()?;
        let numbers = self.numbers(order.as_slice())?;
        let mut nodes = Vec::with_capacity(*self.nodes.allocator(), order.len())?;
        for n in order.as_slice() {
            nodes.push(self.renamed_node(numbers.as_slice(), *n)?)?;
        }
        Ok((Tree { nodes }, numbers))
    }

    // For each node, returns its position in depth-first order.
    fn numbers(&self, order: &[u32]) -> Result<Vec<u32>, OutOfMemory>
        requires { order.now ≡ depth_first self.now }
        ensures { IfOk result (λ numbers. numbers.items ≡ map (renamed self.now) (all_nodes self.now)) }
    {
        // a hint to the prover: each node has a smaller parent
        let count = self.nodes().len();
        let mut numbers = vec![in *self.nodes.allocator(); 0u32; count]?;
        for (place, n) in order.iter().enumerate() {
            numbers[*n as usize] = place as u32;
        }
        Ok(numbers)
    }

    // The new number of node `n`, given those of all nodes. A number that is no node comes after them all.
    pub(crate) fn renamed(&self, numbers: &[u32], n: u32) -> u32
        requires { numbers.now ≡ map (renamed self.now) (all_nodes self.now) }
        ensures { result ≡ renamed self.now n }
    {
        // a hint to the prover: a tree has fewer than 2 ^ 32 nodes
        let _ = self.nodes();
        let place = n as usize;
        if place < numbers.len() {
            numbers[place]
        } else {
            numbers.len() as u32
        }
    }

    // Node `n` as it is in the tree with new numbers.
    fn renamed_node(&self, numbers: &[u32], n: u32) -> Result<Node, OutOfMemory>
        requires there { n < length self.now }
        requires numbers { numbers.now ≡ map (renamed self.now) (all_nodes self.now) }
        ensures { IfOk result (λ x. x ≡ node_in_order self.now n) }
    {
        let node = self.node(n);
        Ok(Node {
            parent: self.renamed(numbers, node.parent),
            kind: node.kind.try_clone(*self.nodes.allocator())?,
            state: node.state,
            stamp: node.stamp,
            end: node.end,
        })
    }
}

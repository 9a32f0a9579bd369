ghost use Rattle.std.specs.Prelude.{◌≡◌, ◌<◌, IfOk, IfSome, length, map};
ghost use Rattle.cw_tree.specs.Nodes.{all_nodes, below, block_with_stamp};
ghost use Rattle.cw_tree.specs.Series.{strand_of};

use crate::Tree;
use cw_base::OutOfMemory;

// Which strand a node belongs to, and which block began at a stamp.
impl Tree {
    /// Returns the strand that node `n` belongs to: the innermost strand on the path from the root to `n`, which is `n`
    /// itself if it is a strand. Takes no memory, and as many steps as there are nodes between the two.
    pub fn strand_of(&self, n: u32) -> u32
        requires { n < length self.now }
        ensures result { result ≡ strand_of self.now n }
        ensures there { result < length self.now }
    {
        let mut at = n;
        while at > 0 && !self.is_strand(at) {
            at = self.parent(at);
        }
        at
    }

    /// For each node, returns the strand that it belongs to. Takes one pass over the nodes.
    pub fn strands(&self) -> Result<Vec<u32>, OutOfMemory>
        ensures { IfOk result (λ strands. strands.items ≡ map (strand_of self.now) (all_nodes self.now)) }
    {
        let count = self.nodes().len();
        let mut strands = Vec::with_capacity(*self.nodes.allocator(), count)?;
        for n in 0..count as u32 {
            let strand = self.strand_from(strands.as_slice(), n);
            strands.push(strand)?;
        }
        Ok(strands)
    }

    // The strand of node `n`, given the strands of the nodes before it.
    fn strand_from(&self, before: &[u32], n: u32) -> u32
        requires there { n < length self.now }
        requires before { before.now ≡ map (strand_of self.now) (below n) }
        ensures { result ≡ strand_of self.now n }
    {
        if n == 0 || self.is_strand(n) {
            return n;
        }
        before[self.parent(n) as usize]
    }

    /// Returns the block that began at `stamp`, if there is one. Looks at the nodes one by one, from the root on.
    pub fn block_with_stamp(&self, stamp: u64) -> Option<u32>
        ensures result { result ≡ block_with_stamp self.now stamp }
        ensures there { IfSome result (λ b. b < length self.now) }
    {
        for n in 0..self.nodes().len() as u32 {
            if self.is_block(n) && self.node(n).stamp == stamp {
                return Some(n);
            }
        }
        None
    }
}

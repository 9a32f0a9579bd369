ghost use Rattle.std.specs.Prelude.{◌≡◌, ◌<◌, IfOk, length, map};
ghost use Rattle.cw_tree.specs.Nodes.{all_nodes};
ghost use Rattle.cw_tree.specs.Walks.{is_above, is_ancestor};
ghost use Rattle.cw_tree.specs.InOrder.{renamed};
ghost use Rattle.cw_audit.specs.Spans.{AreLast, AreSpans};

use cw_base::OutOfMemory;
use cw_tree::Tree;
use std::alloc::Global;

/// For each node its number in depth-first order, and the greatest such number in it.
#[derive(Drop)]
pub(crate) struct Spans {
    first: Vec<u32>,
    last: Vec<u32>,
}

impl Spans {
    pub(crate) fn of_tree(alloc: Global, tree: &Tree) -> Result<Spans, OutOfMemory>
        ensures { IfOk result (λ s. AreSpans tree.now s.first.items s.last.items) }
    {
        let (ordered, first) = tree.in_order()?;
        drop(ordered);
        let last = greatest_within(alloc, tree, first.as_slice())?;
        Ok(Spans { first, last })
    }

    /// Returns whether `a` is above `n`, or is `n` itself. Takes one step, however deep the tree is.
    pub(crate) fn is_ancestor(&self, tree: &Tree, a: u32, n: u32) -> bool
        requires a { a < length tree.now }
        requires n { n < length tree.now }
        requires spans { AreSpans tree.now self.now.first.items self.now.last.items }
        ensures { result ≡ is_ancestor tree.now a n }
    {
        // a hint to the prover: each node but the root has a smaller parent
        let _ = tree.nodes();
        let place = self.first[n as usize];
        self.first[a as usize] <= place && place <= self.last[a as usize]
    }

    /// Returns whether `a` is above `n`.
    pub(crate) fn is_above(&self, tree: &Tree, a: u32, n: u32) -> bool
        requires a { a < length tree.now }
        requires n { n < length tree.now }
        requires spans { AreSpans tree.now self.now.first.items self.now.last.items }
        ensures { result ≡ is_above tree.now a n }
    {
        // a hint to the prover: each node but the root has a smaller parent
        let _ = tree.nodes();
        a != n && self.is_ancestor(tree, a, n)
    }
}

/// For each node, returns the greatest number in it. Takes one pass over the nodes.
fn greatest_within(alloc: Global, tree: &Tree, numbers: &[u32]) -> Result<Vec<u32>, OutOfMemory>
    requires { numbers.now ≡ map (renamed tree.now) (all_nodes tree.now) }
    ensures { IfOk result (λ v. AreLast tree.now v.items) }
{
    let mut greatest = Vec::from_slice(alloc, numbers)?;
    let mut n = tree.nodes().len() as u32;
    // children have greater numbers than their parents
    while n > 1 {
        n -= 1;
        let within = greatest[n as usize];
        let parent = tree.parent(n) as usize;
        greatest[parent] = greatest[parent].max(within);
    }
    Ok(greatest)
}

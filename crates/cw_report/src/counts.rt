ghost use Rattle.std.specs.Prelude.{◌≡◌, ◌<◌, length, map, IfOk};
ghost use Rattle.cw_tree.specs.Accesses.{is_live};
ghost use Rattle.cw_tree.specs.ForkCounts.{one_if};
ghost use Rattle.cw_tree.specs.Nodes.{all_nodes, below, is_committed, is_strand};
ghost use Rattle.cw_report.specs.Report.{count_nodes, has_own_cancel, is_cancel_leaf, is_undone, stands_cancelled, stands_committed};

use cw_base::OutOfMemory;
use cw_tree::{BlockState, Kind, Tree};
use std::alloc::Global;

/// The numbers of strands and closed blocks in a tree.
#[derive(Clone, Copy)]
pub(crate) struct Counts {
    pub(crate) strands: u32,
    /// Committed blocks with no aborted block above them.
    pub(crate) committed: u32,
    /// All other closed blocks.
    pub(crate) undone: u32,
    /// Those of the committed ones that have a cancel of their own.
    pub(crate) cancelled: u32,
}

impl Counts {
    pub(crate) fn of_tree(alloc: Global, tree: &Tree) -> Result<Counts, OutOfMemory>
        ensures strands { IfOk result (λ c. c.strands ≡ count_nodes is_strand tree.now) }
        ensures committed { IfOk result (λ c. c.committed ≡ count_nodes stands_committed tree.now) }
        ensures undone { IfOk result (λ c. c.undone ≡ count_nodes is_undone tree.now) }
        ensures cancelled { IfOk result (λ c. c.cancelled ≡ count_nodes stands_cancelled tree.now) }
    {
        let live = live_nodes(alloc, tree)?;
        let cancels = nodes_with_cancels(alloc, tree)?;
        let mut counts = Counts {
            strands: 0,
            committed: 0,
            undone: 0,
            cancelled: 0,
        };
        for n in 0..tree.nodes().len() as u32 {
            let lives = live[n as usize];
            counts.strands += one_if(tree.is_strand(n));
            counts.committed += one_if(stands_committed(tree, lives, n));
            counts.undone += one_if(is_undone(tree, lives, n));
            let given_up = cancels[n as usize];
            counts.cancelled += one_if(stands_cancelled(tree, lives, given_up, n));
        }
        Ok(counts)
    }
}

// Returns for each node whether no aborted block is above it.
fn live_nodes(alloc: Global, tree: &Tree) -> Result<Vec<bool>, OutOfMemory>
    ensures { IfOk result (λ ls. ls.items ≡ map (is_live tree.now) (all_nodes tree.now)) }
{
    let count = tree.nodes().len();
    let mut live = Vec::with_capacity(alloc, count)?;
    for n in 0..count as u32 {
        let lives = is_live(tree, live.as_slice(), n);
        live.push(lives)?;
    }
    Ok(live)
}

// Whether no aborted block is above node `n`, given the same for the nodes before it.
fn is_live(tree: &Tree, before: &[bool], n: u32) -> bool
    requires there { n < length tree.now }
    requires before { before.now ≡ map (is_live tree.now) (below n) }
    ensures { result ≡ is_live tree.now n }
{
    if n == 0 {
        return true;
    }
    let parent = tree.parent(n);
    !tree.is_aborted(parent) && before[parent as usize]
}

// Returns for each node whether a child of its own is a cancel.
fn nodes_with_cancels(alloc: Global, tree: &Tree) -> Result<Vec<bool>, OutOfMemory>
    ensures { IfOk result (λ cs. cs.items ≡ map (has_own_cancel tree.now) (all_nodes tree.now)) }
{
    let count = tree.nodes().len();
    let mut cancels = vec![in alloc; false; count]?;
    for n in 1..count as u32 {
        let parent = tree.parent(n) as usize;
        cancels[parent] |= is_cancel_leaf(tree, n);
    }
    Ok(cancels)
}

fn is_cancel_leaf(tree: &Tree, n: u32) -> bool
    requires { n < length tree.now }
    ensures { result ≡ is_cancel_leaf tree.now n }
{
    matches!(tree.node(n).kind, Kind::Cancel { .. })
}

// Whether a node is a committed block.
fn is_committed(tree: &Tree, n: u32) -> bool
    requires { n < length tree.now }
    ensures { result ≡ is_committed tree.now n }
{
    tree.is_block(n) && matches!(tree.node(n).state, BlockState::Committed)
}

// Whether a node is a committed block with no aborted block above it.
fn stands_committed(tree: &Tree, lives: bool, n: u32) -> bool
    requires there { n < length tree.now }
    requires lives { lives ≡ is_live tree.now n }
    ensures { result ≡ stands_committed tree.now n }
{
    is_committed(tree, n) && lives
}

// Whether a node is a committed block with no aborted block above it, and with a cancel of its own.
fn stands_cancelled(tree: &Tree, lives: bool, given_up: bool, n: u32) -> bool
    requires there { n < length tree.now }
    requires lives { lives ≡ is_live tree.now n }
    requires given_up { given_up ≡ has_own_cancel tree.now n }
    ensures { result ≡ stands_cancelled tree.now n }
{
    stands_committed(tree, lives, n) && given_up
}

// Whether a node is any other closed block.
fn is_undone(tree: &Tree, lives: bool, n: u32) -> bool
    requires there { n < length tree.now }
    requires lives { lives ≡ is_live tree.now n }
    ensures { result ≡ is_undone tree.now n }
{
    tree.is_aborted(n) || (is_committed(tree, n) && !lives)
}

fn one_if(test: bool) -> u32
    ensures { result ≡ one_if test }
{
    u32::from(test)
}

ghost use Rattle.std.specs.Prelude.{◌≡◌, ℕ, ◌+◌, ◌*◌, ◌≤◌, ◌<◌, false, length, map, IfOk};
ghost use Rattle.std.specs.Ordering.{nat_cmp};
ghost use Rattle.std.specs.BTreeMap.{get};
ghost use Rattle.cw_tree.specs.Nodes.{all_nodes, below, is_aborted};
ghost use Rattle.cw_tree.specs.Walks.{xparent};
ghost use Rattle.cw_tree.specs.Shape.{IsTree};
ghost use Rattle.cw_record.specs.Records.{BlocksEnded, IsCoherentRun, IsNumberedDepthFirst};
ghost use Rattle.cw_race.specs.Races.{AreRaces, cell_of, number_of_accesses, writes};
ghost use Rattle.cw_race.specs.InMemory.{AreFound};

use crate::Race;
use crate::search::Search;
use cw_base::OutOfMemory;
use cw_order::Steps;
use cw_record::Record;
use cw_sp::Pairs;
use cw_tree::{Kind, Tree};
use std::alloc::Global;
use std::sync::ledger::Ledger;

/// Returns the first race of each cell that has one, by rising cells, in the run of one worker. Takes at most four steps for each
/// access of the tree, however deep it is. The only error is out of memory.
pub fn races<L: Ledger>(
    alloc: Global,
    kept: &Record,
    steps: &mut Steps<L>,
) -> Result<Vec<Race>, OutOfMemory>
    requires coherent { IsCoherentRun kept.now }
    requires numbered { IsNumberedDepthFirst kept.now.tree }
    requires blocks { BlocksEnded kept.now.tree kept.now.end }
    ensures races { IfOk result (λ races. AreRaces kept.now.tree races.items) }
    ensures cost { steps.new ≤ steps.old + 4 * number_of_accesses kept.now.tree }
{
    let tree = &kept.tree;
    let pairs = Pairs::of(tree)?;
    let blocks = innermost_blocks(alloc, tree)?;
    let search = look_through(alloc, tree, &pairs, blocks.as_slice(), steps)?;
    search.races(alloc)
}

/// Looks at all accesses of a tree in the English order. That is the order of their numbers.
fn look_through<L: Ledger>(
    alloc: Global,
    tree: &Tree,
    pairs: &Pairs<'_>,
    blocks: &[Option<u32>],
    steps: &mut Steps<L>,
) -> Result<Search, OutOfMemory>
    requires tree { IsTree tree.now }
    requires numbered { IsNumberedDepthFirst tree.now }
    requires live { (n : ℕ) → is_aborted tree.now n ≡ false }
    requires pairs { pairs.now ≡ tree.now }
    requires blocks { blocks.now ≡ map (xparent tree.now) (all_nodes tree.now) }
    ensures found { IfOk result (λ search. AreFound tree.now (get nat_cmp search.found)) }
    ensures cost { steps.new ≤ steps.old + 4 * number_of_accesses tree.now }
{
    let mut search = Search::new(alloc);
    for n in 0..tree.nodes().len() as u32 {
        if let Some(cell) = cell_of(tree, n) {
            let group = (cell, blocks[n as usize]);
            search.note(pairs, group, n, writes(tree, n), steps)?;
        }
    }
    Ok(search)
}

/// For each node, returns the innermost block above it. Takes one pass over the nodes.
fn innermost_blocks(alloc: Global, tree: &Tree) -> Result<Vec<Option<u32>>, OutOfMemory>
    ensures { IfOk result (λ blocks. blocks.items ≡ map (xparent tree.now) (all_nodes tree.now)) }
{
    let count = tree.nodes().len();
    let mut blocks = Vec::with_capacity(alloc, count)?;
    for n in 0..count as u32 {
        let block = block_above(tree, blocks.as_slice(), n);
        blocks.push(block)?;
    }
    Ok(blocks)
}

/// Returns the innermost block above node `n`, given those of the nodes before it.
fn block_above(tree: &Tree, before: &[Option<u32>], n: u32) -> Option<u32>
    requires there { n < length tree.now }
    requires before { before.now ≡ map (xparent tree.now) (below n) }
    ensures { result ≡ xparent tree.now n }
{
    if n == 0 {
        return None;
    }
    let parent = tree.parent(n);
    if tree.is_block(parent) {
        Some(parent)
    } else {
        before[parent as usize]
    }
}

/// Returns the cell that a node reads or writes, if it does.
fn cell_of(tree: &Tree, n: u32) -> Option<u32>
    requires { n < length tree.now }
    ensures { result ≡ cell_of tree.now n }
{
    match tree.node(n).kind {
        Kind::Read { cell, .. } => Some(cell),
        Kind::Write { cell, .. } => Some(cell),
        _ => None,
    }
}

/// Returns whether a node writes.
fn writes(tree: &Tree, n: u32) -> bool
    requires { n < length tree.now }
    ensures { result ≡ writes tree.now n }
{
    matches!(tree.node(n).kind, Kind::Write { .. })
}

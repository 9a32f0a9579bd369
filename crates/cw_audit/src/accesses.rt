ghost use Rattle.std.specs.Prelude.{◌≡◌, ◌↔◌, ◌<◌, IfOk, IsTrue, length, map};
ghost use Rattle.std.specs.List.{filter};
ghost use Rattle.cw_tree.specs.Accesses.{is_live, read, written};
ghost use Rattle.cw_tree.specs.Journals.{FitsCells, fits_cells};
ghost use Rattle.cw_tree.specs.Nodes.{all_nodes, below, is_node};
ghost use Rattle.cw_record.specs.Coherent.{IsMemory};
ghost use Rattle.cw_audit.specs.Journals.{ReadsAreRight};
ghost use Rattle.cw_audit.specs.Parts.{AccessesHold};
ghost use Rattle.cw_audit.specs.LiveAccesses.{all_live_accesses, cell_accessed, dated, is_access, is_live_access};

use cw_base::OutOfMemory;
use cw_tree::{Kind, Tree};
use std::alloc::Global;

/// A live access, and its stamp.
#[derive(Clone, Copy)]
struct Dated {
    node: u32,
    stamp: u64,
}

/// Returns whether each access is of one of the first `count` cells.
fn fit_cells(tree: &Tree, count: usize) -> bool
    ensures { IsTrue result ↔ FitsCells tree.now count }
{
    for n in 0..tree.nodes().len() as u32 {
        if !fits_cells(tree, n, count) {
            return false;
        }
    }
    true
}

/// The same for one node.
fn fits_cells(tree: &Tree, n: u32, count: usize) -> bool
    requires { n < length tree.now }
    ensures { result ≡ is_node (λ x. fits_cells count x.kind) tree.now n }
{
    match tree.node(n).kind {
        Kind::Read { cell, .. } => (cell as usize) < count,
        Kind::Write { cell, .. } => (cell as usize) < count,
        _ => true,
    }
}

/// For each node, returns whether no block above it was rolled back. Takes one pass over the nodes.
pub(crate) fn lives(alloc: Global, tree: &Tree) -> Result<Vec<bool>, OutOfMemory>
    ensures { IfOk result (λ v. v.items ≡ map (is_live tree.now) (all_nodes tree.now)) }
{
    let count = tree.nodes().len();
    let mut lives = Vec::with_capacity(alloc, count)?;
    for n in 0..count as u32 {
        let live = is_live(tree, lives.as_slice(), n);
        lives.push(live)?;
    }
    Ok(lives)
}

/// Returns whether no block above node `n` was rolled back, given that of the nodes before it.
fn is_live(tree: &Tree, before: &[bool], n: u32) -> bool
    requires there { n < length tree.now }
    requires before { before.now ≡ map (is_live tree.now) (below n) }
    ensures { result ≡ is_live tree.now n }
{
    if n == 0 {
        return true;
    }
    let parent = tree.parent(n);
    !tree.is_aborted(parent) && before[parent as usize]
}

/// Returns the live accesses of all cells, oldest first.
pub(crate) fn live_accesses(alloc: Global, tree: &Tree) -> Result<Vec<u32>, OutOfMemory>
    ensures { IfOk result (λ v. v.items ≡ all_live_accesses tree.now) }
{
    let mut dated = dated_accesses(alloc, tree)?;
    dated.sort_by_key(|access| access.stamp)?;
    let mut accesses = Vec::with_capacity(alloc, dated.len())?;
    for access in &dated {
        accesses.push(access.node)?;
    }
    Ok(accesses)
}

/// Returns the live accesses by their numbers.
fn dated_accesses(alloc: Global, tree: &Tree) -> Result<Vec<Dated>, OutOfMemory>
    ensures { IfOk result (λ v. v.items ≡ map (dated tree.now) (filter (is_live_access tree.now) (all_nodes tree.now))) }
{
    let lives = lives(alloc, tree)?;
    let mut dated = Vec::new(alloc);
    for n in 0..tree.nodes().len() as u32 {
        if is_live_access(tree, lives.as_slice(), n) {
            let stamp = tree.node(n).stamp;
            dated.push(Dated { node: n, stamp })?;
        }
    }
    Ok(dated)
}

/// Returns whether a node is a live access, given which nodes are live.
fn is_live_access(tree: &Tree, lives: &[bool], n: u32) -> bool
    requires there { n < length tree.now }
    requires lives { lives.now ≡ map (is_live tree.now) (all_nodes tree.now) }
    ensures { result ≡ is_live_access tree.now n }
{
    is_access(tree, n) && lives[n as usize]
}

/// Returns whether a node reads or writes a cell.
fn is_access(tree: &Tree, n: u32) -> bool
    requires { n < length tree.now }
    ensures { result ≡ is_access tree.now n }
{
    matches!(tree.node(n).kind, Kind::Read { .. } | Kind::Write { .. })
}

/// Returns the cell that a node reads or writes, if it does.
pub(crate) fn cell_accessed(tree: &Tree, n: u32) -> Option<u32>
    requires { n < length tree.now }
    ensures { result ≡ cell_accessed tree.now n }
{
    match tree.node(n).kind {
        Kind::Read { cell, .. } => Some(cell),
        Kind::Write { cell, .. } => Some(cell),
        _ => None,
    }
}

/// Returns what a node read, if it did.
fn read(tree: &Tree, n: u32) -> Option<i64>
    requires { n < length tree.now }
    ensures { result ≡ read tree.now n }
{
    match tree.node(n).kind {
        Kind::Read { value, .. } => Some(value),
        _ => None,
    }
}

/// Returns what a node wrote, if it did.
pub(crate) fn written(tree: &Tree, n: u32) -> Option<i64>
    requires { n < length tree.now }
    ensures { result ≡ written tree.now n }
{
    match tree.node(n).kind {
        Kind::Write { value, .. } => Some(value),
        _ => None,
    }
}

/// Makes the live accesses one after another on a memory that has the first values. Returns whether each read has what was left.
/// Then the memory is as the run leaves it.
fn make(tree: &Tree, accesses: &[u32], memory: &mut Vec<i64>) -> bool
    requires accesses { accesses.now ≡ all_live_accesses tree.now }
    requires cells { FitsCells tree.now (length memory.old.items) }
    ensures reads { IsTrue result ↔ ReadsAreRight tree.now memory.old.items }
    ensures memory { IsTrue result → IsMemory tree.now memory.old.items memory.new.items }
{
    for i in 0..accesses.len() {
        let n = accesses[i];
        let Some(cell) = cell_accessed(tree, n) else {
            continue;
        };
        let before = memory[cell as usize];
        if read(tree, n).unwrap_or(before) != before {
            return false;
        }
        memory[cell as usize] = written(tree, n).unwrap_or(before);
    }
    true
}

/// Decides part 2, given the live accesses, oldest first, and a memory that has the first values: whether each access is of a cell that
/// is there, and live reads are right. Then the memory is as the run leaves it.
pub(crate) fn accesses_hold(tree: &Tree, accesses: &[u32], memory: &mut Vec<i64>) -> bool
    requires { accesses.now ≡ all_live_accesses tree.now }
    ensures holds { IsTrue result ↔ AccessesHold tree.now memory.old.items }
    ensures memory { IsTrue result → IsMemory tree.now memory.old.items memory.new.items }
{
    if !fit_cells(tree, memory.len()) {
        return false;
    }
    make(tree, accesses, memory)
}

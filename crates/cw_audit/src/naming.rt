ghost use Rattle.std.specs.Prelude.{◌≡◌, ℕ, ◌<◌, IfOk, IfSome, IsTrue, Some, length, map, slice_get};
ghost use Rattle.cw_code.specs.declared.Back.{Back};
ghost use Rattle.cw_tree.specs.Accesses.{is_live};
ghost use Rattle.cw_tree.specs.Nodes.{all_nodes};
ghost use Rattle.cw_audit.specs.Naming.{AreAround, AreLiveCancels, CameBack, ComesNext, IsNamedNear, Names, NamesIn, RisesBelow, WriteIsNamed, around_in, is_live_cancel};

use crate::accesses::{cell_accessed, written};
use crate::cancels::list_told;
use cw_base::OutOfMemory;
use cw_code::Back;
use cw_tree::Tree;
use std::alloc::Global;

/// For each node, returns the live cancel directly in it. Returns none if a node has two, or one is not directly in a block.
pub(crate) fn live_cancels(
    alloc: Global,
    tree: &Tree,
    lives: &[bool],
) -> Result<Option<Vec<Option<u32>>>, OutOfMemory>
    requires { lives.now ≡ map (is_live tree.now) (all_nodes tree.now) }
    ensures { IfOk result (λ o. IfSome o (λ v. AreLiveCancels tree.now v.items)) }
{
    let count = tree.nodes().len();
    let mut cancels: Vec<Option<u32>> = vec![in alloc; None; count]?;
    for n in 0..count as u32 {
        if !is_live_cancel(tree, lives, n) {
            continue;
        }
        let block = tree.parent(n);
        if !tree.is_block(block) {
            return Ok(None);
        }
        if cancels[block as usize].is_some() {
            return Ok(None);
        }
        cancels[block as usize] = Some(n);
    }
    Ok(Some(cancels))
}

/// Returns whether a node is a live cancel.
fn is_live_cancel(tree: &Tree, lives: &[bool], n: u32) -> bool
    requires there { n < length tree.now }
    requires lives { lives.now ≡ map (is_live tree.now) (all_nodes tree.now) }
    ensures { result ≡ is_live_cancel tree.now n }
{
    lives[n as usize] && list_told(tree, n).is_some()
}

/// For each node, returns the nearest block above it that was given up. Takes one pass over the nodes.
pub(crate) fn around(
    alloc: Global,
    tree: &Tree,
    cancels: &[Option<u32>],
) -> Result<Vec<Option<u32>>, OutOfMemory>
    requires { AreLiveCancels tree.now cancels.now }
    ensures { IfOk result (λ v. AreAround tree.now cancels.now v.items) }
{
    let count = tree.nodes().len();
    let mut around: Vec<Option<u32>> = vec![in alloc; None; count]?;
    // parents have smaller numbers than their children
    for n in 1..count as u32 {
        let parent = tree.parent(n);
        let nearest = around_in(cancels, around.as_slice(), parent);
        around[n as usize] = nearest;
    }
    Ok(around)
}

/// Returns what is around the children of a node.
fn around_in(cancels: &[Option<u32>], around: &[Option<u32>], node: u32) -> Option<u32>
    requires cancels { node < length cancels.now }
    requires around { node < length around.now }
    ensures { result ≡ around_in cancels.now around.now node }
{
    if cancels[node as usize].is_some() {
        Some(node)
    } else {
        around[node as usize]
    }
}

/// Returns whether a list rises by cells, which are below `cells`.
pub(crate) fn rises_below(back: &[Back], cells: usize) -> bool
    ensures { IsTrue result → RisesBelow cells back.now }
{
    for i in 0..back.len() {
        if !comes_next(back, i, cells) {
            return false;
        }
    }
    true
}

/// Returns whether the entry at a place is of a cell below `cells`, and that of the entry before it is less.
fn comes_next(back: &[Back], place: usize, cells: usize) -> bool
    requires { place < length back.now }
    ensures { IsTrue result → (e : Back) → slice_get back.now place ≡ Some e → ComesNext cells back.now place e }
{
    let cell = back[place].cell;
    if cell as usize >= cells {
        return false;
    }
    place == 0 || back[place - 1].cell < cell
}

/// Returns where a cell stands in a list that rises by cells, or would stand.
fn place_of(back: &[Back], cell: u32) -> usize {
    let mut low = 0;
    let mut high = back.len();
    while low < high {
        let middle = low + (high - low) / 2;
        if back[middle].cell < cell {
            low = middle + 1;
        } else {
            high = middle;
        }
    }
    low
}

/// Returns true only if a list names a cell. Takes a few steps, and finds every cell of a list that rises by cells.
fn names(back: &[Back], cell: u32) -> bool
    ensures { IsTrue result → Names back.now cell }
{
    let place = place_of(back, cell);
    place < back.len() && back[place].cell == cell
}

/// Returns true only if the cancel of this block, if there is one, names a cell.
pub(crate) fn names_in(tree: &Tree, cancels: &[Option<u32>], block: Option<u32>, cell: u32) -> bool
    requires cancels { AreLiveCancels tree.now cancels.now }
    requires block { IfSome block (λ b. b < length tree.now) }
    ensures { IsTrue result → NamesIn tree.now cancels.now block cell }
{
    let Some(given_up) = block else {
        return true;
    };
    let Some(cancel) = cancels[given_up as usize] else {
        return true;
    };
    match list_told(tree, cancel) {
        Some(back) => names(back, cell),
        None => false,
    }
}

/// Returns true only if each live write is of a cell that the next cancel around it names. Takes one pass over the nodes.
pub(crate) fn writes_are_named(
    tree: &Tree,
    lives: &[bool],
    cancels: &[Option<u32>],
    around: &[Option<u32>],
) -> bool
    requires lives { lives.now ≡ map (is_live tree.now) (all_nodes tree.now) }
    requires cancels { AreLiveCancels tree.now cancels.now }
    requires around { AreAround tree.now cancels.now around.now }
    ensures { IsTrue result → (n : ℕ) → n < length tree.now → WriteIsNamed tree.now cancels.now around.now n }
{
    for n in 0..tree.nodes().len() as u32 {
        if lives[n as usize] && !write_is_named(tree, cancels, around, n) {
            return false;
        }
    }
    true
}

/// The same for one node that is live.
fn write_is_named(tree: &Tree, cancels: &[Option<u32>], around: &[Option<u32>], n: u32) -> bool
    requires there { n < length tree.now }
    requires cancels { AreLiveCancels tree.now cancels.now }
    requires around { AreAround tree.now cancels.now around.now }
    ensures { IsTrue result → WriteIsNamed tree.now cancels.now around.now n }
{
    if written(tree, n).is_none() {
        return true;
    }
    match cell_accessed(tree, n) {
        Some(cell) => is_named(tree, cancels, around, n, cell),
        None => true,
    }
}

/// Returns true only if the next cancel around a node names a cell, or the node came after it and the next further out does.
fn is_named(tree: &Tree, cancels: &[Option<u32>], around: &[Option<u32>], n: u32, cell: u32) -> bool
    requires there { n < length tree.now }
    requires cancels { AreLiveCancels tree.now cancels.now }
    requires around { AreAround tree.now cancels.now around.now }
    ensures { IsTrue result → IsNamedNear tree.now cancels.now around.now n cell }
{
    if names_in(tree, cancels, around[n as usize], cell) {
        return true;
    }
    came_back(tree, cancels, around, n, cell)
}

/// Returns true only if a node came after the block around it was given up, and the next cancel further out names a cell.
fn came_back(
    tree: &Tree,
    cancels: &[Option<u32>],
    around: &[Option<u32>],
    n: u32,
    cell: u32,
) -> bool
    requires there { n < length tree.now }
    requires cancels { AreLiveCancels tree.now cancels.now }
    requires around { AreAround tree.now cancels.now around.now }
    ensures { IsTrue result → CameBack tree.now cancels.now around.now n cell }
{
    let Some(block) = around[n as usize] else {
        return false;
    };
    let Some(cancel) = cancels[block as usize] else {
        return false;
    };
    if tree.node(cancel).stamp >= tree.node(n).stamp {
        return false;
    }
    names_in(tree, cancels, around[block as usize], cell)
}

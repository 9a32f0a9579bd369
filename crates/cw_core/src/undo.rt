ghost use Rattle.std.specs.Prelude.{◌≡◌, ◌<◌, length, IsTrue};
ghost use Rattle.cw_tree.specs.Nodes.{is_block, closed};
ghost use Rattle.cw_tree.specs.declared.node.BlockState.TheVariants.{Aborted};
ghost use Rattle.cw_core.specs.Undone.{accessed, before_stamp, HasIfLater, MayCut, AreCut, MayUndo, AreUndone, NoneBeneath};

use crate::linked::Linked;
use cw_stack::Cell;
use cw_tree::{BlockState, Kind, Node};

/// Undoes the access with `stamp` and all that came after it, unless that was done before.
fn cut(cell: &mut Cell, stamp: u64)
    requires whole { cell.old.cleaned ≡ 0 }
    requires there { HasIfLater stamp cell.old.entries }
    ensures first { cell.new.first ≡ cell.old.first }
    ensures cleaned { cell.new.cleaned ≡ cell.old.cleaned }
    ensures entries { cell.new.entries ≡ before_stamp stamp cell.old.entries }
{
    // A hint to the prover, without effect: stamps rise.
    let _ = cell.journal();
    if let Some(mark) = cell.last() {
        if mark.stamp >= stamp {
            cell.roll(stamp);
        }
    }
}

/// Returns the cell that `node` reads or writes, if it is an access.
fn cell_of(node: &Node) -> Option<u32>
    ensures { result ≡ accessed node.now.kind }
{
    match node.kind {
        Kind::Read { cell, .. } | Kind::Write { cell, .. } => Some(cell),
        _ => None,
    }
}

/// Undoes the access `node` in its cell, with all accesses after it, unless that was done before.
fn undo_access(tree: &Linked, cells: &mut Vec<Cell>, node: u32)
    requires node { node < length tree.now }
    requires cells { MayCut tree.now node cells.old.items }
    ensures { AreCut tree.now node cells.old.items cells.new.items }
{
    let access = tree.node(node);
    if let Some(cell) = cell_of(access) {
        cut(&mut cells[cell as usize], access.stamp);
    }
}

/// Undoes all that was done beneath a pending block, in each cell that was touched. Walks all nodes beneath the block.
pub(crate) fn undo(tree: &Linked, cells: &mut Vec<Cell>, block: u32)
    requires block { block < length tree.now }
    requires cells { MayUndo tree.now block cells.old.items }
    ensures { AreUndone tree.now block cells.old.items cells.new.items }
{
    // A hint to the prover, without effect: each parent has a smaller number.
    let _ = tree.parent(block);
    let mut node = block;
    let mut down = true;
    'walk: while down || node != block {
        if down {
            undo_access(tree, cells, node);
        }
        (node, down) = tree.next_in_walk(node, down);
    }
}

/// Aborts `block`, once the cells have nothing left of what was done beneath it. `_cells` is only there for that condition.
pub(crate) fn abort(tree: &mut Linked, _cells: &Vec<Cell>, block: u32, end: u64)
    requires block { IsTrue (is_block tree.old block) }
    requires undone { NoneBeneath tree.old block _cells.now.items }
    ensures { tree.new ≡ closed tree.old block Aborted end }
{
    tree.close(block, BlockState::Aborted, end);
}

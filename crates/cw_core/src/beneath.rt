ghost use Rattle.std.specs.Prelude.{◌≡◌, ℕ, ◌<◌, length, IfOk, OnOk, IsTrue, Some};
ghost use Rattle.std.specs.BTreeMap.{get, IsOrdered, Updates};
ghost use Rattle.std.specs.Ordering.{nat_cmp};
ghost use Rattle.cw_tree.specs.Nodes.{is_block};
ghost use Rattle.cw_tree.specs.Accesses.{is_live};
ghost use Rattle.cw_core.specs.Touched.{with_access, IsNoted, AreTouched, HaveEntries, backs_of};

use crate::linked::Linked;
use cw_base::{OutOfMemory, Seq};
use cw_code::Back;
use cw_stack::Cell;
use cw_tree::Kind;
use std::alloc::Global;
use std::collections::BTreeMap;

/// What is noted of a cell that was accessed beneath a block: the stamp of the first access there, and whether one of them wrote.
#[derive(Clone, Copy, Drop)]
pub(crate) struct Touched {
    pub(crate) first: u64,
    pub(crate) wrote: bool,
}

/// Notes an access of `cell`.
fn note(
    touched: &mut BTreeMap<u32, Touched>,
    cell: u32,
    stamp: u64,
    wrote: bool,
) -> Result<(), OutOfMemory>
    ensures { OnOk result (Updates nat_cmp touched.old touched.new cell (Some (with_access stamp wrote (get nat_cmp touched.old cell)))) }
{
    let now = match touched.get(&cell) {
        None => Touched {
            first: stamp,
            wrote,
        },
        Some(before) => Touched {
            first: before.first.min(stamp),
            wrote: before.wrote || wrote,
        },
    };
    touched.insert(cell, now)?;
    Ok(())
}

/// Notes `node`, if it is an access.
fn note_node(
    touched: &mut BTreeMap<u32, Touched>,
    tree: &Linked,
    node: u32,
) -> Result<(), OutOfMemory>
    requires { node < length tree.now }
    ensures { OnOk result (IsNoted tree.now node touched.old touched.new) }
{
    let access = tree.node(node);
    match access.kind {
        Kind::Read { cell, .. } => note(touched, cell, access.stamp, false),
        Kind::Write { cell, .. } => note(touched, cell, access.stamp, true),
        _ => Ok(()),
    }
}

/// Returns the cells that live accesses beneath `block` touched. Walks all nodes beneath it.
pub(crate) fn cells_beneath(
    alloc: Global,
    tree: &Linked,
    block: u32,
) -> Result<BTreeMap<u32, Touched>, OutOfMemory>
    requires there { block < length tree.now }
    requires block { IsTrue (is_block tree.now block) }
    requires live { IsTrue (is_live tree.now block) }
    ensures { IfOk result (λ touched. AreTouched tree.now block touched) }
{
    // A hint to the prover, without effect: each parent has a smaller number.
    let _ = tree.parent(block);
    let mut touched = BTreeMap::new(alloc);
    let mut node = block;
    let mut down = true;
    'walk: while down || node != block {
        if down {
            note_node(&mut touched, tree, node)?;
        }
        (node, down) = tree.next_in_walk(node, down);
    }
    Ok(touched)
}

/// Returns each touched cell that was written, by rising number, with its value from before the first access there.
pub(crate) fn backs(
    alloc: Global,
    cells: &Vec<Cell>,
    touched: &BTreeMap<u32, Touched>,
) -> Result<Seq<Back>, OutOfMemory>
    requires { HaveEntries touched.now cells.now.items }
    ensures list { IfOk result (λ list. list ≡ backs_of cells.now.items touched.now.entries) }
    ensures ordered { OnOk result (IsOrdered nat_cmp touched.now) }
{
    let mut backs = Vec::new(alloc);
    for (cell, access) in touched {
        if access.wrote {
            let value = cells[*cell as usize].before(access.first);
            backs.push(Back { cell: *cell, value })?;
        }
    }
    Ok(Seq::from_vec(backs))
}

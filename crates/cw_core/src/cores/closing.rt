ghost use Rattle.std.specs.Prelude.{◌≡◌, ℕ, map, slice_get, Some, IfOk, IfErr, OnOk};
ghost use Rattle.cw_stack.specs.Cells.{CellParts, AreSteps};
ghost use Rattle.cw_tree.specs.InOrder.{in_order, conflicts_in_order, halt_in_order};
ghost use Rattle.cw_core.specs.Closing.{journals_of};

use crate::cores::Core;
use crate::linked::Linked;
use cw_base::{OutOfMemory, Seq};
use cw_stack::Cell;
use cw_tree::{Closed, Conflict, Entry};
use std::alloc::Global;

/// Returns a copy of the entries of each cell.
fn journals(alloc: Global, cells: &[Cell]) -> Result<Seq<Seq<Entry>>, OutOfMemory>
    ensures entries { IfOk result (λ js. js ≡ map (λ c. c.entries) cells.now) }
    ensures steps { OnOk result ((i : ℕ) (c : CellParts) → slice_get cells.now i ≡ Some c → AreSteps c.first c.entries) }
{
    let mut journals = Vec::with_capacity(alloc, cells.len())?;
    for cell in cells {
        let entries = Vec::from_slice(alloc, cell.journal())?;
        journals.push(Seq::from_vec(entries))?;
    }
    Ok(Seq::from_vec(journals))
}

/// Returns a copy of `conflicts`.
fn copy_all(alloc: Global, conflicts: &[Conflict]) -> Result<Seq<Conflict>, OutOfMemory>
    ensures { IfOk result (λ cs. cs ≡ conflicts.now) }
{
    let mut copies = Vec::with_capacity(alloc, conflicts.len())?;
    for conflict in conflicts {
        copies.push(conflict.try_clone(alloc)?)?;
    }
    Ok(Seq::from_vec(copies))
}

impl Core {
    /// Returns what the core leaves: its tree in depth-first order, the live accesses of each cell, its conflicts in the order in
    /// which the tree lists their askers, and why it stopped. If out of memory, returns the core as it was.
    pub fn close(mut self) -> Result<Closed, (Core, OutOfMemory)>
        ensures tree { IfOk result (λ c. c.tree ≡ in_order self.machine.tree) }
        ensures journals { IfOk result (λ c. c.journals ≡ journals_of self) }
        ensures conflicts { IfOk result (λ c. c.conflicts ≡ conflicts_in_order self.machine.tree self.machine.conflicts) }
        ensures halt { IfOk result (λ c. c.halt ≡ halt_in_order self.machine.tree self.halt) }
        ensures err { IfErr result (λ e. e.0 ≡ self) }
    {
        let alloc = *self.rows.allocator();
        let journals = match journals(alloc, self.cells.as_slice()) {
            Ok(journals) => journals,
            Err(error) => return Err((self, error)),
        };
        let conflicts = match copy_all(alloc, self.conflicts.as_slice()) {
            Ok(conflicts) => conflicts,
            Err(error) => {
                drop(journals);
                return Err((self, error));
            }
        };
        let (tree, links) = self.tree.into_parts();
        let closed = Closed {
            tree,
            journals,
            conflicts,
            halt: self.halt,
        };
        match closed.in_order() {
            Ok(closed) => {
                drop(links);
                drop(self.rows);
                drop(self.cells);
                drop(self.tier);
                drop(self.gaps);
                drop(self.forks);
                drop(self.conflicts);
                drop(self.finished);
                drop(self.joined);
                drop(self.splits);
                Ok(closed)
            }
            Err((closed, error)) => {
                self.tree = Linked::of_parts(closed.tree, links);
                drop(closed.journals);
                drop(closed.conflicts);
                Err((self, error))
            }
        }
    }
}

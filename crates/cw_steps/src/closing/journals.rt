//! The entries of the cells, each cell read with its slot's lock held.
ghost use Rattle.std.specs.Prelude.{◌≡◌, ◌<◌, IfOk};
ghost use Rattle.std.specs.List.Sorted.{IsStrictlyIncreasing};
ghost use Rattle.cw_tree.specs.AccessStacks.{stamps};
ghost use Rattle.cw_stack.specs.Cells.{AreSteps};
ghost use Rattle.cw_steps.specs.Leaving.{AreFoundJournals, HasReturned, IsFoundJournal};
ghost use Rattle.cw_steps.specs.Stands.{token_of};
ghost use Rattle.cw_steps.specs.Views.{cells_of, key_of, view_of, IsQuiet, IsTokenOf};

use crate::{Aim, Home, Shared, StrandToken};
use cw_base::{OutOfMemory, Seq};
use cw_stack::Cell;
use cw_tree::Entry;
use std::alloc::Global;

/// Returns a copy of the cell's entries.
fn entries_of(alloc: Global, cell: &Cell) -> Result<Seq<Entry>, OutOfMemory>
    ensures entries { IfOk result (λ es. es ≡ cell.now.entries) }
    ensures rising { IfOk result (λ es. IsStrictlyIncreasing (stamps es)) }
    ensures steps { IfOk result (λ es. AreSteps cell.now.first es) }
{
    let entries = Vec::from_slice(alloc, cell.journal())?;
    Ok(Seq::from_vec(entries))
}

impl Shared {
    /// Returns the entries of the cell in slot `cell`, if its lock is free.
    fn journal(
        &self,
        alloc: Global,
        token: &mut StrandToken,
        cell: u32,
    ) -> Result<Seq<Entry>, OutOfMemory>
        requires table { IsTokenOf self.now token.old }
        requires quiet { IsQuiet (view_of token.old) }
        requires cell { cell < cells_of (key_of self.now) }
        ensures journal { IfOk result (λ es. IsFoundJournal (key_of self.now) token.old.seat.me cell es) }
        ensures table { IsTokenOf self.now token.new }
        ensures looked { HasReturned token.old.seat.me token.new.seat.me }
        ensures room { token.new.track.room ≡ token.old.track.room }
        ensures token { token_of token.new ≡ token_of token.old }
    {
        if !self.take(token, cell, Aim::Look) {
            return Err(OutOfMemory);
        }
        let Some(held) = self.swap_cell(token, cell, None) else {
            unreachable!()
        };
        let entries = entries_of(alloc, &held);
        self.swap_cell(token, cell, Some(held));
        self.give(token, cell, Home::Plain);
        entries
    }

    /// Returns the entries of each cell.
    pub(crate) fn journals(
        &self,
        alloc: Global,
        token: &mut StrandToken,
    ) -> Result<Seq<Seq<Entry>>, OutOfMemory>
        requires table { IsTokenOf self.now token.old }
        requires quiet { IsQuiet (view_of token.old) }
        ensures journals { IfOk result (λ js. AreFoundJournals (key_of self.now) token.old.seat.me js) }
        ensures table { IsTokenOf self.now token.new }
        ensures looked { HasReturned token.old.seat.me token.new.seat.me }
        ensures room { token.new.track.room ≡ token.old.track.room }
        ensures token { token_of token.new ≡ token_of token.old }
    {
        let mut journals = Vec::new(alloc);
        for cell in 0..self.cells {
            let entries = self.journal(alloc, token, cell)?;
            journals.push(entries)?;
        }
        Ok(Seq::from_vec(journals))
    }
}

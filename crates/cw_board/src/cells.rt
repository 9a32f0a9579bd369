//! Cells, each used with its lock held.
ghost use Rattle.std.specs.Prelude.{◌≡◌, ◌<◌, ℕ, unwrap_or};
ghost use Rattle.cw_stack.specs.Cells.{entries_value};
ghost use Rattle.cw_steps.specs.declared.table.StrandToken.{StrandToken};
ghost use Rattle.cw_steps.specs.declared.view.Slot.{Slot};
ghost use Rattle.cw_steps.specs.declared.view.Slot.TheVariants as slot;
ghost use Rattle.cw_log.specs.Answers.{kind_of_answer, IsWritten};
ghost use Rattle.cw_log.specs.Tokens.{made};
ghost use Rattle.cw_steps.specs.Stands.{token_of};
ghost use Rattle.cw_steps.specs.Tracks.{track_of, IsReady};
ghost use Rattle.cw_steps.specs.declared.draw.Aim.TheVariants as aims;
ghost use Rattle.cw_steps.specs.declared.draw.Home.TheVariants as home;
ghost use Rattle.cw_steps.specs.Homes.{CellComesHome};
ghost use Rattle.cw_steps.specs.Views.{gave_view, key_of, newest_aim, newest_cell, view_of, HasAsked, IsLowCell, IsQuiet};
ghost use Rattle.cw_board.specs.Asked.{HasNoted};
ghost use Rattle.cw_board.specs.Boards.{cells_in, IsOf};
ghost use Rattle.cw_board.specs.Turns.{HasCell, IsHolding};

use crate::Board;
use cw_base::OutOfMemory;
use cw_stack::Cell;
use cw_steps::{Aim, Draw, Home, StrandToken};
use cw_tree::Mark;
use std::sync::Wait;

/// Returns the cell's value after an access that reads it, or writes a value.
fn value_after(held: &Cell, write: Option<i64>) -> i64
    ensures { result ≡ unwrap_or write (entries_value held.now) }
{
    match write {
        Some(value) => value,
        None => held.value(),
    }
}

impl Board {
    /// Waits for the cell's lock, and takes the cell out.
    pub(crate) fn hold_cell<R: Wait>(
        &self,
        rt: &R,
        token: &mut StrandToken,
        cell: u32,
        aim: Aim,
    ) -> Cell
        requires of { IsOf self.now token.old }
        requires cell { cell < cells_in self.now }
        ensures held { IsHolding self.now cell slot.Empty token.old token.new }
        ensures low { IsLowCell (view_of token.new).seen (slot.Cell result) }
        ensures cell { HasCell aim result token.new }
        ensures noted { HasNoted token.old token.new }
        ensures quiet { IsQuiet (view_of token.new) }
        ensures word { (track_of token.new.track).word ≡ (track_of token.old.track).word }
    {
        self.take_turn(rt, token, cell, aim);
        match self.shared.swap_cell(token, cell, None) {
            Some(held) => held,
            None => unreachable!(),
        }
    }

    /// Puts the cell back, unchanged or undone, and releases its lock.
    pub(crate) fn leave_cell(&self, token: &mut StrandToken, cell: u32, held: Cell)
        requires cell { cell < cells_in self.now }
        requires held { (t : StrandToken) × (y : Slot) × IsHolding self.now cell y t token.old }
        requires low { IsLowCell (view_of token.old).seen (slot.Cell held) }
        requires comes { CellComesHome cell home.Plain (newest_aim (view_of token.old).turns) (newest_cell (view_of token.old).turns) (slot.Cell held) }
        ensures of { IsOf self.now token.new }
        ensures view { view_of token.new ≡ gave_view home.Plain (view_of token.old) }
        ensures track { token.new.track ≡ token.old.track }
        ensures token { token_of token.new ≡ token_of token.old }
        ensures word { (track_of token.new.track).word ≡ (track_of token.old.track).word }
    {
        self.shared.swap_cell(token, cell, Some(held));
        self.shared.give(token, cell, Home::Plain);
    }

    /// Makes an access of a cell that is held, and puts the cell back. Returns the value after the access. If the cell has entries, the
    /// token has just asked about the newest one.
    pub(crate) fn make_access(
        &self,
        token: &mut StrandToken,
        cell: u32,
        held: Cell,
        write: Option<i64>,
    ) -> i64
        requires cell { cell < cells_in self.now }
        requires held { (t : StrandToken) × (y : Slot) × IsHolding self.now cell y t token.old }
        requires low { IsLowCell (view_of token.old).seen (slot.Cell held) }
        requires lies { HasCell aims.Access held token.old }
        requires room { 0 < held.room }
        requires asked { HasAsked (key_of self.now.shared) (view_of token.old) held }
        requires ready { IsReady token.old.track 1 }
        ensures of { IsOf self.now token.new }
        ensures written { IsWritten write result }
        ensures value { result ≡ unwrap_or write (entries_value held) }
        ensures token { (stamp : ℕ) × (token_of token.new ≡ made (token_of token.old) (kind_of_answer cell write result) stamp) }
        ensures notes { (view_of token.new).notes ≡ (view_of token.old).notes }
        ensures word { (track_of token.new.track).word ≡ (track_of token.old.track).word }
    {
        let wrote = write.is_some();
        let value = value_after(&held, write);
        let draw = Draw::Access { cell, wrote, value };
        let stamp = self.shared.draw(token, draw);
        let mark = Mark {
            strand: token.column(),
            stamp,
        };
        let mut held = held;
        held.access(mark, write);
        self.shared.swap_cell(token, cell, Some(held));
        self.shared.give(token, cell, Home::Plain);
        value
    }

    /// Returns the stamps of the newest eight accesses of `cell`.
    pub fn chain<R: Wait>(
        &self,
        rt: &R,
        token: &mut StrandToken,
        cell: u32,
    ) -> Result<Vec<u64>, OutOfMemory>
        requires of { IsOf self.now token.old }
        requires cell { cell < cells_in self.now }
        ensures of { IsOf self.now token.new }
        ensures token { token_of token.new ≡ token_of token.old }
        ensures word { (track_of token.new.track).word ≡ (track_of token.old.track).word }
    {
        let held = self.hold_cell(rt, token, cell, Aim::Look);
        let chain = held.chain();
        self.leave_cell(token, cell, held);
        chain
    }
}

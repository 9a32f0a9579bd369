//! Rolls blocks back: undoes all accesses beneath a block in their cells, and then closes the block. If logs were joined since the block
//! was begun, each cell is brought home once, cut before the first entry that is an access beneath the block; the cells come in the order
//! of their numbers, so that no memory is needed to know which were brought home. If none was, the own log has all these accesses in the
//! order of time, and one walk along it does.
ghost use Rattle.std.specs.Prelude.{◌≡◌, ◌<◌, ℕ, drop, false, filter, nat_lt, option_map, Contains};
ghost use Rattle.cw_tree.specs.declared.node.BlockState.TheVariants.{Aborted};
ghost use Rattle.cw_tree.specs.AccessStacks.{stamps};
ghost use Rattle.cw_log.specs.Tokens.{ended, GoesBack, HasBlock};
ghost use Rattle.cw_steps.specs.Beneath.{cell_reached, entries_before};
ghost use Rattle.cw_steps.specs.declared.draw.Aim.TheVariants as aims;
ghost use Rattle.cw_steps.specs.Homes.{LeavesCell};
ghost use Rattle.cw_steps.specs.Leaving.{HasReturned};
ghost use Rattle.cw_steps.specs.Stands.{token_of};
ghost use Rattle.cw_steps.specs.Tracks.{track_of};
ghost use Rattle.cw_steps.specs.declared.view.Slot.TheVariants as slot;
ghost use Rattle.cw_steps.specs.Views.{IsLowCell};
ghost use Rattle.cw_board.specs.Boards.{budget_of, cells_in, IsHidden, IsOf};

use crate::Board;
use cw_stack::Cell;
use cw_steps::{Aim, StrandToken};
use cw_tree::{Kind, Node};
use std::sync::Wait;

/// Returns the cell that a node touched and its stamp, if the node is an access.
fn access_of(node: &Node) -> Option<(u32, u64)>
    ensures { result ≡ option_map (λ (c : ℕ). (c, node.now.stamp)) (cell_reached false node.now.kind) }
{
    match node.kind {
        Kind::Read { cell, .. } | Kind::Write { cell, .. } => Some((cell, node.stamp)),
        _ => None,
    }
}

/// Takes an access out of its cell, with all that came after it there. It may already be gone, taken out with an earlier one. That it is
/// there otherwise is not proved.
fn cut_from(cell: &mut Cell, stamp: u64)
    ensures cut { Contains (stamps (drop cell.old.cleaned cell.old.entries)) stamp → cell.new.entries ≡ filter (λ e. nat_lt e.mark.stamp stamp) cell.old.entries }
    ensures kept { (Contains (stamps (drop cell.old.cleaned cell.old.entries)) stamp → ⊥) → cell.new ≡ cell.old }
    ensures low { (most : ℕ) → IsLowCell most (slot.Cell cell.old) → IsLowCell most (slot.Cell cell.new) }
    ensures left { LeavesCell aims.Undo cell.old cell.new }
{
    if cell.may_roll(stamp) {
        cell.roll(stamp);
    }
}

/// Leaves a cell with the entries before the first one that is an access beneath the token's place. Entries that were cleaned stay;
/// that there are none is not proved.
fn cut(cell: &mut Cell, number: u32, token: &StrandToken)
    ensures cut { cell.old.cleaned ≡ 0 → cell.new.entries ≡ entries_before (token_of token.now) number cell.old.entries }
    ensures low { (most : ℕ) → IsLowCell most (slot.Cell cell.old) → IsLowCell most (slot.Cell cell.new) }
    ensures left { LeavesCell aims.Undo cell.old cell.new }
{
    if let Some(first) = token.first_entry(number, cell.journal()) {
        cut_from(cell, first);
    }
}

impl Board {
    /// Undoes and closes the innermost pending block of the token's strand.
    pub fn roll<R: Wait>(&self, rt: &R, token: &mut StrandToken)
        requires of { IsOf self.now token.old }
        requires block { HasBlock (token_of token.old) }
        requires back { GoesBack (budget_of self.now) (token_of token.old) }
        ensures of { IsOf self.now token.new }
        ensures token { (stamp : ℕ) × (token_of token.new ≡ ended (token_of token.old) Aborted stamp) }
        ensures word { IsHidden (track_of token.old.track) (track_of token.new.track) }
    {
        let outermost = token.word() == token.begin_stamp();
        self.undo(rt, token);
        self.end(token, true);
        if outermost {
            self.hide(token);
        }
    }

    /// Undoes all accesses beneath the block in the token's place.
    fn undo<R: Wait>(&self, rt: &R, token: &mut StrandToken)
        requires { IsOf self.now token.old }
        ensures of { IsOf self.now token.new }
        ensures returned { HasReturned token.old.seat.me token.new.seat.me }
        ensures token { token_of token.new ≡ token_of token.old }
        ensures word { (track_of token.new.track).word ≡ (track_of token.old.track).word }
    {
        if token.has_logs_beneath() {
            self.undo_cells(rt, token);
        } else {
            self.undo_own(rt, token);
        }
    }

    /// Undoes those of the token's own log, one after another.
    fn undo_own<R: Wait>(&self, rt: &R, token: &mut StrandToken)
        requires { IsOf self.now token.old }
        ensures of { IsOf self.now token.new }
        ensures returned { HasReturned token.old.seat.me token.new.seat.me }
        ensures token { token_of token.new ≡ token_of token.old }
    {
        let block = token.place() as usize;
        let count = token.nodes().len();
        for n in block..count {
            let access = token.nodes().get(n).and_then(access_of);
            self.undo_access(rt, token, access);
        }
    }

    /// Undoes an access in its cell, with all that came after it there. Does nothing if there is no such access or no such cell: no
    /// rule of the table says yet that the cells of a log exist.
    fn undo_access<R: Wait>(&self, rt: &R, token: &mut StrandToken, access: Option<(u32, u64)>)
        requires { IsOf self.now token.old }
        ensures of { IsOf self.now token.new }
        ensures returned { HasReturned token.old.seat.me token.new.seat.me }
        ensures token { token_of token.new ≡ token_of token.old }
    {
        let Some((cell, stamp)) = access else {
            return;
        };
        if cell < self.shared.cells() {
            self.undo_there(rt, token, cell, stamp);
        }
    }

    fn undo_there<R: Wait>(&self, rt: &R, token: &mut StrandToken, cell: u32, stamp: u64)
        requires of { IsOf self.now token.old }
        requires cell { cell < cells_in self.now }
        ensures of { IsOf self.now token.new }
        ensures returned { HasReturned token.old.seat.me token.new.seat.me }
        ensures token { token_of token.new ≡ token_of token.old }
    {
        let mut held = self.hold_cell(rt, token, cell, Aim::Undo);
        cut_from(&mut held, stamp);
        self.leave_cell(token, cell, held);
    }

    /// Undoes those of the own log and of joined logs, one cell after another. A number for which there is no cell is left out, as above.
    fn undo_cells<R: Wait>(&self, rt: &R, token: &mut StrandToken)
        requires { IsOf self.now token.old }
        ensures of { IsOf self.now token.new }
        ensures returned { HasReturned token.old.seat.me token.new.seat.me }
        ensures token { token_of token.new ≡ token_of token.old }
        ensures word { (track_of token.new.track).word ≡ (track_of token.old.track).word }
    {
        let cells = self.shared.cells();
        let mut from = 0;
        while let Some(cell) = token.next_touched(from) {
            if cell >= cells {
                return;
            }
            self.undo_cell(rt, token, cell);
            from = cell + 1;
        }
    }

    /// Undoes those in one cell.
    fn undo_cell<R: Wait>(&self, rt: &R, token: &mut StrandToken, cell: u32)
        requires of { IsOf self.now token.old }
        requires cell { cell < cells_in self.now }
        ensures of { IsOf self.now token.new }
        ensures returned { HasReturned token.old.seat.me token.new.seat.me }
        ensures token { token_of token.new ≡ token_of token.old }
    {
        let mut held = self.hold_cell(rt, token, cell, Aim::Undo);
        cut(&mut held, cell, token);
        self.leave_cell(token, cell, held);
    }
}

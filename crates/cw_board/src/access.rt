//! Accesses, which are made or refused.
ghost use Rattle.std.specs.Prelude.{◌≡◌, ◌<◌, IfOk, OnErr, OnOk, length};
ghost use Rattle.cw_steps.specs.declared.table.StrandToken.{StrandToken};
ghost use Rattle.cw_steps.specs.declared.draw.Aim.TheVariants as aims;
ghost use Rattle.cw_steps.specs.declared.view.Slot.{Slot};
ghost use Rattle.cw_steps.specs.declared.view.Slot.TheVariants as slot;
ghost use Rattle.cw_log.specs.Answers.{IsAround, Meets};
ghost use Rattle.cw_log.specs.Tokens.{refused, GoesFree};
ghost use Rattle.cw_steps.specs.Stands.{token_of};
ghost use Rattle.cw_steps.specs.Tracks.{one_more, track_of, tries_of, IsReady};
ghost use Rattle.cw_steps.specs.Views.{view_of, IsLowCell};
ghost use Rattle.cw_board.specs.Boards.{budget_of, cells_in, IsOf};
ghost use Rattle.cw_board.specs.Turns.{HasCell, IsHolding};
ghost use Rattle.cw_board.specs.Victims.{attempt_refused, begin_of, conflict_with, GivesValue, IsAskedAbout, IsJudgedBy, Refuses};
ghost use Rattle.cw_tree.specs.AccessStacks.{stamps};
ghost use Rattle.cw_tree.specs.Newest.{last_eight};

use crate::Board;
use crate::victims::Barrier;
use cw_base::{OutOfMemory, Seq};
use cw_log::{Above, Access};
use cw_stack::Cell;
use cw_steps::{Aim, Home, StrandToken};
use cw_tree::{Conflict, Mark};
use std::sync::Wait;

/// The victim's begin and attempt number. Without a victim: 0, and the attempt of the access itself.
fn victim_and_attempt(victim: Option<Above>, attempt: u32) -> (u64, u32)
    ensures { (result.0 ≡ begin_of victim) × (result.1 ≡ attempt_refused victim attempt) }
{
    match victim {
        Some(block) => (block.begin, block.attempt),
        None => (0, attempt),
    }
}

/// Makes a conflict that carries the newest live accesses of the cell.
fn conflict_of(
    held: &Cell,
    cell: u32,
    asker: u32,
    last: u64,
    barrier: Barrier,
    attempt: u32,
) -> Result<Conflict, OutOfMemory>
    ensures { IfOk result (λ k. k ≡ conflict_with cell asker last barrier attempt (last_eight (stamps held.now.entries))) }
{
    let (victim, attempt) = victim_and_attempt(barrier.victim, attempt);
    let chain = Seq::from_vec(held.chain()?);
    Ok(Conflict {
        cell,
        last,
        asker,
        block: barrier.block,
        victim,
        attempt,
        chain,
    })
}

impl Board {
    /// Adds a refused access of a cell that is held to the log, with its conflict, and puts the cell back.
    fn note_refused(&self, token: &mut StrandToken, cell: u32, held: Cell, conflict: Conflict)
        requires cell { cell < cells_in self.now }
        requires held { (t : StrandToken) × (y : Slot) × IsHolding self.now cell y t token.old }
        requires low { IsLowCell (view_of token.old).seen (slot.Cell held) }
        requires lies { HasCell aims.Access held token.old }
        requires ready { IsReady token.old.track 1 }
        requires around { IsAround (token_of token.old) conflict.victim }
        requires names { conflict.cell ≡ cell }
        ensures of { IsOf self.now token.new }
        ensures token { token_of token.new ≡ refused (token_of token.old) (record conflict { asker = length (token_of token.old).own.nodes }) }
        ensures notes { (view_of token.new).notes ≡ (view_of token.old).notes }
        ensures word { (track_of token.new.track).word ≡ (track_of token.old.track).word }
    {
        self.shared.swap_cell(token, cell, Some(held));
        self.shared.give(token, cell, Home::Refused(conflict));
    }

    /// Refuses an access of a cell that is held. If memory runs out for the conflict, nothing is added to the log.
    fn refuse(
        &self,
        token: &mut StrandToken,
        cell: u32,
        held: Cell,
        last: u64,
        barrier: Barrier,
    ) -> Result<Access, OutOfMemory>
        requires cell { cell < cells_in self.now }
        requires held { (t : StrandToken) × (y : Slot) × IsHolding self.now cell y t token.old }
        requires low { IsLowCell (view_of token.old).seen (slot.Cell held) }
        requires lies { HasCell aims.Access held token.old }
        requires ready { IsReady token.old.track 1 }
        requires around { IsAround (token_of token.old) (begin_of barrier.victim) }
        ensures of { IsOf self.now token.new }
        ensures ok { IfOk result (λ a. Refuses (token_of token.old) (token_of token.new) cell last barrier (one_more (tries_of (track_of token.old.track).tail cell)) (last_eight (stamps held.entries)) a) }
        ensures err { OnErr result (token_of token.new ≡ token_of token.old) }
        ensures notes { OnOk result ((view_of token.new).notes ≡ (view_of token.old).notes) }
        ensures word { (track_of token.new.track).word ≡ (track_of token.old.track).word }
    {
        let asker = token.nodes().len() as u32;
        let attempt = token.attempt(cell);
        let kept = conflict_of(&held, cell, asker, last, barrier, attempt);
        let told = conflict_of(&held, cell, asker, last, barrier, attempt);
        let (Ok(kept), Ok(told)) = (kept, told) else {
            self.leave_cell(token, cell, held);
            return Err(OutOfMemory);
        };
        self.note_refused(token, cell, held, kept);
        Ok(Access::Conflict(told))
    }

    /// Makes an access of a cell that is held, with room for one more entry, or refuses it if it conflicts with the newest one.
    fn access_held<R: Wait>(
        &self,
        rt: &R,
        token: &mut StrandToken,
        cell: u32,
        held: Cell,
        write: Option<i64>,
    ) -> Result<Access, OutOfMemory>
        requires cell { cell < cells_in self.now }
        requires held { (t : StrandToken) × (y : Slot) × IsHolding self.now cell y t token.old }
        requires low { IsLowCell (view_of token.old).seen (slot.Cell held) }
        requires lies { HasCell aims.Access held token.old }
        requires room { 0 < held.room }
        requires ready { IsReady token.old.track 1 }
        ensures of { IsOf self.now token.new }
        ensures ok { IfOk result (λ a. Meets (token_of token.old) (token_of token.new) cell write a) }
        ensures judged { IfOk result (IsJudgedBy self.now cell held.entries token.old token.new) }
        ensures value { IfOk result (GivesValue held write) }
        ensures err { OnErr result (token_of token.new ≡ token_of token.old) }
        ensures word { (track_of token.new.track).word ≡ (track_of token.old.track).word }
    {
        let Some(last) = held.last() else {
            return Ok(Access::Value(self.make_access(token, cell, held, write)));
        };
        match self.barrier(rt, token, last) {
            Some(barrier) => self.refuse(token, cell, held, last.stamp, barrier),
            None => Ok(Access::Value(self.make_access(token, cell, held, write))),
        }
    }

    /// Reads `cell`, or writes `write` to it if a value is given. Refuses the access if it conflicts with the newest one.
    pub fn access<R: Wait>(
        &self,
        rt: &R,
        token: &mut StrandToken,
        cell: u32,
        write: Option<i64>,
    ) -> Result<Access, OutOfMemory>
        requires of { IsOf self.now token.old }
        requires goes { GoesFree (budget_of self.now) (token_of token.old) }
        requires cell { cell < cells_in self.now }
        ensures of { IsOf self.now token.new }
        ensures ok { IfOk result (λ a. Meets (token_of token.old) (token_of token.new) cell write a) }
        ensures asked { IfOk result (IsAskedAbout self.now cell write token.old token.new) }
        ensures err { OnErr result (token_of token.new ≡ token_of token.old) }
        ensures word { (track_of token.new.track).word ≡ (track_of token.old.track).word }
    {
        token.reserve(1)?;
        let mut held = self.hold_cell(rt, token, cell, Aim::Access);
        if held.reserve().is_err() {
            self.leave_cell(token, cell, held);
            return Err(OutOfMemory);
        }
        self.access_held(rt, token, cell, held, write)
    }
}

ghost use Rattle.std.specs.Prelude.{◌≡◌, ◌<◌, ◌==◌, ◌&&◌, not, nat_lt, [], length, IsTrue};
ghost use Rattle.cw_tree.specs.Nodes.{is_strand, is_fork};
ghost use Rattle.cw_tree.specs.Series.{children};
ghost use Rattle.cw_open.specs.Machine.{has_finished, is_running, is_free, rolls_back};
ghost use Rattle.cw_open.specs.Runs.{left_died};
ghost use Rattle.cw_core.specs.State.{waits_for_left};
ghost use Rattle.cw_core.specs.Laws.{IsCore};
ghost use Rattle.cw_core.specs.Events.{fits, fits_now, may_stop};
ghost use Rattle.cw_core.specs.declared.event.Event.TheVariants as event;

use crate::Event;
use crate::cores::Core;
use crate::row::Row;
use cw_tree::Halt;

/// Returns whether the fork of this row has columns, and was neither split nor joined.
fn is_whole(row: Row) -> bool
    ensures { result ≡ (row.made.has_columns && not row.now.split && not row.now.joined) }
{
    row.made.has_columns && !row.now.split && !row.now.joined
}

// Each call looks at a few rows, however large the tree is.
impl Core {
    /// Returns whether `event` may be made now. Does not allocate.
    pub fn fits(&self, event: &Event) -> bool
        ensures { result ≡ fits self.now event.now }
    {
        if self.halt.is_some() {
            return false;
        }
        if self.spent.is_some() && !matches!(event, Event::Stop { .. }) {
            return false;
        }
        self.fits_now(*event)
    }

    /// Returns whether `event` may be made, given that nothing has stopped and no budget is spent.
    fn fits_now(&self, event: Event) -> bool
        requires { self.now.machine.stopped ≡ [] }
        ensures { result ≡ fits_now self.now event }
    {
        match event {
            Event::Fork { strand } => self.goes_on(strand),
            Event::Begin { strand } => self.goes_on(strand),
            Event::Access { strand, cell, .. } => self.goes_on(strand) && self.has_cell(cell),
            Event::Out { strand, .. } => self.goes_on(strand),
            Event::Cancel { strand } => self.may_cancel(strand),
            Event::Commit { strand } => self.may_commit(strand),
            Event::Roll { strand } => self.rolls_back(strand) && !self.waits_for_left(strand),
            Event::Finish { strand, dead } => self.may_finish(strand, dead),
            Event::Split { fork } => self.may_split(fork),
            Event::Join { fork } => self.may_join(fork),
            Event::Stop { halt } => self.may_stop(halt),
        }
    }

    /// A hint to the prover, without effect: what is true of every core.
    pub(crate) fn hint(&self)
        ensures { IsCore self.now.machine.first self.now }
    {
        let _clock = self.clock;
    }

    fn has_cell(&self, cell: u32) -> bool
        ensures { result ≡ nat_lt cell (length self.now.machine.lists) }
    {
        (cell as usize) < self.cells.len()
    }

    fn is_strand(&self, node: u32) -> bool
        ensures { result ≡ is_strand self.now.machine.tree node }
    {
        (node as usize) < self.rows.len() && self.tree.tree().is_strand(node)
    }

    fn is_fork(&self, node: u32) -> bool
        ensures { result ≡ is_fork self.now.machine.tree node }
    {
        (node as usize) < self.rows.len() && self.tree.tree().is_fork(node)
    }

    /// Returns whether `strand` runs, given that nothing has stopped.
    fn is_running(&self, strand: u32) -> bool
        requires { self.now.machine.stopped ≡ [] }
        ensures { result ≡ is_running self.now.machine strand }
    {
        if !self.is_strand(strand) {
            return false;
        }
        let now = self.row(strand).now;
        !now.finished && !now.waits
    }

    /// Returns whether `strand` goes on with its own work.
    fn goes_on(&self, strand: u32) -> bool
        requires { self.now.machine.stopped ≡ [] }
        ensures { result ≡ (is_free self.now.machine strand && not (waits_for_left self.now strand)) }
    {
        self.is_running(strand) && !self.is_dying(strand) && !self.waits_for_left(strand)
    }

    fn may_cancel(&self, strand: u32) -> bool
        requires { self.now.machine.stopped ≡ [] }
        ensures { result ≡ fits_now self.now (event.Cancel strand) }
    {
        self.goes_on(strand) && self.in_block(strand)
    }

    fn may_commit(&self, strand: u32) -> bool
        requires { self.now.machine.stopped ≡ [] }
        ensures { result ≡ fits_now self.now (event.Commit strand) }
    {
        self.hint();
        self.goes_on(strand) && self.in_block(strand)
    }

    /// Returns whether `strand` has to roll back the block at its place.
    fn rolls_back(&self, strand: u32) -> bool
        requires { self.now.machine.stopped ≡ [] }
        ensures { result ≡ rolls_back self.now.machine strand }
    {
        self.hint();
        if !self.is_running(strand) {
            return false;
        }
        self.in_block(strand) && self.is_dying(strand)
    }

    /// Returns whether `strand` may finish. It may finish as dead if it is dying, and also if it has made no step and its left
    /// strand died.
    fn may_finish(&self, strand: u32, dead: bool) -> bool
        requires { self.now.machine.stopped ≡ [] }
        ensures { result ≡ fits_now self.now (event.Finish strand dead) }
    {
        if !self.is_running(strand) || self.waits_for_left(strand) || self.in_block(strand) {
            return false;
        }
        if self.is_dying(strand) {
            dead
        } else {
            !dead || self.left_died(strand)
        }
    }

    fn left_died(&self, strand: u32) -> bool
        requires { IsTrue (is_strand self.now.machine.tree strand) }
        ensures { result ≡ left_died self.now.machine strand }
    {
        let row = self.row(strand);
        match row.made.elder {
            Some(left) => !row.tail.started && self.row(left).now.dead,
            None => false,
        }
    }

    fn may_split(&self, fork: u32) -> bool
        ensures { result ≡ fits_now self.now (event.Split fork) }
    {
        if !self.is_fork(fork) {
            return false;
        }
        let row = self.row(fork);
        is_whole(row) && self.is_unstarted(row.made.right)
    }

    /// Returns whether `strand` has made no step.
    fn is_unstarted(&self, strand: u32) -> bool
        requires { strand < length self.now.machine.tree }
        ensures { result ≡ ((length (children self.now.machine.tree strand) == 0) && not (has_finished self.now.machine strand)) }
    {
        let row = self.row(strand);
        !row.tail.started && !row.now.finished
    }

    fn may_join(&self, fork: u32) -> bool
        ensures { result ≡ fits_now self.now (event.Join fork) }
    {
        if !self.is_fork(fork) {
            return false;
        }
        let row = self.row(fork);
        !row.now.joined && self.has_finished(row.made.left) && self.has_finished(row.made.right)
    }

    fn may_stop(&self, halt: Halt) -> bool
        ensures { result ≡ may_stop self.now halt }
    {
        match halt {
            Halt::Fault { strand, .. } => self.is_strand(strand),
            Halt::Budget { strand } => self.spent == Some(strand),
            Halt::Memory => true,
        }
    }
}

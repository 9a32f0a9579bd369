ghost use Rattle.std.specs.Prelude.{◌≡◌, ℤ, map, false, ◌<◌, ◌%◌, ◌^◌, true, if◌then◌else◌, IfOk, OnOk, OnErr, IfSome, IsNone, IsTrue, Option, None, Some, length, vec_len};
ghost use Rattle.std.specs.Option.{option_map_or};
ghost use Rattle.cw_trace.specs.Columns.{begun_word, closed_word, is_trace, merged, used};
ghost use Rattle.cw_core.specs.Kept.{IsRow, IsMarked, IsBarrier, fresh_cell};
ghost use Rattle.cw_tree.specs.Walks.{may_fall};
ghost use Rattle.cw_tree.specs.VictimsAt.{victim_at};
ghost use Rattle.cw_tree.specs.AccessStacks.{access_at};
ghost use Rattle.cw_core.specs.State.{start, waits_for_left};
ghost use Rattle.cw_tree.specs.Nodes.{stamp_of, is_strand, is_pending};
ghost use Rattle.cw_tree.specs.Series.{strand_of};
ghost use Rattle.cw_tree.specs.Attempts.{block_attempt};
ghost use Rattle.cw_core.specs.Events.{fits, after_event, reply_to, is_met};
ghost use Rattle.cw_core.specs.declared.event.Event.TheVariants as event;

mod closing;
mod fits;
mod reads;
mod steps;

use crate::beneath::{backs, cells_beneath};
use crate::held::{Barrier, Refused, access_kind, conflict_with, put_entry, reserve_entry};
use crate::linked::Linked;
use crate::row::{
    PLAIN, Row, Tail, close_row, finish_row, join_rows, leaf_row, least, put_fork, put_leaf,
    put_tried, roll_row, split_row, tried_tail,
};
use crate::undo::{abort, undo};
use crate::{Event, Reply};
use cw_base::{OutOfMemory, Stack};
use cw_code::Limits;
use cw_order::Steps;
use cw_stack::Cell;
use cw_trace::{Early, Gaps, Inline, Tier};
use cw_tree::{BlockState, Conflict, Halt, Kind, Mark, Tree};
use cw_xconf::{Held, Verdict, ask, contains_by};
use std::alloc::Global;
use std::marker::{Brand, Model};
use std::sync::ledger::{Blank, Ledger};

/// Tree, traces, query and cells of strands that run at the same time.
#[derive(Drop)]
pub struct Core {
    tree: Linked,
    /// One row for each node.
    rows: Vec<Row>,
    cells: Vec<Cell>,
    tier: Tier,
    gaps: Gaps,
    /// The forks with columns, in order.
    forks: Vec<u32>,
    clock: u64,
    conflicts: Vec<Conflict>,
    finished: Stack<(u32, bool)>,
    joined: Stack<u32>,
    splits: Stack<u32>,
    budget: u32,
    /// The strand that has spent its budget.
    spent: Option<u32>,
    halt: Option<Halt>,
}

/// Gives the gap's word to a new outermost block: sets it to `stamp` if it is 0.
fn begin_word(gaps: &mut Gaps, gap: u32, stamp: u64)
    requires { gap < vec_len gaps.old.words }
    ensures { gaps.new.words.items ≡ begun_word gaps.old.words.items gap stamp }
{
    if gaps.words[gap as usize] == 0 {
        gaps.set(gap, stamp);
    }
}

/// Clears the gap's word if the block that was begun at `begun` had taken it.
fn end_word(gaps: &mut Gaps, gap: u32, begun: u64)
    requires { gap < vec_len gaps.old.words }
    ensures { gaps.new.words.items ≡ closed_word gaps.old.words.items gap begun }
{
    if gaps.words[gap as usize] == begun {
        gaps.set(gap, 0);
    }
}

/// Merges the traces of a fork into the trace around it, if the fork was split.
fn merge_where(tier: &mut Tier, split: bool, column: u32)
    requires low { IsTrue split → column < used tier.old.columns }
    requires left { IsTrue split → column % 2 ≡ 1 }
    requires split { IsTrue split → is_trace tier.old.columns column ≡ true }
    ensures { tier.new.columns ≡ (if split then merged column tier.old.columns else tier.old.columns) }
{
    if split {
        tier.merge(column);
    }
}

/// Returns `node` if it passed, otherwise what was found before.
fn or_later(passed: bool, node: u32, found: Option<u32>) -> Option<u32>
    ensures { result ≡ (if passed then Some node else found) }
{
    if passed { Some(node) } else { found }
}

impl Model for Core {
    ghost use Rattle.cw_core.specs.State.{CoreState};

    ghost Value = { CoreState };

    ghost use Rattle.cw_core.specs.InMemory.{state_of, IsCoreInMemory};

    ghost view = { state_of };

    ghost invariant = { IsCoreInMemory };
}

/// Returns cells with these first values and no accesses.
fn first_cells(alloc: Global, init: &[i64]) -> Result<Vec<Cell>, OutOfMemory>
    ensures { IfOk result (λ cells. cells.items ≡ map fresh_cell init.now) }
{
    let mut cells = Vec::new(alloc);
    for value in init {
        cells.push(Cell::new(alloc, *value))?;
    }
    Ok(cells)
}

impl Core {
    /// Returns a core over cells with these first values, before its first event.
    pub fn new(alloc: Global, init: &[i64], limits: Limits) -> Result<Core, OutOfMemory>
        requires { 0 < limits.strands }
        ensures { IfOk result (λ core. core ≡ start init.now limits.strands limits.aborts) }
    {
        let mut rows = Vec::with_capacity(alloc, 1)?;
        rows.push_reserved(leaf_row(0, 0));
        let gaps = Gaps::with_strands(alloc, limits.strands)?;
        let cells = first_cells(alloc, init)?;
        let tree = Linked::new(alloc)?;
        let tier = Tier::with_strands(alloc, limits.strands)?;
        Ok(Core {
            tree,
            rows,
            cells,
            tier,
            gaps,
            forks: Vec::new(alloc),
            clock: 0,
            conflicts: Vec::new(alloc),
            finished: Stack::new(alloc),
            joined: Stack::new(alloc),
            splits: Stack::new(alloc),
            budget: limits.aborts,
            spent: None,
            halt: None,
        })
    }

    /// Returns the computation tree.
    pub fn tree(&self) -> &Tree
        ensures { result.now ≡ self.now.machine.tree }
    {
        self.tree.tree()
    }

    /// Returns the row of node `n`.
    fn row(&self, n: u32) -> Row
        requires { n < length self.now.machine.tree }
        ensures row { IsRow self.now n result }
        ensures few { length self.now.machine.tree < 2 ^ 32 }
    {
        self.rows[n as usize]
    }

    /// Returns whether `strand` has to wait until the left strand of its fork finishes.
    fn waits_for_left(&self, strand: u32) -> bool
        requires { IsTrue (is_strand self.now.machine.tree strand) }
        ensures { result ≡ waits_for_left self.now strand }
    {
        match self.row(strand).made.elder {
            None => false,
            Some(left) => {
                let fork = self.tree.parent(strand);
                !self.row(fork).now.split && !self.row(left).now.finished
            }
        }
    }

    /// Returns whether `node` is a pending block that is not above the access `last`.
    fn may_fall<K: Ledger, L: Ledger>(
        &self,
        node: u32,
        last: Mark,
        looks: &mut Steps<K>,
        compares: &mut Steps<L>,
    ) -> bool
        requires node { node < length self.now.machine.tree }
        requires last { IsMarked self.now last }
        ensures { result ≡ may_fall self.now.machine.tree (access_at self.now.machine.tree last.stamp) node }
    {
        if !self.tree.is_pending(node) {
            return false;
        }
        let strand = self.row(node).made.strand;
        let block = Mark {
            strand: self.row(strand).made.column,
            stamp: self.tree.node(node).stamp,
        };
        let mut held = Held {
            tier: self.tier.reader(),
            gaps: self.gaps.reader(),
        };
        !contains_by(&mut held, block, last, looks, compares)
    }

    /// Returns the outermost block that may be rolled back for an access, among `place` and the nodes above it.
    fn victim<K: Ledger, L: Ledger>(
        &self,
        place: u32,
        last: Mark,
        looks: &mut Steps<K>,
        compares: &mut Steps<L>,
    ) -> Option<u32>
        requires place { place < length self.now.machine.tree }
        requires last { IsMarked self.now last }
        ensures { result ≡ victim_at self.now.machine.tree (access_at self.now.machine.tree last.stamp) place }
    {
        let mut node = place;
        let mut found = None;
        // the root is no block
        while node > 0 {
            let falls = self.may_fall(node, last, looks, compares);
            found = or_later(falls, node, found);
            node = self.tree.parent(node);
        }
        found
    }

    /// Begins a block.
    fn begin(&mut self, strand: u32) -> Result<Reply, OutOfMemory>
        requires { IsTrue (fits self.old (event.Begin strand)) }
        ensures ok { OnOk result (self.new ≡ after_event self.old (event.Begin strand)) }
        ensures reply { IfOk result (λ r. r ≡ reply_to self.old (event.Begin strand)) }
        ensures err { OnErr result (self.new ≡ self.old) }
    {
        let own = self.row(strand);
        let place = own.now.place;
        let attempt = self.row(place).tail.aborted + 1;
        let gap = self.tier.gap(own.made.column);
        self.rows.reserve(1)?;
        let stamp = self.clock + 1;
        let node = self.tree.add(place, Kind::Block, stamp)?;
        self.clock = stamp;
        begin_word(&mut self.gaps, gap, stamp);
        put_leaf(&mut self.rows, strand, attempt, place, PLAIN, node);
        Ok(Reply::Done)
    }

    /// Commits the block at the place of `strand`.
    fn commit(&mut self, strand: u32)
        requires { IsTrue (fits self.old (event.Commit strand)) }
        ensures { self.new ≡ after_event self.old (event.Commit strand) }
    {
        let own = self.row(strand);
        let block = own.now.place;
        let gap = self.tier.gap(own.made.column);
        let parent = self.tree.parent(block);
        let begun = self.tree.node(block).stamp;
        let stamp = self.clock + 1;
        self.tree.close(block, BlockState::Committed, stamp);
        self.clock = stamp;
        end_word(&mut self.gaps, gap, begun);
        close_row(&mut self.rows, strand, parent, PLAIN);
    }

    /// Undoes what was done beneath the block at the place of `strand`, and aborts the block.
    fn roll(&mut self, strand: u32)
        requires { IsTrue (fits self.old (event.Roll strand)) }
        ensures { self.new ≡ after_event self.old (event.Roll strand) }
    {
        let own = self.row(strand);
        let block = own.now.place;
        let attempt = self.row(block).made.attempt;
        let gap = self.tier.gap(own.made.column);
        let parent = self.tree.parent(block);
        let begun = self.tree.node(block).stamp;
        let stamp = self.clock + 1;
        undo(&self.tree, &mut self.cells, block);
        abort(&mut self.tree, &self.cells, block, stamp);
        self.clock = stamp;
        end_word(&mut self.gaps, gap, begun);
        roll_row(&mut self.rows, strand, block, parent, attempt);
    }

    /// Finishes `strand`, as dead if `dead` is set.
    fn finish(&mut self, strand: u32, dead: bool) -> Result<Reply, OutOfMemory>
        requires { IsTrue (fits self.old (event.Finish strand dead)) }
        ensures ok { OnOk result (self.new ≡ after_event self.old (event.Finish strand dead)) }
        ensures reply { IfOk result (λ r. r ≡ reply_to self.old (event.Finish strand dead)) }
        ensures err { OnErr result (self.new ≡ self.old) }
    {
        self.finished.push((strand, dead))?;
        finish_row(&mut self.rows, strand, dead);
        Ok(Reply::Done)
    }

    /// Cuts the trace of `fork` at the fork, or replies which fork has to be split first.
    fn split(&mut self, fork: u32) -> Result<Reply, OutOfMemory>
        requires { IsTrue (fits self.old (event.Split fork)) }
        ensures ok { OnOk result (self.new ≡ after_event self.old (event.Split fork)) }
        ensures reply { IfOk result (λ r. r ≡ reply_to self.old (event.Split fork)) }
        ensures err { OnErr result (self.new ≡ self.old) }
    {
        let column = self.row(fork).made.column;
        self.splits.push(column)?;
        match self.tier.split(column) {
            Ok(()) => {
                split_row(&mut self.rows, fork);
                Ok(Reply::Done)
            }
            Err(Early { before }) => {
                let _ = self.splits.pop();
                let before = self.forks[before as usize / 2];
                Ok(Reply::Early { before })
            }
        }
    }

    /// Joins `fork`, whose strands have finished. The strand that forked goes on.
    fn join(&mut self, fork: u32) -> Result<Reply, OutOfMemory>
        requires { IsTrue (fits self.old (event.Join fork)) }
        ensures ok { OnOk result (self.new ≡ after_event self.old (event.Join fork)) }
        ensures reply { IfOk result (λ r. r ≡ reply_to self.old (event.Join fork)) }
        ensures err { OnErr result (self.new ≡ self.old) }
    {
        let row = self.row(fork);
        let left = self.row(row.made.left);
        let right = self.row(row.made.right);
        self.joined.push(fork)?;
        merge_where(&mut self.tier, row.now.split, row.made.column);
        let victim = least(left.now.victim, right.now.victim);
        join_rows(&mut self.rows, fork, row.made.strand, victim);
        Ok(Reply::Done)
    }

    /// Stops the core.
    fn stop(&mut self, halt: Halt)
        requires { IsTrue (fits self.old (event.Stop halt)) }
        ensures { self.new ≡ after_event self.old (event.Stop halt) }
    {
        self.halt = Some(halt);
    }

    /// Outputs `value` for `strand`.
    fn output(&mut self, strand: u32, value: i64) -> Result<Reply, OutOfMemory>
        requires { IsTrue (fits self.old (event.Out strand value)) }
        ensures ok { OnOk result (self.new ≡ after_event self.old (event.Out strand value)) }
        ensures reply { IfOk result (λ r. r ≡ reply_to self.old (event.Out strand value)) }
        ensures err { OnErr result (self.new ≡ self.old) }
    {
        let place = self.row(strand).now.place;
        self.rows.reserve(1)?;
        let stamp = self.clock + 1;
        self.tree.add(place, Kind::Out { value }, stamp)?;
        self.clock = stamp;
        put_leaf(&mut self.rows, strand, 0, place, PLAIN, place);
        Ok(Reply::Done)
    }

    /// Gives up the block at the place of `strand`. A new leaf tells what has to be put back, and so does the reply.
    fn cancel(&mut self, strand: u32) -> Result<Reply, OutOfMemory>
        requires { IsTrue (fits self.old (event.Cancel strand)) }
        ensures ok { OnOk result (self.new ≡ after_event self.old (event.Cancel strand)) }
        ensures reply { IfOk result (λ r. r ≡ reply_to self.old (event.Cancel strand)) }
        ensures err { OnErr result (self.new ≡ self.old) }
    {
        let block = self.row(strand).now.place;
        let alloc = *self.rows.allocator();
        let touched = cells_beneath(alloc, &self.tree, block)?;
        let back = backs(alloc, &self.cells, &touched)?;
        let answer = backs(alloc, &self.cells, &touched)?;
        self.rows.reserve(1)?;
        let stamp = self.clock + 1;
        self.tree.add(block, Kind::Cancel { back }, stamp)?;
        self.clock = stamp;
        put_leaf(&mut self.rows, strand, 0, block, PLAIN, block);
        Ok(Reply::Back(answer))
    }

    /// Makes an access that does not conflict.
    fn make_access(
        &mut self,
        strand: u32,
        cell: u32,
        write: Option<i64>,
    ) -> Result<Reply, OutOfMemory>
        requires fits { IsTrue (fits self.old (event.Access strand cell write)) }
        requires met { is_met self.old strand cell ≡ false }
        ensures ok { OnOk result (self.new ≡ after_event self.old (event.Access strand cell write)) }
        ensures reply { IfOk result (λ r. r ≡ reply_to self.old (event.Access strand cell write)) }
        ensures err { OnErr result (self.new ≡ self.old) }
    {
        let own = self.row(strand);
        let place = own.now.place;
        let value = self.cells[cell as usize].value();
        self.rows.reserve(1)?;
        reserve_entry(&mut self.cells, cell)?;
        let stamp = self.clock + 1;
        self.tree
            .add(place, access_kind(cell, write, value), stamp)?;
        self.clock = stamp;
        put_leaf(&mut self.rows, strand, 0, place, PLAIN, place);
        let value = put_entry(&mut self.cells, cell, own.made.column, stamp, write);
        Ok(Reply::Value(value))
    }

    /// Returns the newest access of `cell` and a pending block above it, if an access of the cell by `strand` conflicts with it.
    fn barrier<K: Ledger, L: Ledger>(
        &self,
        strand: u32,
        cell: u32,
        looks: &mut Steps<K>,
        compares: &mut Steps<L>,
    ) -> Option<Barrier>
        requires { IsTrue (fits self.now (event.Access strand cell None)) }
        ensures none { IsNone result → is_met self.now strand cell ≡ false }
        ensures some { IfSome result (λ barrier. IsBarrier self.now strand cell barrier) }
    {
        let asker = self.row(strand).made.column;
        let last = self.cells[cell as usize].last()?;
        match ask(&self.tier, &self.gaps, last, asker, looks, compares) {
            Verdict::Against(block) => Some(Barrier { last, block }),
            Verdict::Free | Verdict::Within => None,
        }
    }

    /// Returns what is refused with an access: its victim, or without one the access itself, which by now was tried `tried` times.
    fn refusal(&self, strand: u32, tried: u32, victim: Option<u32>) -> Refused
        requires { IfSome victim (λ block. IsTrue (is_pending self.now.machine.tree block)) }
        ensures victim { result.victim ≡ option_map_or (stamp_of self.now.machine.tree) victim 0 }
        ensures attempt { result.attempt ≡ option_map_or (block_attempt self.now.machine.tree) victim tried }
        ensures strand { result.strand ≡ option_map_or (strand_of self.now.machine.tree) victim strand }
    {
        match victim {
            None => Refused {
                victim: 0,
                attempt: tried,
                strand,
            },
            Some(block) => {
                let made = self.row(block).made;
                Refused {
                    victim: self.tree.node(block).stamp,
                    attempt: made.attempt,
                    strand: made.strand,
                }
            }
        }
    }

    /// Refuses an access that conflicts with the newest one of its cell, whatever it would write. Draws no stamp.
    fn refuse_access<K: Ledger, L: Ledger>(
        &mut self,
        strand: u32,
        cell: u32,
        barrier: Barrier,
        looks: &mut Steps<K>,
        compares: &mut Steps<L>,
    ) -> Result<Reply, OutOfMemory>
        requires fits { IsTrue (fits self.old (event.Access strand cell None)) }
        requires barrier { IsBarrier self.old strand cell barrier }
        ensures ok { OnOk result ((write : Option ℤ) → self.new ≡ after_event self.old (event.Access strand cell write)) }
        ensures reply { IfOk result (λ r. (write : Option ℤ) → r ≡ reply_to self.old (event.Access strand cell write)) }
        ensures err { OnErr result (self.new ≡ self.old) }
    {
        let place = self.row(strand).now.place;
        let tail = tried_tail(cell, self.row(place).tail);
        let victim = self.victim(place, barrier.last, looks, compares);
        let refused = self.refusal(strand, tail.tried, victim);
        let kept = self.cells[cell as usize].chain()?;
        let chain = self.cells[cell as usize].chain()?;
        self.conflicts.reserve(1)?;
        self.rows.reserve(1)?;
        let asker = self.tree.add(place, Kind::Tried { cell }, 0)?;
        self.conflicts
            .push_reserved(conflict_with(barrier, cell, asker, refused, kept));
        put_tried(&mut self.rows, strand, place, tail, victim);
        self.spent = or_later(refused.attempt == self.budget, refused.strand, self.spent);
        Ok(Reply::Conflict(conflict_with(barrier, cell, asker, refused, chain)))
    }

    /// Makes an access, or refuses it if it conflicts with the newest one of its cell. Counts looks and comparisons.
    fn try_access<K: Ledger, L: Ledger>(
        &mut self,
        blanks: (Blank, Blank),
        strand: u32,
        cell: u32,
        write: Option<i64>,
    ) -> Result<Reply, OutOfMemory>
        requires looks { (blanks.0.name ≡ K.name) × (blanks.0.parts ≡ K.parts) × (0 < K.parts) }
        requires compares { (blanks.1.name ≡ L.name) × (blanks.1.parts ≡ L.parts) × (0 < L.parts) }
        requires fits { IsTrue (fits self.old (event.Access strand cell write)) }
        ensures ok { OnOk result (self.new ≡ after_event self.old (event.Access strand cell write)) }
        ensures reply { IfOk result (λ r. r ≡ reply_to self.old (event.Access strand cell write)) }
        ensures err { OnErr result (self.new ≡ self.old) }
    {
        let mut looks = Steps::<K>::new(blanks.0);
        let mut compares = Steps::<L>::new(blanks.1);
        match self.barrier(strand, cell, &mut looks, &mut compares) {
            None => self.make_access(strand, cell, write),
            Some(barrier) => self.refuse_access(strand, cell, barrier, &mut looks, &mut compares),
        }
    }

    /// Makes an access, or refuses it if it conflicts with the newest one of its cell.
    fn access(&mut self, strand: u32, cell: u32, write: Option<i64>) -> Result<Reply, OutOfMemory>
        requires { IsTrue (fits self.old (event.Access strand cell write)) }
        ensures ok { OnOk result (self.new ≡ after_event self.old (event.Access strand cell write)) }
        ensures reply { IfOk result (λ r. r ≡ reply_to self.old (event.Access strand cell write)) }
        ensures err { OnErr result (self.new ≡ self.old) }
    {
        let blanks = (Blank::new(1), Blank::new(1));
        self.try_access::<Brand, Brand>(blanks, strand, cell, write)
    }

    /// Forks `strand`, which then waits for the join.
    fn fork(&mut self, strand: u32) -> Result<Reply, OutOfMemory>
        requires { IsTrue (fits self.old (event.Fork strand)) }
        ensures ok { OnOk result (self.new ≡ after_event self.old (event.Fork strand)) }
        ensures reply { IfOk result (λ r. r ≡ reply_to self.old (event.Fork strand)) }
        ensures err { OnErr result (self.new ≡ self.old) }
    {
        let own = self.row(strand);
        let place = own.now.place;
        let column = own.made.column;
        let gap = self.tier.gap(column);
        let word = self.gaps.words[gap as usize];
        self.rows.reserve(3)?;
        self.forks.reserve(1)?;
        let stamp = self.clock + 1;
        let fork = self.tree.fork(place, stamp)?;
        self.clock = stamp;
        let (left, right) = (fork + 1, fork + 2);
        match self.tier.fork(word, column) {
            Ok(columns) => {
                self.forks.push_reserved(fork);
                put_fork(&mut self.rows, strand, place, fork, columns, true);
                Ok(Reply::Forked { left, right, fork })
            }
            Err(Inline) => {
                let columns = (column, column);
                put_fork(&mut self.rows, strand, place, fork, columns, false);
                Ok(Reply::Inline { left, right })
            }
        }
    }
}

ghost use Rattle.std.specs.Prelude.{◌≡◌, ◌^◌, map, ℕ, ◌<◌, ◌≤◌, ◌+◌, ◌%◌, ◌++◌, ◌∷◌, [], true, false, Option, Some, None, length, IsErr, IfOk, IfErr, OnOk, OnErr, vec_len, vec_capacity, nat_eq, slice_get, slice_index};
ghost use Rattle.cw_trace.specs.Columns as columns;
ghost use Rattle.std.specs.List.{IsDistinct};
ghost use Rattle.cw_tree.specs.Walks.{has};
ghost use Rattle.cw_trace.specs.Labels.{AreLabels, full_row};
ghost use Rattle.cw_trace.specs.Touched.{TouchedAreListed};

mod reader;

use crate::brackets::Brackets;
use crate::touched::Touched;
use cw_base::{OutOfMemory, put};
use cw_order::Steps;
pub use reader::TierReader;
use std::alloc::Global;
use std::marker::Model;
use std::sync::ledger::Ledger;

/// The row of a trace: the gap at its head, its lead, and the nearest trace around it that has a pending block.
#[derive(Clone, Copy, Drop, Debug)]
pub struct Trace {
    pub head: u32,
    pub lead: Option<u32>,
    pub up: Option<u32>,
}

/// The row of a column: its trace and its gap, and of the trace that it names the head, the lead, the nearest trace around it that
/// has a pending block, and the labels of both brackets. If it names no trace, these are 0 and `None`.
#[derive(Clone, Copy, Drop, Debug)]
pub struct Row {
    pub owner: u32,
    pub gap: u32,
    pub head: u32,
    pub lead: Option<u32>,
    pub up: Option<u32>,
    pub opening: u64,
    pub closing: u64,
}

/// The fork gets no columns, because fewer than two are left.
#[derive(Clone, Copy, Debug)]
pub struct Inline;

/// The fork `before`, of the same trace, has to be split first.
#[derive(Clone, Copy, Debug)]
pub struct Early {
    pub before: u32,
}

/// The strands and traces of a fork-join program, by columns.
#[derive(Drop)]
pub struct Tier {
    room: u32,
    owners: Vec<u32>,
    gaps: Vec<u32>,
    parents: Vec<u32>,
    traces: Vec<Option<Trace>>,
    outers: Vec<Option<u32>>,
    brackets: Brackets,
    touched: Touched,
}

impl Model for Tier {
    ghost use Rattle.cw_trace.specs.Traces.{Traces};

    ghost Value = { Traces };

    ghost use Rattle.cw_trace.specs.Tier.{traces_of, IsTierInMemory};

    ghost view = { traces_of };

    ghost invariant = { IsTierInMemory };
}

/// Returns a list with room for `places` items that holds `first`.
fn begun<T: Copy>(alloc: Global, places: usize, first: T) -> Result<Vec<T>, OutOfMemory>
    requires { 0 < places }
    ensures items { IfOk result (λ list. list.items ≡ first ∷ []) }
    ensures capacity { IfOk result (λ list. places ≤ vec_capacity list) }
{
    let mut list = Vec::with_capacity(alloc, places)?;
    put(&mut list, first);
    Ok(list)
}

/// Appends `item` twice.
fn put_pair<T: Copy>(list: &mut Vec<T>, item: T)
    requires { vec_len list.old + 2 ≤ vec_capacity list.old }
    ensures items { list.new.items ≡ list.old.items ++ item ∷ item ∷ [] }
    ensures capacity { vec_capacity list.old ≤ vec_capacity list.new }
{
    put(list, item);
    put(list, item);
}

/// Returns the owner of column `i` after a split, if it was `owner` before.
fn part_of(i: usize, owner: u32, trace: u32, fork: u32) -> u32
    requires { fork + 1 < 2 ^ 32 }
    ensures { result ≡ columns.part_of trace fork i owner }
{
    if i == fork as usize + 1 {
        fork + 1
    } else if owner == trace && fork as usize <= i {
        fork
    } else {
        owner
    }
}

/// Moves the strands of `trace` from column `fork` on to the left trace, except the right strand, which gets a trace of its own.
/// Smaller columns never change.
#[tactic(auto, using(crate::proofs::Marks::Edits::parts_more, crate::proofs::Marks::Edits::parts_done))]
fn part(owners: &mut [u32], trace: u32, fork: u32)
    requires fork { fork + 1 < 2 ^ 32 }
    requires there { fork ≤ length owners.old }
    ensures { owners.new ≡ columns.parts trace fork 0 owners.old }
{
    for i in fork as usize..owners.len() {
        let owner = owners[i];
        owners[i] = part_of(i, owner, trace, fork);
    }
}

/// Returns the owner of a column after a merge, if it was `owner` before.
fn back_to(owner: u32, trace: u32, fork: u32) -> u32
    requires { fork + 1 < 2 ^ 32 }
    ensures { result ≡ columns.back_to trace fork owner }
{
    if owner == fork || owner == fork + 1 {
        trace
    } else {
        owner
    }
}

/// Moves the strands of both traces of a split fork back to `trace`. Smaller columns never change.
#[tactic(auto, using(crate::proofs::Marks::Edits::back_more))]
fn put_back(owners: &mut [u32], trace: u32, fork: u32)
    requires fork { fork + 1 < 2 ^ 32 }
    requires there { fork ≤ length owners.old }
    requires smaller { (i : ℕ) → i < fork → slice_index owners.old i < fork }
    ensures { owners.new ≡ map (columns.back_to trace fork) owners.old }
{
    for i in fork as usize..owners.len() {
        let owner = owners[i];
        owners[i] = back_to(owner, trace, fork);
    }
}

/// Returns what is left of a trace's lead if `gap` goes to a part that is cut off.
fn kept_lead(lead: Option<u32>, gap: u32) -> Option<u32>
    ensures { result ≡ columns.kept_lead lead gap }
{
    match lead {
        Some(kept) => { if kept == gap { None } else { Some(kept) } }
        None => None,
    }
}

/// Returns the `up` of a new trace: the trace that was cut if it has a lead, otherwise that trace's own `up`.
fn around_new(lead: Option<u32>, trace: u32, up: Option<u32>) -> Option<u32>
    ensures { result ≡ columns.or_else lead trace up }
{
    match lead {
        Some(_) => Some(trace),
        None => up,
    }
}

/// Returns the row of `trace`. A column that names no trace has a row of 0 and `None`.
fn row_of(traces: &[Option<Trace>], trace: u32) -> Trace
    requires { trace < length traces.now }
    ensures { result ≡ columns.row_in (slice_get traces.now trace) }
{
    match traces[trace as usize] {
        Some(row) => row,
        None => Trace {
            head: 0,
            lead: None,
            up: None,
        },
    }
}

impl Tier {
    ghost use Rattle.cw_trace.specs.Laws.{ForkKeeps, SplitKeeps, MergeKeeps};
    ghost use Rattle.cw_trace.specs.Outward.{NoneBars, NextBars};

    /// Returns a tier with room for the columns of `m` strands. Column 0 is the root's. No later call allocates.
    pub fn with_strands(alloc: Global, m: u32) -> Result<Tier, OutOfMemory>
        requires { 0 < m }
        ensures first { IfOk result (λ t. t.columns ≡ columns.first_tier m) }
        ensures labels { IfOk result (λ t. AreLabels t.columns t.labels) }
        // the brackets of more columns have no numbers of 32 bits
        ensures large { 2 ^ 31 ≤ m → IsErr result }
    {
        if m >= 1 << 31 {
            return Err(OutOfMemory);
        }
        let places = m as usize;
        let root = Trace {
            head: 0,
            lead: Some(0),
            up: None,
        };
        let owners = begun(alloc, places, 0)?;
        let gaps = begun(alloc, places, 0)?;
        let parents = begun(alloc, places, 0)?;
        let traces = begun(alloc, places, Some(root))?;
        let outers = begun(alloc, places, None)?;
        let mut brackets = Brackets::with_room(alloc, 2 * m)?;
        brackets.insert(None, 0);
        brackets.insert(Some(0), 1);
        let touched = Touched::with_room(alloc, m)?;
        Ok(Tier {
            room: m,
            owners,
            gaps,
            parents,
            traces,
            outers,
            brackets,
            touched,
        })
    }

    /// Returns how many columns are in use.
    pub fn used(&self) -> u32
        ensures { result ≡ columns.used self.now.columns }
    {
        self.owners.len() as u32
    }

    /// Returns the gap that a strand uses.
    pub fn gap(&self, strand: u32) -> u32
        requires { strand < columns.used self.now.columns }
        ensures { result ≡ columns.gap self.now.columns strand }
    {
        self.gaps[strand as usize]
    }

    /// Returns the row of `column`. Labels rise in the order of the brackets, and none is 0.
    pub fn row(&self, column: u32) -> Row
        requires { column < columns.used self.now.columns }
        ensures { result ≡ full_row self.now.columns self.now.labels column }
    {
        let trace = row_of(self.traces.as_slice(), column);
        let (opening, closing) = if self.is_trace(column) {
            (
                self.brackets.label(2 * column),
                self.brackets.label(2 * column + 1),
            )
        } else {
            (0, 0)
        };
        Row {
            owner: self.owners[column as usize],
            gap: self.gaps[column as usize],
            head: trace.head,
            lead: trace.lead,
            up: trace.up,
            opening,
            closing,
        }
    }

    /// Returns distinct columns in use: those that the last fork, split or merge took into use, each other one whose row it changed,
    /// and perhaps more.
    pub fn touched(&self) -> &[u32]
        ensures value { result.now ≡ self.now.touched }
        ensures distinct { IsDistinct nat_eq result.now }
        ensures low { (i : ℕ) → has result.now i ≡ true → i < columns.used self.now.columns }
    {
        self.touched.as_slice()
    }

    /// Returns whether `trace` lies inside `outer`.
    pub fn inside<L: Ledger>(&self, trace: u32, outer: u32, steps: &mut Steps<L>) -> bool
        requires inner { columns.is_trace self.now.columns trace ≡ true }
        requires outer { columns.is_trace self.now.columns outer ≡ true }
        ensures value { result ≡ columns.inside self.now.columns trace outer }
        ensures cost { steps.new ≡ steps.old + 2 }
    {
        let after = self.brackets.before(2 * outer, 2 * trace, steps);
        let within = self.brackets.before(2 * trace, 2 * outer + 1, steps);
        after && within
    }

    /// Returns whether a column names a trace: it is the root's, or its fork is split and not merged.
    pub fn is_trace(&self, strand: u32) -> bool
        requires { strand < columns.used self.now.columns }
        ensures { result ≡ columns.is_trace self.now.columns strand }
    {
        self.traces[strand as usize].is_some()
    }

    /// Returns the fork outward of a fork that the strand of column `parent` makes.
    fn outer_at(&self, parent: u32) -> Option<u32>
        requires { parent < columns.used self.now.columns }
        ensures { result ≡ columns.outer_at self.now.columns parent }
    {
        if parent == 0 || self.is_trace(parent) {
            None
        } else if parent % 2 == 1 {
            Some(parent)
        } else {
            self.outers[parent as usize - 1]
        }
    }

    /// Returns the fork that has to be split before `fork`, if there is one.
    fn before_split(&self, fork: u32) -> Option<u32>
        requires { fork < columns.used self.now.columns }
        ensures { result ≡ columns.before_split self.now.columns fork }
    {
        match self.outers[fork as usize] {
            Some(outer) => {
                if self.is_trace(outer) {
                    None
                } else {
                    Some(outer)
                }
            }
            None => None,
        }
    }

    /// Gives columns to the left and right strands of a fork that the strand of column `parent` makes, and returns them. `word` is
    /// the word of that strand's gap. A tier that represented a tree now represents the tree with the fork, whether it is inline or
    /// not.
    pub fn fork(&mut self, word: u64, parent: u32) -> Result<(u32, u32), Inline>
        requires { parent < columns.used self.old.columns }
        ensures strands { IfOk result
            (λ r. (r.0 ≡ columns.used self.old.columns) × (r.1 ≡ columns.used self.old.columns + 1)) }
        ensures room { OnOk result (columns.used self.old.columns + 2 ≤ self.old.columns.room) }
        ensures forked { OnOk result
            (self.new.columns ≡ columns.forked word parent self.old.columns) }
        ensures inline { OnErr result (self.old.columns.room < columns.used self.old.columns + 2) }
        ensures err { OnErr result (self.new ≡ self.old) }
        ensures labels { AreLabels self.new.columns self.new.labels }
        ensures touched { OnOk result (TouchedAreListed self.old self.new) }
        ensures keeps { ForkKeeps word parent self.old.columns self.new.columns }
    {
        self.fork_columns(word, parent)
    }

    /// Cuts the trace of `fork` at the fork, or names the fork that has to be split first.
    pub fn split(&mut self, fork: u32) -> Result<(), Early>
        requires low { fork < columns.used self.old.columns }
        requires left { fork % 2 ≡ 1 }
        requires whole { columns.is_trace self.old.columns fork ≡ false }
        ensures now { OnOk result (columns.before_split self.old.columns fork ≡ None) }
        ensures split { OnOk result (self.new.columns ≡ columns.split_at fork self.old.columns) }
        ensures early { IfErr result
            (λ e. columns.before_split self.old.columns fork ≡ Some e.before) }
        ensures err { OnErr result (self.new ≡ self.old) }
        ensures labels { AreLabels self.new.columns self.new.labels }
        ensures touched { OnOk result (TouchedAreListed self.old self.new) }
        ensures keeps { OnOk result (SplitKeeps fork self.old.columns self.new.columns) }
        ensures allowed { OnOk result (NoneBars fork self.old.columns) }
        ensures barred { IfErr result (λ e. NextBars fork e.before self.old.columns) }
    {
        self.split_columns(fork)
    }

    /// Puts both traces of a split fork back into the trace that they were cut from.
    pub fn merge(&mut self, fork: u32)
        requires low { fork < columns.used self.old.columns }
        requires left { fork % 2 ≡ 1 }
        requires split { columns.is_trace self.old.columns fork ≡ true }
        ensures merged { self.new.columns ≡ columns.merged fork self.old.columns }
        ensures labels { AreLabels self.new.columns self.new.labels }
        ensures touched { TouchedAreListed self.old self.new }
        ensures keeps { MergeKeeps fork self.old.columns self.new.columns }
    {
        self.merge_columns(fork);
    }

    /// Adds two columns, if there are two. `fork` adds the clause on trees.
    fn fork_columns(&mut self, word: u64, parent: u32) -> Result<(u32, u32), Inline>
        requires { parent < columns.used self.old.columns }
        ensures strands { IfOk result
            (λ r. (r.0 ≡ columns.used self.old.columns) × (r.1 ≡ columns.used self.old.columns + 1)) }
        ensures room { OnOk result (columns.used self.old.columns + 2 ≤ self.old.columns.room) }
        ensures forked { OnOk result
            (self.new.columns ≡ columns.forked word parent self.old.columns) }
        ensures inline { OnErr result (self.old.columns.room < columns.used self.old.columns + 2) }
        ensures err { OnErr result (self.new ≡ self.old) }
        ensures labels { AreLabels self.new.columns self.new.labels }
        ensures touched { OnOk result (TouchedAreListed self.old self.new) }
    {
        let used = self.owners.len();
        if (self.room as usize) < used + 2 {
            return Err(Inline);
        }
        let left = used as u32;
        let owner = self.owners[parent as usize];
        let gap = if word == 0 {
            self.gaps[parent as usize]
        } else {
            left
        };
        let outer = self.outer_at(parent);
        put_pair(&mut self.owners, owner);
        put_pair(&mut self.gaps, gap);
        put_pair(&mut self.parents, parent);
        put_pair(&mut self.traces, None);
        put_pair(&mut self.outers, outer);
        self.touched.list_pair();
        Ok((left, left + 1))
    }

    /// Changes columns and brackets for a split. `split` adds the clauses on trees.
    fn split_columns(&mut self, fork: u32) -> Result<(), Early>
        requires low { fork < columns.used self.old.columns }
        requires left { fork % 2 ≡ 1 }
        requires whole { columns.is_trace self.old.columns fork ≡ false }
        ensures now { OnOk result (columns.before_split self.old.columns fork ≡ None) }
        ensures split { OnOk result (self.new.columns ≡ columns.split_at fork self.old.columns) }
        ensures early { IfErr result
            (λ e. columns.before_split self.old.columns fork ≡ Some e.before) }
        ensures err { OnErr result (self.new ≡ self.old) }
        ensures labels { AreLabels self.new.columns self.new.labels }
        ensures touched { OnOk result (TouchedAreListed self.old self.new) }
    {
        if let Some(before) = self.before_split(fork) {
            return Err(Early { before });
        }
        let trace = self.owners[fork as usize];
        let gap = self.gaps[fork as usize];
        let row = row_of(self.traces.as_slice(), trace);
        let lead = kept_lead(row.lead, gap);
        let above = around_new(lead, trace, row.up);
        self.touched
            .list_change(self.owners.as_slice(), trace, fork, trace, trace);
        part(self.owners.as_mut_slice(), trace, fork);
        self.gaps[fork as usize + 1] = fork + 1;
        self.traces[trace as usize] = Some(Trace {
            head: row.head,
            lead,
            up: row.up,
        });
        self.traces[fork as usize] = Some(Trace {
            head: gap,
            lead: Some(gap),
            up: above,
        });
        self.traces[fork as usize + 1] = Some(Trace {
            head: fork + 1,
            lead: Some(fork + 1),
            up: above,
        });
        self.brackets.open_both(trace, fork, &mut self.touched);
        Ok(())
    }

    /// Changes columns and brackets for a merge. `merge` adds the clause on trees.
    fn merge_columns(&mut self, fork: u32)
        requires low { fork < columns.used self.old.columns }
        requires left { fork % 2 ≡ 1 }
        requires split { columns.is_trace self.old.columns fork ≡ true }
        ensures merged { self.new.columns ≡ columns.merged fork self.old.columns }
        ensures labels { AreLabels self.new.columns self.new.labels }
        ensures touched { TouchedAreListed self.old self.new }
    {
        let trace = self.owners[self.parents[fork as usize] as usize];
        let row = row_of(self.traces.as_slice(), trace);
        self.touched
            .list_change(self.owners.as_slice(), trace, fork, fork, fork + 1);
        put_back(self.owners.as_mut_slice(), trace, fork);
        self.traces[trace as usize] = Some(Trace {
            head: row.head,
            lead: Some(row.head),
            up: row.up,
        });
        self.traces[fork as usize] = None;
        self.traces[fork as usize + 1] = None;
        self.brackets.close_both(fork);
    }
}

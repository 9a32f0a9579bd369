ghost use Rattle.std.specs.Prelude.{◌≡◌, ◌↔◌, IsTrue, IsNone, ◌+◌, ◌<◌, ◌≤◌, List, ◌++◌, ◌∷◌, [], length, map, filter, take, drop, nat_lt, slice_index, unwrap_or, Contains, IfOk, IsOk, OnOk, IfSome};
ghost use Rattle.std.specs.Option.{option_map};
ghost use Rattle.std.specs.List.Sorted.{IsStrictlyIncreasing};
ghost use Rattle.cw_tree.specs.declared.access.Entry.{Entry};
ghost use Rattle.cw_tree.specs.Accesses.{cell_value};
ghost use Rattle.cw_tree.specs.AccessStacks.{written_by, stamps};
ghost use Rattle.cw_tree.specs.Newest.{last_eight};
ghost use Rattle.cw_stack.specs.Cells.{entries_value, newest_entry, entry_of, AreSteps, GoesWithTrees, StaysWithTrees, TakesWhatIsBeneath, TellsWhatWasBefore};

use cw_base::{OutOfMemory, Seq};
use cw_tree::{Entry, Mark};
use std::alloc::Global;
use std::marker::Model;

/// A cell: its value, and the entries of its live accesses, oldest first. The oldest `cleaned` entries are never undone.
#[derive(Drop)]
pub struct Cell {
    value: i64,
    entries: Vec<Entry>,
    cleaned: usize,
}

impl Model for Cell {
    ghost use Rattle.std.specs.Prelude.{◌-◌, vec_len, vec_capacity};
    ghost use Rattle.cw_stack.specs.Cells.{CellParts, first_value, IsCellInMemory};

    ghost Value = { CellParts };

    ghost view = { λ c. record { first = first_value c.value c.entries.items; entries = c.entries.items; cleaned = c.cleaned; room = vec_capacity c.entries - vec_len c.entries } };

    ghost invariant = { λ c. IsCellInMemory c.value c.entries.items c.cleaned };
}

impl Cell {
    /// Returns a cell with the first value `init` and no accesses.
    pub fn new(alloc: Global, init: i64) -> Cell
        ensures first { result.first ≡ init }
        ensures entries { result.entries ≡ [] }
        ensures cleaned { result.cleaned ≡ 0 }
        ensures room { result.room ≡ 0 }
    {
        Cell {
            value: init,
            entries: Vec::new(alloc),
            cleaned: 0,
        }
    }

    /// Makes room for one more entry.
    pub fn reserve(&mut self) -> Result<(), OutOfMemory>
        ensures room { OnOk result (0 < self.new.room) }
        ensures there { 0 < self.old.room → IsOk result }
        ensures kept { self.old.room ≤ self.new.room }
        ensures first { self.new.first ≡ self.old.first }
        ensures entries { self.new.entries ≡ self.old.entries }
        ensures cleaned { self.new.cleaned ≡ self.old.cleaned }
    {
        self.entries.reserve(1)?;
        Ok(())
    }

    /// Makes an access that reads, or writes the value in `write`. Returns the cell's value after it. Does not allocate.
    pub fn access(&mut self, mark: Mark, write: Option<i64>) -> i64
        requires room { 0 < self.old.room }
        requires later { IfSome (newest_entry self.old.entries) (λ e. e.mark.stamp < mark.stamp) }
        ensures answer { result ≡ unwrap_or write (entries_value self.old) }
        ensures entries { self.new.entries ≡ self.old.entries ++ entry_of mark write (entries_value self.old) ∷ [] }
        ensures value { entries_value self.new ≡ result }
        ensures first { self.new.first ≡ self.old.first }
        ensures cleaned { self.new.cleaned ≡ self.old.cleaned }
        ensures room { self.new.room + 1 ≡ self.old.room }
        ensures in_a_tree { GoesWithTrees self.old self.new mark.stamp write result }
    {
        let old = self.value;
        let value = write.unwrap_or(old);
        self.entries.push_reserved(Entry {
            mark,
            wrote: write.is_some(),
            value,
            old,
        });
        self.value = value;
        value
    }

    /// Forgets the undo part of all entries: from now on none of them is rolled back. Each keeps the value before it.
    pub fn clean(&mut self)
        ensures cleaned { self.new.cleaned ≡ length self.old.entries }
        ensures first { self.new.first ≡ self.old.first }
        ensures entries { self.new.entries ≡ self.old.entries }
        ensures room { self.new.room ≡ self.old.room }
    {
        self.cleaned = self.entries.len();
    }

    /// Removes the entries from the one with stamp `first` on, and restores the value from before them. Does not allocate.
    pub fn roll(&mut self, first: u64)
        requires { Contains (stamps (drop self.old.cleaned self.old.entries)) first }
        ensures entries { self.new.entries ≡ filter (λ e. nat_lt e.mark.stamp first) self.old.entries }
        ensures value { (es : List Entry) (e : Entry) (fs : List Entry) → self.old.entries ≡ es ++ e ∷ fs → e.mark.stamp ≡ first → entries_value self.new ≡ e.old }
        ensures first { self.new.first ≡ self.old.first }
        ensures cleaned { self.new.cleaned ≡ self.old.cleaned }
        ensures room { self.new.room + length self.new.entries ≡ self.old.room + length self.old.entries }
        ensures in_a_tree { StaysWithTrees self.old self.new }
        ensures beneath { TakesWhatIsBeneath self.old self.new first }
    {
        let left = place_of(self.entries.as_slice(), first);
        self.value = self.entries[left].old;
        self.entries.truncate(left);
    }

    /// Returns the value from before the entry with stamp `first`, which a roll of that entry would restore. Does not allocate.
    pub fn before(&self, first: u64) -> i64
        requires { Contains (stamps (drop self.now.cleaned self.now.entries)) first }
        ensures entry { (es : List Entry) (e : Entry) (fs : List Entry) → self.now.entries ≡ es ++ e ∷ fs → e.mark.stamp ≡ first → result ≡ e.old }
        ensures value { result ≡ cell_value self.now.first (map written_by (filter (λ e. nat_lt e.mark.stamp first) self.now.entries)) }
        ensures beneath { TellsWhatWasBefore self.now first result }
    {
        self.entries[place_of(self.entries.as_slice(), first)].old
    }

    /// Returns whether there is an entry with stamp `first` that may be rolled back.
    pub fn may_roll(&self, first: u64) -> bool
        ensures { IsTrue result ↔ Contains (stamps (drop self.now.cleaned self.now.entries)) first }
    {
        has_stamp(&self.entries[self.cleaned..], first)
    }

    /// Returns the value.
    pub fn value(&self) -> i64
        ensures { result ≡ entries_value self.now }
    {
        self.value
    }

    /// Returns the mark of the newest entry.
    pub fn last(&self) -> Option<Mark>
        ensures none { IsNone result ↔ (self.now.entries ≡ []) }
        ensures newest { result ≡ option_map (λ e. e.mark) (newest_entry self.now.entries) }
    {
        self.entries.last().map(|entry| entry.mark)
    }

    /// Returns the entries, oldest first. Their stamps rise. Each has the value that those before it left, and the value that it
    /// leaves.
    pub fn journal(&self) -> &[Entry]
        ensures entries { result.now ≡ self.now.entries }
        ensures rising { IsStrictlyIncreasing (stamps self.now.entries) }
        ensures steps { AreSteps self.now.first self.now.entries }
        ensures cleaned { self.now.cleaned ≤ length self.now.entries }
    {
        self.entries.as_slice()
    }

    /// Moves the entries out, oldest first. Their stamps rise. Each has the value that those before it left, and the value that it
    /// leaves. Does not allocate.
    pub fn into_journal(self) -> Seq<Entry>
        ensures entries { result ≡ self.entries }
        ensures rising { IsStrictlyIncreasing (stamps self.entries) }
        ensures steps { AreSteps self.first self.entries }
    {
        Seq::from_vec(self.entries)
    }

    /// Returns the stamps of the newest eight entries, or of all if there are fewer, oldest first.
    pub fn chain(&self) -> Result<Vec<u64>, OutOfMemory>
        ensures { IfOk result (λ chain. chain.items ≡ last_eight (stamps self.now.entries)) }
    {
        let mut chain = Vec::new(*self.entries.allocator());
        let skipped = self.entries.len().saturating_sub(8);
        for entry in &self.entries[skipped..] {
            chain.push(entry.mark.stamp)?;
        }
        Ok(chain)
    }
}

// Returns whether an entry has stamp `first`, by a binary search.
fn has_stamp(entries: &[Entry], first: u64) -> bool
    requires { IsStrictlyIncreasing (stamps entries.now) }
    ensures { IsTrue result ↔ Contains (stamps entries.now) first }
{
    entries
        .binary_search_by_key(&first, |entry| entry.mark.stamp)
        .is_ok()
}

// Returns the position of the entry with stamp `first`. Searches from the newest on.
fn place_of(entries: &[Entry], first: u64) -> usize
    requires there { Contains (stamps entries.now) first }
    requires rising { IsStrictlyIncreasing (stamps entries.now) }
    ensures within { result < length entries.now }
    ensures stamp { slice_index (stamps entries.now) result ≡ first }
    ensures entries { filter (λ e. nat_lt e.mark.stamp first) entries.now ≡ take result entries.now }
{
    let mut place = entries.len() - 1;
    while entries[place].mark.stamp > first {
        place -= 1;
    }
    place
}

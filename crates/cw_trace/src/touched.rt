ghost use Rattle.std.specs.Prelude.{◌≡◌, ◌+◌, ◌<◌, ◌≤◌, ◌^◌, ◌⊎◌, ◌/◌, ℕ, [], true, IfOk, length, nat_eq, slice_index};
ghost use Rattle.std.specs.List.{IsDistinct};
ghost use Rattle.cw_tree.specs.Walks.{has};
ghost use Rattle.cw_trace.specs.Listing.{Grows};

use cw_base::{OutOfMemory, put};
use std::alloc::Global;
use std::marker::Model;

/// A list of distinct columns in use. `places` has for each column in use where it stands in the list, if it is there.
#[derive(Drop)]
pub(crate) struct Touched {
    room: u32,
    columns: Vec<u32>,
    places: Vec<u32>,
}

impl Model for Touched {
    ghost use Rattle.cw_trace.specs.Listing.{Listing};

    ghost Value = { Listing };

    ghost use Rattle.cw_trace.specs.Listed.{listing_of, IsListingInMemory};

    ghost view = { listing_of };

    ghost invariant = { IsListingInMemory };
}

/// Lists `column`, if its owner is `a` or `b`.
fn add_owned(touched: &mut Touched, column: u32, owner: u32, a: u32, b: u32)
    ensures grows { Grows touched.old touched.new }
    ensures there { (owner ≡ a) ⊎ (owner ≡ b) → column < touched.old.used → has touched.new.columns column ≡ true }
{
    if owner == a || owner == b {
        touched.add(column);
    }
}

/// Lists the columns from `from` on whose owner is `a` or `b`.
fn list_owned(touched: &mut Touched, owners: &[u32], from: u32, a: u32, b: u32)
    requires there { from ≤ length owners.now }
    requires used { touched.old.used ≡ length owners.now }
    requires few { length owners.now < 2 ^ 32 }
    ensures grows { Grows touched.old touched.new }
    ensures there { (i : ℕ) → from ≤ i → i < length owners.now
        → (slice_index owners.now i ≡ a) ⊎ (slice_index owners.now i ≡ b) → has touched.new.columns i ≡ true }
{
    for i in from as usize..owners.len() {
        add_owned(touched, i as u32, owners[i], a, b);
    }
}

/// Lists the columns of the marks that these places of the table have. A place that it does not have counts as mark 0.
pub(crate) fn list_marks(touched: &mut Touched, marks: &[u32], places: &[u32])
    ensures grows { Grows touched.old touched.new }
    ensures there { (k : ℕ) → k < length places.now
        → slice_index marks.now (slice_index places.now k) / 2 < touched.old.used
        → has touched.new.columns (slice_index marks.now (slice_index places.now k) / 2) ≡ true }
{
    for i in 0..places.len() {
        let mark = mark_at(marks, places[i]);
        touched.add(mark / 2);
    }
}

fn mark_at(marks: &[u32], place: u32) -> u32
    ensures { result ≡ slice_index marks.now place }
{
    match marks.get(place as usize) {
        Some(mark) => *mark,
        None => 0,
    }
}

impl Touched {
    /// Returns an empty list. One column is in use, and there is room for `room`. No later call allocates.
    pub(crate) fn with_room(alloc: Global, room: u32) -> Result<Touched, OutOfMemory>
        requires { 0 < room }
        ensures none { IfOk result (λ t. t.columns ≡ []) }
        ensures used { IfOk result (λ t. t.used ≡ 1) }
        ensures room { IfOk result (λ t. t.room ≡ room) }
    {
        let columns = Vec::with_capacity(alloc, room as usize)?;
        let mut places = Vec::with_capacity(alloc, room as usize)?;
        put(&mut places, 0);
        Ok(Touched {
            room,
            columns,
            places,
        })
    }

    /// Returns the columns of the list.
    pub(crate) fn as_slice(&self) -> &[u32]
        ensures value { result.now ≡ self.now.columns }
        ensures distinct { IsDistinct nat_eq result.now }
        ensures low { (i : ℕ) → has result.now i ≡ true → i < self.now.used }
    {
        self.columns.as_slice()
    }

    /// Returns whether `column` is in the list.
    fn is_listed(&self, column: u32) -> bool
        requires { column < self.now.used }
        ensures { result ≡ has self.now.columns column }
    {
        let place = self.places[column as usize] as usize;
        if place < self.columns.len() {
            self.columns[place] == column
        } else {
            false
        }
    }

    /// Lists `column`, if it is in use.
    fn add(&mut self, column: u32)
        ensures grows { Grows self.old self.new }
        ensures there { column < self.old.used → has self.new.columns column ≡ true }
    {
        if (column as usize) < self.places.len() && !self.is_listed(column) {
            self.places[column as usize] = self.columns.len() as u32;
            put(&mut self.columns, column);
        }
    }

    /// Takes two more columns into use, and lists them alone.
    pub(crate) fn list_pair(&mut self)
        requires few { self.old.used + 2 ≤ self.old.room }
        ensures used { self.new.used ≡ self.old.used + 2 }
        ensures room { self.new.room ≡ self.old.room }
        ensures left { has self.new.columns self.old.used ≡ true }
        ensures right { has self.new.columns (self.old.used + 1) ≡ true }
    {
        let left = self.places.len() as u32;
        self.columns.clear();
        put(&mut self.places, 0);
        put(&mut self.places, 0);
        self.add(left);
        self.add(left + 1);
    }

    /// Lists `trace`, both strands of `fork`, and the columns from `fork` on whose owner is `a` or `b`, and nothing else.
    pub(crate) fn list_change(&mut self, owners: &[u32], trace: u32, fork: u32, a: u32, b: u32)
        requires used { self.old.used ≡ length owners.now }
        requires fork { fork + 1 < self.old.used }
        requires trace { trace < self.old.used }
        ensures used { self.new.used ≡ self.old.used }
        ensures room { self.new.room ≡ self.old.room }
        ensures trace { has self.new.columns trace ≡ true }
        ensures left { has self.new.columns fork ≡ true }
        ensures right { has self.new.columns (fork + 1) ≡ true }
        ensures owned { (i : ℕ) → fork ≤ i → i < length owners.now
            → (slice_index owners.now i ≡ a) ⊎ (slice_index owners.now i ≡ b) → has self.new.columns i ≡ true }
    {
        self.columns.clear();
        self.add(trace);
        self.add(fork);
        self.add(fork + 1);
        list_owned(self, owners, fork, a, b);
    }
}

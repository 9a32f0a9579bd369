ghost use Rattle.std.specs.Prelude.{◌≡◌, ℕ, ◌+◌, ◌<◌, ◌≤◌, ◌==◌, ◌||◌, ◌⊎◌, ◌^◌, ◌/◌, [], true, false, IfOk, length, filter, not, slice_index, vec_len, vec_capacity};
ghost use Rattle.std.specs.Option.{ForSome};
ghost use Rattle.cw_tree.specs.Walks.{has};
ghost use Rattle.cw_trace.specs.Columns.{stands_before, opening_mark, closing_mark, marks, place_after, is_mark_of};
ghost use Rattle.cw_trace.specs.Labels.{AreInOrder};
ghost use Rattle.cw_trace.specs.Listing.{Grows, KeepsLabels};
ghost use Rattle.cw_trace.specs.Marks.{with_mark};

use crate::touched::{Touched, list_marks};
use cw_base::{OutOfMemory, put};
use cw_order::{OrderList, Steps};
use std::alloc::Global;
use std::marker::Model;
use std::sync::ledger::Ledger;

/// Appends zeros to `list` until it has position `place`. The list has capacity for them.
fn reach(list: &mut Vec<u32>, place: u32)
    requires { place < vec_capacity list.old }
    ensures there { place < vec_len list.new }
    ensures same { (k : ℕ) → slice_index list.new.items k ≡ slice_index list.old.items k }
    ensures longer { vec_len list.old ≤ vec_len list.new }
    ensures few { (vec_len list.new ≡ vec_len list.old) ⊎ (vec_len list.new ≤ place + 1) }
    ensures capacity { vec_capacity list.old ≤ vec_capacity list.new }
{
    while list.len() <= place as usize {
        put(list, 0);
    }
}

/// Marks in an order list. Only entries of the two tables that were once in use are touched.
#[derive(Drop)]
pub(crate) struct Brackets {
    order: OrderList,
    elements: Vec<u32>,
    marks: Vec<u32>,
}

impl Model for Brackets {
    ghost use Rattle.cw_trace.specs.Marks.{Marks};

    ghost Value = { Marks };

    ghost use Rattle.cw_trace.specs.Brackets.{marks_of, AreBracketsInMemory};

    ghost view = { marks_of };

    ghost invariant = { AreBracketsInMemory };
}

impl Brackets {
    /// Returns an empty list of brackets, with room for the marks below `room`. No later call allocates.
    pub(crate) fn with_room(alloc: Global, room: u32) -> Result<Brackets, OutOfMemory>
        ensures none { IfOk result (λ b. b.marks ≡ []) }
        ensures room { IfOk result (λ b. b.room ≡ room) }
        ensures labels { IfOk result (λ b. AreInOrder b.marks b.labels) }
    {
        Ok(Brackets {
            order: OrderList::with_room(alloc, room)?,
            elements: Vec::with_capacity(alloc, room as usize)?,
            marks: Vec::with_capacity(alloc, room as usize + 1)?,
        })
    }

    /// Inserts `mark`, a new mark, right after `at`, or first if `at` is `None`.
    pub(crate) fn insert(&mut self, at: Option<u32>, mark: u32)
        requires at { ForSome at (λ a. has self.old.marks a ≡ true) }
        requires new { has self.old.marks mark ≡ false }
        requires low { mark < self.old.room }
        requires few { length self.old.marks < self.old.room }
        ensures marks { self.new.marks ≡ with_mark at mark self.old.marks }
        ensures room { self.new.room ≡ self.old.room }
        ensures labels { AreInOrder self.new.marks self.new.labels }
        ensures kept { (m : ℕ) → has self.old.marks m ≡ true
            → (has self.new.renumbered m ≡ true) ⊎ (slice_index self.new.labels m ≡ slice_index self.old.labels m) }
    {
        let place = match at {
            Some(other) => Some(self.elements[other as usize]),
            None => None,
        };
        if let Ok(element) = self.order.insert_after(place) {
            reach(&mut self.elements, mark);
            reach(&mut self.marks, element);
            self.elements[mark as usize] = element;
            self.marks[element as usize] = mark;
        } else {
            unreachable!()
        }
    }

    /// Removes `mark`.
    pub(crate) fn remove(&mut self, mark: u32)
        requires { has self.old.marks mark ≡ true }
        ensures marks { self.new.marks ≡ filter (λ m. not (m == mark)) self.old.marks }
        ensures room { self.new.room ≡ self.old.room }
        ensures labels { AreInOrder self.new.marks self.new.labels }
        ensures same { self.new.labels ≡ self.old.labels }
    {
        self.order.remove(self.elements[mark as usize]);
    }

    /// Returns whether the mark `a` comes before `b`.
    pub(crate) fn before<L: Ledger>(&self, a: u32, b: u32, steps: &mut Steps<L>) -> bool
        requires first { has self.now.marks a ≡ true }
        requires second { has self.now.marks b ≡ true }
        ensures order { result ≡ stands_before self.now.marks a b }
        ensures cost { steps.new ≡ steps.old + 1 }
    {
        self.order.before(self.elements[a as usize], self.elements[b as usize], steps)
    }

    /// Returns the label of `mark`.
    pub(crate) fn label(&self, mark: u32) -> u64
        requires { has self.now.marks mark ≡ true }
        ensures { result ≡ slice_index self.now.labels mark }
    {
        self.order.label(self.elements[mark as usize])
    }

    /// Lists the columns whose marks the last insertion gave new labels.
    fn list_renumbered(&self, touched: &mut Touched)
        ensures grows { Grows touched.old touched.new }
        ensures there { (m : ℕ) → has self.now.renumbered m ≡ true → m / 2 < touched.old.used
            → has touched.new.columns (m / 2) ≡ true }
    {
        list_marks(touched, self.marks.as_slice(), self.order.renumbered());
    }

    /// Inserts the brackets of both traces of a split fork right after the opening mark of `trace`: first those of the left trace,
    /// then those of the right one. Lists the columns whose labels change.
    pub(crate) fn open_both(&mut self, trace: u32, fork: u32, touched: &mut Touched)
        requires around { has self.old.marks (opening_mark trace) ≡ true }
        requires new_left { (has self.old.marks (opening_mark fork) ≡ false)
            × (has self.old.marks (closing_mark fork) ≡ false) }
        requires new_right { (has self.old.marks (opening_mark (fork + 1)) ≡ false)
            × (has self.old.marks (closing_mark (fork + 1)) ≡ false) }
        requires low { closing_mark (fork + 1) < self.old.room }
        requires small { self.old.room < 2 ^ 32 }
        requires few { length self.old.marks + 4 ≤ self.old.room }
        requires trace { opening_mark trace < 2 ^ 32 }
        ensures marks { self.new.marks ≡ place_after (opening_mark trace) (marks fork) self.old.marks }
        ensures room { self.new.room ≡ self.old.room }
        ensures labels { AreInOrder self.new.marks self.new.labels }
        ensures grows { Grows touched.old touched.new }
        ensures kept { KeepsLabels self.old.marks touched.new self.old.labels self.new.labels }
    {
        let left = 2 * fork;
        self.insert(Some(2 * trace), left);
        self.list_renumbered(touched);
        self.insert(Some(left), left + 1);
        self.list_renumbered(touched);
        self.insert(Some(left + 1), left + 2);
        self.list_renumbered(touched);
        self.insert(Some(left + 2), left + 3);
        self.list_renumbered(touched);
    }

    /// Removes the brackets of both traces of a split fork.
    pub(crate) fn close_both(&mut self, fork: u32)
        requires left { (has self.old.marks (opening_mark fork) ≡ true)
            × (has self.old.marks (closing_mark fork) ≡ true) }
        requires right { (has self.old.marks (opening_mark (fork + 1)) ≡ true)
            × (has self.old.marks (closing_mark (fork + 1)) ≡ true) }
        requires low { closing_mark (fork + 1) < 2 ^ 32 }
        ensures marks { self.new.marks
            ≡ filter (λ b. not (is_mark_of fork b || is_mark_of (fork + 1) b)) self.old.marks }
        ensures room { self.new.room ≡ self.old.room }
        ensures labels { AreInOrder self.new.marks self.new.labels }
        ensures same { self.new.labels ≡ self.old.labels }
    {
        let left = 2 * fork;
        self.remove(left);
        self.remove(left + 1);
        self.remove(left + 2);
        self.remove(left + 3);
    }
}

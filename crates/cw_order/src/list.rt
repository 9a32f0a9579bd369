ghost use Rattle.std.specs.Prelude.{◌≡◌, ◌+◌, ◌<◌, ◌≤◌, ◌↔◌, ◌⊎◌, ℕ, [], IsTrue, IsErr, IfOk, OnOk, OnErr, Contains, length, nat_eq, slice_index};
ghost use Rattle.std.specs.List.{IsDistinct};
ghost use Rattle.std.specs.Option.{ForSome};
ghost use Rattle.cw_order.specs.Order.{placed_after, without, position, LabelsRise, LeavesLabels};
ghost use Rattle.cw_order.specs.OrderList.{ArePlaces};
ghost use Rattle.cw_order.specs.Ring.{elements_of, label_of};

use crate::Steps;
use crate::ring::{HEAD, Ring};
use cw_base::OutOfMemory;
use std::alloc::Global;
use std::marker::Model;
use std::sync::ledger::Ledger;

/// The list is full: it holds as many elements as it has room for.
#[derive(Clone, Copy, PartialEq, Eq, Debug)]
pub struct Full;

/// A list of distinct elements in which `before` takes one step. Places that were made and are not in use are linked from `free`
/// on.
#[derive(Drop)]
pub struct OrderList {
    ring: Ring,
    made: u32,
    count: u32,
    free: u32,
}

/// A place for the next element, and the number of places that have been made.
#[derive(Clone, Copy)]
struct Free {
    made: u32,
    place: u32,
}

/// Returns the first place that is not in use. If all are in use, makes another one.
fn free_place(ring: &mut Ring, made: u32, count: u32, free: u32) -> Free
    requires kept { ArePlaces ring.old made count free }
    requires few { count < ring.old.room }
    ensures kept { ArePlaces ring.new result.made count result.place }
    ensures some { count < result.made }
    ensures elements { elements_of ring.new count ≡ elements_of ring.old count }
    ensures room { ring.new.room ≡ ring.old.room }
    ensures labels { (x : ℕ) → label_of ring.new x ≡ label_of ring.old x }
{
    if count < made {
        return Free { made, place: free };
    }
    let place = ring.grow();
    Free { made: place, place }
}

impl Model for OrderList {
    ghost use Rattle.cw_order.specs.Order.{Order};

    ghost Value = { Order };

    ghost use Rattle.cw_order.specs.OrderList.{order_of_list, IsListInMemory};

    ghost view = { order_of_list };

    ghost invariant = { IsListInMemory };
}

impl OrderList {
    /// Returns an empty list with room for `n` elements. No later call allocates.
    pub fn with_room(alloc: Global, n: u32) -> Result<OrderList, OutOfMemory>
        ensures empty { IfOk result (λ l. l.elements ≡ []) }
        ensures room { IfOk result (λ l. l.room ≡ n) }
        ensures labels { IfOk result LabelsRise }
    {
        Ok(OrderList {
            ring: Ring::with_room(alloc, n)?,
            made: 0,
            count: 0,
            free: HEAD,
        })
    }

    fn is_full(&self) -> bool
        ensures { IsTrue result ↔ (length self.now.elements ≡ self.now.room) }
    {
        self.count == self.ring.room()
    }

    /// Inserts a new element right after `at`, or first if `at` is `None`. Returns the new element.
    pub fn insert_after(&mut self, at: Option<u32>) -> Result<u32, Full>
        requires { ForSome at (Contains self.old.elements) }
        ensures new { IfOk result (λ e. ¬ Contains self.old.elements e) }
        ensures low { IfOk result (λ e. e ≤ self.old.room) }
        ensures placed { IfOk result (λ e. self.new.elements ≡ placed_after at e self.old.elements) }
        ensures there { IfOk result (Contains self.new.elements) }
        ensures distinct { IsDistinct nat_eq self.new.elements }
        ensures few { length self.new.elements ≤ self.new.room }
        ensures room { self.new.room ≡ self.old.room }
        ensures labels { LabelsRise self.new }
        ensures kept { OnOk result (LeavesLabels self.old self.new) }
        ensures full { IsErr result ↔ (length self.old.elements ≡ self.old.room) }
        ensures err { OnErr result (self.new ≡ self.old) }
    {
        if self.is_full() {
            return Err(Full);
        }
        let next = free_place(&mut self.ring, self.made, self.count, self.free);
        self.made = next.made;
        let at = at.unwrap_or(HEAD);
        let label = self.ring.label_after(at, self.count);
        self.free = self.ring.link_after(at, next.place, label);
        self.count += 1;
        Ok(next.place)
    }

    pub fn remove(&mut self, e: u32)
        requires { Contains self.old.elements e }
        ensures removed { self.new.elements ≡ without e self.old.elements }
        ensures distinct { IsDistinct nat_eq self.new.elements }
        ensures room { self.new.room ≡ self.old.room }
        ensures labels { LabelsRise self.new }
        ensures same { self.new.labels ≡ self.old.labels }
        ensures renumbered { self.new.renumbered ≡ self.old.renumbered }
    {
        self.ring.unlink(e, self.free);
        self.free = e;
        self.count -= 1;
    }

    /// Returns whether `a` comes before `b`.
    pub fn before<L: Ledger>(&self, a: u32, b: u32, steps: &mut Steps<L>) -> bool
        requires first { Contains self.now.elements a }
        requires second { Contains self.now.elements b }
        ensures order { IsTrue result ↔ (position self.now.elements a < position self.now.elements b) }
        ensures cost { steps.new ≡ steps.old + 1 }
    {
        self.ring.is_before(a, b, steps)
    }

    /// Returns the label of `e`, which another insertion may change.
    pub fn label(&self, e: u32) -> u64
        requires { Contains self.now.elements e }
        ensures { result ≡ slice_index self.now.labels e }
    {
        self.ring.label(e)
    }

    /// Returns the elements that the last insertion gave new labels. 0 may be among them, which is no element.
    pub fn renumbered(&self) -> &[u32]
        ensures { result.now ≡ self.now.renumbered }
    {
        self.ring.renumbered()
    }
}

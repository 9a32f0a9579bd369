//! The two kinds of ends of a deque: its owner's and a thief's.
ghost use Rattle.std.specs.Prelude.{◌≡◌, ◌≤◌, [], IfOk, MatchOption, MatchResult};
ghost use Rattle.cw_deck.specs.Deeds.{MayHold, did, pushes};
ghost use Rattle.cw_deck.specs.declared.deed.Deed.TheVariants.{Pushed, Popped, Stolen};

use crate::deed::{Another, Deeds, History, Pops, Pushes, Steals};
use crate::ruled::{pop_by, steal_by};
use crossbeam_deque::{Pass, Stealer, Worker};
use cw_base::OutOfMemory;
use std::alloc::Global;
use std::marker::Model;
use std::sync::Wait;

/// The number of tasks that fit before a deque first grows.
const ROOM: usize = 64;

/// The owner's end of a deque, at its back. Contracts see its deeds, one after another.
pub struct Deck<T> {
    worker: Worker<T, Global, Deeds<T>, History<T>>,
}

impl<T> Model for Deck<T> {
    ghost use Rattle.std.specs.Prelude.{◌≡◌, ◌≤◌};
    ghost use Rattle.crossbeam_deque.specs.Handles.{worker_capacity, worker_deque, worker_flavor, worker_index, worker_view};
    ghost use Rattle.cw_deck.specs.Deeds.{End, pushes};

    ghost Value = { End T };

    ghost view = { λ d. record { deque = (worker_deque d.worker).0; deeds = worker_view d.worker } };

    ghost invariant = { λ d. (worker_flavor d.worker ≡ 1) × (64 ≤ worker_capacity d.worker) × (worker_index d.worker ≤ pushes (worker_view d.worker)) };
}

/// An end that takes tasks at the front. Contracts see its deeds, one after another.
pub struct Thief<T> {
    from: Stealer<T, Global, Deeds<T>, History<T>>,
    pass: Pass<T, Deeds<T>>,
}

impl<T> Model for Thief<T> {
    ghost use Rattle.std.specs.Prelude.{◌≡◌};
    ghost use Rattle.crossbeam_deque.specs.Handles.{IsPassOf, stealer_deque, stealer_flavor, view as known_to};
    ghost use Rattle.cw_deck.specs.Deeds.{End};

    ghost Value = { End T };

    ghost view = { λ t. record { deque = (stealer_deque t.from).0; deeds = known_to t.pass } };

    ghost invariant = { λ t. (stealer_flavor t.from ≡ 1) × IsPassOf (stealer_deque t.from) t.pass };
}

impl<T: Drop> Drop for Deck<T> {
    fn drop(self) {
        let Self { worker } = self;
        drop(worker);
    }
}

impl<T: Drop> Drop for Thief<T> {
    fn drop(self) {
        let Self { from, pass } = self;
        drop(pass);
        drop(from);
    }
}

impl<T: Drop> Deck<T> {
    /// Makes an empty deque.
    pub fn new(alloc: Global) -> Result<Deck<T>, OutOfMemory>
        ensures { IfOk result (λ d. d.deeds ≡ []) }
    {
        Ok(Deck {
            worker: Worker::lifo_as(alloc, ROOM)?,
        })
    }
}

impl<T> Deck<T> {
    /// Makes another thief of this deque.
    pub fn thief(&mut self) -> Result<Thief<T>, OutOfMemory>
        ensures same { self.new ≡ self.old }
        ensures new { IfOk result (λ t. (t.deque ≡ self.old.deque) × (t.deeds ≡ [])) }
    {
        let from = self.worker.stealer()?;
        let pass = self.worker.another::<Another>();
        Ok(Thief { from, pass })
    }

    /// Adds `task` at the back. Gives `task` back if the deque cannot grow beyond its first 64 places.
    pub fn push(&mut self, task: T) -> Result<(), T>
        ensures { MatchResult result
            (λ _. self.new ≡ did self.old (Pushed task))
            (λ x. (x ≡ task) × (self.new ≡ self.old) × (64 ≤ pushes self.old.deeds)) }
    {
        self.worker.push_as::<Pushes>(task)
    }

    /// Removes and returns the newest task. Returns `None` only if this end's deeds fit a history that leaves the deque empty.
    pub fn pop(&mut self) -> Option<T>
        ensures { MatchOption result
            ((self.new ≡ self.old) × MayHold 0 self.old.deeds)
            (λ x. self.new ≡ did self.old (Popped x)) }
    {
        pop_by::<T, Deeds<T>, History<T>, Pops>(&mut self.worker)
    }
}

impl<T> Thief<T> {
    /// Removes and returns the oldest task. Returns `None` only if this end's deeds fit a history that leaves at most one
    /// task in it.
    pub fn steal<R: Wait>(&mut self, rt: &R) -> Option<T>
        ensures { MatchOption result
            ((self.new ≡ self.old) × MayHold 1 self.old.deeds)
            (λ x. self.new ≡ did self.old (Stolen x)) }
    {
        steal_by::<T, Deeds<T>, History<T>, Steals, R>(rt, &self.from, &mut self.pass)
    }
}

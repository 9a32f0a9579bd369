//! What ends do to a deque, and the rule that the deque keeps.
use crossbeam_deque::protocol::{Outcome, Protocol, Split};
use std::collections::LinkedList;
use std::marker::PhantomData;

/// Ghost state: what an end did to a deque. Never constructed at run time.
pub enum Deed<T> {
    Pushed(T),
    Popped(T),
    Stolen(T),
}

/// What an end knows: its own deeds, one after another.
pub type Deeds<T> = LinkedList<Deed<T>>;

/// The rule: the deque has a history in which each end did what it knows.
pub struct History<T> {
    of: PhantomData<T>,
}

impl<T> Protocol<T, Deeds<T>> for History<T> {
    ghost use Rattle.std.specs.Prelude.{[]};
    ghost use Rattle.cw_deck.specs.Deeds.{HasHistory};

    ghost holds = { HasHistory };

    ghost first = { [] };

    ghost guest = { [] };
}

/// Makes a new end, which has done nothing yet.
pub struct Another;

impl<T> Split<Deeds<T>> for Another {
    ghost use Rattle.std.specs.Prelude.{[]};

    ghost left = { λ ds. ds };

    ghost right = { λ ds. [] };
}

pub struct Pushes;

impl<T> Outcome<T, Deeds<T>> for Pushes {
    ghost use Rattle.std.specs.Prelude.{◌≡◌, ◌++◌, map};
    ghost use Rattle.cw_deck.specs.declared.deed.Deed.TheVariants.{Pushed};

    ghost then = { λ ds xs after. after ≡ ds ++ map Pushed xs };
}

pub struct Pops;

impl<T> Outcome<T, Deeds<T>> for Pops {
    ghost use Rattle.std.specs.Prelude.{◌≡◌, ◌++◌, map};
    ghost use Rattle.cw_deck.specs.declared.deed.Deed.TheVariants.{Popped};
    ghost use Rattle.cw_deck.specs.Deeds.{MayHold};

    ghost then = { λ ds xs after. after ≡ ds ++ map Popped xs };

    ghost empty = { MayHold 0 };
}

pub struct Steals;

impl<T> Outcome<T, Deeds<T>> for Steals {
    ghost use Rattle.std.specs.Prelude.{◌≡◌, ◌++◌, map};
    ghost use Rattle.cw_deck.specs.declared.deed.Deed.TheVariants.{Stolen};
    ghost use Rattle.cw_deck.specs.Deeds.{MayHold};

    ghost then = { λ ds xs after. after ≡ ds ++ map Stolen xs };

    ghost empty = { MayHold 1 };
}

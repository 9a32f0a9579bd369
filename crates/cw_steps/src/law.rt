//! The rule of the table, and what each step tells. Each call picks as ghost members what its step is for.
use crate::view::{Key, Slot, View};
use atomic_table::{Join, Play, Seat, Split, Table, TableRule};
use std::alloc::Global;
use std::marker::{Brand, PhantomData};

pub struct Law;

impl TableRule<Slot, View, Key> for Law {
    ghost use Rattle.cw_steps.specs.Rule.{Holds};
    ghost use Rattle.cw_steps.specs.Views.{root_view};

    ghost holds = { λ key s. Holds key s };

    ghost first = { λ _. root_view };
}

pub(crate) type BoardTable = Table<Slot, View, Key, Law, Global>;

pub(crate) type Words = atomic_table::Shared<Slot, View, Key, Law>;

pub(crate) type TokenSeat = Seat<Slot, View>;

/// What a number is drawn for, at which place of the token's log, and how far the token went since its last draw. Each call picks
/// it.
pub(crate) trait Drawing {
    ghost use Rattle.std.specs.Prelude.{ℕ, Bool};
    ghost use Rattle.cw_steps.specs.declared.draw.Draw.{Draw};

    ghost what: { Draw };

    ghost place: { ℕ };

    ghost behind: { ℕ };

    ghost second: { Bool };
}

impl Drawing for Brand {
    ghost use Rattle.std.specs.Prelude.{false};
    ghost use Rattle.cw_steps.specs.declared.draw.Draw.TheVariants.{Begin};

    ghost what = { Begin };

    ghost place = { 0 };

    ghost behind = { 0 };

    ghost second = { false };
}

pub struct Draws<W> {
    of: PhantomData<W>,
}

impl<W: Drawing> Play<Slot, View> for Draws<W> {
    ghost use Rattle.cw_steps.specs.Views.{drew};

    ghost then = { drew W.what W.behind W.second };
}

/// Which slot's lock is acquired, why, and at which place. Each call picks it.
pub(crate) trait Taking {
    ghost use Rattle.std.specs.Prelude.{ℕ};
    ghost use Rattle.cw_steps.specs.declared.draw.Aim.{Aim};
    ghost use Rattle.cw_steps.specs.declared.view.Key.{Key};

    ghost key: { Key };

    ghost slot: { ℕ };

    ghost aim: { Aim };

    ghost place: { ℕ };
}

impl Taking for Brand {
    ghost use Rattle.std.specs.Prelude.{[]};
    ghost use Rattle.cw_steps.specs.declared.draw.Aim.TheVariants.{Look};

    ghost key = { record { first = []; columns = 0; aborts = 0 } };

    ghost slot = { 0 };

    ghost aim = { Look };

    ghost place = { 0 };
}

pub struct Takes<W> {
    of: PhantomData<W>,
}

impl<W: Taking> Play<Slot, View> for Takes<W> {
    ghost use Rattle.cw_steps.specs.Views.{took};

    ghost then = { took W.key W.aim W.slot };
}

/// What was done while a lock was held, and at which place. Each call picks it.
pub(crate) trait Giving {
    ghost use Rattle.std.specs.Prelude.{ℕ};
    ghost use Rattle.cw_steps.specs.declared.draw.Home.{Home};

    ghost home: { Home };

    ghost place: { ℕ };
}

impl Giving for Brand {
    ghost use Rattle.cw_steps.specs.declared.draw.Home.TheVariants.{Plain};

    ghost home = { Plain };

    ghost place = { 0 };
}

pub struct Gives<W> {
    of: PhantomData<W>,
}

impl<W: Giving> Play<Slot, View> for Gives<W> {
    ghost use Rattle.cw_steps.specs.Views.{gave};

    ghost then = { gave W.home };
}

/// Which gap's word is written, and at which place. Each call picks it.
pub(crate) trait Marking {
    ghost use Rattle.std.specs.Prelude.{ℕ};

    ghost gap: { ℕ };

    ghost place: { ℕ };
}

impl Marking for Brand {
    ghost gap = { 0 };

    ghost place = { 0 };
}

pub struct Marks<W> {
    of: PhantomData<W>,
}

impl<W: Marking> Play<Slot, View> for Marks<W> {
    ghost use Rattle.cw_steps.specs.Views.{marked};

    ghost then = { marked };
}

/// With which halt the stop flag is set, and at which place. Each call picks it.
pub(crate) trait Halting {
    ghost use Rattle.std.specs.Prelude.{ℕ};
    ghost use Rattle.cw_tree.specs.declared.closed.Halt.{Halt};

    ghost halt: { Halt };

    ghost place: { ℕ };
}

impl Halting for Brand {
    ghost use Rattle.cw_tree.specs.declared.closed.Halt.TheVariants.{Memory};

    ghost halt = { Memory };

    ghost place = { 0 };
}

pub struct Halts<W> {
    of: PhantomData<W>,
}

impl<W: Halting> Play<Slot, View> for Halts<W> {
    ghost use Rattle.cw_steps.specs.Views.{set_stop};

    ghost then = { set_stop W.halt };
}

/// A look at the stop flag.
pub struct Tells;

impl Play<Slot, View> for Tells {
    ghost use Rattle.cw_steps.specs.Views.{told};

    ghost then = { told };
}

/// The word of the version, and the tier that a change makes. Each call picks them.
pub(crate) trait Changing {
    ghost use Rattle.std.specs.Prelude.{ℕ};
    ghost use Rattle.cw_trace.specs.Traces.{Traces};

    ghost word: { ℕ };

    ghost come: { Traces };
}

impl Changing for Brand {
    ghost use Rattle.std.specs.Prelude.{[]};
    ghost use Rattle.cw_trace.specs.Columns.{first_tier};

    ghost word = { 0 };

    ghost come = { record { columns = first_tier 0; labels = []; touched = [] } };
}

pub struct MakesOdd<W> {
    of: PhantomData<W>,
}

impl<W: Changing> Play<Slot, View> for MakesOdd<W> {
    ghost use Rattle.cw_steps.specs.Views.{made_odd};

    ghost then = { made_odd W.word W.come };
}

/// Which word of a column is written, and with which value. Each call picks it.
pub(crate) trait Storing {
    ghost use Rattle.std.specs.Prelude.{ℕ};

    ghost word: { ℕ };

    ghost value: { ℕ };
}

impl Storing for Brand {
    ghost word = { 0 };

    ghost value = { 0 };
}

pub struct Stores<W> {
    of: PhantomData<W>,
}

impl<W: Storing> Play<Slot, View> for Stores<W> {
    ghost use Rattle.cw_steps.specs.Views.{stored};

    ghost then = { stored W.word W.value };
}

/// The word of the version that is made even. Each call picks it.
pub(crate) trait Evening {
    ghost use Rattle.std.specs.Prelude.{ℕ};

    ghost word: { ℕ };
}

impl Evening for Brand {
    ghost word = { 0 };
}

pub struct Evens<W> {
    of: PhantomData<W>,
}

impl<W: Evening> Play<Slot, View> for Evens<W> {
    ghost use Rattle.cw_steps.specs.Views.{evened};

    ghost then = { evened W.word };
}

/// A look at a gap word, at a word of a column or at the version.
pub struct Finds;

impl Play<Slot, View> for Finds {
    ghost use Rattle.cw_steps.specs.Views.{found};

    ghost then = { found };
}

/// How far a token went since its last draw, and whether its seat is split to take a right strand back. Each call picks it.
pub(crate) trait Parting {
    ghost use Rattle.std.specs.Prelude.{ℕ, Bool};

    ghost take_back: { Bool };

    ghost behind: { ℕ };

    ghost second: { Bool };
}

impl Parting for Brand {
    ghost use Rattle.std.specs.Prelude.{false};

    ghost take_back = { false };

    ghost behind = { 0 };

    ghost second = { false };
}

pub struct Parts<W> {
    of: PhantomData<W>,
}

impl<W: Parting> Split<View> for Parts<W> {
    ghost use Rattle.cw_steps.specs.Views.{new_seat_view, parted_view};

    ghost left = { parted_view W.take_back W.behind W.second };

    ghost right = { new_seat_view W.take_back W.behind W.second };
}

/// How far a token went since its last draw. Each call picks it.
pub(crate) trait Joining {
    ghost use Rattle.std.specs.Prelude.{ℕ, Bool};

    ghost behind: { ℕ };

    ghost second: { Bool };
}

impl Joining for Brand {
    ghost use Rattle.std.specs.Prelude.{false};

    ghost behind = { 0 };

    ghost second = { false };
}

pub struct Joins<W> {
    of: PhantomData<W>,
}

impl<W: Joining> Join<View> for Joins<W> {
    ghost use Rattle.cw_steps.specs.Views.{joined_view, spent_view};

    ghost both = { joined_view W.behind W.second };

    ghost spent = { spent_view };
}

/// A look at the clock.
pub struct Weighs;

impl Play<Slot, View> for Weighs {
    ghost use Rattle.cw_steps.specs.Views.{weighed};

    ghost then = { weighed };
}

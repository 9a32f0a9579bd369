//! Sources of pairs, and halves.
ghost use Rattle.std.specs.Prelude.{◌≡◌, ◌<◌, ◌+◌, ◌^◌, ◌↔◌, IsTrue, [], min, Some};
ghost use Rattle.cw_pair.specs.Numbers.{binding, given, gone, meant};

use crate::law::{Board, Gives, Halves, Law, Looks, Meant, Shares};
use crate::view::Known;
use atomic_table::{Seat, Shared};
use cw_base::OutOfMemory;
use std::alloc::Global;
use std::marker::{Brand, Model, PhantomData};

/// The most numbers that a source keeps when it is shared.
pub const NUMBERS: u64 = 1 << 40;

/// Names a table. Each run picks its own.
pub trait TableName: Send + Sync {
    ghost use Rattle.atomic_table.specs.Seated.{TableId};

    ghost table: { TableId };
}

impl TableName for Brand {
    ghost use Rattle.cw_pair.specs.Numbers.{no_table};

    ghost table = { no_table };
}

/// A table without a name yet. Contracts see which table it is.
#[derive(Drop)]
pub struct Opened<T> {
    table: Board<T>,
    seat: Seat<(), Known<T>>,
}

impl<T> Model for Opened<T> {
    ghost use Rattle.std.specs.Prelude.{◌≡◌, ◌<◌, ◌^◌, []};
    ghost use Rattle.atomic_table.specs.Seated.{TableId};

    ghost Value = { TableId };

    ghost view = { λ o. o.table.shared.table_id };

    ghost invariant = { λ o. (0 < o.table.shared.table_id.words) × (o.seat.table_id ≡ o.table.shared.table_id) × (o.seat.me.1 ≡ []) × (o.seat.me.0.first ≡ 0) × (o.seat.me.0.last ≡ 2 ^ 63) };
}

/// What all halves and sources of a run share.
#[derive(Drop)]
pub struct Pairs<T, N: TableName> {
    table: Board<T>,
    of: PhantomData<N>,
    ghost named: { table.shared.table_id ≡ N.table },
    ghost words: { 0 < table.shared.table_id.words },
}

/// A source of numbers for new pairs. Contracts see which numbers it may still give.
#[derive(Drop)]
pub struct Source<T, N: TableName> {
    next: u64,
    end: u64,
    seat: Seat<(), Known<T>>,
    of: PhantomData<N>,
}

impl<T, N: TableName> Model for Source<T, N> {
    ghost use Rattle.std.specs.Prelude.{◌≡◌, ◌≤◌, []};
    ghost use Rattle.cw_pair.specs.Numbers.{Numbers};

    ghost Value = { Numbers };

    ghost view = { λ s. record { next = s.next; end = s.end } };

    ghost invariant = { λ s. (s.next ≤ s.end) × (s.seat.table_id ≡ N.table) × (s.seat.me.1 ≡ []) × (s.seat.me.0.first ≡ s.next) × (s.seat.me.0.last ≡ s.end) };
}

/// One half of a pair. Contracts see its number and what that stands for.
#[derive(Drop)]
pub struct Half<T, N: TableName> {
    number: u64,
    seat: Seat<(), Known<T>>,
    of: PhantomData<N>,
}

impl<T, N: TableName> Model for Half<T, N> {
    ghost use Rattle.std.specs.Prelude.{◌≡◌, []};
    ghost use Rattle.cw_pair.specs.Numbers.{binding, given, meant};
    ghost use Rattle.cw_pair.specs.declared.view.Binding.{Binding};

    ghost Value = { Binding T };

    ghost view = { λ h. binding h.number (meant h.seat.me.0) };

    ghost invariant = { λ h. (h.seat.table_id ≡ N.table) × (h.seat.me.1 ≡ []) × (h.seat.me.0 ≡ given h.number (meant h.seat.me.0)) };
}

fn give_as<T, W: Meant<T>>(
    table: &Shared<(), Known<T>, (), Law<T>>,
    seat: &mut Seat<(), Known<T>>,
    of: &T,
) -> Seat<(), Known<T>>
    requires of { W.of ≡ Some of.now }
    requires table { (seat.old.table_id ≡ table.now.table_id) × (0 < table.now.table_id.words) }
    requires some { seat.old.me.0.first < seat.old.me.0.last }
    ensures same { (seat.new.table_id ≡ seat.old.table_id) × (seat.new.me.1 ≡ seat.old.me.1) }
    ensures gone { seat.new.me.0 ≡ gone seat.old.me.0 }
    ensures given { (result.table_id ≡ seat.old.table_id) × (result.me ≡ (given seat.old.me.0.first W.of, [])) }
{
    let _ = of;
    table.split_seat::<Gives<W>>(seat)
}

impl<T> Opened<T> {
    pub fn new(alloc: Global) -> Result<Opened<T>, OutOfMemory> {
        let (table, seat) = Board::<T>::of_words(alloc, &[0], &())?;
        Ok(Opened { table, seat })
    }

    /// Names the table `N`, and returns it with the source of all numbers.
    pub fn named<N: TableName>(self) -> (Pairs<T, N>, Source<T, N>)
        requires { self ≡ N.table }
        ensures { result.1 ≡ record { next = 0; end = 2 ^ 63 } }
    {
        let Opened { table, seat } = self;
        let pairs = Pairs {
            table,
            of: PhantomData,
        };
        let source = Source {
            next: 0,
            end: 1 << 63,
            seat,
            of: PhantomData,
        };
        (pairs, source)
    }
}

impl<T, N: TableName> Source<T, N> {
    /// Splits this source: it keeps at most the next `NUMBERS` numbers, and the new source gets the rest.
    pub fn share(&mut self, pairs: &Pairs<T, N>) -> Source<T, N>
        ensures { let middle = min self.old.end (self.old.next + 2 ^ 40) in
            (self.new ≡ record self.old { end = middle }) × (result ≡ record self.old { next = middle }) }
    {
        let middle = self.end.min(self.next.saturating_add(NUMBERS));
        let last = self.end;
        let Source { end, seat, .. } = self;
        let seat = pairs.table.shared.split_seat::<Shares>(seat);
        *end = middle;
        Source {
            next: middle,
            end: last,
            seat,
            of: PhantomData,
        }
    }

    /// Returns the number of the next pair, which is not given yet.
    pub fn next(&self) -> u64
        ensures { result ≡ self.now.next }
    {
        self.next
    }

    /// Whether a number is left.
    pub fn has_more(&self) -> bool
        ensures { IsTrue result ↔ (self.now.next < self.now.end) }
    {
        self.next < self.end
    }

    /// Returns the two halves of a new pair, both of which stand for `of`.
    pub fn pair(&mut self, pairs: &Pairs<T, N>, of: &T) -> (Half<T, N>, Half<T, N>)
        requires { self.old.next < self.old.end }
        ensures halves { let half = binding self.old.next (Some of.now) in (result.0 ≡ half) × (result.1 ≡ half) }
        ensures rest { self.new ≡ record self.old { next = self.old.next + 1 } }
    {
        let number = self.next;
        let Source { next, seat, .. } = self;
        let mut one = give_as::<T, Brand>(&pairs.table.shared, seat, of);
        *next += 1;
        let other = pairs.table.shared.split_seat::<Halves>(&mut one);
        (half_of(number, one), half_of(number, other))
    }
}

fn half_of<T, N: TableName>(number: u64, seat: Seat<(), Known<T>>) -> Half<T, N>
    requires table { (seat.table_id ≡ N.table) × (seat.me.1 ≡ []) }
    requires one { seat.me.0 ≡ given number (meant seat.me.0) }
    ensures { result ≡ binding number (meant seat.me.0) }
{
    Half {
        number,
        seat,
        of: PhantomData,
    }
}

impl<T, N: TableName> Half<T, N> {
    pub fn number(&self) -> u64
        ensures { result ≡ self.now.number }
    {
        self.number
    }
}

impl<T, N: TableName> Pairs<T, N> {
    /// Consumes two halves of one number: both stood for the same value.
    pub fn meet(&self, mine: Half<T, N>, other: Half<T, N>)
        requires { mine.number ≡ other.number }
        ensures { mine.of ≡ other.of }
    {
        let Half { mut seat, .. } = mine;
        let Half { seat: ending, .. } = other;
        self.table.shared.join_seat::<Halves>(&mut seat, ending);
        self.table.shared.load::<Looks>(&mut seat, 0);
    }
}

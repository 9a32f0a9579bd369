ghost use Rattle.std.specs.Prelude.{◌≡◌, ◌+◌, ◌≤◌};
ghost use Rattle.cw_trace.specs.Told.{Read, Answer, Owner, Lead, Up, Word, Inside, Number, Maybe, Test, Stays};

use cw_order::Steps;
use std::sync::ledger::Ledger;

/// What a query reads: a tier and gap words, wherever they are kept. An answer stays told, but one read may get several answers. A
/// look is a read of one number. A number that names nothing reads as 0, `None` or false.
pub trait Columns {
    /// The read was given this answer.
    ghost told: { Self → Read → Answer → Type 0 };

    /// The columns can be asked. That does not depend on the numbers that are asked for.
    ghost ready: { Self → Type 0 };

    /// Returns the trace of `strand`.
    fn owner<K: Ledger>(&mut self, strand: u32, looks: &mut Steps<K>) -> u32
        requires { ready self.old }
        ensures ready { ready self.new }
        ensures told { told self.new (Owner strand) (Number result) }
        ensures kept { Stays (told self.old) (told self.new) }
        ensures looks { looks.new ≡ looks.old + 1 };

    /// Returns the gap that leads to the outermost pending block of `trace`.
    fn lead<K: Ledger>(&mut self, trace: u32, looks: &mut Steps<K>) -> Option<u32>
        requires { ready self.old }
        ensures ready { ready self.new }
        ensures told { told self.new (Lead trace) (Maybe result) }
        ensures kept { Stays (told self.old) (told self.new) }
        ensures looks { looks.new ≡ looks.old + 1 };

    /// Returns the nearest trace around `trace` that has a pending block.
    fn up<K: Ledger>(&mut self, trace: u32, looks: &mut Steps<K>) -> Option<u32>
        requires { ready self.old }
        ensures ready { ready self.new }
        ensures told { told self.new (Up trace) (Maybe result) }
        ensures kept { Stays (told self.old) (told self.new) }
        ensures looks { looks.new ≡ looks.old + 1 };

    /// Returns the word of `gap`.
    fn word<K: Ledger>(&mut self, gap: u32, looks: &mut Steps<K>) -> u64
        requires { ready self.old }
        ensures ready { ready self.new }
        ensures told { told self.new (Word gap) (Number result) }
        ensures kept { Stays (told self.old) (told self.new) }
        ensures looks { looks.new ≡ looks.old + 1 };

    /// Returns whether `trace` lies inside `outer`.
    fn inside<K: Ledger, L: Ledger>(
        &mut self,
        trace: u32,
        outer: u32,
        looks: &mut Steps<K>,
        compares: &mut Steps<L>,
    ) -> bool
        requires { ready self.old }
        ensures ready { ready self.new }
        ensures told { told self.new (Inside trace outer) (Test result) }
        ensures kept { Stays (told self.old) (told self.new) }
        ensures looks { looks.new ≤ looks.old + 4 }
        ensures compares { compares.new ≤ compares.old + 2 };
}

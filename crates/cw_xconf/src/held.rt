ghost use Rattle.std.specs.Prelude.{◌≡◌, ◌+◌, ◌≤◌};
ghost use Rattle.cw_trace.specs.Told.{HoldsRead, Inside, Test, Stays};

use cw_order::Steps;
use cw_trace::{Columns, GapReader, TierReader};
use std::sync::ledger::Ledger;

/// A tier and gap words in memory. Each read is answered with what they hold.
#[derive(Drop)]
pub struct Held<'a> {
    pub tier: TierReader<'a>,
    pub gaps: GapReader<'a>,
}

impl<'a> Columns for Held<'a> {
    ghost told = { λ s. HoldsRead s.tier.columns s.gaps };

    ghost ready = { λ s. Unit {0} };

    fn owner<K: Ledger>(&mut self, strand: u32, looks: &mut Steps<K>) -> u32 {
        self.tier.owner_of(strand, looks)
    }

    fn lead<K: Ledger>(&mut self, trace: u32, looks: &mut Steps<K>) -> Option<u32> {
        self.tier.lead_of(trace, looks)
    }

    fn up<K: Ledger>(&mut self, trace: u32, looks: &mut Steps<K>) -> Option<u32> {
        self.tier.up_of(trace, looks)
    }

    fn word<K: Ledger>(&mut self, gap: u32, looks: &mut Steps<K>) -> u64 {
        self.gaps.word_of(gap, looks)
    }

    fn inside<K: Ledger, L: Ledger>(
        &mut self,
        trace: u32,
        outer: u32,
        looks: &mut Steps<K>,
        compares: &mut Steps<L>,
    ) -> bool
        ensures told { HoldsRead self.new.tier.columns self.new.gaps (Inside trace outer) (Test result) }
        ensures kept { Stays (HoldsRead self.old.tier.columns self.old.gaps)
            (HoldsRead self.new.tier.columns self.new.gaps) }
        ensures looks { looks.new ≤ looks.old + 4 }
        ensures compares { compares.new ≤ compares.old + 2 }
        ensures cost { looks.new ≡ looks.old + 4 }
    {
        self.tier.stands_within(trace, outer, looks, compares)
    }
}

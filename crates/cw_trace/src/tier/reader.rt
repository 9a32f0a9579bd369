ghost use Rattle.std.specs.Prelude.{◌≡◌, ◌+◌, ◌≤◌};
ghost use Rattle.cw_tree.specs.Walks.{has};
ghost use Rattle.cw_trace.specs.Columns as columns;

use super::{Tier, Trace};
use cw_order::Steps;
use std::marker::Model;
use std::sync::ledger::Ledger;

/// A tier as a query sees it: any number may be read, and each read costs ticks. Only this file sees the tier itself. So without a
/// tick, code made of these calls learns nothing of a column, nor which of two brackets comes first. A number that names nothing
/// reads as 0, `None` or false.
#[derive(Drop)]
pub struct TierReader<'a> {
    tier: &'a Tier,
}

impl<'a> Model for TierReader<'a> {
    ghost use Rattle.cw_trace.specs.Traces.{Traces};

    ghost Value = { Traces };

    ghost view = { λ r. r.tier.now };
}

impl Tier {
    /// Returns what a query sees of the tier.
    pub fn reader(&self) -> TierReader<'_>
        ensures { result ≡ self.now }
    {
        TierReader { tier: self }
    }

    fn owner_at(&self, strand: u32) -> u32
        ensures { result ≡ columns.owner self.now.columns strand }
    {
        if strand < self.used() {
            self.owners[strand as usize]
        } else {
            0
        }
    }

    fn row_at(&self, trace: u32) -> Option<Trace>
        ensures { result ≡ columns.trace self.now.columns trace }
    {
        match self.traces.get(trace as usize) {
            Some(row) => *row,
            None => None,
        }
    }

    /// Returns whether a mark belongs to a trace.
    fn is_mark(&self, mark: u64) -> bool
        ensures { result ≡ has self.now.columns.brackets mark }
    {
        let trace = mark / 2;
        trace < self.traces.len() as u64 && self.is_trace(trace as u32)
    }

    /// Returns whether `a` and `b` are marks of traces and `a` comes before `b`.
    fn is_mark_before<L: Ledger>(&self, a: u64, b: u64, compares: &mut Steps<L>) -> bool
        ensures order { result ≡ columns.stands_before self.now.columns.brackets a b }
        ensures cost { compares.new ≤ compares.old + 1 }
    {
        if self.is_mark(a) && self.is_mark(b) {
            self.brackets.before(a as u32, b as u32, compares)
        } else {
            false
        }
    }
}

impl<'a> TierReader<'a> {
    /// Returns the trace of `strand`.
    pub fn owner_of<L: Ledger>(&self, strand: u32, looks: &mut Steps<L>) -> u32
        ensures value { result ≡ columns.owner self.now.columns strand }
        ensures cost { looks.new ≡ looks.old + 1 }
    {
        looks.tick();
        self.tier.owner_at(strand)
    }

    /// Returns the row of `trace`.
    pub(crate) fn row<L: Ledger>(&self, trace: u32, looks: &mut Steps<L>) -> Option<Trace>
        ensures value { result ≡ columns.trace self.now.columns trace }
        ensures cost { looks.new ≡ looks.old + 1 }
    {
        looks.tick();
        self.tier.row_at(trace)
    }

    /// Returns whether `a` and `b` are marks of traces and `a` comes before `b`. Looks at the label of each.
    pub(crate) fn is_before<K: Ledger, L: Ledger>(
        &self,
        a: u64,
        b: u64,
        looks: &mut Steps<K>,
        compares: &mut Steps<L>,
    ) -> bool
        ensures value { result ≡ columns.stands_before self.now.columns.brackets a b }
        ensures looks { looks.new ≡ looks.old + 2 }
        ensures cost { compares.new ≤ compares.old + 1 }
    {
        looks.tick();
        looks.tick();
        self.tier.is_mark_before(a, b, compares)
    }
}

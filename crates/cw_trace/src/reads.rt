//! Reads that are made of a reader's calls. No code here sees a column.
ghost use Rattle.std.specs.Prelude.{◌≡◌, ◌+◌, ◌≤◌, ◌<◌};
ghost use Rattle.cw_trace.specs.Columns as columns;

use crate::tier::{Tier, TierReader};
use cw_order::Steps;
use std::sync::ledger::Ledger;

impl<'a> TierReader<'a> {
    /// Returns the gap that leads to the outermost pending block of `trace`.
    pub fn lead_of<L: Ledger>(&self, trace: u32, looks: &mut Steps<L>) -> Option<u32>
        ensures value { result ≡ columns.lead self.now.columns trace }
        ensures cost { looks.new ≡ looks.old + 1 }
    {
        match self.row(trace, looks) {
            Some(row) => row.lead,
            None => None,
        }
    }

    /// Returns the nearest trace around `trace` that has a pending block.
    pub fn up_of<L: Ledger>(&self, trace: u32, looks: &mut Steps<L>) -> Option<u32>
        ensures value { result ≡ columns.up self.now.columns trace }
        ensures cost { looks.new ≡ looks.old + 1 }
    {
        match self.row(trace, looks) {
            Some(row) => row.up,
            None => None,
        }
    }

    /// Returns whether `trace` lies inside `outer`.
    pub fn stands_within<K: Ledger, L: Ledger>(
        &self,
        trace: u32,
        outer: u32,
        looks: &mut Steps<K>,
        compares: &mut Steps<L>,
    ) -> bool
        ensures value { result ≡ columns.inside self.now.columns trace outer }
        ensures looks { looks.new ≡ looks.old + 4 }
        ensures cost { compares.new ≤ compares.old + 2 }
    {
        let inner = 2 * u64::from(trace);
        let opening = 2 * u64::from(outer);
        let after = self.is_before(opening, inner, looks, compares);
        let within = self.is_before(inner, opening + 1, looks, compares);
        after && within
    }
}

impl Tier {
    /// Returns the trace of `strand`.
    pub fn owner<L: Ledger>(&self, strand: u32, steps: &mut Steps<L>) -> u32
        requires { strand < columns.used self.now.columns }
        ensures value { result ≡ columns.owner self.now.columns strand }
        ensures cost { steps.new ≡ steps.old + 1 }
    {
        self.reader().owner_of(strand, steps)
    }

    /// Returns the gap that leads to the outermost pending block of `trace`.
    pub fn lead<L: Ledger>(&self, trace: u32, steps: &mut Steps<L>) -> Option<u32>
        requires { trace < columns.used self.now.columns }
        ensures value { result ≡ columns.lead self.now.columns trace }
        ensures cost { steps.new ≡ steps.old + 1 }
    {
        self.reader().lead_of(trace, steps)
    }

    /// Returns the nearest trace around `trace` that has a pending block.
    pub fn up<L: Ledger>(&self, trace: u32, steps: &mut Steps<L>) -> Option<u32>
        requires { trace < columns.used self.now.columns }
        ensures value { result ≡ columns.up self.now.columns trace }
        ensures cost { steps.new ≡ steps.old + 1 }
    {
        self.reader().up_of(trace, steps)
    }
}

ghost use Rattle.std.specs.Prelude.{◌≡◌, ◌≢◌, ◌≤◌, [], length, take, Some, Ok, IfOk, OnErr, IsOkAnd};
ghost use Rattle.cw_io.specs.FaultPlan.{fresh_plan, FailsAsListed};
ghost use Rattle.cw_io.specs.MemSource.{GivesNext, ends_after};
ghost use Rattle.cw_io.specs.Outside.{CountsEnds, CountsFaults, Takes, TakesNothing, IsDry};

use crate::fault_plan::FaultPlan;
use crate::feed::Feed;
use crate::{Failed, Source};
use std::marker::Model;

/// A source in memory. The calls that its plan lists fail, and no others.
#[derive(Drop)]
pub struct MemSource {
    feed: Feed,
    plan: FaultPlan,
    ends: u64,
}

impl Model for MemSource {
    ghost use Rattle.cw_io.specs.MemSource.{FaultySupply};

    ghost Value = { FaultySupply };

    ghost view = { λ s. record { supply = s.feed; plan = s.plan; ends = s.ends } };
}

impl MemSource {
    /// Returns a source that gives at most `most` of `bytes` a call. The calls whose numbers are in `failing` fail.
    /// They are counted from 1, failed ones included.
    pub fn new(bytes: Vec<u8>, most: usize, failing: Vec<u64>) -> MemSource
        requires { 1 ≤ most }
        ensures supply { result.supply ≡ record { left = bytes.items; most = most } }
        ensures plan { result.plan ≡ fresh_plan failing.items }
        ensures none { result.ends ≡ 0 }
    {
        MemSource {
            feed: Feed::new(bytes, most),
            plan: FaultPlan::new(failing),
            ends: 0,
        }
    }
}

impl Source for MemSource {
    ghost left = { λ s. Some s.supply.left };

    ghost faults = { λ s. s.plan.failed };

    ghost ends = { λ s. s.ends };

    fn read(&mut self, buf: &mut [u8]) -> Result<usize, Failed>
        ensures planned { FailsAsListed self.old.plan self.new.plan result }
        ensures next { IfOk result (GivesNext self.old.supply self.new.supply buf.old buf.new) }
        ensures same { OnErr result (self.new.supply ≡ self.old.supply) }
        ensures ended { self.new.ends ≡ ends_after self.old.ends result }

        // As for every source.
        ensures cause { CountsFaults self.old.plan.failed self.new.plan.failed result }
        ensures ends { CountsEnds self.old.ends self.new.ends result }
        ensures within { IfOk result (λ n. n ≤ length buf.old) }
        ensures given { IfOk result (λ n. Takes (Some self.old.supply.left) (Some self.new.supply.left) (take n buf.new)) }
        ensures end { result ≡ Ok 0 → buf.old ≢ [] → IsDry (Some self.old.supply.left) }
        ensures err { OnErr result (TakesNothing (Some self.old.supply.left) (Some self.new.supply.left)) }
    {
        if self.plan.call().is_err() {
            self.ends = self.ends.saturating_add(1);
            return Err(Failed);
        }
        let count = self.feed.give(buf);
        if count == 0 {
            self.ends = self.ends.saturating_add(1);
        }
        Ok(count)
    }
}

/// A source in memory that never fails.
#[derive(Drop)]
pub struct SureSource {
    feed: Feed,
    ends: u64,
}

impl Model for SureSource {
    ghost use Rattle.cw_io.specs.MemSource.{SureSupply};

    ghost Value = { SureSupply };

    ghost view = { λ s. record { supply = s.feed; ends = s.ends } };
}

impl SureSource {
    /// Returns a source that gives at most `most` of `bytes` a call.
    pub fn new(bytes: Vec<u8>, most: usize) -> SureSource
        requires { 1 ≤ most }
        ensures supply { result.supply ≡ record { left = bytes.items; most = most } }
        ensures none { result.ends ≡ 0 }
    {
        SureSource {
            feed: Feed::new(bytes, most),
            ends: 0,
        }
    }
}

impl Source for SureSource {
    ghost left = { λ s. Some s.supply.left };

    ghost faults = { λ _. 0 };

    ghost ends = { λ s. s.ends };

    fn read(&mut self, buf: &mut [u8]) -> Result<usize, Failed>
        ensures next { IsOkAnd result (GivesNext self.old.supply self.new.supply buf.old buf.new) }
        ensures ended { self.new.ends ≡ ends_after self.old.ends result }

        // As for every source.
        ensures cause { CountsFaults 0 0 result }
        ensures ends { CountsEnds self.old.ends self.new.ends result }
        ensures within { IfOk result (λ n. n ≤ length buf.old) }
        ensures given { IfOk result (λ n. Takes (Some self.old.supply.left) (Some self.new.supply.left) (take n buf.new)) }
        ensures end { result ≡ Ok 0 → buf.old ≢ [] → IsDry (Some self.old.supply.left) }
        ensures err { OnErr result (TakesNothing (Some self.old.supply.left) (Some self.new.supply.left)) }
    {
        let count = self.feed.give(buf);
        if count == 0 {
            self.ends = self.ends.saturating_add(1);
        }
        Ok(count)
    }
}

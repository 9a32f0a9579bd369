ghost use Rattle.std.specs.Prelude.{◌≡◌};
ghost use Rattle.cw_io.specs.FaultPlan.{fresh_plan, FailsAsListed};
ghost use Rattle.cw_io.specs.Outside.{CountsFaults};

use crate::Failed;
use std::marker::Model;

/// Which calls of an object fail, and how many calls there were so far.
#[derive(Drop)]
pub struct FaultPlan {
    failing: Vec<u64>,
    made: u64,
    failed: u64,
}

impl Model for FaultPlan {
    ghost use Rattle.cw_io.specs.FaultPlan.{Plan};

    ghost Value = { Plan };

    ghost view = { λ p. record { failing = p.failing.items; made = p.made; failed = p.failed } };
}

impl FaultPlan {
    pub fn new(failing: Vec<u64>) -> FaultPlan
        ensures { result ≡ fresh_plan failing.items }
    {
        FaultPlan {
            failing,
            made: 0,
            failed: 0,
        }
    }

    /// Counts one call. Returns `Failed` if the number of the call is listed.
    pub fn call(&mut self) -> Result<(), Failed>
        ensures planned { FailsAsListed self.old self.new result }
        ensures cause { CountsFaults self.old.failed self.new.failed result }
    {
        self.made = self.made.saturating_add(1);
        if self.failing.contains(&self.made) {
            self.failed = self.failed.saturating_add(1);
            return Err(Failed);
        }
        Ok(())
    }
}

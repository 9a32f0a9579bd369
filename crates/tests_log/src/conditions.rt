//! Checks what a board's calls ask of a token. If memory runs out, a check answers false.
ghost use Rattle.std.specs.Prelude.{◌≡◌, IsTrue, All, IfOk, MatchBool, IfSome, ℕ, true};
ghost use Rattle.cw_code.specs.declared.FaultKind.{FaultKind};
ghost use Rattle.cw_tree.specs.declared.closed.Halt.TheVariants.{Fault};
ghost use Rattle.cw_log.specs.declared.token.Side.TheVariants.{Beside};
ghost use Rattle.cw_log.specs.Tokens.{is_inline, AreOfOneFork, Fells, GoesFree, GoesBack, HasBlock, IsDone, IsInline, IsOn, MayHalt, MayMerge, MaySplit, MayTakeBack, conflicts_in, logs};
ghost use Rattle.tests_log.specs.Kept.{open_of, Dies, HasVictim, HasNoVictim};

use crate::StrandToken;
use crate::kept::Kept;
use cw_base::OutOfMemory;
use cw_log::{Logs, Phase};
use cw_tree::Conflict;

/// Whether no conflict is from the last attempt.
fn are_unspent(conflicts: &[Conflict], budget: u32) -> bool
    ensures { IsTrue result → All (λ c. c.attempt ≡ budget → ⊥) conflicts.now }
{
    conflicts.iter().all(|c| c.attempt != budget)
}

fn all_unspent(logs: &Logs, budget: u32) -> bool
    ensures { IsTrue result → All (λ l. All (λ c. c.attempt ≡ budget → ⊥) l.conflicts) logs.now }
{
    logs.iter()
        .all(|log| are_unspent(log.conflicts.as_slice(), budget))
}

/// Whether the block with this begin is the victim of some conflict.
fn has_victim(conflicts: &[Conflict], begin: u64) -> bool
    ensures { MatchBool result (HasVictim conflicts.now begin) (HasNoVictim conflicts.now begin) }
{
    for conflict in conflicts {
        if conflict.victim == begin {
            return true;
        }
    }
    false
}

fn have_victim(logs: &Logs, begin: u64) -> bool
    ensures { MatchBool result (HasVictim (conflicts_in logs.now) begin) (HasNoVictim (conflicts_in logs.now) begin) }
{
    for log in logs.iter() {
        if has_victim(log.conflicts.as_slice(), begin) {
            return true;
        }
    }
    false
}

fn both(a: bool, b: bool) -> bool
    ensures { IsTrue result → IsTrue a × IsTrue b }
{
    a && b
}

impl Kept {
    fn is_inline(&self) -> bool
        ensures { IsTrue result → is_inline (open_of self.now).side ≡ true }
    {
        !matches!(self, Kept::Beside { .. })
    }

    /// Whether it is kept of the left strand of `fork`.
    fn is_beside(&self, fork: u32) -> bool
        ensures { IsTrue result → (open_of self.now).side ≡ Beside fork }
    {
        match self {
            Kept::Beside { promise, .. } => promise.fork == fork,
            _ => false,
        }
    }
}

impl StrandToken {
    /// Whether the block with this begin is the victim of a conflict in the token's logs.
    fn fells(&self, begin: u64) -> bool
        ensures { MatchBool result (HasVictim (conflicts_in (logs self.now)) begin) (HasNoVictim (conflicts_in (logs self.now)) begin) }
    {
        if has_victim(self.conflicts.as_slice(), begin) {
            return true;
        }
        have_victim(&self.joined, begin)
    }

    /// Whether a block around the token's place is the victim of a conflict in its logs.
    fn dies(&self) -> Result<bool, OutOfMemory>
        ensures { IfOk result (λ b. MatchBool b (Dies self.now) (All (λ c. Fells self.now c → ⊥) (conflicts_in (logs self.now)))) }
    {
        let mut around = self.around.copy()?;
        for _ in 0..u64::MAX {
            let Some(begin) = around.pop() else {
                return Ok(false);
            };
            if self.fells(begin) {
                return Ok(true);
            }
        }
        Err(OutOfMemory)
    }

    pub fn is_on(&self, budget: u32) -> bool
        ensures { IsTrue result → IsOn budget self.now }
    {
        if self.stop.is_some() || self.told {
            return false;
        }
        both(
            are_unspent(self.conflicts.as_slice(), budget),
            all_unspent(&self.joined, budget),
        )
    }

    pub fn goes(&self, budget: u32) -> bool
        ensures { IsTrue result → GoesFree budget self.now }
    {
        if self.phase != Phase::Going {
            return false;
        }
        match self.dies() {
            Ok(false) => self.is_on(budget),
            _ => false,
        }
    }

    pub fn goes_back(&self, budget: u32) -> bool
        ensures { IsTrue result → GoesBack budget self.now }
    {
        if self.phase != Phase::Going {
            return false;
        }
        match self.dies() {
            Ok(true) => self.is_on(budget),
            _ => false,
        }
    }

    pub fn has_block(&self) -> bool
        ensures { IsTrue result → HasBlock self.now }
    {
        self.place != self.strand
    }

    pub fn is_done(&self) -> bool
        ensures { IsTrue result → IsDone self.now }
    {
        self.stop.is_some()
            || self.told
            || (self.place == self.strand && !matches!(self.phase, Phase::Parted(_)))
    }

    pub fn is_inline(&self) -> bool
        ensures { IsTrue result → IsInline self.now }
    {
        match self.forks.last() {
            Some(kept) => kept.is_inline(),
            None => false,
        }
    }

    /// Whether these are the tokens of the two strands of a fork.
    pub fn is_beside(&self, right: &StrandToken) -> bool
        ensures { IsTrue result → AreOfOneFork self.now right.now }
    {
        match self.forks.last() {
            Some(kept) => both(kept.is_beside(right.fork), right.forks.is_empty()),
            None => false,
        }
    }

    pub fn may_split(&self, fork: u32) -> bool
        ensures { IsTrue result → MaySplit self.now fork }
    {
        self.phase == Phase::Waiting && self.fork == fork
    }

    pub fn may_take_back(&self, right: &StrandToken) -> bool
        ensures { IsTrue result → MayTakeBack self.now right.now }
    {
        self.phase == Phase::Going && self.place == self.strand && right.phase == Phase::Waiting
    }

    /// Returns the fork whose parts have to be merged.
    pub fn owes(&self) -> Option<u32>
        ensures { IfSome result (λ fork. MayMerge self.now fork) }
    {
        match self.phase {
            Phase::Parted(fork) => Some(fork),
            _ => None,
        }
    }

    pub fn may_halt(&self) -> bool
        ensures { IsTrue result → (budget : ℕ) (kind : FaultKind) (strand : ℕ) → MayHalt budget self.now (Fault strand kind) }
    {
        self.stop.is_none() && !self.told && self.phase == Phase::Going
    }
}

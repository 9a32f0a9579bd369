//! A board that grants and refuses as it likes, by numbers drawn from a seed.
ghost use Rattle.std.specs.Prelude.{◌≡◌, ◌<◌, ◌≤◌, ℤ, Option, [], IfOk, OnErr};
ghost use Rattle.cw_log.specs.Answers.{Meets, IsAround};
ghost use Rattle.cw_log.specs.Tokens.{root_token};

use crate::StrandToken;
use crate::listed::listed;
use crate::values::{Values, access_kind};
use cw_base::{OutOfMemory, Seq};
use cw_code::Back;
use cw_log::{Access, Forked, Phase, SharedBoard};
use cw_trace::Early;
use cw_tree::{BlockState, Conflict, Halt, Kind, Node};
use std::alloc::Global;
use std::sync::Wait;
use std::sync::atomic::{AtomicU64, Ordering};

/// Chances in a hundred: that an access is refused, that a fork has one token, and that another fork has to be split first.
#[derive(Clone, Copy, Drop)]
pub struct Odds {
    pub refused: u64,
    pub inline: u64,
    pub early: u64,
}

/// The board.
#[derive(Drop)]
pub struct Fickle {
    alloc: Global,
    cells: u32,
    attempts: u32,
    odds: Odds,
    values: Values,
    clock: AtomicU64,
    columns: AtomicU64,
    stopped: AtomicU64,
    draw: AtomicU64,
}

impl Fickle {
    pub fn new(
        alloc: Global,
        cells: u32,
        attempts: u32,
        odds: Odds,
        seed: u64,
    ) -> Result<(Fickle, StrandToken), OutOfMemory>
        ensures board { IfOk result (λ r. (r.0.cells ≡ cells) × (r.0.attempts ≡ attempts)) }
        ensures token { IfOk result (λ r. r.1 ≡ root_token) }
    {
        let values = Values::new(alloc, cells)?;
        let token = match StrandToken::root(alloc) {
            Ok(token) => token,
            Err(fault) => {
                drop(values);
                return Err(fault);
            }
        };
        let board = Fickle {
            alloc,
            cells,
            attempts,
            odds,
            values,
            clock: AtomicU64::new(1),
            columns: AtomicU64::new(1),
            stopped: AtomicU64::new(0),
            draw: AtomicU64::new(seed),
        };
        Ok((board, token))
    }

    fn stamp(&self) -> u64 {
        self.clock.fetch_add(1, Ordering::SeqCst)
    }

    /// Draws a number below `below`.
    fn luck(&self, below: u64) -> u64
        requires { 0 < below }
        ensures { result < below }
    {
        let drawn = self
            .draw
            .fetch_add(0x9E3779B97F4A7C15, Ordering::SeqCst)
            .wrapping_mul(6364136223846793005);
        let mixed = (drawn ^ (drawn >> 29)).wrapping_mul(1442695040888963407);
        (mixed >> 33) % below
    }

    /// Returns a fork's number, which is the most logs that its right strand may come to have: nearly all of `room`.
    fn number(&self, room: u64) -> u32
        requires { 1 < room }
        ensures some { 0 < result }
        ensures room { result ≤ room }
    {
        let most = room.min(u64::from(u32::MAX));
        let kept = (most / 64 + self.luck(16)).min(most - 1);
        (most - kept) as u32
    }

    /// Draws a victim: the begin stamp of a block around the token's place, or 0.
    fn victim(&self, token: &StrandToken) -> Result<u64, OutOfMemory>
        ensures { IfOk result (λ v. IsAround token.now v) }
    {
        let mut around = token.around.copy()?;
        let past = self.luck((around.len() as u64).saturating_add(1));
        for _ in 0..past {
            let _ = around.pop();
        }
        Ok(around.pop().unwrap_or(0))
    }

    fn conflict(&self, cell: u32, asker: u32, victim: u64) -> Conflict
        ensures { result ≡ record { cell = cell; last = 0; asker = asker; block = 0; victim = victim; attempt = 1; chain = [] } }
    {
        Conflict {
            cell,
            last: 0,
            asker,
            block: 0,
            victim,
            attempt: 1,
            chain: Seq::new(self.alloc),
        }
    }

    /// Refuses an access. Only the drawn victim of the conflict means something.
    fn refuse(
        &self,
        token: &mut StrandToken,
        cell: u32,
        write: Option<i64>,
    ) -> Result<Access, OutOfMemory>
        ensures ok { IfOk result (λ a. Meets token.old token.new cell write a) }
        ensures err { OnErr result (token.new ≡ token.old) }
    {
        let _ = write;
        let Ok(asker) = u32::try_from(token.nodes.len()) else {
            return Err(OutOfMemory);
        };
        let victim = self.victim(token)?;
        token.refuse(self.conflict(cell, asker, victim))?;
        Ok(Access::Conflict(self.conflict(cell, asker, victim)))
    }
}

impl SharedBoard for Fickle {
    type Token = StrandToken;

    ghost of = { λ t. t };

    ghost cells = { λ b. b.cells };

    ghost budget = { λ b. b.attempts };

    fn begin(&self, token: &mut StrandToken) -> Result<(), OutOfMemory> {
        let stamp = self.stamp();
        if stamp == 0 || !token.is_before(stamp)? {
            return Err(OutOfMemory);
        }
        token.begin(stamp)
    }

    fn commit(&self, token: &mut StrandToken) {
        token.end(BlockState::Committed, self.stamp());
    }

    fn out(&self, token: &mut StrandToken, value: i64) -> Result<(), OutOfMemory> {
        token.make(Kind::Out { value }, self.stamp())
    }

    fn access<R: Wait>(
        &self,
        rt: &R,
        token: &mut StrandToken,
        cell: u32,
        write: Option<i64>,
    ) -> Result<Access, OutOfMemory> {
        if self.luck(100) < self.odds.refused {
            return self.refuse(token, cell, write);
        }
        let value = self.values.access(rt, cell, write);
        token.make(access_kind(cell, write, value), self.stamp())?;
        Ok(Access::Value(value))
    }

    fn cancel<R: Wait>(&self, rt: &R, token: &mut StrandToken) -> Result<Seq<Back>, OutOfMemory> {
        let _ = rt;
        let alloc = self.alloc;
        let back = listed(alloc, token.nodes.as_slice(), token.place, self.cells)?;
        let kept = Seq::from_vec(Vec::from_slice(alloc, back.as_slice())?);
        token.make(Kind::Cancel { back: kept }, self.stamp())?;
        Ok(back)
    }

    fn fork<R: Wait>(
        &self,
        rt: &R,
        token: StrandToken,
    ) -> Result<Forked<StrandToken>, (StrandToken, OutOfMemory)> {
        let _ = rt;
        let mut token = token;
        let stamp = self.stamp();
        let room = token.room();
        if room < 2 || self.luck(100) < self.odds.inline {
            return match token.branch(stamp) {
                Ok(()) => Ok(Forked::Inline { token }),
                Err(error) => Err((token, error)),
            };
        }
        let fork = self.number(room);
        let Ok(column) = u32::try_from(self.columns.fetch_add(2, Ordering::SeqCst)) else {
            return Err((token, OutOfMemory));
        };
        match token.fork(stamp, fork, column) {
            Ok(right) => Ok(Forked::Two {
                fork,
                left: token,
                right,
            }),
            Err(error) => Err((token, error)),
        }
    }

    fn next_branch(&self, token: &mut StrandToken) {
        token.turn();
    }

    fn roll<R: Wait>(&self, rt: &R, token: &mut StrandToken) {
        let _ = rt;
        token.end(BlockState::Aborted, self.stamp());
    }

    fn split<R: Wait>(&self, rt: &R, token: &mut StrandToken, fork: u32) -> Result<(), Early> {
        let _ = rt;
        if self.luck(100) < self.odds.early {
            return Err(Early { before: fork });
        }
        token.set_split();
        Ok(())
    }

    fn take_back(&self, left: &mut StrandToken, right: &mut StrandToken) {
        left.set_phase(Phase::Over);
        right.set_phase(Phase::Going);
    }

    fn join(&self, left: StrandToken, right: StrandToken) -> StrandToken {
        left.join(right)
    }

    fn merge<R: Wait>(&self, rt: &R, token: &mut StrandToken, fork: u32) {
        let _ = rt;
        let _ = fork;
        token.set_phase(Phase::Going);
    }

    fn halt(&self, token: &mut StrandToken, halt: Halt) {
        token.stop(halt);
        self.stopped.store(1, Ordering::SeqCst);
    }

    fn halted(&self, token: &mut StrandToken) -> bool {
        let stopped = self.stopped.load(Ordering::SeqCst) != 0;
        token.tell(stopped);
        stopped
    }

    fn place(&self, token: &StrandToken) -> u32 {
        token.place
    }

    fn nodes<'a>(&self, token: &'a StrandToken) -> &'a [Node] {
        token.nodes.as_slice()
    }
}

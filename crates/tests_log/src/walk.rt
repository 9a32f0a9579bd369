//! A walk over a board's calls: it draws the next call from those whose conditions hold.
ghost use Rattle.std.specs.Prelude.{◌≡◌, ◌<◌};
ghost use Rattle.cw_log.specs.Tokens.{GoesFree, HasBlock};

use crate::{Fickle, Odds, StrandToken};
use cw_base::OutOfMemory;
use cw_code::FaultKind;
use cw_log::{Access, Forked, Logs, SharedBoard};
use cw_tree::Halt;
use std::alloc::Global;
use std::sync::Wait;
use std::sync::atomic::{AtomicU64, Ordering};
use std::thread;
use std::thread::Threads;

const CELLS: u32 = 4;

/// The most attempts that a block or an access may have.
const BUDGET: u32 = 100;

/// The most calls of a strand, not counting forks and the calls at its end; and the most forks in one another.
const STEPS: u32 = 12;

const DEPTH: u32 = 4;

/// How often each was met.
#[derive(Clone, Copy, Drop, PartialEq, Eq, Debug)]
pub struct Counts {
    pub values: u64,
    pub refused: u64,
    pub rolled: u64,
    pub cancelled: u64,
    pub inline: u64,
    pub two: u64,
    pub split: u64,
    pub early: u64,
    pub taken_back: u64,
    pub merged: u64,
    pub halts: u64,
    /// The tokens of a fork's strands could not be joined, or a fork's parts not merged.
    pub stuck: u64,
    /// The logs of the root's tokens at the end.
    pub logs: u64,
}

#[derive(Drop)]
struct Seen {
    values: AtomicU64,
    refused: AtomicU64,
    rolled: AtomicU64,
    cancelled: AtomicU64,
    inline: AtomicU64,
    two: AtomicU64,
    split: AtomicU64,
    early: AtomicU64,
    taken_back: AtomicU64,
    merged: AtomicU64,
    halts: AtomicU64,
    stuck: AtomicU64,
    logs: AtomicU64,
}

fn one_more(count: &AtomicU64) {
    count.fetch_add(1, Ordering::SeqCst);
}

fn count(count: &AtomicU64) -> u64 {
    count.load(Ordering::SeqCst)
}

impl Seen {
    fn new() -> Seen {
        Seen {
            values: AtomicU64::new(0),
            refused: AtomicU64::new(0),
            rolled: AtomicU64::new(0),
            cancelled: AtomicU64::new(0),
            inline: AtomicU64::new(0),
            two: AtomicU64::new(0),
            split: AtomicU64::new(0),
            early: AtomicU64::new(0),
            taken_back: AtomicU64::new(0),
            merged: AtomicU64::new(0),
            halts: AtomicU64::new(0),
            stuck: AtomicU64::new(0),
            logs: AtomicU64::new(0),
        }
    }

    fn counts(&self) -> Counts {
        Counts {
            values: count(&self.values),
            refused: count(&self.refused),
            rolled: count(&self.rolled),
            cancelled: count(&self.cancelled),
            inline: count(&self.inline),
            two: count(&self.two),
            split: count(&self.split),
            early: count(&self.early),
            taken_back: count(&self.taken_back),
            merged: count(&self.merged),
            halts: count(&self.halts),
            stuck: count(&self.stuck),
            logs: count(&self.logs),
        }
    }
}

/// How walks go: their number, each from a seed of its own; whether both strands of a split fork run on two threads; and whether
/// strands halt.
#[derive(Clone, Copy, Drop)]
pub struct Way {
    pub walks: u64,
    pub threads: bool,
    pub halts: bool,
}

/// Draws the numbers of a walk.
#[derive(Drop)]
struct Draws {
    state: u64,
}

impl Draws {
    fn below(&mut self, bound: u64) -> u64
        requires { 0 < bound }
        ensures { result < bound }
    {
        self.state = self
            .state
            .wrapping_mul(6364136223846793005)
            .wrapping_add(1442695040888963407);
        (self.state >> 33) % bound
    }
}

#[derive(Clone, Copy, Drop)]
struct Walk<'a> {
    board: &'a Fickle,
    seen: &'a Seen,
    way: Way,
    ghost limits: { (board.now.cells ≡ 4) × (board.now.attempts ≡ 100) },
}

impl<'a> Walk<'a> {
    /// Makes one more call that concerns no fork, if one may be made.
    fn calls<R: Wait>(&self, rt: &R, token: &mut StrandToken, draws: &mut Draws) {
        if token.has_block() && token.goes_back(BUDGET) {
            self.board.roll(rt, token);
            one_more(&self.seen.rolled);
        } else if token.goes(BUDGET) {
            match draws.below(7) {
                0 => {
                    let _ = self.board.begin(token);
                }
                1 => {
                    if token.has_block() {
                        self.board.commit(token);
                    }
                }
                2 => {
                    let _ = self.board.out(token, 7);
                }
                3 => {
                    if token.has_block() {
                        self.cancels(rt, token);
                    }
                }
                _ => self.accesses(rt, token, draws),
            }
        }
    }

    fn cancels<R: Wait>(&self, rt: &R, token: &mut StrandToken)
        requires goes { GoesFree 100 token.old }
        requires block { HasBlock token.old }
    {
        if self.board.cancel(rt, token).is_ok() {
            one_more(&self.seen.cancelled);
        }
    }

    fn accesses<R: Wait>(&self, rt: &R, token: &mut StrandToken, draws: &mut Draws)
        requires { GoesFree 100 token.old }
    {
        let cell = draws.below(u64::from(CELLS)) as u32;
        let write = if draws.below(2) == 0 { None } else { Some(5) };
        match self.board.access(rt, token, cell, write) {
            Ok(Access::Value(_)) => one_more(&self.seen.values),
            Ok(Access::Conflict(_)) => one_more(&self.seen.refused),
            Err(_) => {}
        }
    }

    /// Ends the blocks that the token's strand began.
    fn ends<R: Wait>(&self, rt: &R, token: &mut StrandToken) {
        for _ in 0..u64::MAX {
            if !token.has_block() {
                break;
            }
            if token.goes(BUDGET) {
                self.board.commit(token);
            } else if token.goes_back(BUDGET) {
                self.board.roll(rt, token);
                one_more(&self.seen.rolled);
            } else {
                break;
            }
        }
    }

    /// Moves from one strand of an inline fork to the next.
    fn turns(&self, token: &mut StrandToken) {
        if token.is_inline() && token.is_done() {
            self.board.next_branch(token);
        } else {
            one_more(&self.seen.stuck);
        }
    }

    fn joins<R: Wait>(&self, rt: &R, left: StrandToken, right: StrandToken) -> StrandToken {
        if !left.is_beside(&right) || !left.is_done() || !right.is_done() {
            one_more(&self.seen.stuck);
            drop(right);
            return left;
        }
        let mut token = self.board.join(left, right);
        self.merges(rt, &mut token);
        token
    }

    fn merges<R: Wait>(&self, rt: &R, token: &mut StrandToken) {
        if let Some(fork) = token.owes() {
            if token.is_on(BUDGET) {
                self.board.merge(rt, token, fork);
                one_more(&self.seen.merged);
            }
        }
    }

    fn halts(&self, token: &mut StrandToken, draws: &mut Draws) {
        if self.way.halts && draws.below(60) == 0 && token.may_halt() {
            self.board.halt(
                token,
                Halt::Fault {
                    strand: 0,
                    kind: FaultKind::Zero,
                },
            );
            one_more(&self.seen.halts);
        } else {
            let _ = self.board.halted(token);
        }
    }

    #[cycle(strands)]
    fn forks<R: Threads + Wait + Sync>(
        &self,
        rt: &R,
        token: StrandToken,
        seed: u64,
        depth: u32,
    ) -> StrandToken {
        if !token.goes(BUDGET) {
            return token;
        }
        match self.board.fork(rt, token) {
            Err((token, _)) => token,
            Ok(Forked::Inline { token }) => {
                one_more(&self.seen.inline);
                let mut token = self.walks(rt, token, seed, depth);
                self.turns(&mut token);
                token = self.walks(rt, token, seed ^ 1, depth);
                self.turns(&mut token);
                token
            }
            Ok(Forked::Two { fork, left, right }) => {
                one_more(&self.seen.two);
                let mut right = right;
                if self.splits(rt, &mut right, fork) {
                    self.beside(rt, left, right, seed, depth)
                } else {
                    self.after(rt, left, right, seed, depth)
                }
            }
        }
    }

    /// Whether the right strand of a fork may go on while the left one does.
    fn splits<R: Wait>(&self, rt: &R, right: &mut StrandToken, fork: u32) -> bool {
        if !right.may_split(fork) || !right.is_on(BUDGET) {
            return false;
        }
        let is_split = self.board.split(rt, right, fork).is_ok();
        one_more(if is_split {
            &self.seen.split
        } else {
            &self.seen.early
        });
        is_split
    }

    /// Walks both strands of a fork that is split.
    #[cycle(strands)]
    fn beside<R: Threads + Wait + Sync>(
        &self,
        rt: &R,
        left: StrandToken,
        right: StrandToken,
        seed: u64,
        depth: u32,
    ) -> StrandToken {
        let (left, right) = if self.way.threads {
            thread::join(
                rt,
                || self.walks(rt, left, seed, depth),
                || self.walks(rt, right, seed ^ 1, depth),
            )
        } else {
            let left = self.walks(rt, left, seed, depth);
            (left, self.walks(rt, right, seed ^ 1, depth))
        };
        self.joins(rt, left, right)
    }

    /// Walks the left strand of a fork that is not split and, if that one goes on, the right strand after it.
    #[cycle(strands)]
    fn after<R: Threads + Wait + Sync>(
        &self,
        rt: &R,
        left: StrandToken,
        right: StrandToken,
        seed: u64,
        depth: u32,
    ) -> StrandToken {
        let mut left = self.walks(rt, left, seed, depth);
        let mut right = right;
        if self.takes_back(&mut left, &mut right) {
            right = self.walks(rt, right, seed ^ 1, depth);
        }
        self.joins(rt, left, right)
    }

    fn takes_back(&self, left: &mut StrandToken, right: &mut StrandToken) -> bool {
        let goes = left.goes(BUDGET)
            && right.is_on(BUDGET)
            && left.is_beside(right)
            && left.may_take_back(right);
        if goes {
            self.board.take_back(left, right);
            one_more(&self.seen.taken_back);
        }
        goes
    }

    /// Walks a strand from where its token stands to its end, with at most `depth` forks in one another.
    #[cycle(strands)]
    fn walks<R: Threads + Wait + Sync>(
        &self,
        rt: &R,
        token: StrandToken,
        seed: u64,
        depth: u32,
    ) -> StrandToken {
        let mut token = token;
        let mut draws = Draws { state: seed };
        for _ in 0..STEPS {
            if depth > 0 && draws.below(6) == 0 {
                token = self.forks(rt, token, 2 * draws.below(1 << 30), depth - 1);
            }
            self.calls(rt, &mut token, &mut draws);
            self.halts(&mut token, &mut draws);
        }
        self.ends(rt, &mut token);
        token
    }
}

/// Walks once from a fresh root, and adds what was met to `seen`.
fn walk_once<R: Threads + Wait + Sync>(
    rt: &R,
    alloc: Global,
    odds: Odds,
    way: Way,
    seed: u64,
    seen: &Seen,
) -> Result<(), OutOfMemory> {
    let (board, token) = Fickle::new(alloc, CELLS, BUDGET, odds, seed)?;
    let walk = Walk {
        board: &board,
        seen,
        way,
    };
    let token = walk.walks(rt, token, seed, DEPTH);
    if token.is_done() {
        seen.logs
            .fetch_add(token.joined.len() as u64 + 1, Ordering::SeqCst);
    }
    drop(token);
    drop(board);
    Ok(())
}

/// Walks from a fresh root for each seed, and counts what was met.
pub fn walked<R: Threads + Wait + Sync>(
    rt: &R,
    alloc: Global,
    odds: Odds,
    way: Way,
) -> Result<Counts, OutOfMemory> {
    let seen = Seen::new();
    for seed in 0..way.walks {
        match walk_once(rt, alloc, odds, way, seed, &seen) {
            Ok(()) => {}
            Err(fault) => {
                drop(seen);
                return Err(fault);
            }
        }
    }
    let counts = seen.counts();
    drop(seen);
    Ok(counts)
}

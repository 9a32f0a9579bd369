//! A board for one thread, which keeps its values in one list. It refuses nothing, and its forks have one token.
ghost use Rattle.std.specs.Prelude.{◌≡◌, IfOk};
ghost use Rattle.cw_log.specs.Tokens.{root_token};

use crate::StrandToken;
use crate::listed::listed;
use crate::values::{Values, access_kind};
use cw_base::{OutOfMemory, Seq};
use cw_code::Back;
use cw_log::{Access, Forked, Phase, SharedBoard};
use cw_trace::Early;
use cw_tree::{BlockState, Halt, Kind, Node};
use std::alloc::Global;
use std::sync::Wait;
use std::sync::atomic::{AtomicU64, Ordering};

/// The board. Stamps count from 1.
#[derive(Drop)]
pub struct OneList {
    cells: u32,
    attempts: u32,
    values: Values,
    stamps: AtomicU64,
}

impl OneList {
    pub fn new(
        alloc: Global,
        cells: u32,
        attempts: u32,
    ) -> Result<(OneList, StrandToken), OutOfMemory>
        ensures board { IfOk result (λ r. (r.0.cells ≡ cells) × (r.0.attempts ≡ attempts)) }
        ensures token { IfOk result (λ r. r.1 ≡ root_token) }
    {
        let values = Values::new(alloc, cells)?;
        let token = match StrandToken::root(alloc) {
            Ok(token) => token,
            Err(fault) => {
                drop(values);
                return Err(fault);
            }
        };
        let board = OneList {
            cells,
            attempts,
            values,
            stamps: AtomicU64::new(1),
        };
        Ok((board, token))
    }

    fn stamp(&self) -> u64 {
        self.stamps.fetch_add(1, Ordering::SeqCst)
    }
}

impl SharedBoard for OneList {
    type Token = StrandToken;

    ghost of = { λ t. t };

    ghost cells = { λ b. b.cells };

    ghost budget = { λ b. b.attempts };

    fn begin(&self, token: &mut StrandToken) -> Result<(), OutOfMemory> {
        let stamp = self.stamp();
        if stamp == 0 || !token.is_before(stamp)? {
            return Err(OutOfMemory);
        }
        token.begin(stamp)
    }

    fn commit(&self, token: &mut StrandToken) {
        token.end(BlockState::Committed, self.stamp());
    }

    fn out(&self, token: &mut StrandToken, value: i64) -> Result<(), OutOfMemory> {
        token.make(Kind::Out { value }, self.stamp())
    }

    fn access<R: Wait>(
        &self,
        rt: &R,
        token: &mut StrandToken,
        cell: u32,
        write: Option<i64>,
    ) -> Result<Access, OutOfMemory> {
        let value = self.values.access(rt, cell, write);
        token.make(access_kind(cell, write, value), self.stamp())?;
        Ok(Access::Value(value))
    }

    fn cancel<R: Wait>(&self, rt: &R, token: &mut StrandToken) -> Result<Seq<Back>, OutOfMemory> {
        let _ = rt;
        let alloc = *token.nodes.allocator();
        let back = listed(alloc, token.nodes.as_slice(), token.place, self.cells)?;
        let kept = Seq::from_vec(Vec::from_slice(alloc, back.as_slice())?);
        token.make(Kind::Cancel { back: kept }, self.stamp())?;
        Ok(back)
    }

    fn fork<R: Wait>(
        &self,
        rt: &R,
        token: StrandToken,
    ) -> Result<Forked<StrandToken>, (StrandToken, OutOfMemory)> {
        let _ = rt;
        let mut token = token;
        match token.branch(self.stamp()) {
            Ok(()) => Ok(Forked::Inline { token }),
            Err(error) => Err((token, error)),
        }
    }

    fn next_branch(&self, token: &mut StrandToken) {
        token.turn();
    }

    fn roll<R: Wait>(&self, rt: &R, token: &mut StrandToken) {
        let _ = rt;
        token.end(BlockState::Aborted, self.stamp());
    }

    fn split<R: Wait>(&self, rt: &R, token: &mut StrandToken, fork: u32) -> Result<(), Early> {
        let _ = rt;
        let _ = token;
        Err(Early { before: fork })
    }

    fn take_back(&self, left: &mut StrandToken, right: &mut StrandToken) {
        left.set_phase(Phase::Over);
        right.set_phase(Phase::Going);
    }

    fn join(&self, left: StrandToken, right: StrandToken) -> StrandToken {
        left.join(right)
    }

    fn merge<R: Wait>(&self, rt: &R, token: &mut StrandToken, fork: u32) {
        let _ = rt;
        let _ = fork;
        token.set_phase(Phase::Going);
    }

    fn halt(&self, token: &mut StrandToken, halt: Halt) {
        token.stop(halt);
    }

    fn halted(&self, token: &mut StrandToken) -> bool {
        let _ = self.cells;
        token.tell(false);
        false
    }

    fn place(&self, token: &StrandToken) -> u32 {
        token.place
    }

    fn nodes<'a>(&self, token: &'a StrandToken) -> &'a [Node] {
        token.nodes.as_slice()
    }
}

/// Writes `value` to a cell in a block, forks behind the block, and returns what the right strand reads.
pub fn read_back<R: Wait>(rt: &R, alloc: Global, value: i64) -> Result<Option<i64>, OutOfMemory> {
    let (board, mut token) = OneList::new(alloc, 2, 3)?;
    if token.goes(3) {
        if let Err(fault) = board.begin(&mut token) {
            drop(token);
            return Err(fault);
        }
    }
    if token.goes(3) {
        if let Err(fault) = board.access(rt, &mut token, 1, Some(value)) {
            drop(token);
            return Err(fault);
        }
    }
    if token.goes(3) && token.has_block() {
        board.commit(&mut token);
    }
    if !token.goes(3) {
        drop(token);
        return Ok(None);
    }
    let mut token = match board.fork(rt, token) {
        Ok(Forked::Inline { token }) => token,
        other => {
            drop(other);
            return Ok(None);
        }
    };
    if token.is_inline() && token.is_done() {
        board.next_branch(&mut token);
    }
    if !token.goes(3) {
        drop(token);
        return Ok(None);
    }
    let found = board.access(rt, &mut token, 1, None);
    drop(token);
    match found? {
        Access::Value(value) => Ok(Some(value)),
        Access::Conflict(_) => Ok(None),
    }
}

//! The pending blocks around a place, and the end of the nodes that go there.
ghost use Rattle.std.specs.Prelude.{◌≡◌, ◌+◌, ◌<◌, ◌≤◌, ◌++◌, [], drop, length, reverse, vec_capacity, vec_len};
ghost use Rattle.cw_steps.specs.Tracks as tracks;

use super::{PLAIN, Tail};
use cw_log::Above;
use cw_tree::BlockState;

/// Returns one attempt more, counted up to the largest 32-bit number.
pub(crate) fn one_more(attempts: u32) -> u32
    ensures { result ≡ tracks.one_more attempts }
{
    attempts.saturating_add(1)
}

/// Returns the tail after a block was closed.
pub(crate) fn tail_behind(state: &BlockState, block: Option<Above>) -> Tail
    ensures { result ≡ tracks.tail_behind state.now block }
{
    match (state, block) {
        (BlockState::Aborted, Some(block)) => Tail {
            aborted: block.attempt,
            ..PLAIN
        },
        _ => PLAIN,
    }
}

/// Returns the tail after one more refused access of `cell`.
pub(crate) fn tail_tried(cell: u32, tail: Tail) -> Tail
    ensures { result ≡ tracks.tail_tried cell tail }
{
    Tail {
        aborted: 0,
        tried: one_more(tail.tries(cell)),
        cell,
    }
}

impl Tail {
    /// Returns the number of refused accesses of `cell` at the end.
    pub(crate) fn tries(&self, cell: u32) -> u32
        ensures { result ≡ tracks.tries_of self.now cell }
    {
        if self.cell == cell { self.tried } else { 0 }
    }
}

/// Returns the number of pending blocks.
pub(crate) fn count(pending: &Vec<Above>) -> usize
    ensures { result ≡ length (reverse pending.now.items) }
{
    pending.len()
}

/// Removes the innermost block.
pub(crate) fn pop_innermost(pending: &mut Vec<Above>) -> Option<Above>
    ensures block { result ≡ tracks.innermost_of (reverse pending.old.items) }
    ensures rest { reverse pending.new.items ≡ drop 1 (reverse pending.old.items) }
    ensures capacity { vec_capacity pending.new ≡ vec_capacity pending.old }
    ensures few { vec_len pending.new ≤ vec_len pending.old }
{
    pending.pop()
}

/// Keeps only the `count` blocks that were begun first.
pub(crate) fn cut(pending: &mut Vec<Above>, count: usize)
    ensures { reverse pending.new.items ≡ tracks.first_begun count (reverse pending.old.items) }
{
    pending.truncate(count);
}

/// Copies the blocks of `from`, for which there is room.
pub(crate) fn copy(pending: &mut Vec<Above>, from: &[Above])
    requires none { pending.old.items ≡ [] }
    requires room { length from.now ≤ vec_capacity pending.old }
    ensures { pending.new.items ≡ from.now }
{
    if pending.extend_from_slice(from).is_err() {
        unreachable!()
    }
}

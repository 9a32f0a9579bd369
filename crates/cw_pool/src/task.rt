//! What goes from thread to thread: a strand that runs, with all that waits for it.
use crate::RunName;
use cw_body::Body;
use cw_log::SharedBoard;
use cw_pair::Half;
use std::marker::{Model, PhantomData};
use std::snapshot::Snapshot;

/// What both halves of a fork's pair stand for: the body before the fork, and the right strand's token after it.
#[derive(Drop)]
pub struct Memo<T> {
    pub before: Snapshot<Body>,
    pub right: Snapshot<T>,
}

/// Whether and how a strand goes on.
#[derive(Clone, Copy, Drop, PartialEq, Eq, Debug)]
pub enum Mode {
    Goes,
    /// It goes back to the block with this begin stamp.
    Dies { to: u64 },
    Stopped,
    /// It is the right strand of a fork that is neither split nor taken back.
    Waits,
}

/// What waits for a strand, from a fork on.
#[derive(Drop)]
pub enum Below<T, J: cw_pair::TableName> {
    /// The strand is the left one; the right one is a task.
    Left { fork: u32, half: Half<Memo<T>, J> },
    /// The strand is the left one of an inline fork, and `right` is the body of the right one.
    Inline { right: Body },
    /// The strand is the right one of an inline fork, and `left` is the body of the left one, which has ended.
    Second { left: Body },
    /// The strand is the right one of a fork that was taken back. The left one has ended, with this token and body.
    Taken { token: T, left: Body },
}

/// Where the lowest strand of a task comes from.
#[derive(Drop)]
pub enum Base<T, J: cw_pair::TableName> {
    Root,
    /// From the fork with this number, as whose right strand it began.
    Right { fork: u32, half: Half<Memo<T>, J> },
}

/// A strand that runs, and what waits for it, newest last. Its invariant is `IsRunning`. A move that is asked for at the wrong time
/// does nothing.
#[derive(Drop)]
pub struct Running<B: SharedBoard, J: RunName> {
    pub(crate) token: B::Token,
    pub(crate) body: Body,
    pub(crate) mode: Mode,
    pub(crate) below: Vec<Below<B::Token, J>>,
    pub(crate) base: Base<B::Token, J>,
    pub(crate) of: PhantomData<J>,
}

impl<B: SharedBoard, J: RunName> Model for Running<B, J> {
    ghost use Rattle.std.specs.Prelude.{ℕ};

    ghost Value = { ℕ };

    ghost use Rattle.cw_pool.specs.Tasks.{IsRunning};

    ghost view = { λ r. 0 };

    ghost invariant = { λ r. IsRunning J.job B.of (B.of r.token) r.body r.mode r.below.items r.base };
}

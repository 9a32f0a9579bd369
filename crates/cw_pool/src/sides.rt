//! The two tasks of a fork with two tokens, each taken apart.
ghost use Rattle.cw_pool.specs.Tasks.{IsRunning};

use crate::ends::may_end;
use crate::{Base, Below, Memo, Mode, RunName, Running, Scene};
use cw_body::Body;
use cw_log::SharedBoard;
use cw_pair::Half;
use std::marker::{Model, PhantomData};

/// A left strand that is over (ended, died or stopped) and whose right strand is a task of its own.
#[derive(Drop)]
pub(crate) struct LeftTask<B: SharedBoard, J: RunName> {
    pub(crate) token: B::Token,
    pub(crate) body: Body,
    pub(crate) mode: Mode,
    /// What waits for the strand that forked, with room for one more entry.
    pub(crate) below: Vec<Below<B::Token, J>>,
    pub(crate) base: Base<B::Token, J>,
    pub(crate) fork: u32,
    pub(crate) half: Half<Memo<B::Token>, J>,
    pub(crate) of: PhantomData<J>,
}

impl<B: SharedBoard, J: RunName> Model for LeftTask<B, J> {
    ghost use Rattle.std.specs.Prelude.{ℕ, ◌<◌, ◌++◌, ◌∷◌, []};
    ghost use Rattle.std.specs.Vec.{vec_len, vec_capacity};
    ghost use Rattle.cw_pool.specs.Ends.{MayEnd};
    ghost use Rattle.cw_pool.specs.Tasks.{IsRunning};
    ghost use Rattle.cw_pool.specs.declared.task.Below.TheVariants as entry;

    ghost Value = { ℕ };

    ghost view = { λ l. 0 };

    ghost invariant = { λ l. IsRunning J.job B.of (B.of l.token) l.body l.mode (l.below.items ++ entry.Left l.fork l.half ∷ []) l.base × MayEnd l.mode (B.of l.token) l.body × (vec_len l.below < vec_capacity l.below) };
}

/// A task that began with the right strand of a fork, and in which nothing waits.
#[derive(Drop)]
pub(crate) struct RightTask<B: SharedBoard, J: RunName> {
    pub(crate) token: B::Token,
    pub(crate) body: Body,
    pub(crate) mode: Mode,
    pub(crate) below: Vec<Below<B::Token, J>>,
    pub(crate) fork: u32,
    pub(crate) half: Half<Memo<B::Token>, J>,
    pub(crate) of: PhantomData<J>,
}

impl<B: SharedBoard, J: RunName> Model for RightTask<B, J> {
    ghost use Rattle.std.specs.Prelude.{ℕ, ◌≡◌, []};
    ghost use Rattle.cw_pool.specs.Tasks.{IsRunning};
    ghost use Rattle.cw_pool.specs.declared.task.Base.TheVariants as bottom;

    ghost Value = { ℕ };

    ghost view = { λ r. 0 };

    ghost invariant = { λ r. IsRunning J.job B.of (B.of r.token) r.body r.mode r.below.items (bottom.Right r.fork r.half) × (r.below.items ≡ []) };
}

/// Makes a task from its parts.
pub(crate) fn task_of<B: SharedBoard, J: RunName>(
    token: B::Token,
    body: Body,
    mode: Mode,
    below: Vec<Below<B::Token, J>>,
    base: Base<B::Token, J>,
) -> Running<B, J>
    requires { IsRunning J.job B.of (B.of token) body mode below.items base }
{
    let now = Running {
        token,
        body,
        mode,
        below,
        base,
        of: PhantomData,
    };
    now
}

impl<B: SharedBoard, J: RunName> LeftTask<B, J> {
    /// Takes a task apart if it is a `LeftTask`. Otherwise gives it back.
    pub(crate) fn of(
        scene: &Scene<'_, B, J>,
        now: Running<B, J>,
    ) -> Result<LeftTask<B, J>, Running<B, J>> {
        let Running {
            token,
            body,
            mode,
            mut below,
            base,
            ..
        } = now;
        let true = may_end(scene, &token, &body, mode) else {
            return Err(task_of(token, body, mode, below, base));
        };
        match below.pop() {
            Some(Below::Left { fork, half }) => {
                let left = LeftTask {
                    token,
                    body,
                    mode,
                    below,
                    base,
                    fork,
                    half,
                    of: PhantomData,
                };
                Ok(left)
            }
            Some(entry) => {
                below.push_reserved(entry);
                Err(task_of(token, body, mode, below, base))
            }
            None => Err(task_of(token, body, mode, below, base)),
        }
    }

    /// Puts the task together as it was.
    pub(crate) fn whole(self) -> Running<B, J> {
        let LeftTask {
            token,
            body,
            mode,
            mut below,
            base,
            fork,
            half,
            ..
        } = self;
        below.push_reserved(Below::Left { fork, half });
        task_of(token, body, mode, below, base)
    }
}

impl<B: SharedBoard, J: RunName> RightTask<B, J> {
    /// Takes a task apart if it is a `RightTask`. Otherwise gives it back.
    pub(crate) fn of(now: Running<B, J>) -> Result<RightTask<B, J>, Running<B, J>> {
        let Running {
            token,
            body,
            mode,
            below,
            base,
            ..
        } = now;
        let true = below.is_empty() else {
            return Err(task_of(token, body, mode, below, base));
        };
        match base {
            Base::Root => Err(task_of(token, body, mode, below, Base::Root)),
            Base::Right { fork, half } => {
                let right = RightTask {
                    token,
                    body,
                    mode,
                    below,
                    fork,
                    half,
                    of: PhantomData,
                };
                Ok(right)
            }
        }
    }

    /// Puts the task together as it was.
    pub(crate) fn whole(self) -> Running<B, J> {
        let RightTask {
            token,
            body,
            mode,
            below,
            fork,
            half,
            ..
        } = self;
        task_of(token, body, mode, below, Base::Right { fork, half })
    }
}

/// Takes apart the tasks of the left and the right strand of a fork. If they are none, gives both back.
pub(crate) fn take_apart<B: SharedBoard, J: RunName>(
    scene: &Scene<'_, B, J>,
    left: Running<B, J>,
    right: Running<B, J>,
) -> Result<(LeftTask<B, J>, RightTask<B, J>), (Running<B, J>, Running<B, J>)> {
    match LeftTask::of(scene, left) {
        Err(left) => Err((left, right)),
        Ok(left) => match RightTask::of(right) {
            Err(right) => Err((left.whole(), right)),
            Ok(right) => Ok((left, right)),
        },
    }
}

/// Returns the pair number of the fork whose left strand this is, if the right one is a task.
pub(crate) fn left_number<B: SharedBoard, J: RunName>(now: &Running<B, J>) -> Option<u64> {
    match now.below.last() {
        Some(Below::Left { half, .. }) => Some(half.number()),
        _ => None,
    }
}

/// Returns the pair number of the fork as whose right strand the task began.
pub(crate) fn right_number<B: SharedBoard, J: RunName>(now: &Running<B, J>) -> Option<u64> {
    match &now.base {
        Base::Root => None,
        Base::Right { half, .. } => Some(half.number()),
    }
}

//! What follows, within its own task, a strand that is over: it came to its end, died or was stopped.
ghost use Rattle.std.specs.Prelude.{◌≡◌, ◌<◌, ◌++◌, ◌∷◌, [], IsTrue};
ghost use Rattle.std.specs.Vec.{vec_len, vec_capacity};
ghost use Rattle.cw_pool.specs.Ends.{IsBehind, MayEnd};
ghost use Rattle.cw_pool.specs.Tasks.{IsRunning};
ghost use Rattle.cw_pool.specs.declared.task.Below.TheVariants as entry;

use crate::blocks::begin_at;
use crate::last::finish_run;
use crate::sides::task_of;
use crate::{Base, Below, Ended, Mode, RunName, Running, Scene};
use cw_body::Body;
use cw_log::SharedBoard;
use cw_strand::Want;
use cw_tree::Halt;

/// What follows a strand that is over: it came to its end, died or was stopped.
#[derive(Drop)]
pub(crate) enum After<B: SharedBoard, J: RunName> {
    /// Another strand of the same task goes on.
    Goes(Running<B, J>),
    /// A left strand ended. The caller must now find the right one: it waits in this worker's deque, or was stolen.
    Left(Running<B, J>),
    /// The right strand of a stolen fork ended, and nothing waits in its task. It goes to where both strands meet.
    Right(Running<B, J>),
    /// Main's strand ended.
    Ended(Ended<B, J>),
}

/// Whether a strand is over: it came to its end, died or was stopped.
pub(crate) fn may_end<B: SharedBoard, J: RunName>(
    scene: &Scene<'_, B, J>,
    token: &B::Token,
    body: &Body,
    mode: Mode,
) -> bool
    ensures { IsTrue result → MayEnd mode (B.of token.now) body.now }
{
    match mode {
        Mode::Goes => matches!(body.want(), Some(Want::Sync | Want::Done)),
        Mode::Dies { .. } => {
            begin_at(scene.board.nodes(token), scene.board.place(token)).is_none()
        }
        Mode::Stopped => true,
        Mode::Waits => false,
    }
}

/// Makes the task of the strand that forked, behind both its strands. The right strand's body becomes its own.
pub(crate) fn rejoin<B: SharedBoard, J: RunName>(
    scene: &Scene<'_, B, J>,
    token: B::Token,
    right: Body,
    mode: Mode,
    below: Vec<Below<B::Token, J>>,
    base: Base<B::Token, J>,
    left: Body,
) -> Running<B, J>
    requires { IsBehind J.job B.of mode (B.of token) right left below.items base }
{
    let mut token = token;
    let mut body = right;
    match mode {
        Mode::Goes => match body.join(left, scene.program) {
            Ok(()) => task_of(token, body, Mode::Goes, below, base),
            Err(_) => {
                scene.board.halt(&mut token, Halt::Memory);
                task_of(token, body, Mode::Stopped, below, base)
            }
        },
        Mode::Dies { .. } => {
            drop(left);
            body.gives_up();
            task_of(token, body, mode, below, base)
        }
        Mode::Stopped => {
            drop(left);
            task_of(token, body, mode, below, base)
        }
        Mode::Waits => unreachable!(),
    }
}

/// After the left strand of an inline fork: goes on with the right one or, if the left one died or was stopped, with the strand
/// that forked.
fn turn_to_right<B: SharedBoard, J: RunName>(
    scene: &Scene<'_, B, J>,
    token: B::Token,
    body: Body,
    mode: Mode,
    below: Vec<Below<B::Token, J>>,
    base: Base<B::Token, J>,
    right: Body,
) -> Running<B, J>
    requires task { IsRunning J.job B.of (B.of token) body mode (below.items ++ entry.Inline right ∷ []) base }
    requires end { MayEnd mode (B.of token) body }
    requires room { vec_len below < vec_capacity below }
{
    let mut token = token;
    let mut below = below;
    scene.board.next_branch(&mut token);
    let Mode::Goes = mode else {
        scene.board.next_branch(&mut token);
        return rejoin(scene, token, right, mode, below, base, body);
    };
    below.push_reserved(Below::Second { left: body });
    task_of(token, right, Mode::Goes, below, base)
}

/// After the right strand of an inline fork: goes on with the strand that forked.
fn finish_second<B: SharedBoard, J: RunName>(
    scene: &Scene<'_, B, J>,
    token: B::Token,
    body: Body,
    mode: Mode,
    below: Vec<Below<B::Token, J>>,
    base: Base<B::Token, J>,
    left: Body,
) -> Running<B, J>
    requires task { IsRunning J.job B.of (B.of token) body mode (below.items ++ entry.Second left ∷ []) base }
    requires end { MayEnd mode (B.of token) body }
{
    let mut token = token;
    scene.board.next_branch(&mut token);
    rejoin(scene, token, body, mode, below, base, left)
}

/// After the right strand of a fork that was taken back: goes on with the strand that forked.
fn finish_taken<B: SharedBoard, J: RunName>(
    scene: &Scene<'_, B, J>,
    token: B::Token,
    body: Body,
    mode: Mode,
    below: Vec<Below<B::Token, J>>,
    base: Base<B::Token, J>,
    first: B::Token,
    left: Body,
) -> Running<B, J>
    requires task { IsRunning J.job B.of (B.of token) body mode (below.items ++ entry.Taken first left ∷ []) base }
    requires end { MayEnd mode (B.of token) body }
{
    let token = scene.board.join(first, token);
    rejoin(scene, token, body, mode, below, base, left)
}

/// After the lowest strand of a task.
fn finish_lowest<B: SharedBoard, J: RunName>(
    token: B::Token,
    body: Body,
    mode: Mode,
    below: Vec<Below<B::Token, J>>,
    base: Base<B::Token, J>,
) -> After<B, J>
    requires task { IsRunning J.job B.of (B.of token) body mode below.items base }
    requires end { MayEnd mode (B.of token) body }
    requires alone { below.items ≡ [] }
{
    match base {
        Base::Root => After::Ended(finish_run(token, body, mode, below, Base::Root)),
        Base::Right { fork, half } => {
            let base = Base::Right { fork, half };
            After::Right(task_of(token, body, mode, below, base))
        }
    }
}

/// Returns what follows a strand that is over. A strand that may not end yet is given back unchanged.
pub(crate) fn finish<B: SharedBoard, J: RunName>(
    scene: &Scene<'_, B, J>,
    now: Running<B, J>,
) -> Result<After<B, J>, Running<B, J>> {
    let Running {
        token,
        body,
        mode,
        mut below,
        base,
        ..
    } = now;
    let true = may_end(scene, &token, &body, mode) else {
        return Err(task_of(token, body, mode, below, base));
    };
    match below.pop() {
        Some(Below::Left { fork, half }) => {
            below.push_reserved(Below::Left { fork, half });
            Ok(After::Left(task_of(token, body, mode, below, base)))
        }
        Some(Below::Inline { right }) => {
            let now = turn_to_right(scene, token, body, mode, below, base, right);
            Ok(After::Goes(now))
        }
        Some(Below::Second { left }) => {
            let now = finish_second(scene, token, body, mode, below, base, left);
            Ok(After::Goes(now))
        }
        Some(Below::Taken { token: first, left }) => {
            let now = finish_taken(scene, token, body, mode, below, base, first, left);
            Ok(After::Goes(now))
        }
        None => Ok(finish_lowest(token, body, mode, below, base)),
    }
}

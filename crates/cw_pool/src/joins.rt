//! Where the two strands of a fork with two tokens come together.
ghost use Rattle.std.specs.Prelude.{◌≡◌};
ghost use Rattle.cw_pool.specs.Ends.{IsMerged, IsToMerge, mode_of_both};

use crate::ends::{may_end, rejoin};
use crate::sides::{LeftTask, RightTask, take_apart, task_of};
use crate::{Below, Mode, RunName, Running, Scene};
use cw_log::SharedBoard;
use std::sync::Wait;

/// The mode of the strand that forked, given the modes of its two strands.
fn joint_mode(left: Mode, right: Mode) -> Mode
    ensures { result ≡ mode_of_both left right }
{
    match left {
        Mode::Stopped => Mode::Stopped,
        Mode::Dies { to } => match right {
            Mode::Stopped => Mode::Stopped,
            Mode::Dies { to: other } => Mode::Dies { to: to.min(other) },
            _ => Mode::Dies { to },
        },
        _ => right,
    }
}

/// Merges what the split of a fork parted, unless a strand was stopped.
fn merge_unless_stopped<B: SharedBoard, J: RunName, R: Wait>(
    rt: &R,
    scene: &Scene<'_, B, J>,
    token: B::Token,
    mode: Mode,
    fork: u32,
) -> B::Token
    requires { IsToMerge J.job.limits.aborts mode (B.of token) fork }
    ensures { IsMerged mode (B.of token) (B.of result) }
{
    let mut token = token;
    match mode {
        Mode::Stopped => token,
        _ => {
            scene.board.merge(rt, &mut token, fork);
            token
        }
    }
}

/// Lets a right strand that no worker stole go on after its left one; if the left one died or was stopped, joins both. Gives both
/// back if they are not of one fork, or the right one does not wait, or the left one is not over.
pub(crate) fn take_back_task<B: SharedBoard, J: RunName>(
    scene: &Scene<'_, B, J>,
    left: Running<B, J>,
    right: Running<B, J>,
) -> Result<Running<B, J>, (Running<B, J>, Running<B, J>)> {
    let (left, right) = take_apart(scene, left, right)?;
    let Mode::Waits = right.mode else {
        return Err((left.whole(), right.whole()));
    };
    let true = left.half.number() == right.half.number() else {
        return Err((left.whole(), right.whole()));
    };
    let LeftTask {
        mut token,
        body: ended,
        mode,
        mut below,
        base,
        half,
        ..
    } = left;
    let RightTask {
        token: mut other,
        body,
        below: nothing,
        half: theirs,
        ..
    } = right;
    drop(nothing);
    scene.pairs.meet(half, theirs);
    let Mode::Goes = mode else {
        let token = scene.board.join(token, other);
        return Ok(rejoin(scene, token, body, mode, below, base, ended));
    };
    scene.board.take_back(&mut token, &mut other);
    below.push_reserved(Below::Taken { token, left: ended });
    Ok(task_of(other, body, Mode::Goes, below, base))
}

/// Joins the two strands of a fork, each of which ended in a task of its own. Returns the task of the strand that forked. Gives
/// both back if they are not of one fork, or have not ended.
pub(crate) fn join_stolen<B: SharedBoard, J: RunName, R: Wait>(
    rt: &R,
    scene: &Scene<'_, B, J>,
    left: Running<B, J>,
    right: Running<B, J>,
) -> Result<Running<B, J>, (Running<B, J>, Running<B, J>)> {
    let (left, right) = take_apart(scene, left, right)?;
    let true = may_end(scene, &right.token, &right.body, right.mode) else {
        return Err((left.whole(), right.whole()));
    };
    let true = left.half.number() == right.half.number() else {
        return Err((left.whole(), right.whole()));
    };
    let mode = joint_mode(left.mode, right.mode);
    let LeftTask {
        token,
        body: ended,
        below,
        base,
        fork,
        half,
        ..
    } = left;
    let RightTask {
        token: other,
        body,
        below: nothing,
        half: theirs,
        ..
    } = right;
    drop(nothing);
    scene.pairs.meet(half, theirs);
    let token = scene.board.join(token, other);
    let token = merge_unless_stopped(rt, scene, token, mode, fork);
    Ok(rejoin(scene, token, body, mode, below, base, ended))
}

//! Forks.
ghost use Rattle.std.specs.Prelude.{◌<◌};
ghost use Rattle.std.specs.Vec.{vec_len, vec_capacity};
ghost use Rattle.cw_pool.specs.Forks.{AreForkTokens, IsForking};

use crate::moves::halt_out_of_memory;
use crate::{Base, Below, Memo, Mode, RunName, Running, Scene};
use cw_body::Body;
use cw_log::{Forked, SharedBoard};
use cw_pair::Source;
use cw_strand::Want;
use cw_tree::Halt;
use std::marker::PhantomData;
use std::snapshot::Snapshot;
use std::sync::Wait;

/// Forks a strand, and goes on with its left strand. If the right strand has a token of its own, its task is returned second.
/// Neither strand has run yet.
pub(crate) fn fork<B: SharedBoard, J: RunName, R: Wait>(
    rt: &R,
    scene: &Scene<'_, B, J>,
    source: &mut Source<Memo<B::Token>, J>,
    now: Running<B, J>,
) -> (Running<B, J>, Option<Running<B, J>>) {
    let mut now = now;
    let Mode::Goes = now.mode else {
        return (now, None);
    };
    let Some(Want::Fork) = now.body.want() else {
        return (now, None);
    };
    let true = source.has_more() else {
        halt_out_of_memory(scene, &mut now);
        return (now, None);
    };
    let Ok(()) = now.below.reserve(1) else {
        halt_out_of_memory(scene, &mut now);
        return (now, None);
    };
    let before = Snapshot::of(&now.body);
    let Ok(left) = now.body.fork(scene.alloc, scene.program) else {
        scene.board.halt(&mut now.token, Halt::Memory);
        now.mode = Mode::Stopped;
        return (now, None);
    };
    let Running {
        token,
        body: right,
        below,
        base,
        ..
    } = now;
    fork_token(rt, scene, source, token, before, left, right, below, base)
}

/// Forks on the board a strand whose body has forked.
fn fork_token<B: SharedBoard, J: RunName, R: Wait>(
    rt: &R,
    scene: &Scene<'_, B, J>,
    source: &mut Source<Memo<B::Token>, J>,
    token: B::Token,
    before: Snapshot<Body>,
    left: Body,
    right: Body,
    below: Vec<Below<B::Token, J>>,
    base: Base<B::Token, J>,
) -> (Running<B, J>, Option<Running<B, J>>)
    requires forking { IsForking J.job B.of (B.of token) before.value left right below.items base }
    requires room { vec_len below < vec_capacity below }
    requires more { source.old.next < source.old.end }
{
    let mut below = below;
    let forked = match scene.board.fork(rt, token) {
        Ok(forked) => forked,
        Err((mut token, _)) => {
            drop(left);
            scene.board.halt(&mut token, Halt::Memory);
            let now = Running {
                token,
                body: right,
                mode: Mode::Stopped,
                below,
                base,
                of: PhantomData,
            };
            return (now, None);
        }
    };
    match forked {
        Forked::Inline { token } => {
            below.push_reserved(Below::Inline { right });
            let now = Running {
                token,
                body: left,
                mode: Mode::Goes,
                below,
                base,
                of: PhantomData,
            };
            (now, None)
        }
        Forked::Two {
            fork,
            left: token,
            right: other,
        } => set_apart(
            scene, source, fork, token, other, before, left, right, below, base,
        ),
    }
}

/// Makes the tasks of both strands of a fork with two tokens, each with its half of the pair: the left one goes on, the right one
/// waits.
fn set_apart<B: SharedBoard, J: RunName>(
    scene: &Scene<'_, B, J>,
    source: &mut Source<Memo<B::Token>, J>,
    fork: u32,
    token: B::Token,
    other: B::Token,
    before: Snapshot<Body>,
    left: Body,
    right: Body,
    below: Vec<Below<B::Token, J>>,
    base: Base<B::Token, J>,
) -> (Running<B, J>, Option<Running<B, J>>)
    requires forked { AreForkTokens J.job B.of (B.of token) (B.of other) fork before.value left right below.items base }
    requires room { vec_len below < vec_capacity below }
    requires more { source.old.next < source.old.end }
{
    let mut below = below;
    let memo = Memo {
        before,
        right: Snapshot::of(&other),
    };
    let (half, theirs) = source.pair(scene.pairs, &memo);
    below.push_reserved(Below::Left { fork, half });
    let waiting = Running {
        token: other,
        body: right,
        mode: Mode::Waits,
        below: Vec::new(scene.alloc),
        base: Base::Right { fork, half: theirs },
        of: PhantomData,
    };
    let now = Running {
        token,
        body: left,
        mode: Mode::Goes,
        below,
        base,
        of: PhantomData,
    };
    (now, Some(waiting))
}

//! Accesses, made and refused.
ghost use Rattle.std.specs.Prelude.{◌≡◌, MatchOption};
ghost use Rattle.cw_log.specs.Tokens.{IsOn, MayHalt};
ghost use Rattle.cw_pool.specs.Accesses.{IsAfter, MayFell, WantsNone, access_want};
ghost use Rattle.cw_tree.specs.declared.closed.Halt.TheVariants as halt;
ghost use Rattle.cw_body.specs.declared.stage.Stage.TheVariants as stage;

use crate::moves::halt_out_of_memory;
use crate::{Mode, RunName, Running, Scene};
use cw_body::Body;
use cw_log::{Access, SharedBoard};
use cw_strand::{Given, Want};
use cw_tree::{Conflict, Halt};
use std::sync::Wait;

/// Returns the cell that the strand wants to read or write, and the value to write.
fn access_of(want: Want) -> Option<(u32, Option<i64>)>
    ensures { MatchOption result (WantsNone want) (λ p. want ≡ access_want p.0 p.1) }
{
    match want {
        Want::Load(cell) => Some((cell, None)),
        Want::Store(cell, value) => Some((cell, Some(value))),
        _ => None,
    }
}

/// Returns the mode of a strand after `conflict`, which is in its token's log.
fn mode_after_conflict<B: SharedBoard, J: RunName>(
    scene: &Scene<'_, B, J>,
    token: &mut B::Token,
    body: &mut Body,
    conflict: &Conflict,
) -> Mode
    requires halt { conflict.now.attempt ≡ J.job.limits.aborts → MayHalt J.job.limits.aborts (B.of token.old) (halt.Budget 0) }
    requires victim { MayFell (B.of token.old) conflict.now }
    requires stage { body.old.stage ≡ stage.Goes }
    ensures { IsAfter J.job.limits.aborts conflict.now result (B.of token.old) (B.of token.new) body.old body.new }
{
    if conflict.attempt == scene.attempts {
        scene.board.halt(token, Halt::Budget { strand: 0 });
        return Mode::Stopped;
    }
    match conflict.victim {
        0 => Mode::Goes,
        to => {
            body.gives_up();
            Mode::Dies { to }
        }
    }
}

/// Reads or writes a cell for the strand, or has the access refused.
pub(crate) fn access_cell<B: SharedBoard, J: RunName, R: Wait>(
    rt: &R,
    scene: &Scene<'_, B, J>,
    now: &mut Running<B, J>,
) {
    let Mode::Goes = now.mode else {
        return;
    };
    let Some(want) = now.body.want() else {
        return;
    };
    let Some((cell, write)) = access_of(want) else {
        return;
    };
    let Ok(access) = scene.board.access(rt, &mut now.token, cell, write) else {
        return halt_out_of_memory(scene, now);
    };
    match access {
        Access::Value(value) => match now
            .body
            .answer(Given::of_access(write, value), scene.program)
        {
            Ok(()) => {}
            Err(_) => {
                scene.board.halt(&mut now.token, Halt::Memory);
                now.mode = Mode::Stopped;
            }
        },
        Access::Conflict(conflict) => {
            now.mode = mode_after_conflict(scene, &mut now.token, &mut now.body, &conflict);
        }
    }
}

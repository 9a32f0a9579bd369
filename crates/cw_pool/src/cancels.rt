//! Cancels: blocks that are given up.
use crate::moves::halt_out_of_memory;
use crate::{Mode, RunName, Running, Scene};
use cw_log::SharedBoard;
use cw_strand::{Given, Want};
use cw_tree::Halt;
use std::sync::Wait;

/// Gives up the strand's innermost block. The strand gets the list of what to write back, and goes on to do so.
pub(crate) fn cancel_block<B: SharedBoard, J: RunName, R: Wait>(
    rt: &R,
    scene: &Scene<'_, B, J>,
    now: &mut Running<B, J>,
) {
    let Mode::Goes = now.mode else {
        return;
    };
    let Some(Want::Cancel) = now.body.want() else {
        return;
    };
    let Ok(back) = scene.board.cancel(rt, &mut now.token) else {
        return halt_out_of_memory(scene, now);
    };
    match now.body.answer(Given::Back(back), scene.program) {
        Ok(()) => {}
        Err(_) => {
            scene.board.halt(&mut now.token, Halt::Memory);
            now.mode = Mode::Stopped;
        }
    }
}

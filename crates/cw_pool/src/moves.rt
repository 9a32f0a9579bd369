//! What a strand does by itself.
use crate::{Mode, RunName, Running, Scene};
use cw_log::SharedBoard;
use cw_strand::{Given, Want};
use cw_tree::Halt;

/// Stops the strand if the run has been halted.
pub(crate) fn check_stop<B: SharedBoard, J: RunName>(
    scene: &Scene<'_, B, J>,
    now: &mut Running<B, J>,
) {
    match scene.board.halted(&mut now.token) {
        true => {
            now.mode = Mode::Stopped;
        }
        false => {}
    }
}

/// Runs a strand that goes on to its next want, if it is not there yet.
pub(crate) fn run_to_want<B: SharedBoard, J: RunName>(
    scene: &Scene<'_, B, J>,
    now: &mut Running<B, J>,
) {
    let Mode::Goes = now.mode else {
        return;
    };
    match now.body.run(scene.program) {
        Ok(_) => {}
        Err(_) => {
            scene.board.halt(&mut now.token, Halt::Memory);
            now.mode = Mode::Stopped;
        }
    }
}

/// Stops a strand that ran out of memory.
pub(crate) fn halt_out_of_memory<B: SharedBoard, J: RunName>(
    scene: &Scene<'_, B, J>,
    now: &mut Running<B, J>,
) {
    let Mode::Goes = now.mode else {
        return;
    };
    scene.board.halt(&mut now.token, Halt::Memory);
    now.mode = Mode::Stopped;
}

/// Outputs a value for the strand.
pub(crate) fn put_out<B: SharedBoard, J: RunName>(
    scene: &Scene<'_, B, J>,
    now: &mut Running<B, J>,
) {
    let Mode::Goes = now.mode else {
        return;
    };
    let Some(Want::Out(value)) = now.body.want() else {
        return;
    };
    let Ok(()) = scene.board.out(&mut now.token, value) else {
        return halt_out_of_memory(scene, now);
    };
    match now.body.answer(Given::Nothing, scene.program) {
        Ok(()) => {}
        Err(_) => {
            scene.board.halt(&mut now.token, Halt::Memory);
            now.mode = Mode::Stopped;
        }
    }
}

/// Stops a strand that stands at a fault.
pub(crate) fn stop_at_fault<B: SharedBoard, J: RunName>(
    scene: &Scene<'_, B, J>,
    now: &mut Running<B, J>,
) {
    let Mode::Goes = now.mode else {
        return;
    };
    let Some(Want::Fault(kind)) = now.body.want() else {
        return;
    };
    scene
        .board
        .halt(&mut now.token, Halt::Fault { strand: 0, kind });
    now.mode = Mode::Stopped;
}

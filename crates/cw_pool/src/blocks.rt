//! Blocks: begun, ended and rolled back.
ghost use Rattle.std.specs.Prelude.{◌≡◌};
ghost use Rattle.cw_pool.specs.Blocks.{begin_at};

use crate::moves::halt_out_of_memory;
use crate::{Mode, RunName, Running, Scene};
use cw_log::SharedBoard;
use cw_strand::Want;
use cw_tree::{Halt, Kind, Node};
use std::sync::Wait;

/// Begins a block for the strand.
pub(crate) fn begin_block<B: SharedBoard, J: RunName>(
    scene: &Scene<'_, B, J>,
    now: &mut Running<B, J>,
) {
    let Mode::Goes = now.mode else {
        return;
    };
    let Some(Want::Begin) = now.body.want() else {
        return;
    };
    let Ok(()) = scene.board.begin(&mut now.token) else {
        return halt_out_of_memory(scene, now);
    };
    match now.body.begins(scene.program) {
        Ok(()) => {}
        Err(_) => {
            scene.board.halt(&mut now.token, Halt::Memory);
            now.mode = Mode::Stopped;
        }
    }
}

/// Ends the strand's innermost block.
pub(crate) fn end_block<B: SharedBoard, J: RunName>(
    scene: &Scene<'_, B, J>,
    now: &mut Running<B, J>,
) {
    let Mode::Goes = now.mode else {
        return;
    };
    let Some(Want::End) = now.body.want() else {
        return;
    };
    scene.board.commit(&mut now.token);
    match now.body.ends(scene.program) {
        Ok(()) => {}
        Err(_) => {
            scene.board.halt(&mut now.token, Halt::Memory);
            now.mode = Mode::Stopped;
        }
    }
}

/// Returns the begin stamp of the node with the number `place`, if it is a block.
pub(crate) fn begin_at(nodes: &[Node], place: u32) -> Option<u64>
    ensures { result ≡ begin_at nodes.now place }
{
    match nodes.get(place as usize) {
        Some(node) => match node.kind {
            Kind::Block => Some(node.stamp),
            _ => None,
        },
        None => None,
    }
}

/// Rolls back the innermost block of a strand that goes back. If that is the block to which it goes, the strand then stands at its
/// begin.
pub(crate) fn roll_block<B: SharedBoard, J: RunName, R: Wait>(
    rt: &R,
    scene: &Scene<'_, B, J>,
    now: &mut Running<B, J>,
) {
    let Mode::Dies { to } = now.mode else {
        return;
    };
    let place = scene.board.place(&now.token);
    let Some(begin) = begin_at(scene.board.nodes(&now.token), place) else {
        return;
    };
    scene.board.roll(rt, &mut now.token);
    if begin == to {
        now.body.back();
        now.mode = Mode::Goes;
    } else {
        now.body.forget();
    }
}

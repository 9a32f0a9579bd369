//! A step of a strand by itself.
ghost use Rattle.std.specs.Prelude.{◌≡◌};

use crate::access::access_cell;
use crate::blocks::{begin_block, end_block, roll_block};
use crate::cancels::cancel_block;
use crate::moves::{put_out, stop_at_fault};
use crate::{Mode, RunName, Running, Scene};
use cw_io::{Gate, Point};
use cw_log::SharedBoard;
use cw_strand::Want;
use cw_tree::{Kind, Node};
use std::sync::Wait;
use std::thread;
use std::thread::Threads;

/// Whether the last node is a refused access.
fn is_refused(nodes: &[Node]) -> bool {
    match nodes.last() {
        Some(node) => matches!(node.kind, Kind::Tried { .. }),
        None => false,
    }
}

/// Backs off after a refused access.
fn pause_if_refused<B: SharedBoard, J: RunName>(scene: &Scene<'_, B, J>, now: &Running<B, J>) {
    if let Mode::Goes = now.mode {
        if is_refused(scene.board.nodes(&now.token)) {
            thread::yield_now();
        }
    }
}

/// Does what the strand wants, except a fork or its end.
pub(crate) fn step<B: SharedBoard, J: RunName, G: Gate, R: Threads + Wait + Sync>(
    rt: &R,
    scene: &Scene<'_, B, J>,
    gate: &G,
    worker: u32,
    now: &mut Running<B, J>,
) {
    let Mode::Goes = now.mode else {
        return;
    };
    let Some(want) = now.body.want() else {
        return;
    };
    match want {
        Want::Begin => {
            gate.at(rt, worker, Point::Begin);
            begin_block(scene, now);
        }
        Want::End => {
            gate.at(rt, worker, Point::Commit);
            end_block(scene, now);
        }
        Want::Load(_) | Want::Store(..) => {
            gate.at(rt, worker, Point::Access);
            access_cell(rt, scene, now);
            pause_if_refused(scene, now);
        }
        Want::Out(_) => put_out(scene, now),
        Want::Fault(_) => stop_at_fault(scene, now),
        Want::Cancel => cancel_block(rt, scene, now),
        Want::Fork | Want::Sync | Want::Done => {}
    }
}

/// Rolls back a block of a strand that goes back. If the strand then stands at its begin again, backs off.
pub(crate) fn go_back<B: SharedBoard, J: RunName, R: Wait>(
    rt: &R,
    scene: &Scene<'_, B, J>,
    now: &mut Running<B, J>,
) {
    roll_block(rt, scene, now);
    if let Mode::Goes = now.mode {
        thread::yield_now();
    }
}

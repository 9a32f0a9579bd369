//! How a stolen right strand begins.
use crate::{Base, Mode, RunName, Running, Scene};
use cw_log::SharedBoard;
use std::sync::Wait;

/// Splits the fork of a right strand that waits, which then goes on. Returns false if another fork has to be split first; the
/// strand then waits as before.
pub(crate) fn try_split<B: SharedBoard, J: RunName, R: Wait>(
    rt: &R,
    scene: &Scene<'_, B, J>,
    now: &mut Running<B, J>,
) -> bool {
    let Mode::Waits = now.mode else {
        return true;
    };
    let Base::Right { fork, .. } = &now.base else {
        return true;
    };
    let fork = *fork;
    let true = now.below.is_empty() else {
        return true;
    };
    match scene.board.split(rt, &mut now.token, fork) {
        Ok(()) => {
            now.mode = Mode::Goes;
            true
        }
        Err(_) => false,
    }
}

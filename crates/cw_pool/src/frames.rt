//! Where the two strands of a stolen fork meet.
use crate::RunName;
use crate::boxes::{Task, TaskBox, pack};
use cw_base::OutOfMemory;
use cw_log::SharedBoard;
use std::alloc::Global;
use std::mem;
use std::sync::{Mutex, OnceLock, Wait};

/// The number of frames that are made at once.
const ROW: u64 = 1024;

/// Holds the task of the strand that came first.
pub(crate) type Frame<B, J> = Mutex<Option<TaskBox<B, J>>>;

#[derive(Drop)]
struct Row<B: SharedBoard, J: RunName> {
    frames: Vec<Frame<B, J>>,
}

/// The frames of a worker's forks, by their count. They are made a row at a time, before the worker forks into them.
#[derive(Drop)]
pub(crate) struct Frames<B: SharedBoard, J: RunName> {
    rows: Vec<OnceLock<Row<B, J>>>,
}

fn fresh_row<B: SharedBoard, J: RunName>(alloc: Global) -> Result<Row<B, J>, OutOfMemory> {
    let mut frames = Vec::new(alloc);
    frames.reserve(ROW as usize)?;
    for _ in 0..ROW {
        frames.push(Mutex::new(None))?;
    }
    Ok(Row { frames })
}

impl<B: SharedBoard, J: RunName> Frames<B, J> {
    /// Makes the list for `forks` forks. No frame is made yet.
    pub(crate) fn new(alloc: Global, forks: u32) -> Result<Frames<B, J>, OutOfMemory> {
        let mut rows = Vec::new(alloc);
        for _ in 0..u64::from(forks) / ROW + 1 {
            rows.push(OnceLock::new())?;
        }
        Ok(Frames { rows })
    }

    /// Makes the frame with this count, if it does not exist yet.
    pub(crate) fn make<R: Wait>(
        &self,
        rt: &R,
        alloc: Global,
        count: u64,
    ) -> Result<(), OutOfMemory> {
        let Some(row) = self.rows.get((count / ROW) as usize) else {
            return Err(OutOfMemory);
        };
        if row.get().is_some() {
            return Ok(());
        }
        let fresh = fresh_row(alloc)?;
        let _ = row.set(rt, fresh);
        Ok(())
    }

    /// Returns the frame with this count, if it was made.
    pub(crate) fn at(&self, count: u64) -> Option<&Frame<B, J>> {
        let row = self.rows.get((count / ROW) as usize)?.get()?;
        row.frames.get((count % ROW) as usize)
    }
}

/// Returns `mine` and the task that lies in the frame. If none lies there, leaves `mine` there.
pub(crate) fn meet<B: SharedBoard, J: RunName, R: Wait>(
    rt: &R,
    frame: &Frame<B, J>,
    mine: Task<B, J>,
) -> Option<(Task<B, J>, TaskBox<B, J>)> {
    let mut guard = frame.lock(rt);
    let held: &mut Option<TaskBox<B, J>> = &mut guard;
    match held.take() {
        Some(other) => Some((mine, other)),
        None => {
            drop(mem::replace(held, Some(pack(mine))));
            None
        }
    }
}

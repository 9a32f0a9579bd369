//! The workers of a run.
ghost use Rattle.std.specs.Thread.{IsSend, IsSync};

use crate::boxes::{Boxes, Task, TaskBox};
use crate::worker::{Common, OtherWorker, Worker};
use crate::{Memo, RunName};
use crossbeam_utils::CachePadded;
use cw_base::OutOfMemory;
use cw_deck::Thief;
use cw_io::Gate;
use cw_log::SharedBoard;
use cw_pair::{Pairs, Source};
use std::alloc::Global;
use std::sync::Wait;
use std::thread::Threads;
use std::{mem, thread};

pub(crate) type Crew<B, J> = Vec<Worker<B, J>>;

/// Makes `workers` workers, each with pair numbers of its own for its forks. They cannot steal yet.
fn new_workers<B: SharedBoard, J: RunName>(
    alloc: Global,
    workers: u32,
    pairs: &Pairs<Memo<B::Token>, J>,
    source: Source<Memo<B::Token>, J>,
) -> Result<Crew<B, J>, OutOfMemory> {
    let mut crew = Vec::new(alloc);
    let mut source = source;
    for number in 0..workers {
        let other = source.share(pairs);
        let mine = mem::replace(&mut source, other);
        crew.push(Worker {
            number,
            boxes: CachePadded::new(Boxes::new(alloc)?),
            others: Vec::new(alloc),
            source: mine,
        })?;
    }
    Ok(crew)
}

fn thief_of<B: SharedBoard, J: RunName>(
    worker: &mut Worker<B, J>,
) -> Result<Thief<TaskBox<B, J>>, OutOfMemory> {
    let boxes: &mut Boxes<B, J> = &mut worker.boxes;
    boxes.thief()
}

/// Gives each worker a thief of every other one, the next worker's first.
fn connect<B: SharedBoard, J: RunName>(crew: &mut [Worker<B, J>]) -> Result<(), OutOfMemory> {
    let count = crew.len();
    for mine in 0..count {
        for step in 1..count {
            let theirs = (mine + step) % count;
            let number = crew[theirs].number;
            let thief = thief_of(&mut crew[theirs])?;
            crew[mine].others.push(OtherWorker { number, thief })?;
        }
    }
    Ok(())
}

/// Makes `workers` workers, each of which may steal from all others.
pub(crate) fn make_workers<B: SharedBoard, J: RunName>(
    alloc: Global,
    workers: u32,
    pairs: &Pairs<Memo<B::Token>, J>,
    source: Source<Memo<B::Token>, J>,
) -> Result<Crew<B, J>, OutOfMemory> {
    let mut crew = new_workers(alloc, workers, pairs, source)?;
    connect(&mut crew)?;
    Ok(crew)
}

/// Runs one worker until the run is over, and lets it go.
fn run_worker<B: SharedBoard, J: RunName, G: Gate, R: Threads + Wait + Sync>(
    rt: &R,
    common: &Common<'_, B, J, G>,
    worker: Worker<B, J>,
    first: Option<Task<B, J>>,
) {
    let mut worker = worker;
    worker.work(rt, common, first);
    drop(worker);
}

/// Runs all workers until the run is over, the first one on the caller's thread. A worker whose thread could not be started is
/// missing.
pub(crate) fn run_workers<B: SharedBoard, J: RunName, G: Gate, R: Threads + Wait + Sync>(
    rt: &R,
    common: &Common<'_, B, J, G>,
    crew: Crew<B, J>,
    first: Task<B, J>,
) {
    thread::scope(
        thread::scope_env(),
        rt,
        move |scope| -> ()
            requires { IsSync R.row × IsSync B.row × IsSync G.row × IsSync J.row × IsSend J.row × IsSend B.Token.row }
        {
            let mut others = crew.into_iter();
            let mine = others.next();
            for worker in others {
                let _ = scope.spawn(move || run_worker(rt, common, worker, None));
            }
            match mine {
                Some(worker) => run_worker(rt, common, worker, Some(first)),
                None => {
                    drop(mine);
                    drop(first);
                }
            }
        },
    );
}

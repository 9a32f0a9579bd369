ghost use Rattle.std.specs.Prelude.{◌≡◌, ℕ, List, ◌<◌, ◌-◌, ◌∷◌, [], replicate, slice_set, vec_len, Some, IfOk, OnOk, length};
ghost use Rattle.cw_sim.specs.Workers.{idle, with_fork, worker_in};

use cw_base::OutOfMemory;
use std::alloc::Global;
use std::collections::VecDeque;

/// A worker. It runs in the left strand of each fork that waits in it. The right strand of such a fork has yet to start.
#[derive(Drop)]
pub(crate) struct WorkerInMemory {
    /// The strand that it runs, or `None` if it is idle.
    pub(crate) runs: Option<u32>,
    /// The forks that other workers may take from it, oldest first.
    pub(crate) deque: VecDeque<u32>,
    /// The forks that others may not take: their strands have no columns.
    pub(crate) inline: Vec<u32>,
}

ghost use Rattle.cw_sim.specs.WorkersInMemory.{first_with_forks, workers_next, IsLast, without_waiting, workers_of};

/// Returns a worker in which no fork waits.
fn resting_worker(alloc: Global, runs: Option<u32>) -> WorkerInMemory
    ensures runs { result.runs ≡ runs }
    ensures deque { result.deque.items ≡ [] }
    ensures inline { result.inline.items ≡ [] }
{
    WorkerInMemory {
        runs,
        deque: VecDeque::new(alloc),
        inline: Vec::new(alloc),
    }
}

/// Returns `workers` workers: the first runs strand 0, and the others are idle.
pub(crate) fn opening(alloc: Global, workers: u32) -> Result<Vec<WorkerInMemory>, OutOfMemory>
    requires { 0 < workers }
    ensures { IfOk result (λ ws. workers_of ws.items ≡ record idle { runs = Some 0 } ∷ replicate (workers - 1) idle) }
{
    let mut all = Vec::new(alloc);
    all.push(resting_worker(alloc, Some(0)))?;
    for _i in 1..workers {
        all.push(resting_worker(alloc, None))?;
    }
    Ok(all)
}

/// Returns the first worker after worker `w`, going round, from which a fork may be taken.
pub(crate) fn worker_to_rob(workers: &[WorkerInMemory], w: u32) -> Option<usize>
    requires { w < length workers.now }
    ensures { result ≡ first_with_forks (workers_of workers.now) (workers_next w (length workers.now)) }
{
    let count = workers.len();
    for i in 1..count {
        let v = (w as usize + i) % count;
        if !workers[v].deque.is_empty() {
            return Some(v);
        }
    }
    None
}

/// Makes worker `w` run this strand, or makes it idle.
pub(crate) fn with_run(workers: &mut Vec<WorkerInMemory>, w: u32, runs: Option<u32>)
    requires { w < vec_len workers.old }
    ensures { workers_of workers.new.items ≡ slice_set (workers_of workers.old.items) w (record (worker_in (workers_of workers.old.items) w) { runs = runs }) }
{
    let worker = &mut workers[w as usize];
    worker.runs = runs;
}

/// Takes the oldest fork from the deque of worker `w`.
pub(crate) fn take_oldest(workers: &mut Vec<WorkerInMemory>, w: usize) -> Option<u32>
    requires { w < vec_len workers.old }
    ensures { (f : ℕ) (fs : List ℕ) → (worker_in (workers_of workers.old.items) w).deque ≡ f ∷ fs → (result ≡ Some f)
        × (workers_of workers.new.items ≡ slice_set (workers_of workers.old.items) w (record (worker_in (workers_of workers.old.items) w) { deque = fs })) }
{
    let worker = &mut workers[w];
    worker.deque.pop_front()
}

/// Removes the fork that waits last in worker `w`.
pub(crate) fn take_newest(workers: &mut Vec<WorkerInMemory>, w: u32, _fork: u32)
    requires there { w < vec_len workers.old }
    requires last { IsLast (worker_in (workers_of workers.old.items) w) _fork }
    ensures { workers_of workers.new.items ≡ slice_set (workers_of workers.old.items) w (without_waiting _fork (worker_in (workers_of workers.old.items) w)) }
{
    let worker = &mut workers[w as usize];
    if worker.inline.pop().is_none() {
        worker.deque.pop_back();
    }
}

/// Makes a new fork wait in worker `w`: in its deque if the strands have columns, otherwise inline.
pub(crate) fn with_fork(
    workers: &mut Vec<WorkerInMemory>,
    w: u32,
    columns: bool,
    fork: u32,
) -> Result<(), OutOfMemory>
    requires { w < vec_len workers.old }
    ensures { OnOk result (workers_of workers.new.items ≡ slice_set (workers_of workers.old.items) w (with_fork columns fork (worker_in (workers_of workers.old.items) w))) }
{
    let worker = &mut workers[w as usize];
    if columns {
        worker.deque.push_back(fork)?;
    } else {
        worker.inline.push(fork)?;
    }
    Ok(())
}

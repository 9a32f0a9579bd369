ghost use Rattle.std.specs.Prelude.{length, IfOk};
ghost use Rattle.cw_job.specs.Jobs.{TakesWords};

use super::board::{recorded, replayed};
use super::{COUNTS, OUTER, WIDE, up_to};
use cw_base::OutOfMemory;
use cw_code::Limits;
use cw_io::{Gate, Point};
use cw_record::Record;
use cw_tree::Node;
use std::alloc::Global;
use std::sync::Wait;
use std::sync::atomic::{AtomicU64, Ordering};
use std::test::Fail;
use std::thread;
use std::thread::Threads;

// A worker, and a point that it passes.
type Pass = (u32, Point);

// The most turns of a wait.
const MOST_TURNS: u64 = 4_000_000;

// A gate that holds each worker at each point. Whenever all workers are held, it lets the next of `passes` go on. After the last
// one it holds nobody.
#[derive(Drop)]
struct Script<'a> {
    workers: u64,
    passes: &'a [Pass],
    held: AtomicU64,
    passed: AtomicU64,
    gave_up: AtomicU64,
}

impl<'a> Script<'a> {
    fn new(workers: u32, passes: &'a [Pass]) -> Script<'a> {
        Script {
            workers: u64::from(workers),
            passes,
            held: AtomicU64::new(0),
            passed: AtomicU64::new(0),
            gave_up: AtomicU64::new(0),
        }
    }

    fn next(&self) -> Option<Pass> {
        let passed = self.passed.load(Ordering::SeqCst) as usize;
        self.passes.get(passed).copied()
    }

    fn is_done(&self) -> bool {
        self.next().is_none()
    }

    fn holds_nobody(&self) -> bool {
        self.is_done() || self.gave_up.load(Ordering::SeqCst) != 0
    }

    // Whether all workers are held and this one goes on. A pass is taken off `held` before the next one can be seen.
    fn lets_pass(&self, worker: u32, point: Point) -> bool {
        match self.next() {
            Some((who, at)) => {
                who == worker && at == point && self.held.load(Ordering::SeqCst) == self.workers
            }
            None => false,
        }
    }

    fn hold(&self, worker: u32, point: Point) {
        for _ in 0..MOST_TURNS {
            if self.holds_nobody() {
                return;
            }
            if self.lets_pass(worker, point) {
                self.held.fetch_sub(1, Ordering::SeqCst);
                self.passed.fetch_add(1, Ordering::SeqCst);
                return;
            }
            thread::yield_now();
        }
        self.gave_up.store(1, Ordering::SeqCst);
    }
}

impl<'a> Gate for Script<'a> {
    fn at<R: Threads + Wait + Sync>(&self, _rt: &R, worker: u32, point: Point) {
        self.held.fetch_add(1, Ordering::SeqCst);
        self.hold(worker, point);
    }
}

// Returns the record of a run whose workers passed the points in this order.
fn led<R: Threads + Wait + Sync>(
    rt: &R,
    alloc: Global,
    text: &str,
    workers: u32,
    limits: Limits,
    passes: &[Pass],
) -> Result<Record, Fail>
    ensures { IfOk result (λ r. TakesWords r.program (length r.words)) }
{
    let gate = Script::new(workers, passes);
    let record = recorded(rt, alloc, text, workers, limits, &gate)?;
    if gate.is_done() {
        Ok(record)
    } else {
        drop(record);
        Err("the points were not passed in this order".into())
    }
}

// ## Where the points are

const BESIDE: &str =
    "cell c; cell d; fn main() { spawn { atomic { c = 1; } } d = 5; atomic { c = 2; } }";

const STOPPED: &str = "cell c; cell d; fn main() { spawn { c = 1; out 1 / 0; } d = 1; d = 2; }";

// Worker 1 steals `d = 5` and makes it before worker 0, which is at its begin, has begun. Then it comes to `c` after worker 0 has
// made its access and before it has committed.
const STOLEN: &[Pass] = &[
    (1, Point::Steal),
    (1, Point::Access),
    (0, Point::Begin),
    (1, Point::Begin),
    (0, Point::Access),
    (1, Point::Access),
    (1, Point::Begin),
    (0, Point::Commit),
    (1, Point::Access),
    (1, Point::Commit),
];

// Worker 1 is held before it steals, until worker 0 has taken back what it could have stolen.
const TAKEN_BACK: &[Pass] = &[
    (0, Point::Begin),
    (0, Point::Access),
    (0, Point::Commit),
    (0, Point::Access),
    (1, Point::Steal),
    (0, Point::Begin),
    (0, Point::Access),
    (0, Point::Commit),
];

// Worker 1 is refused, and has stopped before worker 0 commits.
const SPENT: &[Pass] = &[
    (0, Point::Begin),
    (0, Point::Access),
    (1, Point::Steal),
    (1, Point::Begin),
    (1, Point::Begin),
    (1, Point::Access),
    (0, Point::Commit),
];

// Worker 0 comes to its fault while worker 1 is held at the first of its two accesses.
const FAULT: &[Pass] = &[(1, Point::Steal), (0, Point::Access), (1, Point::Access)];

// A run of two workers, how it ends, and the stamp of each node, with that of a block's end.
#[derive(Clone, Copy, Drop)]
struct Trial<'a> {
    text: &'a str,
    limits: Limits,
    passes: &'a [Pass],
    ends: &'a str,
    stamps: &'a [(u64, u64)],
}

const fn row<'a>(
    text: &'a str,
    limits: Limits,
    passes: &'a [Pass],
    ends: &'a str,
    stamps: &'a [(u64, u64)],
) -> Trial<'a> {
    Trial {
        text,
        limits,
        passes,
        ends,
        stamps,
    }
}

fn have_stamps(nodes: &[Node], stamps: &[(u64, u64)]) -> bool {
    for (node, stamp) in nodes.iter().zip(stamps.iter()) {
        if (node.stamp, node.end) != *stamp {
            return false;
        }
    }
    nodes.len() == stamps.len()
}

// Whether a run comes to what is wanted.
fn is_wanted<R: Threads + Wait + Sync>(rt: &R, alloc: Global, trial: Trial) -> Result<bool, Fail> {
    let record = led(rt, alloc, trial.text, 2, trial.limits, trial.passes)?;
    let have_stamps = have_stamps(record.tree.nodes(), trial.stamps);
    let said = replayed(alloc, &record);
    drop(record);
    let said = said?;
    let ends = said.as_str() == trial.ends;
    drop(said);
    Ok(ends && have_stamps)
}

#[test]
fn workers_are_held_before_they_act(rt: HostRuntime) -> Result<(), Fail> {
    let table = [
        row(
            BESIDE,
            WIDE,
            STOLEN,
            "finished [2, 5] []",
            &[
                (0, 0),
                (1, 0),
                (0, 0),
                (3, 8),
                (5, 0),
                (0, 0),
                (2, 0),
                (4, 6),
                (0, 0),
                (7, 10),
                (9, 0),
            ],
        ),
        row(
            BESIDE,
            WIDE,
            TAKEN_BACK,
            "finished [2, 5] []",
            &[
                (0, 0),
                (1, 0),
                (0, 0),
                (2, 4),
                (3, 0),
                (0, 0),
                (5, 0),
                (6, 8),
                (7, 0),
            ],
        ),
        row(
            OUTER,
            up_to(1),
            SPENT,
            "budget",
            &[
                (0, 0),
                (1, 0),
                (0, 0),
                (2, 6),
                (3, 0),
                (0, 0),
                (4, 0),
                (5, 0),
                (0, 0),
            ],
        ),
        row(
            STOPPED,
            WIDE,
            FAULT,
            "fault Zero",
            &[(0, 0), (1, 0), (0, 0), (2, 0), (0, 0), (3, 0)],
        ),
    ];
    for trial in table {
        assert!(rt; is_wanted(&rt, rt.alloc(), trial)?);
    }
    Ok(())
}

// ## How many workers there are

// Each worker except the first steals the rest of main from the one before it, which is the last that it looks at. Then all of
// them are at the begin of a block.
fn one_by_one(alloc: Global, workers: u32) -> Result<Vec<Pass>, OutOfMemory> {
    let mut passes = Vec::new(alloc);
    for worker in 1..workers {
        for _ in 1..workers {
            passes.push((worker, Point::Steal))?;
        }
    }
    for worker in 0..workers {
        passes.push((worker, Point::Begin))?;
    }
    Ok(passes)
}

#[test]
fn four_and_eight_workers_take_part(rt: HostRuntime) -> Result<(), Fail> {
    for workers in [4, 8] {
        let passes = one_by_one(rt.alloc(), workers)?;
        let record = led(&rt, rt.alloc(), COUNTS, workers, WIDE, passes.as_slice());
        drop(passes);
        let record = record?;
        let said = replayed(rt.alloc(), &record);
        drop(record);
        let said = said?;
        let is_wanted = said.as_str() == "finished [40] []";
        drop(said);
        assert!(rt; is_wanted);
    }
    Ok(())
}

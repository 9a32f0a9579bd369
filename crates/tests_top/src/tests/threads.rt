use super::{COUNTS, answer_at, ran, status_at};
use cw_base::OutOfMemory;
use cw_io::{Gate, Point, SureSink, SureSource};
use cw_record::{Record, RecordEnd};
use cw_serial::{SerialEnd, serial, takes_words};
use cw_top::Reply;
use std::alloc::Global;
use std::hint;
use std::process::Abort;
use std::sync::Wait;
use std::sync::atomic::{AtomicU64, Ordering};
use std::test::Fail;
use std::thread::Threads;

// No block spends its attempts, however busy the machine is.
const PATIENT: &str = "--aborts=1000000000";

// Two blocks inside one, on two strands.
const TWO: &[u8] =
    b"cell c; fn main() { atomic { spawn { atomic { c = c + 1; } } atomic { c = c + 1; } } }";

const THOUSAND: &[u8] =
    b"cell c; fn main() { let i = 0; while i < 1000 { spawn { atomic { c = c + 1; } } i = i + 1; } }";

const THREE: &[u8] =
    b"cell c; fn main() { spawn { atomic { c = c + 1; } } spawn { atomic { c = c + 1; } } spawn { atomic { c = c + 1; } } }";

const FAULT: &[u8] =
    b"cell c; fn main() { spawn { atomic { c = c + 1; out 1 / 0; } } atomic { c = c + 1; } }";

#[test]
fn the_number_of_workers_does_not_show(rt: HostRuntime) -> Result<(), Fail> {
    for workers in ["1", "2", "3", "4", "5", "6", "7", "8"] {
        let words = ["run", "--workers", workers, PATIENT];
        let (status, text) = ran(&rt, &words, TWO)?;
        assert_eq!(rt; status, 0, "{workers} workers");
        assert_eq!(rt;
            text.as_slice(),
            b"c = 2\nend\n".as_slice(),
            "{workers} workers"
        );
    }
    Ok(())
}

#[test]
fn threads_come_to_what_one_memory_does(rt: HostRuntime) -> Result<(), Fail> {
    let table: [(&[&str], &[u8], u8, &[u8]); 6] = [
        (&["run", PATIENT], COUNTS, 0, b"out 1\nc = 1\nend\n"),
        (&["run", PATIENT], THOUSAND, 0, b"c = 1000\nend\n"),
        (
            &["run", "--workers=64", PATIENT],
            THOUSAND,
            0,
            b"c = 1000\nend\n",
        ),
        (&["run", "--strands", "2"], THREE, 0, b"c = 3\nend\n"),
        (&["run", "--strands=1"], THREE, 0, b"c = 3\nend\n"),
        (
            &["run", "--workers", "4"],
            FAULT,
            6,
            b"fault Zero in 0.1l\n",
        ),
    ];
    for (words, text, status, wanted) in table {
        let (said, told) = ran(&rt, words, text)?;
        assert_eq!(rt; said, status);
        assert_eq!(rt; told.as_slice(), wanted);
    }
    Ok(())
}

// The most turns of a wait.
const MOST_TURNS: u64 = 100_000_000;

// How often a worker has come to a gate, and to its point `until`.
#[derive(Drop)]
struct Visits {
    any: AtomicU64,
    until: AtomicU64,
}

impl Visits {
    fn none() -> Visits {
        Visits {
            any: AtomicU64::new(0),
            until: AtomicU64::new(0),
        }
    }
}

// A gate for two workers. The first one that comes to the point `at` waits there, until the other one has come to the point `until`
// as often from then on as `times` says. Before that, each waits until the other has come at all: otherwise one could do everything
// before the other's thread runs.
#[derive(Drop)]
struct Hold {
    at: Point,
    until: Point,
    times: u64,
    held: AtomicU64,
    gave_up: AtomicU64,
    first: Visits,
    second: Visits,
}

impl Hold {
    fn new(at: Point, until: Point, times: u64) -> Hold {
        Hold {
            at,
            until,
            times,
            held: AtomicU64::new(0),
            gave_up: AtomicU64::new(0),
            first: Visits::none(),
            second: Visits::none(),
        }
    }

    fn wait_for(&self, count: &AtomicU64, least: u64) {
        for _ in 0..MOST_TURNS {
            if least <= count.load(Ordering::SeqCst) {
                return;
            }
            hint::spin_loop();
        }
        self.gave_up.store(1, Ordering::SeqCst);
    }

    // Whether a worker was held, and the other one came.
    fn has_held(&self) -> bool {
        self.held.load(Ordering::SeqCst) != 0 && self.gave_up.load(Ordering::SeqCst) == 0
    }
}

impl Gate for Hold {
    fn at<R: Threads + Wait + Sync>(&self, _rt: &R, worker: u32, point: Point) {
        let (mine, other) = if worker == 0 {
            (&self.first, &self.second)
        } else {
            (&self.second, &self.first)
        };
        if mine.any.fetch_add(1, Ordering::SeqCst) == 0 {
            self.wait_for(&other.any, 1);
        }
        if point == self.until {
            mine.until.fetch_add(1, Ordering::SeqCst);
        }
        if point == self.at && self.held.fetch_add(1, Ordering::SeqCst) == 0 {
            let before = other.until.load(Ordering::SeqCst);
            self.wait_for(&other.until, before.saturating_add(self.times));
        }
    }
}

// What tests look at in a run at such a gate.
#[derive(Drop)]
struct HeldRun {
    status: u8,
    text: Vec<u8>,
    has_held: bool,
    was_refused: bool,
    is_replayed: bool,
}

fn is_end(end: &SerialEnd, memory: &[i64], outputs: &[i64]) -> bool {
    match end {
        SerialEnd::Finished {
            memory: cells,
            outputs: told,
        } => cells.as_slice() == memory && told.as_slice() == outputs,
        _ => false,
    }
}

// Whether the run is kept and finished, and one memory comes to the same end in the order that is kept.
fn is_replayed(alloc: Global, reply: &Reply) -> Result<bool, OutOfMemory> {
    let Some(run) = &reply.kept else {
        return Ok(false);
    };
    let RecordEnd::Finished { memory, outputs } = &run.end else {
        return Ok(false);
    };
    if !takes_words(&run.program, run.words.len()) {
        return Ok(false);
    }
    let words = run.words.as_slice();
    let end = serial(alloc, &run.program, words, run.limits, &run.order)?;
    let is_same = is_end(&end, memory.as_slice(), outputs.as_slice());
    drop(end);
    Ok(is_same)
}

fn was_refused(reply: &Reply) -> bool {
    match &reply.kept {
        Some(run) => !run.conflicts.as_slice().is_empty(),
        None => false,
    }
}

// Runs a program by two workers at this gate.
fn run_held<R: AllocGlobal + Threads + Wait + Sync>(
    rt: &R,
    text: &[u8],
    gate: &Hold,
) -> Result<HeldRun, Fail> {
    let mut source = SureSource::new(text.to_vec(rt.alloc())?, 100);
    let mut sink = SureSink::with_room(rt.alloc(), 100)?;
    let words = ["run", "--workers", "2", PATIENT];
    let reply = answer_at(rt, &words, &mut source, &mut sink, gate)?;
    let status = reply.status;
    let was_refused = was_refused(&reply);
    let is_replayed = is_replayed(rt.alloc(), &reply);
    drop(reply);
    let is_replayed = is_replayed?;
    Ok(HeldRun {
        status,
        text: sink.taken().to_vec(rt.alloc())?,
        has_held: gate.has_held(),
        was_refused,
        is_replayed,
    })
}

// Tries 1,000 spawned blocks. A worker waits at `at` until the other one has come to `until`.
fn try_thousand<R: AllocGlobal + Threads + Wait + Sync + Abort>(
    rt: &R,
    at: Point,
    until: Point,
) -> Result<(), Fail> {
    let run = run_held(rt, THOUSAND, &Hold::new(at, until, 1))?;
    assert!(rt; run.has_held);
    assert!(rt; run.status == 0);
    assert!(rt; run.text.as_slice() == b"c = 1000\nend\n".as_slice());
    assert!(rt; run.is_replayed);
    Ok(())
}

#[test]
fn a_steal_waits_for_a_commit(rt: HostRuntime) -> Result<(), Fail> {
    try_thousand(&rt, Point::Steal, Point::Commit)
}

#[test]
fn a_begin_waits_for_a_steal(rt: HostRuntime) -> Result<(), Fail> {
    try_thousand(&rt, Point::Begin, Point::Steal)
}

#[test]
fn an_access_waits_for_an_access(rt: HostRuntime) -> Result<(), Fail> {
    try_thousand(&rt, Point::Access, Point::Access)
}

#[test]
fn a_commit_waits_for_an_access(rt: HostRuntime) -> Result<(), Fail> {
    try_thousand(&rt, Point::Commit, Point::Access)
}

// Two threads therefore work at the same time, and one meets what the other has not committed. Whichever is held comes first.
#[test]
fn a_commit_waits_for_a_refused_access(rt: HostRuntime) -> Result<(), Fail> {
    let text = b"cell c; fn main() { spawn { atomic { c = 1; } } atomic { atomic { c = 2; } } }";
    let run = run_held(&rt, text, &Hold::new(Point::Commit, Point::Access, 2))?;
    assert!(rt; run.has_held);
    assert!(rt; run.was_refused);
    assert!(rt; run.status == 0);
    let told = run.text.as_slice();
    assert!(rt; told == b"c = 1\nend\n".as_slice() || told == b"c = 2\nend\n".as_slice());
    assert!(rt; run.is_replayed);
    Ok(())
}

// A gate that holds the first of three workers until both others have called it.
#[derive(Drop)]
struct Meeting {
    second: AtomicU64,
    third: AtomicU64,
}

impl Meeting {
    fn new() -> Meeting {
        Meeting {
            second: AtomicU64::new(0),
            third: AtomicU64::new(0),
        }
    }

    fn are_met(&self) -> bool {
        self.second.load(Ordering::SeqCst) == 1 && self.third.load(Ordering::SeqCst) == 1
    }

    fn hold(&self) {
        for _ in 0..MOST_TURNS {
            if self.are_met() {
                return;
            }
            hint::spin_loop();
        }
    }
}

impl Gate for Meeting {
    fn at<R: Threads + Wait + Sync>(&self, _rt: &R, worker: u32, _point: Point) {
        match worker {
            0 => self.hold(),
            1 => self.second.store(1, Ordering::SeqCst),
            2 => self.third.store(1, Ordering::SeqCst),
            _ => {}
        }
    }
}

// Three workers are therefore three threads.
#[test]
fn as_many_threads_as_asked_come_to_the_gate(rt: HostRuntime) -> Result<(), Fail> {
    let table: [(&[&str], &[u8]); 2] = [
        (&["run", "--workers=3"], THREE),
        (&["load", "--workers=3", "17"], b""),
    ];
    for (words, text) in table {
        let gate = Meeting::new();
        let status = status_at(&rt, words, text, &gate)?;
        assert_eq!(rt; status, 0);
        assert!(rt; gate.are_met());
    }
    Ok(())
}

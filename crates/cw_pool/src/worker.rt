//! A worker, and what it does step by step.
use crate::boxes::{Boxes, Task, TaskBox, take_up};
use crate::ends::{After, finish, may_end};
use crate::forks::fork;
use crate::frames::{Frame, Frames, meet};
use crate::idle::Idle;
use crate::joins::{join_stolen, take_back_task};
use crate::moves::{check_stop, halt_out_of_memory, run_to_want};
use crate::sides::{left_number, right_number};
use crate::splits::try_split;
use crate::tally::Tally;
use crate::turns::{go_back, step};
use crate::{Ended, Memo, Mode, RunName, Running, Scene};
use crossbeam_utils::CachePadded;
use cw_base::OutOfMemory;
use cw_deck::Thief;
use cw_io::{Gate, Point};
use cw_log::SharedBoard;
use cw_pair::{NUMBERS, Source};
use cw_strand::Want;
use std::sync::atomic::{AtomicU64, Ordering};
use std::sync::{Mutex, Wait};
use std::thread;
use std::thread::Threads;

/// The fewest rounds that a thief waits for, about four microseconds.
const LEAST_ROUNDS: u64 = 10_000;

/// How many rounds a thief waits for each fork that the run has made, about 25 nanoseconds: as long as a split needs for a column.
const ROUNDS_FOR_FORK: u64 = 64;

/// The most rounds that a thief waits for, about 40 milliseconds.
const MOST_ROUNDS: u64 = 100_000_000;

/// What all workers of a run share.
#[derive(Drop)]
pub(crate) struct Common<'a, B: SharedBoard, J: RunName, G: Gate> {
    pub(crate) scene: Scene<'a, B, J>,
    pub(crate) gate: &'a G,
    /// The frames of each worker's forks.
    pub(crate) frames: Vec<Frames<B, J>>,
    /// What each worker tells of its deque.
    pub(crate) tallies: Vec<CachePadded<Tally>>,
    pub(crate) end: Mutex<Option<Ended<B, J>>>,
    /// Not 0 once the run has ended.
    pub(crate) over: AtomicU64,
}

impl<'a, B: SharedBoard, J: RunName, G: Gate> Common<'a, B, J, G> {
    /// Returns the frame of the fork whose pair has this number.
    fn frame(&self, number: u64) -> Option<&Frame<B, J>> {
        self.frames
            .get((number / NUMBERS) as usize)?
            .at(number % NUMBERS)
    }

    /// Returns what the worker of this number tells of its deque.
    fn tally(&self, worker: u32) -> Option<&Tally> {
        let tally: &Tally = self.tallies.get(worker as usize)?;
        Some(tally)
    }

    /// Returns for how many rounds a task has to be at the front of a deque before it is stolen. A steal costs a split and a merge,
    /// which grow with the forks that the run has made, and others wait for them. So a thief waits about as long as a split takes,
    /// and the others have as much time as it.
    fn patience(&self) -> u64 {
        let mut forks: u64 = 0;
        for tally in self.tallies.iter() {
            forks = forks.saturating_add(tally.added());
        }
        forks
            .saturating_mul(ROUNDS_FOR_FORK)
            .clamp(LEAST_ROUNDS, MOST_ROUNDS)
    }

    /// Whether the same task is at the front of a deque for as long as a thief waits. No, if the run ends. Each round is a look at
    /// `over`, since a compiler leaves out a loop that does nothing.
    fn has_waited(&self, tally: &Tally) -> bool {
        let Some(front) = tally.front() else {
            return false;
        };
        for _ in 0..self.patience() {
            if self.is_over() {
                return false;
            }
        }
        tally.front() == Some(front)
    }

    fn is_over(&self) -> bool {
        self.over.load(Ordering::SeqCst) != 0
    }
}

/// Unreachable by design, though not by proof. Rather than go on from an unknown state, the worker spins here for ever.
pub(crate) fn never<R: Wait, T>(rt: &R) -> T
    ensures { ⊥ }
{
    for _ in rt.forever() {
        thread::yield_now();
    }
    unreachable!()
}

/// Another worker, from which this one may steal.
#[derive(Drop)]
pub(crate) struct OtherWorker<B: SharedBoard, J: RunName> {
    pub(crate) number: u32,
    pub(crate) thief: Thief<TaskBox<B, J>>,
}

#[derive(Drop)]
pub(crate) struct Worker<B: SharedBoard, J: RunName> {
    pub(crate) number: u32,
    pub(crate) boxes: CachePadded<Boxes<B, J>>,
    pub(crate) others: Vec<OtherWorker<B, J>>,
    pub(crate) source: Source<Memo<B::Token>, J>,
}

impl<B: SharedBoard, J: RunName> Worker<B, J> {
    /// Works until the run is over.
    pub(crate) fn work<G: Gate, R: Threads + Wait + Sync>(
        &mut self,
        rt: &R,
        common: &Common<'_, B, J, G>,
        first: Option<Task<B, J>>,
    ) {
        let mut now = first;
        let mut idle = Idle::new();
        for _ in rt.forever() {
            match now {
                Some(task) => {
                    now = self.turn(rt, common, task);
                }
                None => {
                    drop(now);
                    if common.is_over() {
                        return;
                    }
                    now = self.steal(rt, common);
                    if now.is_some() {
                        idle.reset();
                    } else {
                        idle.wait(rt);
                    }
                }
            }
        }
        drop(now);
    }

    /// Runs a strand to its want, and makes one step of it there. Returns the task with which the worker goes on.
    fn turn<G: Gate, R: Threads + Wait + Sync>(
        &mut self,
        rt: &R,
        common: &Common<'_, B, J, G>,
        task: Task<B, J>,
    ) -> Option<Task<B, J>> {
        let mut task = task;
        let now = &mut task.now;
        check_stop(&common.scene, now);
        run_to_want(&common.scene, now);
        if may_end(&common.scene, &now.token, &now.body, now.mode) {
            return self.finish(rt, common, task);
        }
        match now.mode {
            Mode::Goes => match now.body.want() {
                Some(Want::Fork) => return Some(self.fork(rt, common, task)),
                _ => step(rt, &common.scene, common.gate, self.number, now),
            },
            _ => go_back(rt, &common.scene, now),
        }
        Some(task)
    }

    /// Forks a strand, and goes on with the left one. The right one waits where it may be stolen before any of the two runs. All
    /// memory is taken before the board's fork.
    fn fork<G: Gate, R: Threads + Wait + Sync>(
        &mut self,
        rt: &R,
        common: &Common<'_, B, J, G>,
        task: Task<B, J>,
    ) -> Task<B, J> {
        let Task { home, mut now } = task;
        let scene = &common.scene;
        let Worker {
            number,
            boxes,
            source,
            ..
        } = self;
        let boxes: &mut Boxes<B, J> = boxes;
        let Ok(()) = make_frame(rt, common, *number, source.next()) else {
            halt_out_of_memory(scene, &mut now);
            return Task { home, now };
        };
        let Ok(empty) = boxes.room(scene.alloc) else {
            halt_out_of_memory(scene, &mut now);
            return Task { home, now };
        };
        let (now, waiting) = fork(rt, scene, source, now);
        match waiting {
            Some(right) => {
                note_added(common, *number);
                boxes.push(Task {
                    home: empty,
                    now: right,
                });
            }
            None => {
                drop(waiting);
                boxes.recycle(empty);
            }
        }
        Task { home, now }
    }

    /// Handles a strand that is over: it came to its end, died or was stopped.
    fn finish<G: Gate, R: Threads + Wait + Sync>(
        &mut self,
        rt: &R,
        common: &Common<'_, B, J, G>,
        task: Task<B, J>,
    ) -> Option<Task<B, J>> {
        let Task { home, now } = task;
        match finish(&common.scene, now) {
            Err(now) => Some(Task { home, now }),
            Ok(After::Goes(now)) => Some(Task { home, now }),
            Ok(After::Left(now)) => self.follow_left(rt, common, Task { home, now }),
            Ok(After::Right(now)) => {
                let number = right_number(&now);
                self.meet_at_frame(rt, common, number, Task { home, now }, false)
            }
            Ok(After::Ended(ended)) => {
                drop(home);
                *common.end.lock(rt) = Some(ended);
                common.over.store(1, Ordering::SeqCst);
                None
            }
        }
    }

    /// Goes on after the left strand of a fork: its right one waits here, or was stolen.
    fn follow_left<G: Gate, R: Threads + Wait + Sync>(
        &mut self,
        rt: &R,
        common: &Common<'_, B, J, G>,
        task: Task<B, J>,
    ) -> Option<Task<B, J>> {
        let boxes: &mut Boxes<B, J> = &mut self.boxes;
        let newest = boxes.pop();
        match newest {
            Some(waiting) => {
                note_removed(common, self.number);
                self.take_back_right(rt, common, task, waiting)
            }
            None => {
                drop(newest);
                let number = left_number(&task.now);
                self.meet_at_frame(rt, common, number, task, true)
            }
        }
    }

    /// Goes on with the right strand of a fork, which waits here, after its left one.
    fn take_back_right<G: Gate, R: Threads + Wait + Sync>(
        &mut self,
        rt: &R,
        common: &Common<'_, B, J, G>,
        task: Task<B, J>,
        waiting: Task<B, J>,
    ) -> Option<Task<B, J>> {
        let Task {
            home: emptied,
            now: right,
        } = waiting;
        let boxes: &mut Boxes<B, J> = &mut self.boxes;
        boxes.recycle(emptied);
        let Task { home, now } = task;
        match take_back_task(&common.scene, now, right) {
            Ok(now) => Some(Task { home, now }),
            Err(both) => {
                drop(both);
                drop(home);
                never(rt)
            }
        }
    }

    /// Lets a strand of a stolen fork wait for the other strand, or joins both.
    fn meet_at_frame<G: Gate, R: Threads + Wait + Sync>(
        &mut self,
        rt: &R,
        common: &Common<'_, B, J, G>,
        number: Option<u64>,
        task: Task<B, J>,
        is_left: bool,
    ) -> Option<Task<B, J>> {
        let Some(number) = number else {
            drop(task);
            return never(rt);
        };
        let Some(frame) = common.frame(number) else {
            drop(task);
            return never(rt);
        };
        match meet(rt, frame, task) {
            Some((task, other)) => self.join_at_frame(rt, common, task, other, is_left),
            None => None,
        }
    }

    /// Joins both strands of a stolen fork, and goes on behind it.
    fn join_at_frame<G: Gate, R: Threads + Wait + Sync>(
        &mut self,
        rt: &R,
        common: &Common<'_, B, J, G>,
        task: Task<B, J>,
        full: TaskBox<B, J>,
        is_left: bool,
    ) -> Option<Task<B, J>> {
        let other = take_up(full);
        let Some(other) = other else {
            drop(other);
            drop(task);
            return never(rt);
        };
        let Task { home, now } = task;
        let Task {
            home: emptied,
            now: then,
        } = other;
        let boxes: &mut Boxes<B, J> = &mut self.boxes;
        boxes.recycle(emptied);
        let met = if is_left {
            join_stolen(rt, &common.scene, now, then)
        } else {
            join_stolen(rt, &common.scene, then, now)
        };
        match met {
            Ok(now) => Some(Task { home, now }),
            Err(both) => {
                drop(both);
                drop(home);
                never(rt)
            }
        }
    }

    /// Steals the oldest task of another worker. Its strand begins once its fork is split, unless the run was stopped. No thief takes
    /// the next task of that worker at once after the split, so that the worker itself gets the tier's lock.
    fn steal<G: Gate, R: Threads + Wait + Sync>(
        &mut self,
        rt: &R,
        common: &Common<'_, B, J, G>,
    ) -> Option<Task<B, J>> {
        for other in self.others.iter_mut() {
            common.gate.at(rt, self.number, Point::Steal);
            let Some(tally) = common.tally(other.number) else {
                continue;
            };
            if !common.has_waited(tally) {
                continue;
            }
            if let Some(full) = other.thief.steal(rt) {
                tally.steal();
                let mut task = take_up(full)?;
                wait_for_split(rt, common, &mut task.now);
                tally.begin_anew();
                return Some(task);
            }
        }
        None
    }
}

/// Notes that the worker is about to let a task wait in its deque.
fn note_added<B: SharedBoard, J: RunName, G: Gate>(common: &Common<'_, B, J, G>, worker: u32) {
    if let Some(tally) = common.tally(worker) {
        tally.add();
    }
}

/// Notes that the worker has taken a task back.
fn note_removed<B: SharedBoard, J: RunName, G: Gate>(common: &Common<'_, B, J, G>, worker: u32) {
    if let Some(tally) = common.tally(worker) {
        tally.remove();
    }
}

/// Makes the frame of the worker's fork with this pair number.
fn make_frame<B: SharedBoard, J: RunName, G: Gate, R: Wait>(
    rt: &R,
    common: &Common<'_, B, J, G>,
    worker: u32,
    number: u64,
) -> Result<(), OutOfMemory> {
    match common.frames.get(worker as usize) {
        Some(frames) => frames.make(rt, common.scene.alloc, number % NUMBERS),
        None => Err(OutOfMemory),
    }
}

/// Retries until every fork outward of this one has been split.
fn wait_for_split<B: SharedBoard, J: RunName, G: Gate, R: Threads + Wait + Sync>(
    rt: &R,
    common: &Common<'_, B, J, G>,
    now: &mut Running<B, J>,
) {
    for _ in rt.forever() {
        check_stop(&common.scene, now);
        let Mode::Waits = now.mode else {
            return;
        };
        if try_split(rt, &common.scene, now) {
            return;
        }
        thread::yield_now();
    }
}

//! Boxes of tasks. Deques, lists and frames hold tasks in boxes. A running task keeps the box in which it came, so that it can be
//! left anywhere without taking memory.
ghost use Rattle.std.specs.Prelude.{◌≡◌, ◌<◌, ◌≤◌, MatchOption, OnOk};
ghost use Rattle.std.specs.Vec.{vec_len, vec_capacity};
ghost use Rattle.cw_pool.specs.Waiting.{with_spare, NoneWaits, Waited, Waits};

use crate::{RunName, Running};
use cw_base::OutOfMemory;
use cw_deck::{Deck, Thief};
use cw_log::SharedBoard;
use std::alloc::Global;
use std::mem;

/// The most empty boxes that a worker keeps for later.
const SPARE: usize = 64;

/// Room for a task.
#[derive(Drop)]
pub(crate) struct Room<B: SharedBoard, J: RunName> {
    task: Option<Running<B, J>>,
}

pub(crate) type TaskBox<B, J> = Box<Room<B, J>>;

/// A task that a worker runs, and the box in which it came.
#[derive(Drop)]
pub(crate) struct Task<B: SharedBoard, J: RunName> {
    pub(crate) home: TaskBox<B, J>,
    pub(crate) now: Running<B, J>,
}

pub(crate) fn empty_box<B: SharedBoard, J: RunName>(
    alloc: Global,
) -> Result<TaskBox<B, J>, OutOfMemory> {
    Ok(Box::new(alloc, Room { task: None })?)
}

/// Takes the task out of its box.
pub(crate) fn take_up<B: SharedBoard, J: RunName>(full: TaskBox<B, J>) -> Option<Task<B, J>> {
    let mut home = full;
    let room: &mut Room<B, J> = &mut home;
    let held = room.task.take();
    match held {
        Some(now) => Some(Task { home, now }),
        None => {
            drop(held);
            drop(home);
            None
        }
    }
}

/// Packs a task into its box.
pub(crate) fn pack<B: SharedBoard, J: RunName>(task: Task<B, J>) -> TaskBox<B, J> {
    let Task { mut home, now } = task;
    let room: &mut Room<B, J> = &mut home;
    drop(mem::replace(&mut room.task, Some(now)));
    home
}

/// The boxes of a worker: `deck` holds its own end of its deque, `kept` the tasks that the deque could not take, newest last, and
/// `spare` empty boxes, for which it has room from the start.
#[derive(Drop)]
pub(crate) struct Boxes<B: SharedBoard, J: RunName> {
    deck: Deck<TaskBox<B, J>>,
    kept: Vec<TaskBox<B, J>>,
    spare: Vec<TaskBox<B, J>>,
    ghost room_for_spare: { 64 ≤ vec_capacity spare },
}

impl<B: SharedBoard, J: RunName> Boxes<B, J> {
    pub(crate) fn new(alloc: Global) -> Result<Boxes<B, J>, OutOfMemory> {
        Ok(Boxes {
            deck: Deck::new(alloc)?,
            kept: Vec::new(alloc),
            spare: Vec::with_capacity(alloc, SPARE)?,
        })
    }

    pub(crate) fn thief(&mut self) -> Result<Thief<TaskBox<B, J>>, OutOfMemory> {
        self.deck.thief()
    }

    /// Returns an empty box, and makes room for it in the list `kept`.
    pub(crate) fn room(&mut self, alloc: Global) -> Result<TaskBox<B, J>, OutOfMemory>
        ensures room { OnOk result (vec_len self.new.kept < vec_capacity self.new.kept) }
        ensures waiting { (self.new.deck ≡ self.old.deck) × (self.new.kept.items ≡ self.old.kept.items) }
    {
        self.kept.reserve(1)?;
        match self.spare.pop() {
            Some(empty) => Ok(empty),
            None => empty_box(alloc),
        }
    }

    /// Lets a task wait here: in the deque, or in the list `kept` if the deque cannot take it. No thief looks into that list, so
    /// while it has tasks, later ones go there, too.
    pub(crate) fn push(&mut self, task: Task<B, J>)
        requires { vec_len self.old.kept < vec_capacity self.old.kept }
        ensures waits { (full : _) × Waits full self.old.deck self.new.deck self.old.kept.items self.new.kept.items }
        ensures spare { self.new.spare.items ≡ self.old.spare.items }
    {
        self.push_box(pack(task));
    }

    fn push_box(&mut self, full: TaskBox<B, J>)
        requires { vec_len self.old.kept < vec_capacity self.old.kept }
        ensures waits { Waits full self.old.deck self.new.deck self.old.kept.items self.new.kept.items }
        ensures spare { self.new.spare.items ≡ self.old.spare.items }
    {
        if !self.kept.is_empty() {
            self.kept.push_reserved(full);
            return;
        }
        match self.deck.push(full) {
            Ok(()) => {}
            Err(back) => self.kept.push_reserved(back),
        }
    }

    /// Removes and returns the newest task that waits here.
    pub(crate) fn pop(&mut self) -> Option<Task<B, J>> {
        take_up(self.pop_box()?)
    }

    fn pop_box(&mut self) -> Option<TaskBox<B, J>>
        ensures { MatchOption result
            (NoneWaits self.old.deck self.new.deck self.old.kept.items self.new.kept.items)
            (λ full. Waited full self.old.deck self.new.deck self.old.kept.items self.new.kept.items) }
    {
        match self.kept.pop() {
            Some(full) => Some(full),
            None => self.deck.pop(),
        }
    }

    /// Keeps an empty box for later use, unless there are enough. Takes no memory.
    pub(crate) fn recycle(&mut self, empty: TaskBox<B, J>)
        ensures spare { self.new.spare.items ≡ with_spare 64 empty self.old.spare.items }
        ensures waiting { (self.new.deck ≡ self.old.deck) × (self.new.kept.items ≡ self.old.kept.items) }
    {
        if self.spare.len() < SPARE {
            self.spare.push_reserved(empty);
        }
    }
}

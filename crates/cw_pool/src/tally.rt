//! What a worker tells of its deque, so that a thief can see whether the task at the front has waited there.
use std::sync::atomic::{AtomicU64, Ordering};

/// How many tasks wait in a worker's deque, a number that rises when the time of the task at its front begins anew, and how many tasks
/// the worker has added.
#[derive(Drop)]
pub(crate) struct Tally {
    waiting: AtomicU64,
    fronts: AtomicU64,
    added: AtomicU64,
}

impl Tally {
    pub(crate) fn new() -> Tally {
        Tally {
            waiting: AtomicU64::new(0),
            fronts: AtomicU64::new(0),
            added: AtomicU64::new(0),
        }
    }

    /// Returns how many tasks the worker has added.
    pub(crate) fn added(&self) -> u64 {
        self.added.load(Ordering::Relaxed)
    }

    /// Notes that the worker is about to add a task.
    pub(crate) fn add(&self) {
        self.waiting.fetch_add(1, Ordering::SeqCst);
        self.added.fetch_add(1, Ordering::Relaxed);
    }

    /// Notes that the worker has removed a task. If it was the last one, the next one that it adds is at the front.
    pub(crate) fn remove(&self) {
        if self.waiting.fetch_sub(1, Ordering::SeqCst) == 1 {
            self.fronts.fetch_add(1, Ordering::SeqCst);
        }
    }

    /// Notes that a thief has taken the task at the front.
    pub(crate) fn steal(&self) {
        self.waiting.fetch_sub(1, Ordering::SeqCst);
        self.begin_anew();
    }

    /// Lets the time of the task at the front begin anew.
    pub(crate) fn begin_anew(&self) {
        self.fronts.fetch_add(1, Ordering::SeqCst);
    }

    /// Returns the number of the task at the front, or `None` if no task waits.
    pub(crate) fn front(&self) -> Option<u64> {
        let front = self.fronts.load(Ordering::SeqCst);
        if self.waiting.load(Ordering::SeqCst) == 0 {
            None
        } else {
            Some(front)
        }
    }
}

//! How a worker waits that found no task.
use crossbeam_utils::Backoff;
use std::sync::Wait;
use std::thread::Parker;
use std::time::Duration;

/// The shortest sleep, in microseconds.
const SHORTEST: u64 = 50;

/// The longest sleep, in microseconds.
const LONGEST: u64 = 1_600;

/// Waits longer from time to time, until it is reset: it spins at first, then yields, then sleeps.
#[derive(Drop)]
pub(crate) struct Idle {
    backoff: Backoff,
    /// No one wakes what sleeps here: it only gives the time.
    parker: Parker,
    microseconds: u64,
}

impl Idle {
    pub(crate) fn new() -> Idle {
        Idle {
            backoff: Backoff::new(),
            parker: Parker::new(),
            microseconds: SHORTEST,
        }
    }

    pub(crate) fn reset(&mut self) {
        self.backoff.reset();
        self.microseconds = SHORTEST;
    }

    pub(crate) fn wait<R: Wait>(&mut self, rt: &R) {
        if !self.backoff.is_completed() {
            self.backoff.snooze();
            return;
        }
        self.parker
            .park_timeout(rt, Duration::from_micros(self.microseconds));
        self.microseconds = self.microseconds.saturating_mul(2).min(LONGEST);
    }
}

ghost use Rattle.std.specs.Prelude.{◌≡◌, ◌<◌, ◌+◌, ◌%◌};
ghost use Rattle.cw_sim.specs.Turns.{ListsWorkers, worker_at};

use cw_io::{Lcg, Schedule};

/// How many workers are drawn from a seed.
const DRAWN: u64 = 100_000;

/// Who makes the moves, one after another.
#[derive(Drop)]
pub(crate) struct Turns<'a> {
    schedule: &'a Schedule,
    workers: u32,
    /// For a seed: the generator, after as many draws as moves were made.
    drawing: Lcg,
}

impl<'a> Turns<'a> {
    ghost use Rattle.cw_sim.specs.TurnsInMemory.{AreAt};

    /// Returns the turns before the first move.
    pub(crate) fn new(schedule: &'a Schedule, workers: u32) -> Turns<'a>
        requires listed { ListsWorkers schedule.now workers }
        requires workers { 0 < workers }
        ensures at { AreAt result 0 }
        ensures schedule { result.schedule.now ≡ schedule.now }
        ensures workers { result.workers ≡ workers }
    {
        let seed = match schedule {
            Schedule::List(_) => 0,
            Schedule::Seeded(seed) => *seed,
        };
        Turns {
            schedule,
            workers,
            drawing: Lcg::new(seed),
        }
    }

    /// Returns the worker with number `n`, if workers take turns from 0 on.
    fn round(&self, n: u64) -> u32
        requires { 0 < self.now.workers }
        ensures { result ≡ n % self.now.workers }
    {
        (n % u64::from(self.workers)) as u32
    }

    /// Returns the worker that makes move `n`, which is the next move.
    pub(crate) fn worker_at(&mut self, n: u64) -> u32
        requires { AreAt self.old n }
        ensures worker { result ≡ worker_at self.old.schedule.now self.old.workers n }
        ensures low { result < self.old.workers }
        ensures at { AreAt self.new (n + 1) }
        ensures schedule { self.new.schedule.now ≡ self.old.schedule.now }
        ensures workers { self.new.workers ≡ self.old.workers }
    {
        match self.schedule {
            Schedule::List(list) => {
                let listed = list.len() as u64;
                if n < listed {
                    *list.at(n as usize)
                } else {
                    self.round(n - listed)
                }
            }
            Schedule::Seeded(_) => {
                if n < DRAWN {
                    self.drawing.draw() % self.workers
                } else {
                    self.round(n - DRAWN)
                }
            }
        }
    }
}

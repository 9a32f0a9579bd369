use cw_base::Seq;
use std::fmt;
use std::fmt::{Debug, Formatter, Write};

/// Which workers move first in a simulation, in order. After them the workers move in turn from 0, round and round.
#[derive(Drop)]
pub enum Schedule {
    /// The listed workers.
    List(Seq<u32>),
    /// 100,000 workers: each is the next draw of an `Lcg` that begins with this seed, modulo the number of workers.
    Seeded(u64),
}

impl Debug for Schedule {
    fn fmt<W: Write>(&self, f: &mut Formatter<W>) -> fmt::Result {
        match self {
            Schedule::List(workers) => f.debug_tuple("List").field(&workers.as_slice()).finish(),
            Schedule::Seeded(seed) => f.debug_tuple("Seeded").field(seed).finish(),
        }
    }
}

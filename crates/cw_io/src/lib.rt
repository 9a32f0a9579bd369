//! The outside as the program sees it: where bytes come from, where they go, where a test may hold a worker, and which
//! workers a simulation moves first, listed or drawn. Use it to read a source and to write to a sink. It also has sources
//! and sinks in memory, whose calls fail as a plan says.
//! Contracts cite `specs/Outside.antt` (what a source gives, what a sink takes, when either may fail). Those of sources
//! and sinks in memory cite `specs/MemSource.antt`, `specs/MemSink.antt` and `specs/FaultPlan.antt` (the calls that
//! fail), those of the generator `specs/Lcg.antt`.
#![tactic(auto)]

ghost use Rattle.cw_io.specs.Lcg.{FirstDraws};

mod fault_plan;
mod feed;
mod gate;
mod lcg;
mod mem_sink;
mod mem_source;
mod read_source;
mod schedule;
mod sink;
mod source;
mod store;
mod write_sink;

pub use gate::{Gate, OpenGate, Point};
pub use lcg::Lcg;
pub use mem_sink::{MemSink, SureSink};
pub use mem_source::{MemSource, SureSource};
pub use read_source::ReadSource;
pub use schedule::Schedule;
pub use sink::{Sink, write_all};
pub use source::{Failed, Source};
pub use write_sink::WriteSink;

#[cfg(test)]
mod tests;

/// The first draws, worked out.
pub fn worked_draws()
    ensures { FirstDraws }
{}

//! A strand in memory, together with what it needs to go back to the begins of the pending blocks around it.
//! Use it in a driver that rolls blocks back. If nothing is rolled back, `Runner` or `Standing` of `cw_job` is enough.
//! Contracts cite `specs/Bodies.antt`: what a body stands for, and how each call changes that. `specs/InMemory.antt` says what a
//! body keeps so that it can go back.
#![tactic(auto)]

mod begin;
mod body;
mod stage;

pub use body::Body;
pub use stage::Stage;

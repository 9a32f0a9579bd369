//! What is run: a program with its words and its limits. Also its strands in memory, each at what it wants next. Use it
//! to start the strands of a program and to move them.
//! Contracts cite `specs/Jobs.antt` (what is run), `specs/Memory.antt` (what memory holds), `specs/Room/Strands.antt`
//! (the strands of a job, which all other code knows by their law alone) and `specs/Room/Saves.antt` (the begins that
//! they may go back to).
#![tactic(auto)]

mod memory;
mod runner;
mod standing;
mod task;
mod words;

pub use memory::{first_memory, value_at};
pub use runner::Runner;
pub use standing::Standing;
pub use task::Task;
pub use words::takes_words;

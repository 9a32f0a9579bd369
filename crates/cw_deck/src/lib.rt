//! Deques of tasks for work stealing: the owner pushes and pops at the back, and thieves on other threads take at the front.
//! Use one deque for each worker. It adds two things to `crossbeam_deque`: a rule by which no task is lost, and contracts that say
//! what each end did.
//! Contracts cite `specs/Deeds.antt`: what ends do to a deque, and what it then holds. They see an end as the list of its deeds.
#![tactic(auto)]

mod deck;
mod deed;
mod laws;
mod ruled;

pub use deck::{Deck, Thief};
pub use deed::Deed;
pub use laws::no_task_is_lost;

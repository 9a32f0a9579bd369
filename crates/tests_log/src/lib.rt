//! Parts that tests of running threads share: a board that grants and refuses as it likes, walks over it, a list that is written
//! and read by one thread, and a half of a pair that goes to another thread. The tests that run them are in `tests_pool`, so that
//! these parts are proved once.
#![tactic(auto)]

mod conditions;
mod crossing;
mod fickle;
mod kept;
mod listed;
mod one_list;
mod token;
mod values;
mod walk;

pub use crossing::there_and_back;
pub use fickle::{Fickle, Odds};
pub use one_list::{OneList, read_back};
pub use token::StrandToken;
pub use walk::{Counts, Way, walked};

//! Pairs: one value that is known in two places. Use one when the two halves travel apart, through locks and deques, and meet again
//! later: both then stand for the same value. A half holds a number and no other bytes; what it stands for exists in proofs only.
//! Contracts cite `specs/Numbers.antt`. They see a half as its number and the value that it stands for (`Binding`), and a source as
//! the numbers that it may still give.
#![tactic(auto)]

mod law;
mod pairs;
mod view;

pub use pairs::{Half, NUMBERS, Opened, Pairs, Source, TableName};
pub use view::{Binding, Known};

//! What all crates share: the error of a call that ran out of memory, the types of lists and texts in public fields, a
//! stack, and a push into a list that has room. Use it wherever a call allocates.
//! Contracts see a `Seq` as the list of its elements, a `Stack` as the same list with the newest first, and a `Text` as
//! the list of its bytes.
#![tactic(auto)]

mod fitting;
mod memory;
mod seq;
mod stack;
mod text;

pub use fitting::put;
pub use memory::OutOfMemory;
pub use seq::Seq;
pub use stack::Stack;
pub use text::Text;

#[cfg(test)]
mod tests;

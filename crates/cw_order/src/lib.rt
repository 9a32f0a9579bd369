//! Order lists: lists in which one step tells which of two elements comes first. Also the counter of such steps.
//! Use one for elements that are inserted and removed while their order is asked for.
//! Contracts see an `OrderList` as `specs/Order.antt` has it: its elements in order, and how many it can hold.
#![tactic(auto)]

mod list;
mod ring;
mod steps;

pub use list::{Full, OrderList};
pub use steps::Steps;

#[cfg(test)]
mod tests;

//! A cell as a stack of accesses: its value, and the live accesses that made it, so that the newest ones can be undone.
//! Use it for memory whose newest accesses may have to be rolled back.
//! Contracts see a cell by its parts (`specs/Cells.antt`). What calls keep true of every tree is in the terms of
//! `specs/AccessStacks.antt` of `cw_tree`. `WorkedRun` tries both on a small run.
#![tactic(auto)]

ghost use Rattle.cw_stack.specs.WorkedRun.{AllAgree, Waits};

mod cell;

pub use cell::Cell;

#[cfg(test)]
mod tests;

/// Computed example: after each event of a small run a cell is what the definitions over the tree say.
pub fn worked_run()
    ensures agree { AllAgree }
    ensures waits { Waits }
{}

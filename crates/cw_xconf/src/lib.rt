//! The conflict query: tells in a bounded number of steps whether an access would conflict with the last access of its cell. It
//! also tells which pending blocks above the asker are above the last access.
//! Use `ask` over a `Tier` and `Gaps` in memory, and `ask_by` over anything else that implements `Columns`.
//! Contracts cite `specs/Costs.antt` (how many looks a verdict takes). From `cw_trace` they cite `specs/Query.antt` (the rules),
//! `specs/Told.antt` (reads and answers) and `specs/Verdicts.antt` (what a verdict says of the tree).
#![tactic(auto)]

mod held;
mod query;
mod steps;

pub use cw_trace::Verdict;
pub use held::Held;
pub use query::{ask, ask_by, contains_by};

//! Logs of strands, and the trait of shared boards: what a board does for the token of one strand, however the board is made.
//! Implement `SharedBoard` to run strands on a board of your own.
//! Contracts cite `specs/Tokens.antt` (the `Token` that a token stands for, how each call changes it, and what each call requires)
//! and `specs/Answers.antt` (what answers tell). All of it is about one strand: nothing there speaks of other strands, of what the
//! board holds, or of time.
#![tactic(auto)]

mod board;
mod laws;
mod log;
mod logs;
mod token;

pub use board::{Access, Forked, SharedBoard};
pub use laws::strands_go_on;
pub use log::{Above, Log};
pub use logs::{LogRoom, Logs, LogsIter};
pub use token::{Open, Phase, Side, Stop, Token};

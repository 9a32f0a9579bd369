//! The board of running threads: what a strand does, by steps of its token on the table that threads share. Use it where strands
//! run on several threads at once; one thread needs only `cw_record`, and a simulation `cw_core`.
//! Contracts cite `specs/Tokens.antt` of `cw_log`: what a token stands for, how each call changes that, and what each call
//! requires. Here they cite `specs/Boards.antt` (what a token of a board is, and what journals are), `specs/Sound.antt` (what is
//! true of a token between two calls), `specs/Turns.antt` (what it knows while it has a turn), `specs/Asked.antt` (questions and
//! their answers), `specs/Victims.antt` (what a refused access tells) and `specs/Cancelled.antt` (what a cancel puts back).
#![tactic(auto)]

mod access;
mod asking;
mod blocks;
mod board;
mod cancelling;
mod cells;
mod closing;
mod forks;
mod halts;
mod named;
mod rolling;
mod strands;
mod turns;
mod victims;

pub use asking::Moved;
pub use board::Board;
pub use named::{BoardName, NamedBoard, NamedToken};

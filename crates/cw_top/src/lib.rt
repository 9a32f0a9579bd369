//! The top call: all that the program does, from the words of its command and the bytes read to the bytes written and its status.
//! Use it to run the program from code, with a source and a sink of your own.
//! Contracts cite `specs/Words.antt` of `cw_words` (which words are which command), `specs/Load.antt` of `cw_gen` (the program of a
//! load), `specs/Recorded.antt` of `cw_pool` (who did a run on threads), and here `specs/Refusals.antt` (why a source is refused),
//! `specs/Reasons.antt` (why there is no run), `specs/Texts.antt` (notes), `specs/Taken.antt` (what was read), `specs/Runs.antt`
//! (the run that is kept), `specs/OverSource.antt` (what it is over the syntax of its source), `specs/Written.antt` (what was
//! written), `specs/Spent.antt` (budgets and moves that were spent), `specs/Audited.antt` (what a check says of a sheet) and
//! `specs/Outcome.antt` (what a status says).
#![tactic(auto)]

mod checking;
mod loading;
mod outcome;
mod racing;
mod reading;
mod reasons;
mod running;
mod telling;
mod text;
mod top;

pub use outcome::{Note, Reply};
pub use text::note_text;
pub use top::cwstm;

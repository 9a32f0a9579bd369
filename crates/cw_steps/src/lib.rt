//! The steps of a board, on one table that threads share: its words (clock, turns, stop flag, version, gap words, rows of columns),
//! its slots (cells, and the tier), a strand's token, and one call for each kind of step. `cw_board` is built on it. Use `cw_board`,
//! unless you build another board.
//! Contracts cite `specs/Places.antt` (where the words stand), `specs/Words.antt` (what the words of columns hold), `specs/Rule.antt`
//! (what is true of the table between any two steps), `specs/Views.antt` (what a token knows, and what each step makes of that),
//! `specs/Homes.antt` (what comes home when a turn is given back), `specs/Tracks.antt` (a token's log, and where its strand stands
//! in it), `specs/Stands.antt` (what a token stands for on a board, and what each step makes of that), `specs/Beneath.antt` (what is
//! beneath a token's place) and `specs/Leaving.antt` (what a closed table leaves; `Closings` of `cw_course` says how the logs make
//! one tree).
#![tactic(auto)]

mod beneath;
mod calls;
mod closing;
mod draw;
mod law;
mod marks;
mod places;
mod seats;
mod table;
mod track;
mod versions;
mod view;
mod written;

pub use draw::{Aim, Draw, Home};
pub use places::Place;
pub use table::{Shared, StrandToken};
pub use track::{Ahead, Stood, Track};
pub use view::{
    Change, Coming, Found, Key, Logged, Placed, Slot, Turn, View, Whereabouts, WordNote,
};
pub use written::{Touch, Touches};

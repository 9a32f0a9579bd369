//! The table, and a strand's token.
ghost use Rattle.std.specs.Prelude.{◌≡◌, suc, true, length, reverse};
ghost use Rattle.cw_steps.specs.Places.{all_words};
ghost use Rattle.cw_steps.specs.Tracks.{arounds_of, are_within, coming_of, halt_of, outer_of};
ghost use Rattle.cw_steps.specs.Around.{caught_up};

mod opening;
mod reads;

use crate::Track;
use crate::law::{BoardTable, TokenSeat};
use cw_log::Stop;

/// The words and slots that threads share.
#[derive(Drop)]
pub struct Shared {
    pub(crate) table: BoardTable,
    pub(crate) cells: u32,
    pub(crate) columns: u32,
    ghost cell_count: { cells ≡ length table.shared.key.first },
    ghost column_count: { columns ≡ table.shared.key.columns },
    ghost words: { table.shared.table_id.words ≡ all_words (length table.shared.key.first) table.shared.key.columns },
    ghost slots: { table.shared.table_id.slots ≡ suc (length table.shared.key.first) },
}

/// A strand's seat at the table, its log and where it stands in that, and how it was stopped, if it was.
#[derive(Drop)]
pub struct StrandToken {
    pub(crate) seat: TokenSeat,
    pub(crate) track: Track,
    pub(crate) stop: Option<Stop>,
    ghost column: { seat.me.0.column ≡ track.column },
    ghost gap: { seat.me.0.gap ≡ track.gap },
    ghost word: { seat.me.0.word ≡ track.word },
    ghost halt_is: { seat.me.0.halt ≡ halt_of stop },
    ghost outer: { seat.me.0.outer ≡ outer_of (reverse track.outer.items) },
    ghost coming: { seat.me.0.coming ≡ coming_of track.ahead },
    ghost arounds: { caught_up track.behind track.second seat.me.0.arounds ≡ arounds_of (reverse track.pending.items) (reverse track.outer.items) },
    ghost within: { are_within (length (reverse track.pending.items)) (reverse track.outer.items) ≡ true },
}

//! Gap words, the stop flag, and looks at words.
ghost use Rattle.std.specs.Prelude.{◌≡◌, ℕ, ◌+◌, ◌<◌, nat_lt};
ghost use Rattle.cw_tree.specs.Nodes.{stamp_of};
ghost use Rattle.cw_log.specs.Tokens as tokens;
ghost use Rattle.cw_steps.specs.Stands.{token_of};
ghost use Rattle.cw_steps.specs.Tracks.{track_of, with_word};
ghost use Rattle.cw_steps.specs.Places as places;
ghost use Rattle.cw_steps.specs.Views.{cells_of, halted_view, held_by, key_of, marked_view, noted_view, told_view, view_of, IsQuiet, IsTokenOf};

use crate::law::{Finds, Halting, Halts, Marking, Marks, Tells, TokenSeat, Words};
use crate::places::{Place, gap_word, stop_word, word_of_place};
use crate::table::{Shared, StrandToken};
use cw_log::Stop;
use cw_order::Steps;
use cw_tree::Halt;
use std::marker::Brand;
use std::sync::ledger::Ledger;

fn mark_as<W: Marking>(
    table: &Words,
    seat: &mut TokenSeat,
    cells: u32,
    gap: u32,
    stamp: u64,
    place: u32,
)
    requires what { (W.gap ≡ gap) × (W.place ≡ place) }
    requires table { (seat.old.table_id ≡ table.now.table_id) × (places.gap_word cells gap < table.now.table_id.words) }
    requires cells { cells ≡ cells_of table.now.key }
    ensures table { (seat.new.table_id ≡ seat.old.table_id) × (seat.new.id ≡ seat.old.id) }
    ensures seat { seat.new.me ≡ (marked_view (places.gap_word cells gap) stamp seat.old.me.0, seat.old.me.1) }
{
    let _ = place;
    let word = gap_word(cells, gap);
    table.store::<Marks<W>>(seat, word, stamp);
}

fn halt_as<W: Halting>(table: &Words, seat: &mut TokenSeat, cells: u32, halt: Halt, place: u32)
    requires what { (W.halt ≡ halt) × (W.place ≡ place) }
    requires table { (seat.old.table_id ≡ table.now.table_id) × (places.stop_word cells < table.now.table_id.words) }
    requires cells { cells ≡ cells_of table.now.key }
    ensures table { (seat.new.table_id ≡ seat.old.table_id) × (seat.new.id ≡ seat.old.id) }
    ensures seat { seat.new.me ≡ (halted_view (places.stop_word cells) halt seat.old.me.0, seat.old.me.1) }
{
    let _ = halt;
    let _ = place;
    let word = stop_word(cells);
    table.store::<Halts<W>>(seat, word, 1);
}

impl Shared {
    /// Writes the begin stamp of the block at the token's place into the word of `gap`, which the token's strand uses.
    pub fn set_gap(&self, token: &mut StrandToken, gap: u32)
        requires table { IsTokenOf self.now token.old }
        requires gap { (gap ≡ token.old.track.gap) × (gap < (key_of self.now).columns) }
        ensures table { IsTokenOf self.now token.new }
        ensures view { view_of token.new ≡ marked_view (places.gap_word (cells_of (key_of self.now)) gap) (stamp_of (track_of token.old.track).own.nodes token.old.track.place) (view_of token.old) }
        ensures slots { held_by token.new ≡ held_by token.old }
        ensures track { track_of token.new.track ≡ with_word (stamp_of (track_of token.old.track).own.nodes token.old.track.place) (track_of token.old.track) }
        ensures kept { (token.new.stop ≡ token.old.stop) × (token.new.track.spare ≡ token.old.track.spare) × (token.new.track.room ≡ token.old.track.room) }
        ensures token { token_of token.new ≡ token_of token.old }
    {
        let StrandToken { seat, track, .. } = token;
        let stamp = track.stamp();
        mark_as::<Brand>(
            &self.table.shared,
            seat,
            self.cells,
            gap,
            stamp,
            track.place,
        );
        track.word = stamp;
    }

    /// Writes 0 into the word of `gap`, which the token's strand uses.
    pub fn clear_gap(&self, token: &mut StrandToken, gap: u32)
        requires table { IsTokenOf self.now token.old }
        requires gap { (gap ≡ token.old.track.gap) × (gap < (key_of self.now).columns) }
        ensures table { IsTokenOf self.now token.new }
        ensures view { view_of token.new ≡ marked_view (places.gap_word (cells_of (key_of self.now)) gap) 0 (view_of token.old) }
        ensures slots { held_by token.new ≡ held_by token.old }
        ensures track { track_of token.new.track ≡ with_word 0 (track_of token.old.track) }
        ensures kept { (token.new.stop ≡ token.old.stop) × (token.new.track.spare ≡ token.old.track.spare) × (token.new.track.room ≡ token.old.track.room) }
        ensures token { token_of token.new ≡ token_of token.old }
    {
        let StrandToken { seat, track, .. } = token;
        mark_as::<Brand>(&self.table.shared, seat, self.cells, gap, 0, track.place);
        track.word = 0;
    }

    /// Sets the stop flag, and keeps `halt` in the token.
    pub fn stop(&self, token: &mut StrandToken, halt: Halt)
        requires table { IsTokenOf self.now token.old }
        requires quiet { IsQuiet (view_of token.old) }
        ensures table { IsTokenOf self.now token.new }
        ensures view { view_of token.new ≡ halted_view (places.stop_word (cells_of (key_of self.now))) halt (view_of token.old) }
        ensures slots { held_by token.new ≡ held_by token.old }
        ensures track { token.new.track ≡ token.old.track }
        ensures token { token_of token.new ≡ tokens.halted (token_of token.old) halt }
    {
        let StrandToken {
            seat,
            track,
            stop,
            ..
        } = token;
        halt_as::<Brand>(&self.table.shared, seat, self.cells, halt, track.place);
        *stop = Some(Stop {
            halt,
            column: track.first,
            strand: track.strand,
        });
    }

    /// Whether the stop flag is set. It is set only once some token has halted.
    pub fn is_stopped(&self, token: &mut StrandToken) -> bool
        requires table { IsTokenOf self.now token.old }
        requires quiet { IsQuiet (view_of token.old) }
        ensures table { IsTokenOf self.now token.new }
        ensures view { (found : ℕ) × (result ≡ nat_lt 0 found) × (view_of token.new ≡ told_view (places.stop_word (cells_of (key_of self.now))) found (view_of token.old)) }
        ensures slots { held_by token.new ≡ held_by token.old }
        ensures track { token.new.track ≡ token.old.track }
        ensures token { token_of token.new ≡ tokens.was_told (token_of token.old) result }
    {
        let StrandToken { seat, .. } = token;
        let word = stop_word(self.cells);
        let found = self.table.shared.load::<Tells>(seat, word);
        found > 0
    }

    /// Reads the word `at`, and counts the read. `version` is the version that the caller goes by, if it goes by one. Nothing is known
    /// of the value except that it was found there: the rule does not speak of gap words and rows yet.
    pub fn load<K: Ledger>(
        &self,
        token: &mut StrandToken,
        at: Place,
        version: Option<u64>,
        looks: &mut Steps<K>,
    ) -> u64
        requires table { IsTokenOf self.now token.old }
        requires there { places.IsThere (key_of self.now).columns at }
        ensures table { IsTokenOf self.now token.new }
        ensures view { view_of token.new ≡ noted_view (places.word_of_place (cells_of (key_of self.now)) (key_of self.now).columns at) result (view_of token.old) }
        ensures slots { held_by token.new ≡ held_by token.old }
        ensures track { token.new.track ≡ token.old.track }
        ensures token { token_of token.new ≡ token_of token.old }
        ensures looks { looks.new ≡ looks.old + 1 }
    {
        let _ = version;
        looks.tick();
        let StrandToken { seat, .. } = token;
        let word = word_of_place(self.cells, self.columns, at);
        self.table.shared.load::<Finds>(seat, word)
    }
}

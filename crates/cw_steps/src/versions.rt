//! The rows of columns, and their version: a change of the tier is shown between an odd version and the next even one. Whoever
//! holds the tier's lock makes the version odd, stores each word that the change touches, and makes it even. In between it neither
//! takes memory nor another lock, and does not look at the stop flag.
ghost use Rattle.std.specs.Prelude.{◌≡◌, ◌<◌};
ghost use Rattle.cw_steps.specs.Places as places;
ghost use Rattle.cw_steps.specs.Stands.{token_of};
ghost use Rattle.cw_steps.specs.Views.{cells_of, even_view, held_by, key_of, odd_view, stored_row, stored_view, view_of, CanChange, CanMakeEven, CanStore, CanStoreRow, IsTokenOf};

use crate::law::{Changing, Evening, Evens, MakesOdd, Stores, Storing, TokenSeat, Words};
use crate::places::{Place, as_word, version_word, word_of_place};
use crate::table::{Shared, StrandToken};
use cw_trace::{Row, Tier};
use std::marker::Brand;

fn make_odd_as<W: Changing>(table: &Words, seat: &mut TokenSeat, cells: u32, come: &Tier)
    requires what { (W.word ≡ places.version_word cells) × (W.come ≡ come.now) }
    requires table { (seat.old.table_id ≡ table.now.table_id) × (places.version_word cells < table.now.table_id.words) }
    requires cells { cells ≡ cells_of table.now.key }
    requires fits { CanChange table.now.key seat.old.me.0 come.now }
    ensures table { (seat.new.table_id ≡ seat.old.table_id) × (seat.new.id ≡ seat.old.id) }
    ensures seat { seat.new.me ≡ (odd_view come.now seat.old.me.0, seat.old.me.1) }
{
    let _ = come;
    table.fetch_add::<MakesOdd<W>>(seat, version_word(cells), 1);
}

fn store_as<W: Storing>(
    table: &Words,
    seat: &mut TokenSeat,
    cells: u32,
    columns: u32,
    at: Place,
    value: u64,
)
    requires what { (W.word ≡ places.word_of_place cells columns at) × (W.value ≡ value) }
    requires table { (seat.old.table_id ≡ table.now.table_id) × (places.word_of_place cells columns at < table.now.table_id.words) }
    requires key { (cells ≡ cells_of table.now.key) × (columns ≡ table.now.key.columns) }
    requires fits { CanStore table.now.key seat.old.me.0 at value }
    ensures table { (seat.new.table_id ≡ seat.old.table_id) × (seat.new.id ≡ seat.old.id) }
    ensures seat { seat.new.me ≡ (stored_view (places.word_of_place cells columns at) seat.old.me.0, seat.old.me.1) }
{
    let word = word_of_place(cells, columns, at);
    table.store::<Stores<W>>(seat, word, value);
}

fn make_even_as<W: Evening>(table: &Words, seat: &mut TokenSeat, cells: u32)
    requires what { W.word ≡ places.version_word cells }
    requires table { (seat.old.table_id ≡ table.now.table_id) × (places.version_word cells < table.now.table_id.words) }
    requires cells { cells ≡ cells_of table.now.key }
    requires fits { CanMakeEven table.now.key seat.old.me.0 }
    ensures table { (seat.new.table_id ≡ seat.old.table_id) × (seat.new.id ≡ seat.old.id) }
    ensures seat { seat.new.me ≡ (even_view seat.old.me.0, seat.old.me.1) }
{
    table.fetch_add::<Evens<W>>(seat, version_word(cells), 1);
}

impl Shared {
    /// Makes the version odd before a change. `come` is the tier after it.
    pub fn version_odd(&self, token: &mut StrandToken, come: &Tier)
        requires table { IsTokenOf self.now token.old }
        requires fits { CanChange (key_of self.now) (view_of token.old) come.now }
        ensures table { IsTokenOf self.now token.new }
        ensures view { view_of token.new ≡ odd_view come.now (view_of token.old) }
        ensures slots { held_by token.new ≡ held_by token.old }
        ensures track { token.new.track ≡ token.old.track }
        ensures stop { token.new.stop ≡ token.old.stop }
        ensures token { token_of token.new ≡ token_of token.old }
    {
        let StrandToken { seat, .. } = token;
        make_odd_as::<Brand>(&self.table.shared, seat, self.cells, come);
    }

    /// Writes one word of a column's row, while the version is odd.
    pub fn store(&self, token: &mut StrandToken, at: Place, value: u64)
        requires table { IsTokenOf self.now token.old }
        requires fits { CanStore (key_of self.now) (view_of token.old) at value }
        ensures table { IsTokenOf self.now token.new }
        ensures view { view_of token.new ≡ stored_view (places.word_of_place (cells_of (key_of self.now)) (key_of self.now).columns at) (view_of token.old) }
        ensures slots { held_by token.new ≡ held_by token.old }
        ensures track { token.new.track ≡ token.old.track }
        ensures stop { token.new.stop ≡ token.old.stop }
        ensures token { token_of token.new ≡ token_of token.old }
    {
        let StrandToken { seat, .. } = token;
        store_as::<Brand>(
            &self.table.shared,
            seat,
            self.cells,
            self.columns,
            at,
            value,
        );
    }

    /// Writes the row of `column`, while the version is odd.
    pub fn store_row(&self, token: &mut StrandToken, column: u32, row: &Row)
        requires table { IsTokenOf self.now token.old }
        requires fits { CanStoreRow (key_of self.now) (view_of token.old) column row.now }
        ensures table { IsTokenOf self.now token.new }
        ensures view { view_of token.new ≡ stored_row (key_of self.now) column (view_of token.old) }
        ensures slots { held_by token.new ≡ held_by token.old }
        ensures track { token.new.track ≡ token.old.track }
        ensures stop { token.new.stop ≡ token.old.stop }
        ensures token { token_of token.new ≡ token_of token.old }
    {
        self.store(token, Place::Owner(column), row.owner as u64);
        self.store(token, Place::Lead(column), as_word(row.lead));
        self.store(token, Place::Up(column), as_word(row.up));
        self.store(token, Place::Opening(column), row.opening);
        self.store(token, Place::Closing(column), row.closing);
    }

    /// Makes the version even, once each word that the change touches was stored.
    pub fn version_even(&self, token: &mut StrandToken)
        requires table { IsTokenOf self.now token.old }
        requires fits { CanMakeEven (key_of self.now) (view_of token.old) }
        ensures table { IsTokenOf self.now token.new }
        ensures view { view_of token.new ≡ even_view (view_of token.old) }
        ensures slots { held_by token.new ≡ held_by token.old }
        ensures track { token.new.track ≡ token.old.track }
        ensures stop { token.new.stop ≡ token.old.stop }
        ensures token { token_of token.new ≡ token_of token.old }
    {
        let StrandToken { seat, .. } = token;
        make_even_as::<Brand>(&self.table.shared, seat, self.cells);
    }
}

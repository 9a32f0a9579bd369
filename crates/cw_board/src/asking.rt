//! The conflict query over the words of the table. It takes no lock: it reads between two loads of the version, and its answer counts
//! only if the version was even and the same both times.
ghost use Rattle.std.specs.Prelude.{◌≡◌, ◌+◌, ◌≤◌, ◌%◌, ◌⊎◌, ◌&&◌, ◌∷◌, ℕ, nat_lt, IfOk, IfErr, OnOk, Some, true, false};
ghost use Rattle.cw_trace.specs.Query.{Covers, Gives};
ghost use Rattle.cw_xconf.specs.Costs.{looks_for, most_looks};
ghost use Rattle.cw_steps.specs.declared.places.Place.{Place};
ghost use Rattle.cw_steps.specs.Places.{IsThere};
ghost use Rattle.cw_steps.specs.Stands.{token_of};
ghost use Rattle.cw_steps.specs.Tracks.{track_of};
ghost use Rattle.cw_steps.specs.Views.{view_of, IsTokenOf};
ghost use Rattle.cw_board.specs.Boards.{cells_in, columns_of, IsOf};
ghost use Rattle.cw_steps.specs.Passes.{low_half, word_number, version_note, IsAnswered, ToldBy};
ghost use Rattle.cw_board.specs.Asked.{noted_since, HasMoved, HasRead, HeardFor, ReadsFor, ToldFor};

use crate::Board;
use cw_order::Steps;
use cw_steps::{Place, StrandToken};
use cw_trace::{Columns, Verdict};
use cw_tree::Mark;
use cw_xconf::{ask_by, contains_by};
use std::marker::{Brand, PhantomData};
use std::sync::ledger::Ledger;

/// The tier changed during a pass over its words, so the pass says nothing: `before` is the version that it loaded first, and is odd
/// or differs from `after`, the version that it loaded last.
#[derive(Clone, Copy, Debug)]
pub struct Moved {
    pub before: u64,
    pub after: u64,
}

/// Returns `Moved` unless both loads found the same even version.
pub(crate) fn settled(before: u64, after: u64) -> Result<(), Moved>
    ensures ok { OnOk result ((before % 2 ≡ 0) × (before ≡ after)) }
    ensures moved { IfErr result (λ m. (m.before ≡ before) × (m.after ≡ after) × ((before % 2 ≡ 1) ⊎ (before ≡ after → ⊥))) }
{
    if before % 2 == 0 && before == after {
        Ok(())
    } else {
        Err(Moved { before, after })
    }
}

/// Returns the number in the lower half of a word.
fn low_half_of(word: u64) -> u32
    ensures { result ≡ low_half word }
{
    (word % (1 << 32)) as u32
}

/// Returns the number that a word holds plus 1, or `None` if the word is 0.
fn number_of(word: u64) -> Option<u32>
    ensures { result ≡ word_number word }
{
    if word == 0 {
        None
    } else {
        Some(low_half_of(word - 1))
    }
}

/// Returns whether `inner` is above `opening` and below `closing`.
fn stands_between<L: Ledger>(
    opening: u64,
    inner: u64,
    closing: u64,
    compares: &mut Steps<L>,
) -> bool
    ensures value { result ≡ (nat_lt opening inner && nat_lt inner closing) }
    ensures cost { compares.new ≡ compares.old + 2 }
{
    compares.tick();
    compares.tick();
    opening < inner && inner < closing
}

/// Whether a table with this many columns has the place.
fn is_there(columns: u32, at: Place) -> bool
    ensures there { result ≡ true → IsThere columns at }
    ensures lacks { result ≡ false → IsThere columns at → ⊥ }
{
    match at {
        Place::Gap(column)
        | Place::Owner(column)
        | Place::Lead(column)
        | Place::Up(column)
        | Place::Opening(column)
        | Place::Closing(column) => column < columns,
        Place::Version => true,
    }
}

/// The question that a pass answers. Each pass picks it.
pub(crate) trait Asking {
    ghost use Rattle.std.specs.Prelude.{Option};
    ghost use Rattle.cw_board.specs.Asked.{Question};

    ghost question: { Option Question };
}

impl Asking for Brand {
    ghost use Rattle.std.specs.Prelude.{None};

    ghost question = { None };
}

/// A board's words, read by a token that notes each of them, at one version.
#[derive(Drop)]
pub(crate) struct Reader<'a, W> {
    board: &'a Board,
    token: &'a mut StrandToken,
    version: u64,
    of: PhantomData<W>,
}

impl<'a, W: Asking> Reader<'a, W> {
    /// Loads the word at a place. A place that the table lacks reads as 0.
    fn word_at<K: Ledger>(&mut self, at: Place, looks: &mut Steps<K>) -> u64
        requires { ReadsFor W.question self.old.board.now self.old.token }
        ensures ready { ReadsFor W.question self.new.board.now self.new.token }
        ensures heard { HeardFor W.question self.new.token.now at result }
        ensures kept { (p : Place) → (n : ℕ) → HeardFor W.question self.old.token.now p n → HeardFor W.question self.new.token.now p n }
        ensures looks { looks.new ≡ looks.old + 1 }
    {
        if is_there(self.board.shared.columns(), at) {
            self.board
                .shared
                .load(self.token, at, Some(self.version), looks)
        } else {
            looks.tick();
            0
        }
    }
}

impl<'a, W: Asking> Columns for Reader<'a, W> {
    ghost use Rattle.cw_board.specs.Asked.{ToldFor, ReadsFor};

    ghost told = { λ s. ToldFor W.question s.token.now };

    ghost ready = { λ s. ReadsFor W.question s.board.now s.token };

    fn owner<K: Ledger>(&mut self, strand: u32, looks: &mut Steps<K>) -> u32 {
        low_half_of(self.word_at(Place::Owner(strand), looks))
    }

    fn lead<K: Ledger>(&mut self, trace: u32, looks: &mut Steps<K>) -> Option<u32> {
        number_of(self.word_at(Place::Lead(trace), looks))
    }

    fn up<K: Ledger>(&mut self, trace: u32, looks: &mut Steps<K>) -> Option<u32> {
        number_of(self.word_at(Place::Up(trace), looks))
    }

    fn word<K: Ledger>(&mut self, gap: u32, looks: &mut Steps<K>) -> u64 {
        self.word_at(Place::Gap(gap), looks)
    }

    fn inside<K: Ledger, L: Ledger>(
        &mut self,
        trace: u32,
        outer: u32,
        looks: &mut Steps<K>,
        compares: &mut Steps<L>,
    ) -> bool {
        let opening = self.word_at(Place::Opening(outer), looks);
        let inner = self.word_at(Place::Opening(trace), looks);
        let closing = self.word_at(Place::Closing(outer), looks);
        stands_between(opening, inner, closing, compares)
    }
}

/// Returns the verdict on the access `last` and the asker's next one, by the words that the reader loads.
fn ask_with<W: Asking, K: Ledger, L: Ledger>(
    reader: &mut Reader<'_, W>,
    last: Mark,
    asker: u32,
    looks: &mut Steps<K>,
    compares: &mut Steps<L>,
) -> Verdict
    requires question { W.question ≡ Some (record { token = reader.old.token; cells = cells_in reader.old.board.now; columns = columns_of reader.old.board.now }) }
    requires table { IsTokenOf reader.old.board.now.shared reader.old.token.now }
    ensures same_reference { reader.new.token.ghost_name ≡ reader.old.token.ghost_name }
    ensures read { HasRead reader.old.token.now reader.new.token.now }
    ensures given { Gives (ToldBy (cells_in reader.old.board.now) (columns_of reader.old.board.now) (noted_since reader.old.token.now reader.new.token.now)) last asker result }
    ensures looks { looks.new ≤ looks.old + most_looks }
    ensures needed { looks.new ≤ looks.old + looks_for result }
    ensures compares { compares.new ≤ compares.old + 5 }
{
    ask_by(reader, last, asker, looks, compares)
}

/// Whether the pending block `block` is above the access `last`, by the words that the reader loads.
fn contains_with<W: Asking, K: Ledger, L: Ledger>(
    reader: &mut Reader<'_, W>,
    block: Mark,
    last: Mark,
    looks: &mut Steps<K>,
    compares: &mut Steps<L>,
) -> bool
    requires question { W.question ≡ Some (record { token = reader.old.token; cells = cells_in reader.old.board.now; columns = columns_of reader.old.board.now }) }
    requires table { IsTokenOf reader.old.board.now.shared reader.old.token.now }
    ensures same_reference { reader.new.token.ghost_name ≡ reader.old.token.ghost_name }
    ensures read { HasRead reader.old.token.now reader.new.token.now }
    ensures given { Covers (ToldBy (cells_in reader.old.board.now) (columns_of reader.old.board.now) (noted_since reader.old.token.now reader.new.token.now)) block last result }
{
    contains_by(reader, block, last, looks, compares)
}

impl Board {
    /// Loads the version of the tier's words.
    pub(crate) fn version<K: Ledger>(&self, token: &mut StrandToken, looks: &mut Steps<K>) -> u64
        requires table { IsTokenOf self.now.shared token.old }
        ensures read { HasRead token.old token.new }
        ensures noted { (view_of token.new).notes ≡ version_note (cells_in self.now) result ∷ (view_of token.old).notes }
        ensures looks { looks.new ≡ looks.old + 1 }
    {
        self.shared.load(token, Place::Version, None, looks)
    }

    /// Returns the verdict on the access `last` and the asker's next one, by the words that it loads.
    fn ask_words<K: Ledger, L: Ledger>(
        &self,
        token: &mut StrandToken,
        version: u64,
        last: Mark,
        asker: u32,
        looks: &mut Steps<K>,
        compares: &mut Steps<L>,
    ) -> Verdict
        requires table { IsTokenOf self.now.shared token.old }
        ensures read { HasRead token.old token.new }
        ensures given { Gives (ToldBy (cells_in self.now) (columns_of self.now) (noted_since token.old token.new)) last asker result }
        ensures looks { looks.new ≤ looks.old + most_looks }
        ensures needed { looks.new ≤ looks.old + looks_for result }
        ensures compares { compares.new ≤ compares.old + 5 }
    {
        let mut reader: Reader<'_, Brand> = Reader {
            board: self,
            token,
            version,
            of: PhantomData,
        };
        ask_with::<Brand, K, L>(&mut reader, last, asker, looks, compares)
    }

    /// Whether the pending block `block` is above the access `last`, by the words that it loads.
    pub(crate) fn contains_words<K: Ledger, L: Ledger>(
        &self,
        token: &mut StrandToken,
        version: u64,
        block: Mark,
        last: Mark,
        looks: &mut Steps<K>,
        compares: &mut Steps<L>,
    ) -> bool
        requires table { IsTokenOf self.now.shared token.old }
        ensures read { HasRead token.old token.new }
        ensures given { Covers (ToldBy (cells_in self.now) (columns_of self.now) (noted_since token.old token.new)) block last result }
    {
        let mut reader: Reader<'_, Brand> = Reader {
            board: self,
            token,
            version,
            of: PhantomData,
        };
        contains_with::<Brand, K, L>(&mut reader, block, last, looks, compares)
    }

    /// Asks whether the access `last` and the token's next one conflict, in one pass over the words.
    pub(crate) fn ask_once<K: Ledger, L: Ledger>(
        &self,
        token: &mut StrandToken,
        last: Mark,
        looks: &mut Steps<K>,
        compares: &mut Steps<L>,
    ) -> Result<Verdict, Moved>
        requires table { IsTokenOf self.now.shared token.old }
        ensures read { HasRead token.old token.new }
        ensures answered { IfOk result (IsAnswered (cells_in self.now) (columns_of self.now) last (track_of token.old.track).column (view_of token.old).notes (view_of token.new).notes) }
        ensures moved { IfErr result (HasMoved (cells_in self.now) (view_of token.old).notes (view_of token.new).notes) }
        ensures looks { looks.new ≤ looks.old + (most_looks + 2) }
        ensures needed { IfOk result (λ v. looks.new ≤ looks.old + (looks_for v + 2)) }
        ensures compares { compares.new ≤ compares.old + 5 }
    {
        let asker = token.column();
        let before = self.version(token, looks);
        let verdict = self.ask_words(token, before, last, asker, looks, compares);
        let after = self.version(token, looks);
        settled(before, after)?;
        Ok(verdict)
    }

    /// Asks whether the access `last` and the token's next one conflict. Takes no lock and no memory. Returns `Moved` if the tier
    /// was changing.
    pub fn ask<K: Ledger, L: Ledger>(
        &self,
        token: &mut StrandToken,
        last: Mark,
        looks: &mut Steps<K>,
        compares: &mut Steps<L>,
    ) -> Result<Verdict, Moved>
        requires of { IsOf self.now token.old }
        ensures of { IsOf self.now token.new }
        ensures read { HasRead token.old token.new }
        ensures token { token_of token.new ≡ token_of token.old }
        ensures word { (track_of token.new.track).word ≡ (track_of token.old.track).word }
        ensures answered { IfOk result (IsAnswered (cells_in self.now) (columns_of self.now) last (track_of token.old.track).column (view_of token.old).notes (view_of token.new).notes) }
        ensures moved { IfErr result (HasMoved (cells_in self.now) (view_of token.old).notes (view_of token.new).notes) }
        ensures looks { looks.new ≤ looks.old + (most_looks + 2) }
        // no read is made that decides nothing
        ensures needed { IfOk result (λ v. looks.new ≤ looks.old + (looks_for v + 2)) }
        ensures compares { compares.new ≤ compares.old + 5 }
    {
        self.ask_once(token, last, looks, compares)
    }
}

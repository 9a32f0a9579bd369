//! One call for each kind of step.
ghost use Rattle.std.specs.Prelude.{◌≡◌, ℕ, suc, ◌+◌, ◌<◌, ◌≤◌, ◌∷◌, [], true, false, Some};
ghost use Rattle.atomic_table.specs.Table.{rest};
ghost use Rattle.cw_steps.specs.Tracks.{added, added_home, brought, track_of, drawn, IsReady};
ghost use Rattle.cw_steps.specs.Homes.{MayGive};
ghost use Rattle.cw_steps.specs.Places as places;
ghost use Rattle.cw_steps.specs.Stands.{brought_token, drawn_token, token_of, EndsBlock};
ghost use Rattle.cw_steps.specs.declared.draw.Home.TheVariants as home_of;
ghost use Rattle.cw_steps.specs.declared.view.Slot.TheVariants as slot_of;
ghost use Rattle.cw_steps.specs.Views.{cells_of, cell_in, drew_view, gave_view, held_by, key_of, newest_slot, newest_used, slot_with, view_of, CanDraw, Holding, IsQuiet, IsTokenOf, IsWhole, LeavesIt, TakesIt};

use crate::draw::{Aim, Draw, Home};
use crate::law::{Drawing, Draws, Gives, Giving, Takes, Taking, TokenSeat, Words};
use crate::places::{CLOCK, turn_word};
use crate::table::{Shared, StrandToken};
use crate::view::Slot;
use cw_stack::Cell;
use cw_trace::Tier;
use std::marker::Brand;

fn draw_as<W: Drawing>(
    table: &Words,
    seat: &mut TokenSeat,
    what: &Draw,
    place: u32,
    behind: u32,
    second: bool,
) -> u64
    requires what { (W.what ≡ what.now) × (W.place ≡ place) × (W.behind ≡ behind) × (W.second ≡ second) }
    requires table { (seat.old.table_id ≡ table.now.table_id) × (0 < table.now.table_id.words) }
    requires number { 0 < seat.old.me.0.room }
    requires fits { CanDraw table.now.key seat.old.me.0 what.now }
    ensures table { (seat.new.table_id ≡ seat.old.table_id) × (seat.new.id ≡ seat.old.id) }
    ensures later { seat.old.me.0.seen < result }
    ensures seat { seat.new.me ≡ (drew_view what.now behind second result seat.old.me.0, seat.old.me.1) }
{
    let _ = what;
    let _ = place;
    let _ = behind;
    let _ = second;
    let found = table.fetch_add::<Draws<W>>(seat, CLOCK, 1);
    found + 1
}

fn take_as<W: Taking>(table: &Words, seat: &mut TokenSeat, slot: u32, aim: Aim, place: u32) -> bool
    requires what { (W.key ≡ table.now.key) × (W.slot ≡ slot) × (W.aim ≡ aim) × (W.place ≡ place) }
    requires table { (seat.old.table_id ≡ table.now.table_id) × (places.turn_word slot < table.now.table_id.words) }
    requires there { slot ≤ cells_of table.now.key }
    ensures table { (seat.new.table_id ≡ seat.old.table_id) × (seat.new.id ≡ seat.old.id) }
    ensures taken { result ≡ true → TakesIt table.now.key aim slot seat.old.me seat.new.me }
    ensures refused { result ≡ false → LeavesIt (places.turn_word slot) seat.old.me seat.new.me }
{
    let _ = aim;
    let _ = place;
    let word = turn_word(slot);
    let found = table.compare_exchange::<Takes<W>>(seat, word, 0, 1);
    found == 0
}

fn give_as<W: Giving>(table: &Words, seat: &mut TokenSeat, slot: u32, home: &Home, place: u32)
    requires what { (W.home ≡ home.now) × (W.place ≡ place) }
    requires table { (seat.old.table_id ≡ table.now.table_id) × (places.turn_word slot < table.now.table_id.words) }
    requires there { slot ≤ cells_of table.now.key }
    requires held { (y : _) × (newest_slot seat.old.me.0.turns ≡ Some slot) × (seat.old.me.1 ≡ (slot, y) ∷ rest seat.old.me.1) × IsWhole table.now.key seat.old.me.0.seen (newest_used seat.old.me.0.turns) slot y }
    ensures table { (seat.new.table_id ≡ seat.old.table_id) × (seat.new.id ≡ seat.old.id) }
    ensures seat { seat.new.me ≡ (gave_view home.now seat.old.me.0, rest seat.old.me.1) }
{
    let _ = home;
    let _ = place;
    let word = turn_word(slot);
    table.store::<Gives<W>>(seat, word, 0);
}

impl Shared {
    /// Returns the number of cells, which is also the number of the tier's slot.
    pub fn cells(&self) -> u32
        ensures { result ≡ cells_of (key_of self.now) }
    {
        self.cells
    }

    /// Returns the number of columns that the tier may have.
    pub fn columns(&self) -> u32
        ensures { result ≡ (key_of self.now).columns }
    {
        self.columns
    }

    /// Draws a number for `what`, and adds `what` to the token's log with that number.
    pub fn draw(&self, token: &mut StrandToken, what: Draw) -> u64
        requires table { IsTokenOf self.now token.old }
        requires number { 0 < (view_of token.old).room }
        requires fits { CanDraw (key_of self.now) (view_of token.old) what }
        requires block { EndsBlock what (token_of token.old) }
        requires ready { IsReady token.old.track (added what) }
        ensures table { IsTokenOf self.now token.new }
        ensures later { (view_of token.old).seen < result }
        ensures view { view_of token.new ≡ drew_view what token.old.track.behind token.old.track.second result (view_of token.old) }
        ensures slots { held_by token.new ≡ held_by token.old }
        ensures track { track_of token.new.track ≡ drawn what result (track_of token.old.track) }
        ensures stop { token.new.stop ≡ token.old.stop }
        ensures token { token_of token.new ≡ drawn_token what result (token_of token.old) }
        ensures ready { (n : ℕ) → IsReady token.old.track (added what + n) → IsReady token.new.track n }
        ensures kept { (token.new.track.spare ≡ token.old.track.spare) × (token.new.track.room ≡ token.old.track.room) }
    {
        let StrandToken { seat, track, .. } = token;
        let number = draw_as::<Brand>(
            &self.table.shared,
            seat,
            &what,
            track.place,
            track.behind,
            track.second,
        );
        track.draw(what, number);
        number
    }

    /// Tries to acquire the lock (the turn) of `slot`, and with it what lies there. Returns true if it did. Otherwise it found the
    /// lock held, and nothing else changed.
    pub fn take(&self, token: &mut StrandToken, slot: u32, aim: Aim) -> bool
        requires table { IsTokenOf self.now token.old }
        requires there { slot ≤ cells_of (key_of self.now) }
        requires quiet { IsQuiet (view_of token.old) }
        ensures table { IsTokenOf self.now token.new }
        ensures taken { result ≡ true → TakesIt (key_of self.now) aim slot token.old.seat.me token.new.seat.me }
        ensures refused { result ≡ false → LeavesIt (places.turn_word slot) token.old.seat.me token.new.seat.me }
        ensures track { token.new.track ≡ token.old.track }
        ensures stop { token.new.stop ≡ token.old.stop }
        ensures token { token_of token.new ≡ token_of token.old }
    {
        let StrandToken { seat, track, .. } = token;
        take_as::<Brand>(&self.table.shared, seat, slot, aim, track.place)
    }

    /// Replaces the cell in a slot whose lock is held by `new`, which may be none. Returns the cell that lay there.
    pub fn swap_cell(&self, token: &mut StrandToken, cell: u32, new: Option<Cell>) -> Option<Cell>
        requires table { IsTokenOf self.now token.old }
        requires held { (y : _) × Holding token.old cell y }
        ensures table { IsTokenOf self.now token.new }
        ensures view { view_of token.new ≡ view_of token.old }
        ensures out { (y : _) × (held_by token.old ≡ (cell, y) ∷ rest (held_by token.old)) × (result ≡ cell_in y) }
        ensures slots { held_by token.new ≡ (cell, slot_with new) ∷ rest (held_by token.old) }
        ensures track { token.new.track ≡ token.old.track }
        ensures token { token_of token.new ≡ token_of token.old }
    {
        let slot = match new {
            Some(cell) => Slot::Cell(cell),
            None => Slot::Empty,
        };
        let StrandToken { seat, .. } = token;
        match self.table.shared.exchange(seat, cell as usize, slot) {
            Slot::Cell(cell) => Some(cell),
            _ => None,
        }
    }

    /// Takes the tier out of its slot, whose lock is held.
    pub fn take_tier(&self, token: &mut StrandToken) -> Tier
        requires table { IsTokenOf self.now token.old }
        requires held { (x : _) × Holding token.old (cells_of (key_of self.now)) (slot_of.Tier x) }
        ensures table { IsTokenOf self.now token.new }
        ensures view { view_of token.new ≡ view_of token.old }
        ensures out { held_by token.old ≡ (cells_of (key_of self.now), slot_of.Tier result) ∷ rest (held_by token.old) }
        ensures slots { held_by token.new ≡ (cells_of (key_of self.now), slot_of.Empty) ∷ rest (held_by token.old) }
        ensures track { token.new.track ≡ token.old.track }
        ensures token { token_of token.new ≡ token_of token.old }
    {
        let StrandToken { seat, .. } = token;
        match self
            .table
            .shared
            .exchange(seat, self.cells as usize, Slot::Empty)
        {
            Slot::Tier(tier) => tier,
            _ => unreachable!(),
        }
    }

    /// Puts the tier into its slot, whose lock is held.
    pub fn put_tier(&self, token: &mut StrandToken, tier: Tier)
        requires table { IsTokenOf self.now token.old }
        requires held { (y : _) × Holding token.old (cells_of (key_of self.now)) y }
        ensures table { IsTokenOf self.now token.new }
        ensures view { view_of token.new ≡ view_of token.old }
        ensures slots { held_by token.new ≡ (cells_of (key_of self.now), slot_of.Tier tier) ∷ rest (held_by token.old) }
        ensures track { token.new.track ≡ token.old.track }
        ensures token { token_of token.new ≡ token_of token.old }
    {
        let StrandToken { seat, .. } = token;
        self.table
            .shared
            .exchange(seat, self.cells as usize, Slot::Tier(tier));
    }

    /// Releases the lock of `slot`, the newest one, and leaves there what lies in the slot. `home` tells exactly what was done to
    /// the tier.
    pub fn give(&self, token: &mut StrandToken, slot: u32, home: Home)
        requires table { IsTokenOf self.now token.old }
        requires there { slot ≤ cells_of (key_of self.now) }
        requires held { MayGive (key_of self.now) token.old slot home }
        requires ready { IsReady token.old.track (added_home home) }
        ensures table { IsTokenOf self.now token.new }
        ensures view { view_of token.new ≡ gave_view home (view_of token.old) }
        ensures slots { held_by token.new ≡ rest (held_by token.old) }
        ensures track { track_of token.new.track ≡ brought home (track_of token.old.track) }
        ensures stop { token.new.stop ≡ token.old.stop }
        ensures token { token_of token.new ≡ brought_token home (token_of token.old) }
        ensures plain { home ≡ home_of.Plain → token.new.track ≡ token.old.track }
        ensures ready { (n : ℕ) → IsReady token.old.track (added_home home + n) → IsReady token.new.track n }
        ensures kept { (token.new.track.spare ≡ token.old.track.spare) × (token.new.track.room ≡ token.old.track.room) }
    {
        let StrandToken { seat, track, .. } = token;
        give_as::<Brand>(&self.table.shared, seat, slot, &home, track.place);
        track.bring(home);
    }
}

//! Forks, and what splits and merges do to the tier, with its lock held.
ghost use Rattle.std.specs.Prelude.{◌≡◌, ◌+◌, ◌<◌, ◌≤◌, ◌==◌, ℕ, Bool, true, false, Some, IfOk, IfErr, OnOk, OnErr, if◌then◌else◌};
ghost use Rattle.cw_trace.specs.Columns as columns;
ghost use Rattle.cw_trace.specs.Traces.{Traces};
ghost use Rattle.cw_log.specs.Tokens.{merged, once_split, GoesFree, IsOn, MayMerge, MaySplit};
ghost use Rattle.cw_log.specs.Answers.{Forks};
ghost use Rattle.cw_steps.specs.declared.draw.Aim.TheVariants as aims;
ghost use Rattle.cw_steps.specs.declared.table.StrandToken.{StrandToken};
ghost use Rattle.cw_steps.specs.declared.view.Slot.{Slot};
ghost use Rattle.cw_steps.specs.declared.view.Slot.TheVariants as slot;
ghost use Rattle.cw_steps.specs.Homes.{ComesHome, IsAsShown, IsForkThere, IsMergedNow, IsSplitNow, IsTooEarly};
ghost use Rattle.cw_steps.specs.Stands.{brought_token, token_of};
ghost use Rattle.cw_steps.specs.Tracks.{track_of, CanPart, IsReady};
ghost use Rattle.cw_steps.specs.Views.{columns_for, held_by, key_of, newest_aim, newest_change, newest_tier, newest_used, stored_all, view_of, with_more, CanFork, CanStoreRow, IsQuiet, IsTierOf, IsTokenOf};
ghost use Rattle.cw_steps.specs.Words.{row_of};
ghost use Rattle.cw_board.specs.Boards.{budget_of, cells_in, columns_of, IsOf};
ghost use Rattle.cw_board.specs.Turns as turns;
ghost use Rattle.cw_board.specs.Turns.{places_changed, AreOf, BringsNothing, HasForked, HasShown, HasTier, IsChanged, IsHolding, IsOfTier};

use crate::Board;
use cw_base::OutOfMemory;
use cw_log::Forked;
use cw_steps::{Aim, Draw, Home, Place, StrandToken};
use cw_trace::{Early, Tier};
use std::sync::Wait;

/// Whether the fork is split in this tier, or `None` if there is no such fork.
fn split_state(tier: &Tier, fork: u32) -> Option<bool>
    ensures there { (split : Bool) → result ≡ Some split → IsForkThere split tier.now.columns fork }
    ensures found { (split : Bool) → IsForkThere split tier.now.columns fork → result ≡ Some split }
{
    if fork < tier.used() && fork % 2 == 1 {
        Some(tier.is_trace(fork))
    } else {
        None
    }
}

/// Splits the fork in the tier, if it is there and not split. No rule of the table says yet that it is.
fn split_tier(tier: &mut Tier, fork: u32) -> Result<(), Early>
    ensures used { columns.used tier.new.columns ≡ columns.used tier.old.columns }
    ensures room { tier.new.columns.room ≡ tier.old.columns.room }
    ensures ok { OnOk result (IsSplitNow fork tier.old.columns tier.new.columns) }
    ensures changed { OnOk result (IsChanged fork tier.old tier.new) }
    ensures early { IfErr result (λ e. IsTooEarly fork e.before tier.old.columns tier.new.columns) }
    ensures absent { IfErr result (λ e. (IsForkThere false tier.old.columns fork → ⊥) → e.before ≡ fork) }
    ensures same { OnErr result (tier.new ≡ tier.old) }
{
    match split_state(tier, fork) {
        Some(false) => tier.split(fork),
        Some(true) | None => Err(Early { before: fork }),
    }
}

/// Merges the fork in the tier and returns true, if it is there and split. Otherwise nothing changes. No rule of the table says yet
/// that the fork is there and split.
fn merge_tier(tier: &mut Tier, fork: u32) -> bool
    ensures used { columns.used tier.new.columns ≡ columns.used tier.old.columns }
    ensures room { tier.new.columns.room ≡ tier.old.columns.room }
    ensures merged { IsMergedNow fork tier.old.columns tier.new.columns }
    ensures changed { result ≡ true → IsChanged fork tier.old tier.new }
    ensures same { result ≡ false → tier.new ≡ tier.old }
{
    match split_state(tier, fork) {
        Some(true) => {
            tier.merge(fork);
            true
        }
        Some(false) | None => false,
    }
}

/// Returns the gap that both strands of a fork use: that of the strand that forked, or a new one if its word shows a block.
fn gap_for(word: u64, gap: u32, left: u32) -> u32
    ensures { result ≡ (if word == 0 then gap else left) }
{
    if word == 0 { gap } else { left }
}

/// Whether the column is one of the two of the fork.
fn is_of_fork(fork: u32, column: u32) -> bool
    ensures { result ≡ turns.is_of_fork fork column }
{
    column == fork || column > fork && column - fork == 1
}

impl Board {
    /// Waits for the tier's lock, and takes the tier out.
    pub(crate) fn hold_tier<R: Wait>(&self, rt: &R, token: &mut StrandToken, aim: Aim) -> Tier
        requires { IsOf self.now token.old }
        ensures held { IsHolding self.now (cells_in self.now) slot.Empty token.old token.new }
        ensures tier { HasTier self.now (slot.Tier result) token.new }
        ensures lay { newest_tier (view_of token.new).turns ≡ Some result }
        ensures aim { newest_aim (view_of token.new).turns ≡ aim }
        ensures quiet { IsQuiet (view_of token.new) }
    {
        let place = self.shared.cells();
        self.take_turn(rt, token, place, aim);
        self.shared.take_tier(token)
    }

    /// Stores the words of a column's row that the change at `fork` may have changed.
    fn show_column(&self, token: &mut StrandToken, tier: &Tier, fork: u32, column: u32)
        requires table { IsTokenOf self.now.shared token.old }
        requires fits { CanStoreRow (key_of self.now.shared) (view_of token.old) column (row_of tier.now column) }
        requires used { column < columns.used tier.now.columns }
        ensures table { IsTokenOf self.now.shared token.new }
        ensures view { view_of token.new ≡ stored_all (cells_in self.now) (columns_of self.now) (places_changed fork tier.now.columns column) (view_of token.old) }
        ensures slots { held_by token.new ≡ held_by token.old }
        ensures track { token.new.track ≡ token.old.track }
        ensures stop { token.new.stop ≡ token.old.stop }
        ensures token { token_of token.new ≡ token_of token.old }
    {
        let row = tier.row(column);
        if is_of_fork(fork, column) || tier.is_trace(column) {
            self.shared.store_row(token, column, &row);
        } else {
            self.shared
                .store(token, Place::Owner(column), row.owner as u64);
        }
    }

    /// Shows a tier that was changed at `fork`, to those who read its rows without its lock. The version is odd while the words that
    /// changed are stored.
    fn show_tier(&self, token: &mut StrandToken, tier: &Tier, fork: u32)
        requires held { (t : StrandToken) × (y : Slot) × IsHolding self.now (cells_in self.now) y t token.old }
        requires quiet { IsQuiet (view_of token.old) }
        requires few { columns.used tier.now.columns ≤ columns_of self.now }
        requires changed { (lay : Traces) × (newest_tier (view_of token.old).turns ≡ Some lay) × IsChanged fork lay tier.now }
        ensures shown { HasShown self.now tier.now token.old token.new }
    {
        let touched = tier.touched();
        self.shared.version_odd(token, tier);
        for column in touched {
            self.show_column(token, tier, fork, *column);
        }
        self.shared.version_even(token);
    }

    /// Puts the tier back and releases its lock, and tells what was done. What changed was shown before.
    pub(crate) fn leave_tier(&self, token: &mut StrandToken, tier: Tier, home: Home)
        requires held { (t : StrandToken) × (y : Slot) × IsHolding self.now (cells_in self.now) y t token.old }
        requires tier { HasTier self.now (slot.Tier tier) token.old }
        requires home { IsOfTier home }
        requires brings { ComesHome (view_of token.old).fork (view_of token.old).phase (newest_aim (view_of token.old).turns) home (newest_tier (view_of token.old).turns) (slot.Tier tier) }
        requires shown { IsAsShown (newest_tier (view_of token.old).turns) (newest_change (view_of token.old).turns) (slot.Tier tier) }
        ensures of { IsOf self.now token.new }
        ensures token { token_of token.new ≡ brought_token home (token_of token.old) }
        ensures word { (track_of token.new.track).word ≡ (track_of token.old.track).word }
    {
        let place = self.shared.cells();
        self.shared.put_tier(token, tier);
        self.shared.give(token, place, home);
    }

    /// Shows a change of the tier at `fork`, puts the tier back and releases its lock.
    fn leave_changed(&self, token: &mut StrandToken, tier: Tier, fork: u32, home: Home)
        requires held { (t : StrandToken) × (y : Slot) × IsHolding self.now (cells_in self.now) y t token.old }
        requires quiet { IsQuiet (view_of token.old) }
        requires tier { HasTier self.now (slot.Tier tier) token.old }
        requires changed { (lay : Traces) × (newest_tier (view_of token.old).turns ≡ Some lay) × IsChanged fork lay tier }
        requires home { IsOfTier home }
        requires brings { ComesHome (view_of token.old).fork (view_of token.old).phase (newest_aim (view_of token.old).turns) home (newest_tier (view_of token.old).turns) (slot.Tier tier) }
        ensures of { IsOf self.now token.new }
        ensures token { token_of token.new ≡ brought_token home (token_of token.old) }
        ensures word { (track_of token.new.track).word ≡ (track_of token.old.track).word }
    {
        self.show_tier(token, &tier, fork);
        self.leave_tier(token, tier, home);
    }

    /// Splits the fork, so that its right strand may go on while the left one does. Returns `Early` if another fork has to be split
    /// first.
    pub fn split<R: Wait>(&self, rt: &R, token: &mut StrandToken, fork: u32) -> Result<(), Early>
        requires of { IsOf self.now token.old }
        requires on { IsOn (budget_of self.now) (token_of token.old) }
        requires fork { MaySplit (token_of token.old) fork }
        ensures of { IsOf self.now token.new }
        ensures ok { OnOk result (token_of token.new ≡ once_split (token_of token.old)) }
        ensures err { OnErr result (token_of token.new ≡ token_of token.old) }
        ensures word { (track_of token.new.track).word ≡ (track_of token.old.track).word }
    {
        let tier = self.hold_tier(rt, token, Aim::Split);
        self.split_held(token, tier, fork)
    }

    /// Splits the fork in the tier that is held, and puts the tier back. Returns `Early` with the next fork outward if that one has to
    /// be split first. If the fork is not there or already split, `Early` names the fork itself.
    fn split_held(&self, token: &mut StrandToken, tier: Tier, fork: u32) -> Result<(), Early>
        requires held { (t : StrandToken) × (y : Slot) × IsHolding self.now (cells_in self.now) y t token.old }
        requires tier { HasTier self.now (slot.Tier tier) token.old }
        requires lay { newest_tier (view_of token.old).turns ≡ Some tier }
        requires aim { newest_aim (view_of token.old).turns ≡ aims.Split }
        requires quiet { IsQuiet (view_of token.old) }
        requires fork { MaySplit (token_of token.old) fork }
        ensures of { IsOf self.now token.new }
        ensures ok { OnOk result (token_of token.new ≡ once_split (token_of token.old)) }
        ensures err { OnErr result (token_of token.new ≡ token_of token.old) }
        ensures early { IfErr result (λ e. IsTooEarly fork e.before tier.columns tier.columns) }
        ensures absent { IfErr result (λ e. (IsForkThere false tier.columns fork → ⊥) → e.before ≡ fork) }
        ensures word { (track_of token.new.track).word ≡ (track_of token.old.track).word }
    {
        let mut tier = tier;
        match split_tier(&mut tier, fork) {
            Ok(()) => {
                let used = tier.used();
                self.leave_changed(token, tier, fork, Home::Split { fork, used });
                Ok(())
            }
            Err(Early { before }) => {
                let used = tier.used();
                self.leave_tier(token, tier, Home::Early { before, used });
                Err(Early { before })
            }
        }
    }

    /// Merges again what the split of `fork` parted, for the token of the strand that forked.
    pub fn merge<R: Wait>(&self, rt: &R, token: &mut StrandToken, fork: u32)
        requires of { IsOf self.now token.old }
        requires on { IsOn (budget_of self.now) (token_of token.old) }
        requires fork { MayMerge (token_of token.old) fork }
        ensures of { IsOf self.now token.new }
        ensures token { token_of token.new ≡ merged (token_of token.old) }
        ensures word { (track_of token.new.track).word ≡ (track_of token.old.track).word }
    {
        let mut tier = self.hold_tier(rt, token, Aim::Merge);
        let merged = merge_tier(&mut tier, fork);
        let used = tier.used();
        let home = Home::Merge { fork, used };
        if merged {
            self.leave_changed(token, tier, fork, home);
        } else {
            self.leave_tier(token, tier, home);
        }
    }

    /// Makes a fork where the token stands: with two tokens if there are columns for both strands, otherwise inline. Without memory it
    /// makes no step: no column is used, no number is drawn, and the word of the gap stays.
    pub fn fork<R: Wait>(
        &self,
        rt: &R,
        token: StrandToken,
    ) -> Result<Forked<StrandToken>, (StrandToken, OutOfMemory)>
        requires of { IsOf self.now token }
        requires goes { GoesFree (budget_of self.now) (token_of token) }
        ensures of { IfOk result (AreOf self.now) }
        ensures ok { IfOk result (λ f. Forks token_of (token_of token) f) }
        ensures err { IfErr result (λ e. IsOf self.now e.0 × (token_of e.0 ≡ token_of token)) }
        ensures unmoved { IfErr result (λ e. (e.0.seat ≡ token.seat) × (track_of e.0.track ≡ track_of token.track)) }
    {
        let mut token = token;
        match token.reserve(3) {
            Ok(()) => Ok(self.fork_ready(rt, token)),
            Err(error) => Err((token, error)),
        }
    }

    fn fork_ready<R: Wait>(&self, rt: &R, token: StrandToken) -> Forked<StrandToken>
        requires of { IsOf self.now token }
        requires ready { IsReady token.track 3 × CanPart token.track }
        ensures of { AreOf self.now result }
        ensures forks { Forks token_of (token_of token) result }
    {
        let mut token = token;
        let mut tier = self.hold_tier(rt, &mut token, Aim::Fork);
        match tier.fork(token.word(), token.column()) {
            Ok((left, _)) => self.fork_two(token, tier, left),
            Err(_) => self.fork_inline(token, tier),
        }
    }

    /// Makes a fork whose strands have the next two columns.
    fn fork_two(&self, token: StrandToken, tier: Tier, left: u32) -> Forked<StrandToken>
        requires held { (t : StrandToken) × (y : Slot) × IsHolding self.now (cells_in self.now) y t token }
        requires aim { newest_aim (view_of token).turns ≡ aims.Fork }
        requires quiet { IsQuiet (view_of token) }
        requires forked { (lay : Traces) × (newest_tier (view_of token).turns ≡ Some lay) × (tier.columns ≡ columns.forked (view_of token).word (view_of token).column lay.columns) × IsChanged left lay tier }
        requires columns { (left ≡ newest_used (view_of token).turns) × (left + 2 ≤ columns_of self.now) × ((view_of token).gap < left) }
        requires tier { IsTierOf (columns_of self.now) (left + 2) (slot.Tier tier) }
        requires ready { IsReady token.track 3 × CanPart token.track }
        ensures of { AreOf self.now result }
        ensures forks { Forks token_of (token_of token) result }
    {
        let gap = gap_for(token.word(), token.gap(), left);
        let mut token = token;
        self.show_tier(&mut token, &tier, left);
        self.make_fork(&mut token, tier, Home::Plain, left, left + 1, gap);
        let right = self.shared.split_seat(&mut token, false);
        Forked::Two {
            fork: left,
            left: token,
            right,
        }
    }

    /// Makes an inline fork, in the token's own column.
    fn fork_inline(&self, token: StrandToken, tier: Tier) -> Forked<StrandToken>
        requires held { (t : StrandToken) × (y : Slot) × IsHolding self.now (cells_in self.now) y t token }
        requires tier { HasTier self.now (slot.Tier tier) token }
        requires aim { newest_aim (view_of token).turns ≡ aims.Fork }
        requires quiet { IsQuiet (view_of token) }
        requires lay { newest_tier (view_of token).turns ≡ Some tier }
        requires full { columns_of self.now < newest_used (view_of token).turns + 2 }
        requires ready { IsReady token.track 3 × CanPart token.track }
        ensures of { AreOf self.now result }
        ensures forks { Forks token_of (token_of token) result }
    {
        let column = token.column();
        let gap = token.gap();
        let used = tier.used();
        let mut token = token;
        self.make_fork(&mut token, tier, Home::Inline { used }, column, column, gap);
        Forked::Inline { token }
    }

    /// Draws a fork's number while the tier is out, and puts the tier back. A fork's columns were shown before.
    fn make_fork(
        &self,
        token: &mut StrandToken,
        tier: Tier,
        home: Home,
        left: u32,
        right: u32,
        gap: u32,
    )
        requires held { (t : StrandToken) × (y : Slot) × IsHolding self.now (cells_in self.now) y t token.old }
        requires fits { CanFork (key_of self.now.shared) (view_of token.old) left right gap }
        requires tier { IsTierOf (columns_of self.now) (newest_used (view_of token.old).turns + columns_for left right) (slot.Tier tier) }
        requires home { BringsNothing home }
        requires comes { newest_tier (with_more (columns_for left right) (view_of token.old).turns) ≡ Some tier }
        requires brings { ComesHome (view_of token.old).fork (view_of token.old).phase (newest_aim (view_of token.old).turns) home (Some tier) (slot.Tier tier) }
        requires ready { IsReady token.old.track 3 × CanPart token.old.track }
        ensures made { (stamp : ℕ) × HasForked self.now left right gap stamp token.old token.new }
        ensures spare { CanPart token.new.track }
    {
        self.shared.draw(token, Draw::Fork { left, right, gap });
        self.shared.put_tier(token, tier);
        let place = self.shared.cells();
        self.shared.give(token, place, home);
    }
}

//! Splits seats off, and joins them.
ghost use Rattle.std.specs.Prelude.{◌≡◌, ◌+◌, ◌*◌, ◌<◌, ◌≤◌, ◌^◌, [], true, false, Some, None, length};
ghost use Rattle.cw_log.specs.declared.token.Phase.TheVariants.{Going, Over};
ghost use Rattle.cw_log.specs.Tokens as tokens;
ghost use Rattle.cw_steps.specs.Tracks.{note_track, parted, right_track, joined_track, track_of, CanPart, HasRoom, WaitsBeside};
ghost use Rattle.cw_steps.specs.declared.track.Ahead.{Ahead};
ghost use Rattle.cw_steps.specs.Stands.{right_token, token_of};
ghost use Rattle.cw_steps.specs.Views.{both_view, held_by, joined_view, new_seat_view, parted_view, share, view_of, IsTokenOf};

use crate::law::{Joining, Joins, Parting, Parts, TokenSeat, Weighs, Words};
use crate::places::CLOCK;
use crate::table::{Shared, StrandToken};
use cw_log::Stop;
use std::marker::Brand;

fn part_as<W: Parting>(
    table: &Words,
    seat: &mut TokenSeat,
    take_back: bool,
    behind: u32,
    second: bool,
) -> TokenSeat
    requires what { (W.take_back ≡ take_back) × (W.behind ≡ behind) × (W.second ≡ second) }
    requires table { (seat.old.table_id ≡ table.now.table_id) × (0 < table.now.table_id.words) }
    requires numbers { take_back ≡ false → (share ≤ seat.old.me.0.room) × (0 < seat.old.me.0.owns) }
    ensures table { (seat.new.table_id ≡ seat.old.table_id) × (seat.new.id ≡ seat.old.id) × (result.table_id ≡ seat.old.table_id) }
    ensures left { seat.new.me ≡ (parted_view take_back behind second seat.old.me.0, seat.old.me.1) }
    ensures right { result.me ≡ (new_seat_view take_back behind second seat.old.me.0, []) }
{
    let _ = take_back;
    let _ = behind;
    let _ = second;
    table.split_seat::<Parts<W>>(seat)
}

fn join_as<W: Joining>(
    table: &Words,
    seat: &mut TokenSeat,
    ending: TokenSeat,
    behind: u32,
    second: bool,
)
    requires what { (W.behind ≡ behind) × (W.second ≡ second) }
    requires table { (seat.old.table_id ≡ table.now.table_id) × (ending.table_id ≡ table.now.table_id) × (0 < table.now.table_id.words) }
    requires idle { (ending.me.1 ≡ []) × (ending.me.0.turns ≡ []) }
    requires note { ending.me.0.here ≡ false → ending.me.0.halt ≡ None }
    ensures table { (seat.new.table_id ≡ seat.old.table_id) × (seat.new.id ≡ seat.old.id) }
    ensures seat { seat.new.me ≡ (joined_view behind second seat.old.me.0 ending.me.0, seat.old.me.1) }
{
    let _ = behind;
    let _ = second;
    table.join_seat::<Joins<W>>(seat, ending);
}

fn first_stop(own: Option<Stop>, other: Option<Stop>) -> Option<Stop>
    ensures { result ≡ tokens.kept_stop own other }
{
    match own {
        Some(stop) => Some(stop),
        None => other,
    }
}

impl Shared {
    /// Looks at the clock, which shows that the token's list has few logs.
    pub fn weigh(&self, token: &mut StrandToken)
        requires { IsTokenOf self.now token.old }
        ensures table { IsTokenOf self.now token.new }
        ensures few { (view_of token.old).owns < 2 ^ 31 }
        ensures me { token.new.seat.me ≡ token.old.seat.me }
        ensures track { token.new.track ≡ token.old.track }
        ensures stop { token.new.stop ≡ token.old.stop }
        ensures token { token_of token.new ≡ token_of token.old }
    {
        let StrandToken { seat, .. } = token;
        self.table.shared.load::<Weighs>(seat, CLOCK);
    }

    fn part(&self, token: &mut StrandToken) -> StrandToken
        requires table { IsTokenOf self.now token.old }
        requires numbers { (share ≤ (view_of token.old).room) × (0 < (view_of token.old).owns) }
        requires ahead { (a : _) × (token.old.track.ahead ≡ Some a) }
        requires ready { CanPart token.old.track }
        ensures table { IsTokenOf self.now token.new × IsTokenOf self.now result }
        ensures left { view_of token.new ≡ parted_view false token.old.track.behind token.old.track.second (view_of token.old) }
        ensures right { view_of result ≡ new_seat_view false token.old.track.behind token.old.track.second (view_of token.old) }
        ensures slots { (held_by token.new ≡ held_by token.old) × (held_by result ≡ []) }
        ensures track { track_of token.new.track ≡ parted (track_of token.old.track) }
        ensures new_track { track_of result.track ≡ right_track (track_of token.old.track).own.column (track_of token.old.track).pending (track_of token.old.track).ahead }
        ensures stop { (token.new.stop ≡ token.old.stop) × (result.stop ≡ None) }
        ensures room { (token.new.track.room ≡ token.old.track.room) × HasRoom result.track }
        ensures token { token_of token.new ≡ token_of token.old }
        ensures new_token { (a : Ahead) → token.old.track.ahead ≡ Some a → token_of result ≡ right_token (token_of token.old) a }
    {
        let StrandToken { seat, track, .. } = token;
        let right = part_as::<Brand>(&self.table.shared, seat, false, track.behind, track.second);
        let begin = track.part();
        StrandToken {
            seat: right,
            track: begin,
            stop: None,
        }
    }

    fn note(&self, token: &mut StrandToken) -> StrandToken
        requires table { IsTokenOf self.now token.old }
        ensures table { IsTokenOf self.now token.new × IsTokenOf self.now result }
        ensures left { view_of token.new ≡ parted_view true token.old.track.behind token.old.track.second (view_of token.old) }
        ensures right { view_of result ≡ new_seat_view true token.old.track.behind token.old.track.second (view_of token.old) }
        ensures slots { (held_by token.new ≡ held_by token.old) × (held_by result ≡ []) }
        ensures track { token.new.track ≡ token.old.track }
        ensures new_track { track_of result.track ≡ note_track token.old.track.column token.old.track.gap }
        ensures stop { (token.new.stop ≡ token.old.stop) × (result.stop ≡ None) }
        ensures room { result.track.room ≡ None }
        ensures token { token_of token.new ≡ record (token_of token.old) { phase = Over } }
    {
        let StrandToken { seat, track, .. } = token;
        let right = part_as::<Brand>(&self.table.shared, seat, true, track.behind, track.second);
        let note = track.note();
        StrandToken {
            seat: right,
            track: note,
            stop: None,
        }
    }

    fn join_strand(&self, token: &mut StrandToken, ending: StrandToken)
        requires table { IsTokenOf self.now token.old × IsTokenOf self.now ending }
        requires idle { (held_by ending ≡ []) × ((view_of ending).turns ≡ []) }
        requires here { ((view_of ending).here ≡ true) × HasRoom ending.track }
        requires fork { WaitsBeside (track_of token.old.track).outer }
        requires long { length token.old.track.joined + length ending.track.joined + 1 < 2 ^ 63 }
        ensures table { IsTokenOf self.now token.new }
        ensures view { view_of token.new ≡ both_view token.old.track.behind token.old.track.second (view_of token.old) (view_of ending) }
        ensures slots { held_by token.new ≡ held_by token.old }
        ensures track { track_of token.new.track ≡ joined_track (track_of token.old.track) (track_of ending.track) }
        ensures stop { token.new.stop ≡ tokens.kept_stop token.old.stop ending.stop }
        ensures room { token.new.track.room ≡ token.old.track.room }
        ensures token { token_of token.new ≡ tokens.taken_in (token_of token.old) (token_of ending) }
    {
        let StrandToken {
            seat: other,
            track: ended,
            stop: last,
        } = ending;
        let StrandToken { seat, track, stop } = token;
        join_as::<Brand>(&self.table.shared, seat, other, track.behind, track.second);
        track.take_in(ended);
        *stop = first_stop(*stop, last);
    }

    fn join_note(&self, token: &mut StrandToken, ending: StrandToken)
        requires table { IsTokenOf self.now token.old × IsTokenOf self.now ending }
        requires idle { (held_by ending ≡ []) × ((view_of ending).turns ≡ []) }
        requires here { ((view_of ending).here ≡ false) × (ending.stop ≡ None) }
        ensures table { IsTokenOf self.now token.new }
        ensures view { view_of token.new ≡ record (view_of token.old) { phase = Going } }
        ensures slots { held_by token.new ≡ held_by token.old }
        ensures track { token.new.track ≡ token.old.track }
        ensures stop { token.new.stop ≡ token.old.stop }
        ensures token { token_of token.new ≡ record (token_of token.old) { phase = Going } }
    {
        let StrandToken { seat: other, .. } = ending;
        let StrandToken { seat, track, .. } = token;
        join_as::<Brand>(&self.table.shared, seat, other, track.behind, track.second);
    }

    /// Splits a seat off. After a fork (`take_back` false) it returns the token of the right strand, which waits, and this token
    /// goes on as the left strand's. To take a right strand back (`take_back` true) it returns a note that the left strand has
    /// ended, and this token is over.
    pub fn split_seat(&self, token: &mut StrandToken, take_back: bool) -> StrandToken
        requires table { IsTokenOf self.now token.old }
        requires numbers { take_back ≡ false → (share ≤ (view_of token.old).room) × (0 < (view_of token.old).owns) }
        requires ahead { take_back ≡ false → (a : _) × (token.old.track.ahead ≡ Some a) }
        requires ready { take_back ≡ false → CanPart token.old.track }
        ensures table { IsTokenOf self.now token.new × IsTokenOf self.now result }
        ensures left { view_of token.new ≡ parted_view take_back token.old.track.behind token.old.track.second (view_of token.old) }
        ensures right { view_of result ≡ new_seat_view take_back token.old.track.behind token.old.track.second (view_of token.old) }
        ensures slots { (held_by token.new ≡ held_by token.old) × (held_by result ≡ []) }
        ensures stop { (token.new.stop ≡ token.old.stop) × (result.stop ≡ None) }
        ensures parted { take_back ≡ false → (track_of token.new.track ≡ parted (track_of token.old.track)) × (token.new.track.room ≡ token.old.track.room) × (token_of token.new ≡ token_of token.old) }
        ensures begun { take_back ≡ false → (track_of result.track ≡ right_track (track_of token.old.track).own.column (track_of token.old.track).pending (track_of token.old.track).ahead) × HasRoom result.track }
        ensures begun_as { take_back ≡ false → (a : Ahead) → token.old.track.ahead ≡ Some a → token_of result ≡ right_token (token_of token.old) a }
        ensures over { take_back ≡ true → (token.new.track ≡ token.old.track) × (token_of token.new ≡ record (token_of token.old) { phase = Over }) }
        ensures note { take_back ≡ true → (track_of result.track ≡ note_track token.old.track.column token.old.track.gap) × (result.track.room ≡ None) }
    {
        if take_back {
            self.note(token)
        } else {
            self.part(token)
        }
    }

    /// Joins `ending` to this token. If `ending` is the token of a right strand, this token, of the left one, takes in its logs,
    /// and goes on where the strand that forked stands. If `ending` is the note of a left strand, this token, of the right one,
    /// goes on.
    pub fn join_seat(&self, token: &mut StrandToken, ending: StrandToken)
        requires table { IsTokenOf self.now token.old × IsTokenOf self.now ending }
        requires idle { (held_by ending ≡ []) × ((view_of ending).turns ≡ []) }
        requires strand { (view_of ending).here ≡ true → HasRoom ending.track × WaitsBeside (track_of token.old.track).outer }
        requires long { (view_of ending).here ≡ true → length token.old.track.joined + length ending.track.joined + 1 < 2 ^ 63 }
        requires note { (view_of ending).here ≡ false → (ending.stop ≡ None) × (ending.track.room ≡ None) }
        ensures table { IsTokenOf self.now token.new }
        ensures view { view_of token.new ≡ joined_view token.old.track.behind token.old.track.second (view_of token.old) (view_of ending) }
        ensures slots { held_by token.new ≡ held_by token.old }
        ensures room { token.new.track.room ≡ token.old.track.room }
        ensures both { (view_of ending).here ≡ true → track_of token.new.track ≡ joined_track (track_of token.old.track) (track_of ending.track) }
        ensures kept { (view_of ending).here ≡ true → token.new.stop ≡ tokens.kept_stop token.old.stop ending.stop }
        ensures both_as { (view_of ending).here ≡ true → token_of token.new ≡ tokens.taken_in (token_of token.old) (token_of ending) }
        ensures goes { (view_of ending).here ≡ false → (token.new.track ≡ token.old.track) × (token.new.stop ≡ token.old.stop) }
        ensures goes_as { (view_of ending).here ≡ false → token_of token.new ≡ record (token_of token.old) { phase = Going } }
    {
        if ending.track.room.is_some() {
            self.join_strand(token, ending);
        } else {
            self.join_note(token, ending);
        }
    }
}

//! From strand to strand: next branches, right strands taken back, and joins.
ghost use Rattle.std.specs.Prelude.{◌≡◌};
ghost use Rattle.cw_log.specs.Tokens.{taken_back, taken_in, turned, AreOfOneFork, IsDone, IsInline, IsOn, MayTakeBack};
ghost use Rattle.cw_steps.specs.Stands.{token_of};
ghost use Rattle.cw_board.specs.Boards.{budget_of, IsOf};

use crate::Board;
use cw_steps::StrandToken;

impl Board {
    /// Moves from the left strand of an inline fork to the right one, or from the right one to the strand that forked.
    pub fn next_branch(&self, token: &mut StrandToken)
        requires of { IsOf self.now token.old }
        requires branch { IsInline (token_of token.old) }
        requires done { IsDone (token_of token.old) }
        ensures of { IsOf self.now token.new }
        ensures token { token_of token.new ≡ turned (token_of token.old) }
    {
        token.next_branch();
    }

    /// Lets the right strand of a fork that was not split go on after the left one.
    pub fn take_back(&self, left: &mut StrandToken, right: &mut StrandToken)
        requires of { IsOf self.now left.old × IsOf self.now right.old }
        requires on { IsOn (budget_of self.now) (token_of left.old) × IsOn (budget_of self.now) (token_of right.old) }
        requires fork { AreOfOneFork (token_of left.old) (token_of right.old) }
        requires back { MayTakeBack (token_of left.old) (token_of right.old) }
        ensures of { IsOf self.now left.new × IsOf self.now right.new }
        ensures tokens { let (l, r) = taken_back (token_of left.old) (token_of right.old) in (token_of left.new ≡ l) × (token_of right.new ≡ r) }
    {
        let note = self.shared.split_seat(left, true);
        self.shared.join_seat(right, note);
    }

    /// Joins the two strands of a fork. Returns the token of the strand that forked, with the logs of both.
    pub fn join(&self, left: StrandToken, right: StrandToken) -> StrandToken
        requires of { IsOf self.now left × IsOf self.now right }
        requires fork { AreOfOneFork (token_of left) (token_of right) }
        requires done { IsDone (token_of left) × IsDone (token_of right) }
        ensures of { IsOf self.now result }
        ensures token { token_of result ≡ taken_in (token_of left) (token_of right) }
    {
        let mut token = left;
        let mut ending = right;
        self.shared.weigh(&mut token);
        self.shared.weigh(&mut ending);
        self.shared.join_seat(&mut token, ending);
        token
    }
}

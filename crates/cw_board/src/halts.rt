//! Halts.
ghost use Rattle.std.specs.Prelude.{◌≡◌};
ghost use Rattle.cw_log.specs.Tokens.{halted, was_told, MayHalt};
ghost use Rattle.cw_steps.specs.Stands.{token_of};
ghost use Rattle.cw_steps.specs.Tracks.{track_of};
ghost use Rattle.cw_board.specs.Boards.{budget_of, IsOf};

use crate::Board;
use cw_steps::StrandToken;
use cw_tree::Halt;

impl Board {
    /// Stops the strand. The strand number inside `halt` is not read.
    pub fn halt(&self, token: &mut StrandToken, halt: Halt)
        requires of { IsOf self.now token.old }
        requires may { MayHalt (budget_of self.now) (token_of token.old) halt }
        ensures of { IsOf self.now token.new }
        ensures token { token_of token.new ≡ halted (token_of token.old) halt }
        ensures word { (track_of token.new.track).word ≡ (track_of token.old.track).word }
    {
        self.shared.stop(token, halt);
    }

    /// Whether the stop flag was found set. False proves nothing: a strand may have stopped all the same.
    pub fn halted(&self, token: &mut StrandToken) -> bool
        requires { IsOf self.now token.old }
        ensures of { IsOf self.now token.new }
        ensures token { token_of token.new ≡ was_told (token_of token.old) result }
        ensures word { (track_of token.new.track).word ≡ (track_of token.old.track).word }
    {
        self.shared.is_stopped(token)
    }
}

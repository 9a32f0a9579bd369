//! What a board gives when it is closed.
ghost use Rattle.std.specs.Prelude.{◌≡◌, IfOk, IfErr};
ghost use Rattle.cw_course.specs.Closings.{IsPutTogether};
ghost use Rattle.cw_log.specs.Tokens.{logs};
ghost use Rattle.cw_steps.specs.Leaving.{AreFoundJournals};
ghost use Rattle.cw_steps.specs.Stands.{token_of};
ghost use Rattle.cw_steps.specs.Views.{key_of};
ghost use Rattle.cw_board.specs.Boards.{IsOf};

use crate::Board;
use cw_base::OutOfMemory;
use cw_steps::StrandToken;
use cw_tree::Closed;

impl Board {
    /// Closes the board with the root's token, to which all others were joined. Returns the tree of its logs in depth-first order,
    /// their conflicts and halt with the tree's numbers, and each cell's entries. If memory runs out, it gives back board and
    /// token.
    pub fn close(self, token: StrandToken) -> Result<Closed, (Board, StrandToken, OutOfMemory)>
        requires of { IsOf self token }
        ensures together { IfOk result (λ c. IsPutTogether (logs (token_of token)) (token_of token).stop c) }
        ensures journals { IfOk result (λ c. AreFoundJournals (key_of self.shared) token.seat.me c.journals) }
        ensures err { IfErr result (λ e. (e.0 ≡ self) × IsOf e.0 e.1 × (token_of e.1 ≡ token_of token)) }
    {
        let Board { shared } = self;
        match shared.close(token) {
            Ok(closed) => Ok(closed),
            Err((shared, token, error)) => Err((Board { shared }, token, error)),
        }
    }
}

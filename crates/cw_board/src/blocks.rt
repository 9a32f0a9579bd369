//! Blocks and outputs.
ghost use Rattle.std.specs.Prelude.{◌≡◌, ℕ, OnOk, OnErr};
ghost use Rattle.cw_tree.specs.declared.node.BlockState.TheVariants.{Committed};
ghost use Rattle.cw_tree.specs.declared.node.Kind.TheVariants as kind;
ghost use Rattle.cw_log.specs.Tokens.{began, ended, made, GoesFree, HasBlock, IsLater};
ghost use Rattle.cw_steps.specs.Stands.{token_of};
ghost use Rattle.cw_steps.specs.Tracks.{state_of_end, track_of, IsReady};
ghost use Rattle.cw_board.specs.Boards.{budget_of, IsHidden, IsOf, IsBlockShown};

use crate::Board;
use cw_base::OutOfMemory;
use cw_steps::{Draw, StrandToken};

impl Board {
    /// Begins a block in the token's place. Without memory it makes no step: no number is drawn, and the word of the gap stays.
    pub fn begin(&self, token: &mut StrandToken) -> Result<(), OutOfMemory>
        requires of { IsOf self.now token.old }
        requires goes { GoesFree (budget_of self.now) (token_of token.old) }
        ensures of { IsOf self.now token.new }
        ensures ok { OnOk result ((stamp : ℕ) × IsLater (token_of token.old) stamp × (token_of token.new ≡ began (token_of token.old) stamp)) }
        ensures err { OnErr result (token_of token.new ≡ token_of token.old) }
        ensures word { OnOk result (IsBlockShown (track_of token.old.track) (track_of token.new.track)) }
        ensures unmoved { OnErr result ((token.new.seat ≡ token.old.seat) × (track_of token.new.track ≡ track_of token.old.track)) }
    {
        token.reserve(1)?;
        self.start(token);
        self.show(token);
        Ok(())
    }

    /// Commits the block in the token's place.
    pub fn commit(&self, token: &mut StrandToken)
        requires of { IsOf self.now token.old }
        requires goes { GoesFree (budget_of self.now) (token_of token.old) }
        requires block { HasBlock (token_of token.old) }
        ensures of { IsOf self.now token.new }
        ensures token { (stamp : ℕ) × (token_of token.new ≡ ended (token_of token.old) Committed stamp) }
        ensures word { IsHidden (track_of token.old.track) (track_of token.new.track) }
    {
        let outermost = token.word() == token.begin_stamp();
        self.end(token, false);
        if outermost {
            self.hide(token);
        }
    }

    /// Outputs `value`.
    pub fn out(&self, token: &mut StrandToken, value: i64) -> Result<(), OutOfMemory>
        requires of { IsOf self.now token.old }
        requires goes { GoesFree (budget_of self.now) (token_of token.old) }
        ensures of { IsOf self.now token.new }
        ensures ok { OnOk result ((stamp : ℕ) × (token_of token.new ≡ made (token_of token.old) (kind.Out value) stamp)) }
        ensures err { OnErr result (token_of token.new ≡ token_of token.old) }
        ensures word { (track_of token.new.track).word ≡ (track_of token.old.track).word }
    {
        token.reserve(1)?;
        self.put_out(token, value);
        Ok(())
    }

    fn start(&self, token: &mut StrandToken)
        requires of { IsOf self.now token.old }
        requires ready { IsReady token.old.track 1 }
        ensures of { IsOf self.now token.new }
        ensures token { (stamp : ℕ) × IsLater (token_of token.old) stamp × (token_of token.new ≡ began (token_of token.old) stamp) }
        ensures word { (track_of token.new.track).word ≡ (track_of token.old.track).word }
    {
        self.shared.draw(token, Draw::Begin);
    }

    fn put_out(&self, token: &mut StrandToken, value: i64)
        requires of { IsOf self.now token.old }
        requires ready { IsReady token.old.track 1 }
        ensures of { IsOf self.now token.new }
        ensures token { (stamp : ℕ) × (token_of token.new ≡ made (token_of token.old) (kind.Out value) stamp) }
        ensures word { (track_of token.new.track).word ≡ (track_of token.old.track).word }
    {
        self.shared.draw(token, Draw::Out { value });
    }

    pub(crate) fn end(&self, token: &mut StrandToken, aborted: bool)
        requires of { IsOf self.now token.old }
        requires block { HasBlock (token_of token.old) }
        ensures of { IsOf self.now token.new }
        ensures token { (stamp : ℕ) × (token_of token.new ≡ ended (token_of token.old) (state_of_end aborted) stamp) }
        ensures word { (track_of token.new.track).word ≡ (track_of token.old.track).word }
    {
        self.shared.draw(token, Draw::End { aborted });
    }

    /// Shows the block in the token's place in the word of its gap, if that shows none yet.
    fn show(&self, token: &mut StrandToken)
        requires { IsOf self.now token.old }
        ensures of { IsOf self.now token.new }
        ensures token { token_of token.new ≡ token_of token.old }
        ensures word { IsBlockShown (track_of token.old.track) (track_of token.new.track) }
    {
        if token.word() == 0 {
            let gap = token.gap();
            self.shared.set_gap(token, gap);
        }
    }

    /// Clears the word of the token's gap, so that it shows no block.
    pub(crate) fn hide(&self, token: &mut StrandToken)
        requires { IsOf self.now token.old }
        ensures of { IsOf self.now token.new }
        ensures token { token_of token.new ≡ token_of token.old }
        ensures word { (track_of token.new.track).word ≡ 0 }
    {
        let gap = token.gap();
        self.shared.clear_gap(token, gap);
    }
}

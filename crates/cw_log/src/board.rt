//! What a board does for the token of one strand.
use cw_base::{OutOfMemory, Seq};
use cw_code::Back;
use cw_trace::Early;
use cw_tree::{Conflict, Halt, Node};
use std::sync::Wait;

/// The outcome of an access: it is made, with the cell's value after it, or it is refused.
#[derive(Drop)]
pub enum Access {
    Value(i64),
    Conflict(Conflict),
}

/// The outcome of a fork. Either two tokens, with the fork's number, which is that of its first column; or one token, which goes on
/// in the left strand and serves the right one afterwards.
#[derive(Drop)]
pub enum Forked<T> {
    Two { fork: u32, left: T, right: T },
    Inline { token: T },
}

/// A board that strands share. Each call says what it makes of the token that is lent to it.
pub trait SharedBoard: Sync {
    type Token: Drop + Send;

    ghost use Rattle.std.specs.Prelude.{◌≡◌, ◌<◌, ℕ, IfOk, IfErr, OnOk, OnErr};
    ghost use Rattle.cw_tree.specs.declared.node.BlockState.TheVariants.{Committed, Aborted};
    ghost use Rattle.cw_tree.specs.declared.node.Kind.TheVariants.{Out};
    ghost use Rattle.cw_log.specs.declared.token.Token.{Token};
    ghost use Rattle.cw_log.specs.Tokens.{AreOfOneFork, GoesFree, GoesBack, HasBlock, IsDone, IsInline, IsLater, IsOn, MayHalt, MayMerge, MaySplit, MayTakeBack, began, ended, halted, made, merged, once_split, taken_back, taken_in, turned, was_told};
    ghost use Rattle.cw_log.specs.Answers.{Cancels, Forks, Meets};

    /// What a token stands for.
    ghost of: { Self.Token → Token };

    /// The number of cells.
    ghost cells: { Self → ℕ };

    /// The most attempts that a block or an access may have.
    ghost budget: { Self → ℕ };

    /// Begins a block in the token's place.
    fn begin(&self, token: &mut Self::Token) -> Result<(), OutOfMemory>
        requires { GoesFree (budget self.now) (of token.old) }
        ensures ok { OnOk result ((stamp : ℕ) × IsLater (of token.old) stamp × (of token.new ≡ began (of token.old) stamp)) }
        ensures err { OnErr result (of token.new ≡ of token.old) };

    /// Commits the block in the token's place.
    fn commit(&self, token: &mut Self::Token)
        requires goes { GoesFree (budget self.now) (of token.old) }
        requires block { HasBlock (of token.old) }
        ensures { (stamp : ℕ) × (of token.new ≡ ended (of token.old) Committed stamp) };

    fn out(&self, token: &mut Self::Token, value: i64) -> Result<(), OutOfMemory>
        requires { GoesFree (budget self.now) (of token.old) }
        ensures ok { OnOk result ((stamp : ℕ) × (of token.new ≡ made (of token.old) (Out value) stamp)) }
        ensures err { OnErr result (of token.new ≡ of token.old) };

    /// Reads `cell`, or writes `write` to it if a value is given.
    fn access<R: Wait>(
        &self,
        rt: &R,
        token: &mut Self::Token,
        cell: u32,
        write: Option<i64>,
    ) -> Result<Access, OutOfMemory>
        requires goes { GoesFree (budget self.now) (of token.old) }
        requires cell { cell < cells self.now }
        ensures ok { IfOk result (λ a. Meets (of token.old) (of token.new) cell write a) }
        ensures err { OnErr result (of token.new ≡ of token.old) };

    /// Gives up the block in the token's place: finds which cells were written beneath it, and each one's value from before the block
    /// came to it. Returns that list, which is also added to the log. If memory runs out, the block is as before.
    fn cancel<R: Wait>(&self, rt: &R, token: &mut Self::Token) -> Result<Seq<Back>, OutOfMemory>
        requires goes { GoesFree (budget self.now) (of token.old) }
        requires block { HasBlock (of token.old) }
        ensures ok { IfOk result (λ back. Cancels (cells self.now) (of token.old) (of token.new) back) }
        ensures err { OnErr result (of token.new ≡ of token.old) };

    fn fork<R: Wait>(
        &self,
        rt: &R,
        token: Self::Token,
    ) -> Result<Forked<Self::Token>, (Self::Token, OutOfMemory)>
        requires { GoesFree (budget self.now) (of token) }
        ensures ok { IfOk result (λ f. Forks of (of token) f) }
        ensures err { IfErr result (λ e. of e.0 ≡ of token) };

    /// Moves the token from the left strand of an inline fork to the right one, or from the right one to the strand that forked.
    fn next_branch(&self, token: &mut Self::Token)
        requires branch { IsInline (of token.old) }
        requires done { IsDone (of token.old) }
        ensures { of token.new ≡ turned (of token.old) };

    /// Undoes the block in the token's place, which is then aborted.
    fn roll<R: Wait>(&self, rt: &R, token: &mut Self::Token)
        requires block { HasBlock (of token.old) }
        requires back { GoesBack (budget self.now) (of token.old) }
        ensures { (stamp : ℕ) × (of token.new ≡ ended (of token.old) Aborted stamp) };

    /// Splits the fork, so that its right strand may go on while the left one does. Returns `Early` if another fork has to be split
    /// first.
    fn split<R: Wait>(&self, rt: &R, token: &mut Self::Token, fork: u32) -> Result<(), Early>
        requires on { IsOn (budget self.now) (of token.old) }
        requires fork { MaySplit (of token.old) fork }
        ensures ok { OnOk result (of token.new ≡ once_split (of token.old)) }
        ensures err { OnErr result (of token.new ≡ of token.old) };

    /// Lets the right strand of a fork that was not split go on after the left one.
    fn take_back(&self, left: &mut Self::Token, right: &mut Self::Token)
        requires on { IsOn (budget self.now) (of left.old) × IsOn (budget self.now) (of right.old) }
        requires fork { AreOfOneFork (of left.old) (of right.old) }
        requires back { MayTakeBack (of left.old) (of right.old) }
        ensures { let (l, r) = taken_back (of left.old) (of right.old) in (of left.new ≡ l) × (of right.new ≡ r) };

    /// Joins the two strands of a fork. Returns the token of the strand that forked, with the logs of both.
    fn join(&self, left: Self::Token, right: Self::Token) -> Self::Token
        requires fork { AreOfOneFork (of left) (of right) }
        requires done { IsDone (of left) × IsDone (of right) }
        ensures { of result ≡ taken_in (of left) (of right) };

    /// Merges again what the split of `fork` parted, for the token of the strand that forked.
    fn merge<R: Wait>(&self, rt: &R, token: &mut Self::Token, fork: u32)
        requires on { IsOn (budget self.now) (of token.old) }
        requires fork { MayMerge (of token.old) fork }
        ensures { of token.new ≡ merged (of token.old) };

    /// Stops the strand. The strand number inside `halt` is not read.
    fn halt(&self, token: &mut Self::Token, halt: Halt)
        requires { MayHalt (budget self.now) (of token.old) halt }
        ensures { of token.new ≡ halted (of token.old) halt };

    /// Whether some strand was found to have stopped. False proves nothing.
    fn halted(&self, token: &mut Self::Token) -> bool
        ensures { of token.new ≡ was_told (of token.old) result };

    /// Returns the node of the token's log beneath which its next node goes.
    fn place(&self, token: &Self::Token) -> u32
        ensures { result ≡ (of token.now).place };

    /// Returns the nodes of the token's own log.
    fn nodes<'a>(&self, token: &'a Self::Token) -> &'a [Node]
        ensures { result.now ≡ (of token.now).own.nodes };
}

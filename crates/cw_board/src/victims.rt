//! What stands in the way of an access, and which block has to fall for it.
ghost use Rattle.std.specs.Prelude.{◌≡◌, ◌<◌, Contains, IfErr, IfOk, IfSome, length, slice_get, Some};
ghost use Rattle.cw_steps.specs.Stands.{token_of};
ghost use Rattle.cw_steps.specs.Views.{view_of, IsTokenOf};
ghost use Rattle.cw_steps.specs.Passes.{ToldBy};
ghost use Rattle.cw_board.specs.Asked.{noted_since, HasMoved, HasRead};
ghost use Rattle.cw_board.specs.Boards.{cells_in, columns_of};
ghost use Rattle.cw_board.specs.Victims.{outermost_first, HasMovedSince, IsJudged, IsJudgedSince, IsSearched, IsVictim};

use crate::Board;
use crate::asking::{Moved, settled};
use crate::turns::pause;
use cw_log::Above;
use cw_order::Steps;
use cw_steps::StrandToken;
use cw_trace::Verdict;
use cw_tree::Mark;
use std::marker::Brand;
use std::sync::Wait;
use std::sync::ledger::{Blank, Ledger};

/// What stands in the way of an access: the block that the query found, and the victim, if there is one.
#[derive(Clone, Copy, Drop)]
pub(crate) struct Barrier {
    pub(crate) block: u64,
    pub(crate) victim: Option<Above>,
}

/// Returns the block at position `k`.
fn block_at(blocks: &[Above], k: usize) -> Above
    requires { k < length blocks.now }
    ensures { slice_get blocks.now k ≡ Some result }
{
    blocks[k]
}

impl Board {
    /// Returns the outermost pending block around the token's place that is not above the access `last`, by the words that it
    /// loads.
    fn victim_by_words<K: Ledger, L: Ledger>(
        &self,
        token: &mut StrandToken,
        version: u64,
        last: Mark,
        looks: &mut Steps<K>,
        compares: &mut Steps<L>,
    ) -> Option<Above>
        requires table { IsTokenOf self.now.shared token.old }
        ensures read { HasRead token.old token.new }
        ensures victim { IsVictim (ToldBy (cells_in self.now) (columns_of self.now) (noted_since token.old token.new)) last (outermost_first token.old) result }
        ensures around { IfSome result (λ a. Contains (token_of token.old).around a.begin) }
    {
        let count = token.pending().len();
        for k in 0..count {
            let block = block_at(token.pending(), k);
            let begin = Mark {
                strand: block.column,
                stamp: block.begin,
            };
            if !self.contains_words(token, version, begin, last, looks, compares) {
                return Some(block);
            }
        }
        None
    }

    /// Searches for the outermost pending block around the token's place that is not above the access `last`, in one pass over the
    /// words.
    fn find_victim<K: Ledger, L: Ledger>(
        &self,
        token: &mut StrandToken,
        last: Mark,
        looks: &mut Steps<K>,
        compares: &mut Steps<L>,
    ) -> Result<Option<Above>, Moved>
        requires table { IsTokenOf self.now.shared token.old }
        ensures read { HasRead token.old token.new }
        ensures found { IfOk result (IsSearched (cells_in self.now) (columns_of self.now) last (outermost_first token.old) (view_of token.old).notes (view_of token.new).notes) }
        ensures moved { IfErr result (HasMoved (cells_in self.now) (view_of token.old).notes (view_of token.new).notes) }
        ensures around { IfOk result (λ o. IfSome o (λ a. Contains (token_of token.old).around a.begin)) }
    {
        let before = self.version(token, looks);
        let victim = self.victim_by_words(token, before, last, looks, compares);
        let after = self.version(token, looks);
        settled(before, after)?;
        Ok(victim)
    }

    fn judge_counted<K: Ledger, L: Ledger>(
        &self,
        blanks: (Blank, Blank),
        token: &mut StrandToken,
        last: Mark,
    ) -> Result<Option<Barrier>, Moved>
        requires looks { (blanks.0.name ≡ K.name) × (blanks.0.parts ≡ K.parts) × (0 < K.parts) }
        requires compares { (blanks.1.name ≡ L.name) × (blanks.1.parts ≡ L.parts) × (0 < L.parts) }
        requires table { IsTokenOf self.now.shared token.old }
        ensures read { HasRead token.old token.new }
        ensures judged { IfOk result (IsJudged self.now last token.old (view_of token.old).notes (view_of token.new).notes) }
        ensures moved { IfErr result (HasMovedSince self.now last token.old (view_of token.old).notes (view_of token.new).notes) }
    {
        let mut looks = Steps::<K>::new(blanks.0);
        let mut compares = Steps::<L>::new(blanks.1);
        match self.ask_once(token, last, &mut looks, &mut compares)? {
            Verdict::Against(block) => {
                let victim = self.find_victim(token, last, &mut looks, &mut compares)?;
                Ok(Some(Barrier { block, victim }))
            }
            Verdict::Free | Verdict::Within => Ok(None),
        }
    }

    /// Returns what stands in the way of the token's next access, after the access `last`, or `None` if the question lets it through.
    /// Returns `Moved` if the tier was changing. Takes no lock.
    pub(crate) fn judge(
        &self,
        token: &mut StrandToken,
        last: Mark,
    ) -> Result<Option<Barrier>, Moved>
        requires table { IsTokenOf self.now.shared token.old }
        ensures read { HasRead token.old token.new }
        ensures judged { IfOk result (IsJudged self.now last token.old (view_of token.old).notes (view_of token.new).notes) }
        ensures moved { IfErr result (HasMovedSince self.now last token.old (view_of token.old).notes (view_of token.new).notes) }
    {
        let blanks = (Blank::new(1), Blank::new(1));
        self.judge_counted::<Brand, Brand>(blanks, token, last)
    }

    /// Returns what stands in the way of the token's next access, after the access `last`, or `None`. Asks again, after a pause, as
    /// long as the tier was changing.
    pub(crate) fn barrier<R: Wait>(
        &self,
        rt: &R,
        token: &mut StrandToken,
        last: Mark,
    ) -> Option<Barrier>
        requires table { IsTokenOf self.now.shared token.old }
        ensures read { HasRead token.old token.new }
        ensures judged { IsJudgedSince self.now last token.old token.new result }
    {
        let mut tries = 0;
        for _ in rt.forever() {
            if let Ok(found) = self.judge(token, last) {
                return found;
            }
            tries = pause(tries);
        }
        unreachable!()
    }
}

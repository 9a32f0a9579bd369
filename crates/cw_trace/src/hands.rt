ghost use Rattle.std.specs.Prelude.{ℕ, List};
ghost use Rattle.cw_tree.specs.declared.access.Mark.{Mark};
ghost use Rattle.cw_trace.specs.declared.verdict.Verdict.{Verdict};
ghost use Rattle.cw_trace.specs.Columns as columns;
ghost use Rattle.cw_trace.specs.Query.{Gives};
ghost use Rattle.cw_trace.specs.Hands.{HandsDiffer, WordsStay, NodesApart, OneWordDecides, LastLoadDecides, NoLoadDecides, IsToldOf, IsRightOnce, LaterWithNode, LaterWithFork, LaterWithInline, LaterClosed, LaterSplit, LaterMerged};
ghost use Rattle.cw_trace.specs.OrderedRuns.{EachMomentStands, OthersGoOn};
ghost use Rattle.cw_trace.specs.Worked.{Unready, TwoHands, TwoLoads, DrawnEarly, MainWaits};

use crate::Columns;

/// Law: strands that may go on at two places are in different traces and use different gaps. So neither changes the word of the
/// other's gap, nor makes a node in the other's trace.
pub fn hands_differ()
    ensures differ { HandsDiffer }
    ensures words { WordsStay }
    ensures nodes { NodesApart }
{}

/// Law: a query may load its two words at different moments, between which other strands begin and close blocks. Its verdict is
/// right at its last load.
pub fn loads_decide()
    ensures one_word { OneWordDecides }
    ensures last_load { LastLoadDecides }
    ensures no_load { NoLoadDecides }
{}

/// Law: the answers to a query's reads may come from different moments, while the columns do not change. The verdict is right of
/// the tree at one of these moments.
pub fn told_of_moments<C: Columns>(_asked: &C)
    ensures { (c : columns.ColumnTable) (words : ℕ → List ℕ) (last : Mark) (asker : ℕ) (v : Verdict)
        → IsToldOf c words (C.told _asked.now) → Gives (C.told _asked.now) last asker v → IsRightOnce c words last asker v }
{}

/// Law: if a number was drawn early and no stamp of its strand's trace is above it, that stays so until the strand uses it,
/// whatever other strands do.
pub fn later_stays()
    ensures node { LaterWithNode }
    ensures fork { LaterWithFork }
    ensures inline { LaterWithInline }
    ensures closed { LaterClosed }
    ensures split { LaterSplit }
    ensures merged { LaterMerged }
{}

/// Law: at each moment of a run of tier and tree, the tier represents the tree and the open nodes are ordered. The steps need to
/// know only who may go on, and whoever may go on still may after a step of another strand. In a small run, main waits for the
/// merge of its fork.
pub fn order_is_kept()
    ensures stands { EachMomentStands }
    ensures others { OthersGoOn }
    ensures row { MainWaits }
{}

/// Computed example: what the definitions say of a small run in which two strands go on. If a fork is not split, its right strand
/// would be in the trace of the left one and use its gap.
pub fn worked_hands()
    ensures unready { Unready }
    ensures hands { TwoHands }
    ensures loads { TwoLoads }
    ensures early { DrawnEarly }
{}

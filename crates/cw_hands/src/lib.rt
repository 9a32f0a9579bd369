//! Several hands: laws on runs of the open machine and of the tier together, in which strands step in turn. No code here runs.
//! Use them for a runtime in which several strands share a tier.
//! Contracts cite `specs/Shared.antt` (moments, which strands may go on, the steps, what each step needs, and runs) and
//! `specs/Laws.antt` (what is true of all runs). `specs/Beside.antt` says what steps leave of columns, gaps and gap words,
//! `specs/NewColumns.antt` what a fork gives its strands, `specs/WordsAround.antt` what gap words show, and
//! `specs/LeftIdle.antt` what is true of left strands that are in no block of their own. `specs/Heard.antt` says what columns
//! and words tell a strand of an access, and that it stays right.
//! `specs/Worked.antt`, `specs/WorkedBeside.antt` and `specs/WorkedHeard.antt` try them.
#![tactic(auto)]

ghost use Rattle.cw_hands.specs.Beside.{ColumnsStay, GapsStay, OpenPlacesStay, OwedStay, ShownWordsStay, TogetherGoOn, WaitingStay};
ghost use Rattle.cw_hands.specs.Heard.{ColumnsAreSound, ColumnsTell, CutsAreOnce, ForksLeaveReads, RightStays, VerdictsStay, WordsTell};
ghost use Rattle.cw_hands.specs.Laws.{MachinesRun, MergedGoOn, OnlyReadyGoOn, OrderFollows, OrderIsKept, OthersLeaveReady, ReadyDiffer, ReadyGoOn, ReadyStay, TiersRun, TiersStand, TogetherAtAnyTime};
ghost use Rattle.cw_hands.specs.LeftIdle.{IdleShowNone};
ghost use Rattle.cw_hands.specs.NewColumns.{ForksGiveColumns};
ghost use Rattle.cw_hands.specs.WordsAround.{WordsShowAround};
ghost use Rattle.cw_hands.specs.Worked.{NoneOwed, NotReady, TwoStrands};
ghost use Rattle.cw_hands.specs.WorkedBeside.{OpenBeside, OwedBeside};
ghost use Rattle.cw_hands.specs.WorkedHeard.{HeardRows};

use cw_open::Ruled;

/// Law: a run in which accesses may be refused by a rule is a run in which they may be refused at any time.
pub fn runs_by_rules<R: Ruled>()
    ensures { TogetherAtAnyTime R.rules }
{}

/// Law: a run of both together is a run of the machine and, until main has finished, a run of the tier. So the tier represents the
/// machine's tree, whose open nodes are ordered.
pub fn runs_are_both()
    ensures machine { MachinesRun }
    ensures tier { TiersRun }
    ensures stands { TiersStand }
{}

/// Law: nested open nodes are ordered if three facts hold. A merged fork was joined. A fork whose merge is owed is the last in its
/// place, which is open. The left strand of an unsplit fork goes first. The facts hold at each moment of a run until main has
/// finished.
pub fn order_follows()
    ensures follows { OrderFollows }
    ensures kept { OrderIsKept }
{}

/// Law: a strand that runs may go on exactly if it is ready, neither unready nor owed a merge. It stays ready at each step, unless
/// the step joins a fork that it made and whose merge is then owed. Once that is merged it goes on again. Two strands that go on
/// are in different traces, and use different gaps.
pub fn ready_strands_go_on()
    ensures go_on { ReadyGoOn }
    ensures only { OnlyReadyGoOn }
    ensures stay { ReadyStay }
    ensures merged { MergedGoOn }
    ensures differ { ReadyDiffer }
{}

/// Law: a step that is not about a strand leaves it going on at its place, in its column, at its gap with the same word. If no
/// stamp of its trace was above a number that it drew early, that is still so.
pub fn others_leave_ready()
    ensures { OthersLeaveReady }
{}

/// Law: a run of both together, with the times of its nodes, goes on by a step that is in time.
pub fn runs_go_together<R: Ruled>()
    ensures { TogetherGoOn R.rules }
{}

/// Law: each step leaves the column of each node, and its gap, except that a split gives the right strand of its fork another gap.
/// A word that shows a block stays while the block is pending.
pub fn columns_stay()
    ensures columns { ColumnsStay }
    ensures gaps { GapsStay }
    ensures words { ShownWordsStay }
{}

/// Law: if a ready strand forks while two columns are left, its two strands get the next two columns, and a gap whose word shows no
/// block: that of the place where it forks if its word shows none, otherwise a new one.
pub fn forks_give_columns()
    ensures { ForksGiveColumns }
{}

/// Law: if the left strand of a fork goes on and is in no block of its own, the word of its gap shows no block. Until the fork is
/// split, neither does that of the right strand.
pub fn idle_left_strands()
    ensures { IdleShowNone }
{}

/// Law: the word of the gap of a strand that goes on shows no block, or a pending one around its place.
pub fn words_show_around()
    ensures { WordsShowAround }
{}

/// Law: a step leaves the column and the gap of each open node, if it is not about the node's own strand. It leaves the word there if
/// that shows a block around the node. So a step that is not about a running strand leaves its place, and each place above that, where
/// other strands wait. If the strand is owed a merge, it leaves the word at its place in any case.
pub fn waiting_places_stay()
    ensures opened { OpenPlacesStay }
    ensures waiting { WaitingStay }
    ensures owed { OwedStay }
{}

/// Law: at each moment, what is named in columns is in use, marks are there just where a column names a trace, and a trace around
/// with a pending block has a lead. A fork leaves what a question reads of columns in use. Each fork is split at most once, and joined
/// at most once.
pub fn columns_are_sound()
    ensures sound { ColumnsAreSound }
    ensures reads { ForksLeaveReads }
    ensures once { CutsAreOnce }
{}

/// Law: each gap word, as it is loaded, tells a strand that goes on rightly of each access, if it decides alone. So do the columns
/// if the trace of the access has no lead.
pub fn words_tell()
    ensures words { WordsTell }
    ensures columns { ColumnsTell }
{}

/// Law: a verdict that is right at the place of a running strand serves until that strand steps. Free and Within stay true. If the
/// verdict is Against a block, a conflict can tell that block, even if it has ended since.
pub fn verdicts_stay()
    ensures right { RightStays }
    ensures stay { VerdictsStay }
{}

/// Computed examples: small runs with two strands. Main waits between the join of their fork and its merge, and does not wait if
/// the fork was not stolen. Three claims are false: main goes on as soon as the machine has joined the fork; the right strand goes
/// on before the fork is split; it keeps its gap if it is stolen once the left strand has finished.
pub fn worked_strands()
    ensures strands { TwoStrands }
    ensures none_owed { NoneOwed }
    ensures not_ready { NotReady }
{}

/// Computed examples: a strand is owed a merge while another begins a block; a strand waits in its block while its right strand begins
/// one; and one hears of what another wrote, by a word, before and after that one ends its block.
pub fn worked_beside()
    ensures owed { OwedBeside }
    ensures opened { OpenBeside }
    ensures heard { HeardRows }
{}

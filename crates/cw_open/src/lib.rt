//! The open machine: what strands that run at the same time do to a computation tree, the cells' live accesses and a
//! clock. Use its laws to show that what a concurrent run leaves is coherent. No code here runs.
//! Contracts cite `specs/Machine.antt` (the state, and where its strands are), `specs/Steps.antt` (the steps, and what
//! each does) and `specs/Runs.antt` (what each step needs, and runs). Laws of every state that a run leads to are in
//! `specs/Laws.antt`, `specs/Reads.antt` (what live reads met), `specs/Times.antt` (when stamps are drawn) and
//! `specs/Refused.antt` (refused accesses), over `specs/Open.antt` (nodes that are still open).
//! `specs/LeftFirst.antt` is about runs in which each fork's left strand finishes before its right one steps. There no
//! access is refused, and what is to the left of a stamp is older than it.
//! `specs/Left.antt` says what a run leaves, and `specs/Reordered.antt` that this is true in depth-first order too.
//! `specs/Hands.antt` says what the steps of other strands leave unchanged, `specs/Around.antt` what they leave of the
//! nodes around a strand, `specs/Judged.antt` what a strand has learned of accesses, and `specs/Looked.antt` what it found
//! beneath its block and puts back. `specs/Unfinished.antt` is about strands that have not finished,
//! `specs/Joins.antt` about forks whose left strand has, `specs/Still.antt` about what conflicts refused, and
//! `specs/EntriesAt.antt` about the entries of a list's beginning. `specs/Tails.antt` says how the nodes in a place end.
//! `specs/Worked.antt`, `specs/WorkedTimes.antt`, `specs/WorkedHands.antt` and `specs/WorkedAround.antt` try them.
#![tactic(auto)]

ghost use Rattle.cw_open.specs.Around.{AroundStays, OpenStay};
ghost use Rattle.cw_open.specs.EntriesAt.{EntriesBegin, EntriesMore, EntriesStay};
ghost use Rattle.cw_open.specs.Hands.{AheadIsNext, AllowedAtAnyTime, BeneathIsOwn, ConflictsAreTold, DrawnStay, EndStampsStay, ForkersRunAgain, JoinsLeaveAlone, MetInTimeStays, MetStays, NewestStay, NextStampsStay, NoneConflictsMore, OthersLeaveAlone, PlacesPart, RunsAreInTime, RunsBegin, RunsGoOn, StrandsMayJoin, TimesAreLow};
ghost use Rattle.cw_open.specs.Joins.{ForkersGoOn, RestLeavesAlone, RightMayJoin};
ghost use Rattle.cw_open.specs.Judged.{AccessesStay, BarredAreMet, BarredArePart, FreeStay, WithinStay};
ghost use Rattle.cw_open.specs.Laws.{AtOnceIsAtAnyTime, BlocksHaveEnded, CancelsAreRight, CancelsNameCells, CellsFit, ClocksAreLatest, DyingRollBack, FreeAreSafe, ListsAreChains, ListsAreLive, ListsHaveAll, ListsRise, OpenAreNested, OwnAccessesAreFree, RefusalsAreTold, RootsStay, StrandsStandAtPlaces, TreesAreSound, VictimsAreAbove};
ghost use Rattle.cw_open.specs.Left.{HistoriesAreInOrder, HistoriesAreLeft};
ghost use Rattle.cw_open.specs.LeftFirst.{AtOnceIsWhilePending, LeftFirstAreOlder, LeftFirstHaveFinished, LeftFirstIsUnrefused};
ghost use Rattle.cw_open.specs.Looked.{BeneathIsLast, BeneathStays, FoundArePutBack, LooksStay, NewestAreBeneath, OneBlockHas};
ghost use Rattle.cw_open.specs.Reads.{ReadsAreMet};
ghost use Rattle.cw_open.specs.Reordered.{CancelsStay, CellsStay, EndsStay, FaultsStay, JournalsStay, RefusalsStay, RollsBackStays};
ghost use Rattle.cw_open.specs.Refused.{AbortedAreVictims, AheadIsTimely, AskersAreTried, AtOnceIsTold, CommittedAreSafe, ConflictsAreRecorded, DeadGoBack, DyingGoBack, StopsAreLeftOut, ToldIsAtAnyTime};
ghost use Rattle.cw_open.specs.Spent.{SpentAreInOrder};
ghost use Rattle.cw_open.specs.Still.{StillStays};
ghost use Rattle.cw_open.specs.Tails.{TailsClose, TailsGrow};
ghost use Rattle.cw_open.specs.Unfinished.{OneForkIsAwaited, RootsLeaveNone, UnfinishedAreLive, UntoldAreFree};
ghost use Rattle.cw_open.specs.Worked.{Beneath, GivenUp, Inside, InnerCommitted, LeftStrands, Outer, Twice};
ghost use Rattle.cw_open.specs.WorkedAround.{EntriesRows, PutBackRows, RightJoins, StillRows, TailsRows, TwoBlocks, WaitingRows};
ghost use Rattle.cw_open.specs.WorkedHands.{BroughtByOther, TwoHands};
ghost use Rattle.cw_open.specs.WorkedTimes.{DrawnEarly, RefusedLate};

use std::marker::Brand;

/// In every state the tree is sound, its open nodes are nested, its running strands are at places, and the clock is at
/// its latest stamp or after it.
pub fn trees_of_runs()
    ensures trees { TreesAreSound }
    ensures open_nodes { OpenAreNested }
    ensures places { StrandsStandAtPlaces }
    ensures clocks { ClocksAreLatest }
{}

/// In every state the root is its own parent.
pub fn roots_stay()
    ensures root { RootsStay }
{}

/// In every state the lists rise and contain only live accesses of their cells. If no undo is under way, they contain all of them.
pub fn lists_of_runs()
    ensures cells { CellsFit }
    ensures cancels { CancelsNameCells }
    ensures rise { ListsRise }
    ensures live { ListsAreLive }
    ensures all { ListsHaveAll }
{}

/// If an access may conflict only with the newest one, each live read has what the live accesses before it left.
pub fn reads_of_runs()
    ensures reads { ReadsAreMet }
{}

/// If an access may conflict only with the newest one, each list is a chain. Each block above an access of a list and
/// not above the next one has ended.
pub fn chains_of_runs()
    ensures chains { ListsAreChains }
    ensures ended { BlocksHaveEnded }
{}

/// If an access may conflict only with the newest one and no undo is under way, each live cancel lists what its block
/// puts back: the cells that the block wrote before it, and what each had before the block first accessed it. If a
/// strand is in a block of its own and the cell has an access beneath that block, the strand's access conflicts with
/// none. So a write that puts back is not refused.
pub fn cancels_of_runs()
    ensures right { CancelsAreRight }
    ensures own { OwnAccessesAreFree }
{}

/// Victims are above the accesses for which they have to roll back. A running strand that is dying rolls back the block
/// that it is in, if it is in one. If the strand is not dying, that block is no victim.
pub fn victims_of_runs()
    ensures above { VictimsAreAbove }
    ensures dying { DyingRollBack }
    ensures free { FreeAreSafe }
{}

/// What is said of runs holds if an access is refused as soon as it conflicts with the newest one. What it met is then
/// as a conflict tells it.
pub fn runs_at_once()
    ensures runs { AtOnceIsAtAnyTime }
    ensures told { RefusalsAreTold }
{}

/// Each refused access has its conflict. If an access is refused only when its conflict can tell what it met, and
/// stamps are drawn in time, each conflict is a recorded one when it is made, and stays one.
pub fn conflicts_of_runs()
    ensures askers { AskersAreTried }
    ensures recorded { ConflictsAreRecorded }
{}

/// What was rolled back was rolled back for a victim, and no victim is committed. A strand that is dying only rolls
/// back and finishes. In its place, a refused access with a victim, an aborted block that is no victim, or a fork of
/// which a strand died is the last node.
pub fn dying_go_back()
    ensures aborted { AbortedAreVictims }
    ensures committed { CommittedAreSafe }
    ensures dying { DyingGoBack }
    ensures dead { DeadGoBack }
{}

/// If an access is refused as soon as it conflicts with the newest one, its conflict can tell what it met. If each
/// stamp exceeds the clock, stamps are drawn in time.
pub fn conflicts_at_once()
    ensures told { AtOnceIsTold }
    ensures timely { AheadIsTimely }
{}

/// If each fork's left strand finishes before its right one steps, no access is refused. This needs that an access is
/// refused only while some block is pending that is not around its place, which holds if it is refused as soon as it
/// conflicts.
pub fn left_strands_are_unrefused()
    ensures unrefused { LeftFirstIsUnrefused }
    ensures at_once { AtOnceIsWhilePending }
{}

/// If left strands go first, each strand to the left of a stamp has finished. If each stamp also exceeds the clock,
/// what is to the left was made, and ended, before the stamp.
pub fn left_strands_are_older()
    ensures older { LeftFirstAreOlder }
    ensures finished { LeftFirstHaveFinished }
{}

/// If no undo is under way, the journals, cancels, conflicts and rolled-back blocks that a run leaves are as they have
/// to be. In depth-first order they are a history.
pub fn histories_of_runs()
    ensures left { HistoriesAreLeft }
    ensures in_order { HistoriesAreInOrder }
    ensures any_time { ToldIsAtAnyTime }
{}

/// What is true of the tree, the journals, the cancels and the conflicts that a run leaves is true of them in
/// depth-first order, of each by itself.
pub fn closed_in_order()
    ensures cells { CellsStay }
    ensures journals { JournalsStay }
    ensures ends { EndsStay }
    ensures cancels { CancelsStay }
    ensures refusals { RefusalsStay }
    ensures rolls_back { RollsBackStays }
    ensures faults { FaultsStay }
{}

/// A run without its stops is a run: a strand that stopped is where it ran.
pub fn stops_are_left_out()
    ensures stops { StopsAreLeftOut }
{}

/// A strand that has spent its budget, and made no step after that, has spent it in depth-first order too.
pub fn spent_are_in_order()
    ensures spent { SpentAreInOrder }
{}

/// The places of two strands that run are in parallel.
pub fn places_part()
    ensures parallel { PlacesPart }
{}

/// A step of another strand leaves a running strand at its place, with the blocks that it began, as free as it was, and
/// rolling back if it did.
pub fn others_leave_alone()
    ensures alone { OthersLeaveAlone }
{}

/// A number that was drawn early stays what it was drawn for after a step of another strand that does not bring it: the
/// next stamp at the strand's place, in time, or the end of its block.
pub fn drawn_numbers_stay()
    ensures next { NextStampsStay }
    ensures drawn { DrawnStay }
    ensures end { EndStampsStay }
{}

/// The rules of the machine whose runs a law is about: a call picks them.
pub trait Ruled {
    ghost use Rattle.cw_open.specs.Runs.{Rules};

    ghost rules: { Rules };
}

impl Ruled for Brand {
    ghost use Rattle.cw_open.specs.Runs.{at_once};

    ghost rules = { at_once };
}

/// A run in time goes on step by step, with the times of its nodes. No time is above the clock. A number above the
/// clock may be used next, or as an end, at any place.
pub fn runs_go_on<R: Ruled>()
    ensures begin { RunsBegin R.rules }
    ensures on { RunsGoOn R.rules }
    ensures allowed { AllowedAtAnyTime R.rules }
    ensures in_time { RunsAreInTime R.rules }
    ensures low { TimesAreLow R.rules }
    ensures ahead { AheadIsNext R.rules }
{}

/// No step makes an access conflict that did not. What a strand met stays as a conflict tells it, and met in time, whatever others do.
pub fn met_accesses_stay()
    ensures none_more { NoneConflictsMore }
    ensures met { MetStays }
    ensures newest { NewestStay }
    ensures in_time { MetInTimeStays }
{}

/// If the newest access of a cell conflicts, and a pending block stands in the way, a conflict can tell this.
pub fn conflicts_are_told()
    ensures told { ConflictsAreTold }
{}

/// Each node beneath the place of a strand is of that strand, or beneath a fork that the strand made there and that was joined.
pub fn beneath_is_own()
    ensures own { BeneathIsOwn }
{}

/// If both strands of a fork run and are in no block of their own, they may finish, and the fork may be joined. If the
/// strand that forked waited only for this fork, it then runs again where it forked, with the blocks that it had begun.
/// Others are left alone.
pub fn strands_join()
    ensures may { StrandsMayJoin }
    ensures again { ForkersRunAgain }
    ensures alone { JoinsLeaveAlone }
{}

/// If the left strand of a fork has finished, the right one runs and is in no block of its own, it may finish, and the fork may be
/// joined. If the strand that forked waited only for this fork, it then runs again where it forked. Others are left alone.
pub fn right_strands_join()
    ensures may { RightMayJoin }
    ensures again { ForkersGoOn }
    ensures alone { RestLeavesAlone }
{}

/// A step leaves each open node whose own strand does not make it: the places of strands that run and of those that wait. The node is
/// as it was, with the same nodes in it and the same pending blocks around it, at their attempts. The same block is the victim of each
/// access. So a step of another leaves the place of a running strand, and each node above that.
pub fn others_leave_around()
    ensures opened { OpenStay }
    ensures around { AroundStays }
{}

/// What a strand learned of an access stays so. The access keeps its name. If no pending block is above it, none ever is. If the
/// nearest one is around the strand's place, a step of another leaves it the nearest.
pub fn verdicts_stay()
    ensures accesses { AccessesStay }
    ensures free { FreeStay }
    ensures within { WithinStay }
{}

/// If a pending block above an access is not around the place of a running strand, the access is parallel to that place, and a
/// conflict can tell this, in time. The access need not be the newest.
pub fn barred_are_told()
    ensures parallel { BarredArePart }
    ensures met { BarredAreMet }
{}

/// If an access may conflict only with the newest one, and a list has an access beneath the block of a running strand, then its
/// newest one is beneath that block too, and none is beneath the block of another running strand. So a step of another leaves the
/// list. It also leaves whether the block wrote a cell and, if it did, what the cell had before.
pub fn looks_stay()
    ensures newest { NewestAreBeneath }
    ensures one { OneBlockHas }
    ensures list { BeneathStays }
    ensures looks { LooksStay }
{}

/// What is beneath a pending block is the end of a list. A list of what was found of each cell with a write beneath a strand's block, by
/// rising cells, is what the strand puts back if it gives the block up with a next stamp.
pub fn looks_are_put_back()
    ensures last { BeneathIsLast }
    ensures found { FoundArePutBack }
{}

/// A strand waits for one fork at most. If it has not finished, it is live. If main runs and is in no block of its own, no block is
/// pending. A running strand is free if no access that was refused beneath it has a block around its place for its victim.
pub fn unfinished_strands()
    ensures one { OneForkIsAwaited }
    ensures live { UnfinishedAreLive }
    ensures none { RootsLeaveNone }
    ensures free { UntoldAreFree }
{}

/// If what a conflict refused is as it was when refused (its victim is pending, or the refused access is the last of a strand that has
/// not finished and is still at its place), each step of another strand leaves it so.
pub fn refused_stay()
    ensures still { StillStays }
{}

/// Entries of a list's accesses: those of its beginning are its first ones, an access more has an entry more, and a step leaves those of
/// the accesses that were there.
pub fn entries_of_lists()
    ensures begin { EntriesBegin }
    ensures more { EntriesMore }
    ensures stay { EntriesStay }
{}

/// How the nodes in a place end, which attempts are counted by: a new node comes behind them, and a block that is closed there as the
/// last one is the last rolled-back one, or ends their row. A new node leaves other places, and the attempts of older nodes.
pub fn places_end()
    ensures grow { TailsGrow }
    ensures close { TailsClose }
{}

/// What the definitions say of small runs.
pub fn worked_runs()
    ensures inside { Inside }
    ensures outer { Outer }
    ensures inner_committed { InnerCommitted }
    ensures beneath { Beneath }
    ensures twice { Twice }
    ensures given_up { GivenUp }
    ensures left_strands { LeftStrands }
{}

/// What they say of small runs in which a step comes late: an access is refused for a block that has ended by then, and
/// a block begins with a stamp that was drawn early. Both are histories. With an output of that strand before it, no
/// run as told and in time leads there.
pub fn worked_times()
    ensures late { RefusedLate }
    ensures early { DrawnEarly }
{}

/// What they say of a small run in which two strands step in turn, one of them with a number that it drew early. If the
/// other brings that number, it is gone.
pub fn worked_hands()
    ensures hands { TwoHands }
    ensures brought { BroughtByOther }
{}

/// What they say of a small run in which two strands have blocks and write, and one ends its block and finishes, or the other
/// is refused.
pub fn worked_around()
    ensures blocks { TwoBlocks }
    ensures put_back { PutBackRows }
    ensures joins { RightJoins }
    ensures waiting { WaitingRows }
    ensures still { StillRows }
    ensures entries { EntriesRows }
    ensures tails { TailsRows }
{}

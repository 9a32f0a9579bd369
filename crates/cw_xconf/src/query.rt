ghost use Rattle.std.specs.Prelude.{◌≡◌, ◌+◌, ◌≤◌, ◌==◌, ℕ, List};
ghost use Rattle.cw_trace.specs.Columns as traces;
ghost use Rattle.cw_trace.specs.Told.{HoldsRead, Stays};
ghost use Rattle.cw_trace.specs.Query as rules;
ghost use Rattle.cw_trace.specs.Query.{HasWord, IsWithinTrace, GivesAround, Gives, Covers};
ghost use Rattle.cw_trace.specs.Verdicts.{TellsOfTree, TellsByReading, TellsOfBlock};
ghost use Rattle.cw_xconf.specs.Costs.{looks_around, looks_for, most_looks};

use crate::steps::{came_before, is_less};
use crate::{Held, Verdict};
use cw_order::Steps;
use cw_trace::{Columns, Gaps, Tier};
use cw_tree::Mark;
use std::sync::ledger::Ledger;

/// Returns whether `trace` and `other` are the same trace.
fn is_same<L: Ledger>(trace: u32, other: u32, compares: &mut Steps<L>) -> bool
    ensures value { result ≡ (trace == other) }
    ensures cost { compares.new ≡ compares.old + 1 }
{
    compares.tick();
    trace == other
}

/// Returns the word of the lead of `trace`, or 0 if it has no lead.
fn lead_word<C: Columns, K: Ledger>(columns: &mut C, trace: u32, looks: &mut Steps<K>) -> u64
    requires { C.ready columns.old }
    ensures ready { C.ready columns.new }
    ensures word { HasWord (C.told columns.new) trace result }
    ensures kept { Stays (C.told columns.old) (C.told columns.new) }
    ensures looks { looks.new ≤ looks.old + 2 }
{
    match columns.lead(trace, looks) {
        None => 0,
        Some(gap) => columns.word(gap, looks),
    }
}

/// Returns whether the trace of `strand` is `outer` or lies inside it.
fn stands_in<C: Columns, K: Ledger, L: Ledger>(
    columns: &mut C,
    strand: u32,
    outer: u32,
    looks: &mut Steps<K>,
    compares: &mut Steps<L>,
) -> bool
    requires { C.ready columns.old }
    ensures ready { C.ready columns.new }
    ensures stands { IsWithinTrace (C.told columns.new) strand outer result }
    ensures kept { Stays (C.told columns.old) (C.told columns.new) }
    ensures looks { looks.new ≤ looks.old + 5 }
    ensures compares { compares.new ≤ compares.old + 3 }
{
    let trace = columns.owner(strand, looks);
    is_same(trace, outer, compares) || columns.inside(trace, outer, looks, compares)
}

/// Returns the verdict from `around`, the nearest trace around that has a pending block. If there is none, returns `Free`.
fn ask_around<C: Columns, K: Ledger, L: Ledger>(
    columns: &mut C,
    around: Option<u32>,
    asker: u32,
    looks: &mut Steps<K>,
    compares: &mut Steps<L>,
) -> Verdict
    requires { C.ready columns.old }
    ensures ready { C.ready columns.new }
    ensures given { GivesAround (C.told columns.new) asker around result }
    ensures kept { Stays (C.told columns.old) (C.told columns.new) }
    ensures looks { looks.new ≤ looks.old + looks_around result }
    ensures compares { compares.new ≤ compares.old + 3 }
{
    match around {
        None => Verdict::Free,
        Some(outer) => {
            if stands_in(columns, asker, outer, looks, compares) {
                Verdict::Within
            } else {
                Verdict::Against(lead_word(columns, outer, looks))
            }
        }
    }
}

/// Returns the verdict for the last access of a cell and an asker in column `asker`, from answers to reads. If every answer is what
/// one tier and its gap words hold, the verdict says what `ask` says of each tree that they represent.
pub fn ask_by<C: Columns, K: Ledger, L: Ledger>(
    columns: &mut C,
    last: Mark,
    asker: u32,
    looks: &mut Steps<K>,
    compares: &mut Steps<L>,
) -> Verdict
    requires { C.ready columns.old }
    ensures ready { C.ready columns.new }
    ensures given { Gives (C.told columns.new) last asker result }
    ensures tells { (c : traces.ColumnTable) (words : List ℕ) → Stays (C.told columns.new) (HoldsRead c words)
        → TellsOfTree c words last asker result }
    ensures kept { Stays (C.told columns.old) (C.told columns.new) }
    ensures looks { looks.new ≤ looks.old + most_looks }
    // no read is made that decides nothing
    ensures needed { looks.new ≤ looks.old + looks_for result }
    ensures compares { compares.new ≤ compares.old + 5 }
{
    let own = columns.owner(last.strand, looks);
    let word = lead_word(columns, own, looks);
    if came_before(word, last.stamp, compares) {
        if stands_in(columns, asker, own, looks, compares) {
            Verdict::Within
        } else {
            Verdict::Against(word)
        }
    } else {
        let around = columns.up(own, looks);
        ask_around(columns, around, asker, looks, compares)
    }
}

/// Returns whether a pending block is above the last access. `block` has the begin stamp of the block and the column of the strand
/// that began it.
pub fn contains_by<C: Columns, K: Ledger, L: Ledger>(
    columns: &mut C,
    block: Mark,
    last: Mark,
    looks: &mut Steps<K>,
    compares: &mut Steps<L>,
) -> bool
    requires { C.ready columns.old }
    ensures ready { C.ready columns.new }
    ensures given { Covers (C.told columns.new) block last result }
    ensures tells { (c : traces.ColumnTable) (words : List ℕ) → Stays (C.told columns.new) (HoldsRead c words)
        → TellsOfBlock c words block last result }
    ensures kept { Stays (C.told columns.old) (C.told columns.new) }
    ensures looks { looks.new ≤ looks.old + 6 }
    ensures compares { compares.new ≤ compares.old + 4 }
{
    let trace = columns.owner(block.strand, looks);
    let own = columns.owner(last.strand, looks);
    if is_same(own, trace, compares) {
        is_less(block.stamp, last.stamp, compares)
    } else {
        columns.inside(own, trace, looks, compares)
    }
}

/// Returns whether the next access by the asker would conflict with the last access of its cell, by a tier and gap words. The
/// verdict holds for every tree that they represent.
pub fn ask<L: Ledger, K: Ledger>(
    tier: &Tier,
    gaps: &Gaps,
    last: Mark,
    asker: u32,
    looks: &mut Steps<K>,
    compares: &mut Steps<L>,
) -> Verdict
    ensures verdict { result ≡ rules.verdict tier.now.columns gaps.now.words.items last asker }
    ensures tells { TellsOfTree tier.now.columns gaps.now.words.items last asker result }
    ensures by_reading { TellsByReading tier.now.columns gaps.now.words.items last asker result }
    ensures looks { looks.new ≤ looks.old + most_looks }
    // no read is made that decides nothing
    ensures needed { looks.new ≤ looks.old + looks_for result }
    ensures compares { compares.new ≤ compares.old + 5 }
{
    let mut held = Held {
        tier: tier.reader(),
        gaps: gaps.reader(),
    };
    ask_by(&mut held, last, asker, looks, compares)
}

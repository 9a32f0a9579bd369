ghost use Rattle.std.specs.Prelude.{◌≡◌, ◌<◌};

use super::rows::compared;
use cw_order::Steps;
use cw_trace::{Early, Tier};
use std::alloc::Global;
use std::marker::Brand;
use std::process::Abort;
use std::sync::ledger::{Blank, Ledger};
use std::test::Fail;

/// A call of a tier: a fork with the word and column of a strand, or a split or merge of a fork.
#[derive(Clone, Copy)]
pub(crate) enum Call {
    Fork(u64, u32),
    Split(u32),
    Merge(u32),
}

/// What was made so far: for each fork the column from which it was made, and the fork of each split and each merge.
#[derive(Drop)]
struct Walk {
    parents: Vec<u32>,
    turned: Vec<u32>,
}

/// Whether the fork `number`, counted from 0, was split and not merged since.
fn is_split(walk: &Walk, number: usize) -> bool {
    let mut split = false;
    for fork in &walk.turned {
        if *fork as usize / 2 == number {
            split = !split;
        }
    }
    split
}

/// Returns the owner of a strand by a walk up: its own column if its fork is split, otherwise the owner of the strand that forked.
fn owner_of(walk: &Walk, strand: u32) -> u32 {
    let mut at = strand;
    for _ in 0..walk.parents.len() {
        if at == 0 {
            return 0;
        }
        let number = (at as usize - 1) / 2;
        if number >= walk.parents.len() || is_split(walk, number) {
            return at;
        }
        at = walk.parents[number];
    }
    at
}

fn fork(
    alloc: Global,
    tier: &mut Tier,
    walk: &mut Walk,
    word: u64,
    parent: u32,
) -> Result<String, Fail> {
    if parent >= tier.used() {
        return Ok(String::from_str(alloc, "no ")?);
    }
    let Ok((left, right)) = tier.fork(word, parent) else {
        return Ok(String::from_str(alloc, "inline ")?);
    };
    walk.parents.push(parent)?;
    Ok(format!(in alloc; "{left},{right} ")?)
}

fn split(alloc: Global, tier: &mut Tier, walk: &mut Walk, fork: u32) -> Result<String, Fail> {
    if fork >= tier.used() || fork % 2 != 1 || tier.is_trace(fork) {
        return Ok(String::from_str(alloc, "no ")?);
    }
    if let Err(Early { before }) = tier.split(fork) {
        return Ok(format!(in alloc; "early {before} ")?);
    }
    walk.turned.push(fork)?;
    Ok(String::from_str(alloc, "ok ")?)
}

fn merge(alloc: Global, tier: &mut Tier, walk: &mut Walk, fork: u32) -> Result<String, Fail> {
    if fork >= tier.used() || fork % 2 != 1 || !tier.is_trace(fork) {
        return Ok(String::from_str(alloc, "no ")?);
    }
    tier.merge(fork);
    walk.turned.push(fork)?;
    Ok(String::from_str(alloc, "merged ")?)
}

/// Makes a call if it may be made, and writes the answer.
fn made(alloc: Global, tier: &mut Tier, walk: &mut Walk, call: Call) -> Result<String, Fail> {
    match call {
        Call::Fork(word, parent) => fork(alloc, tier, walk, word, parent),
        Call::Split(number) => split(alloc, tier, walk, number),
        Call::Merge(number) => merge(alloc, tier, walk, number),
    }
}

/// Writes the owner and gap of a strand. An owner that is not that of the walk is written as `?`.
fn strand_told<L: Ledger>(
    alloc: Global,
    tier: &Tier,
    walk: &Walk,
    strand: u32,
    steps: &mut Steps<L>,
) -> Result<String, Fail> {
    if strand >= tier.used() || tier.owner(strand, steps) != owner_of(walk, strand) {
        return Ok(String::from_str(alloc, "? ")?);
    }
    let owner = owner_of(walk, strand);
    let gap = tier.gap(strand);
    Ok(format!(in alloc; "{owner}:{gap} ")?)
}

/// Writes a trace's lead, the nearest trace around it with a pending block, and whether it is inside the root's. Writes nothing for
/// what is no trace.
fn trace_told<L: Ledger>(
    alloc: Global,
    tier: &Tier,
    trace: u32,
    steps: &mut Steps<L>,
) -> Result<String, Fail> {
    if trace >= tier.used() || !tier.is_trace(trace) || !tier.is_trace(0) {
        return Ok(String::new(alloc));
    }
    let lead = tier.lead(trace, steps);
    let up = tier.up(trace, steps);
    let within = tier.inside(trace, 0, steps);
    Ok(format!(in alloc; "[{trace} {lead:?} {up:?} {within}]")?)
}

/// Writes this for each strand, and then for each trace.
fn tier_told<L: Ledger>(
    alloc: Global,
    tier: &Tier,
    walk: &Walk,
    steps: &mut Steps<L>,
) -> Result<String, Fail> {
    let mut text = String::new(alloc);
    for strand in 0..tier.used() {
        let line = strand_told(alloc, tier, walk, strand, steps)?;
        text.push_str(line.as_str())?;
    }
    for trace in 0..tier.used() {
        let line = trace_told(alloc, tier, trace, steps)?;
        text.push_str(line.as_str())?;
    }
    Ok(text)
}

/// Writes what calls return, and then what the tier tells.
fn told<L: Ledger>(
    alloc: Global,
    room: u32,
    calls: &[Call],
    steps: &mut Steps<L>,
) -> Result<String, Fail>
    requires { 0 < room }
{
    let mut tier = Tier::with_strands(alloc, room)?;
    let mut walk = Walk {
        parents: Vec::new(alloc),
        turned: Vec::new(alloc),
    };
    let text = told_of(alloc, &mut tier, &mut walk, calls, steps);
    drop(walk);
    drop(tier);
    text
}

/// The same of a tier and a walk.
fn told_of<L: Ledger>(
    alloc: Global,
    tier: &mut Tier,
    walk: &mut Walk,
    calls: &[Call],
    steps: &mut Steps<L>,
) -> Result<String, Fail> {
    let mut text = String::new(alloc);
    for call in calls {
        let answer = made(alloc, tier, walk, *call)?;
        text.push_str(answer.as_str())?;
    }
    let rest = tier_told(alloc, tier, walk, steps)?;
    text.push_str(rest.as_str())?;
    Ok(text)
}

fn tell_all<L: Ledger, R: Abort>(rt: &R, alloc: Global, blank: Blank) -> Result<(), Fail>
    requires name { blank.name ≡ L.name }
    requires parts { blank.parts ≡ L.parts }
    requires some { 0 < L.parts }
{
    let mut steps = Steps::<L>::new(blank);
    let table: &[(u32, &[Call], &str)] = &[
        (
            5,
            &[
                Call::Fork(0, 0),
                Call::Fork(0, 1),
                Call::Split(3),
                Call::Split(1),
                Call::Split(3),
                Call::Fork(0, 3),
            ],
            "1,2 3,4 early 1 ok ok inline 0:0 1:0 2:2 3:0 4:4 [0 None None false][1 None None true][2 Some(2) None true][3 Some(0) None true][4 Some(4) None true]",
        ),
        (
            9,
            &[
                Call::Fork(0, 0),
                Call::Fork(0, 1),
                Call::Fork(0, 4),
                Call::Split(5),
                Call::Split(1),
                Call::Split(5),
            ],
            "1,2 3,4 5,6 early 1 ok ok 0:0 1:0 2:2 1:0 1:0 5:0 6:6 [0 None None false][1 None None true][2 Some(2) None true][5 Some(0) None true][6 Some(6) None true]",
        ),
        (
            9,
            &[
                Call::Fork(0, 0),
                Call::Fork(0, 1),
                Call::Fork(0, 3),
                Call::Split(5),
                Call::Split(3),
            ],
            "1,2 3,4 5,6 early 3 early 1 0:0 0:0 0:0 0:0 0:0 0:0 0:0 [0 Some(0) None false]",
        ),
        (
            3,
            &[Call::Fork(0, 0), Call::Split(1)],
            "1,2 ok 0:0 1:0 2:2 [0 None None false][1 Some(0) None true][2 Some(2) None true]",
        ),
        (
            3,
            &[Call::Fork(0, 0), Call::Split(1), Call::Merge(1)],
            "1,2 ok merged 0:0 0:0 0:2 [0 Some(0) None false]",
        ),
        (
            3,
            &[Call::Fork(1, 0), Call::Split(1)],
            "1,2 ok 0:0 1:1 2:2 [0 Some(0) None false][1 Some(1) Some(0) true][2 Some(2) Some(0) true]",
        ),
        (1, &[Call::Fork(0, 0)], "inline 0:0 [0 Some(0) None false]"),
        (
            4,
            &[Call::Fork(0, 0), Call::Fork(0, 0)],
            "1,2 inline 0:0 0:0 0:0 [0 Some(0) None false]",
        ),
        (
            7,
            &[
                Call::Fork(0, 0),
                Call::Fork(0, 1),
                Call::Split(1),
                Call::Fork(0, 2),
                Call::Split(5),
            ],
            "1,2 3,4 ok 5,6 ok 0:0 1:0 2:2 1:0 1:0 5:2 6:6 [0 None None false][1 Some(0) None true][2 None None true][5 Some(2) None true][6 Some(6) None true]",
        ),
        (
            5,
            &[
                Call::Fork(0, 0),
                Call::Split(1),
                Call::Fork(0, 1),
                Call::Split(3),
                Call::Merge(3),
                Call::Merge(1),
            ],
            "1,2 ok 3,4 ok merged merged 0:0 0:0 0:2 0:0 0:4 [0 Some(0) None false]",
        ),
        (
            5,
            &[
                Call::Fork(0, 0),
                Call::Split(1),
                Call::Merge(1),
                Call::Fork(0, 0),
                Call::Split(3),
            ],
            "1,2 ok merged 3,4 ok 0:0 0:0 0:2 3:0 4:4 [0 None None false][3 Some(0) None true][4 Some(4) None true]",
        ),
        (
            7,
            &[
                Call::Fork(0, 0),
                Call::Split(1),
                Call::Fork(0, 1),
                Call::Fork(0, 2),
                Call::Split(3),
                Call::Split(5),
            ],
            "1,2 ok 3,4 5,6 ok ok 0:0 1:0 2:2 3:0 4:4 5:2 6:6 [0 None None false][1 None None true][2 None None true][3 Some(0) None true][4 Some(4) None true][5 Some(2) None true][6 Some(6) None true]",
        ),
        (
            5,
            &[
                Call::Fork(1, 0),
                Call::Fork(0, 1),
                Call::Split(1),
                Call::Split(3),
            ],
            "1,2 3,4 ok ok 0:0 1:1 2:2 3:1 4:4 [0 Some(0) None false][1 None Some(0) true][2 Some(2) Some(0) true][3 Some(1) Some(0) true][4 Some(4) Some(0) true]",
        ),
        (
            9,
            &[
                Call::Fork(0, 0),
                Call::Fork(0, 2),
                Call::Fork(0, 4),
                Call::Split(5),
                Call::Merge(5),
            ],
            "1,2 3,4 5,6 ok merged 0:0 0:0 0:0 0:0 0:0 0:0 0:6 [0 Some(0) None false]",
        ),
    ];
    for &(room, calls, wanted) in table {
        if room > 0 {
            let text = told(alloc, room, calls, &mut steps)?;
            assert!(rt; text.as_str() == wanted);
            let count = compared(alloc, room, calls)?;
            assert!(rt; count.wrong == 0);
        }
    }
    Ok(())
}

#[test]
fn calls_of_a_tier(rt: HostRuntime) -> Result<(), Fail> {
    tell_all::<Brand, HostRuntime>(&rt, rt.alloc(), Blank::new(1))
}

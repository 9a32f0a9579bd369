ghost use Rattle.std.specs.Prelude.{◌<◌};

use super::traces::Call;
use cw_trace::{Row, Tier};
use std::alloc::Global;
use std::test::Fail;

/// Where a trace opens or closes.
#[derive(Clone, Copy, Drop)]
struct Bracket {
    trace: u32,
    closes: bool,
}

/// How many calls left rows, labels or listed columns that are not as wanted, and how many gave a trace other labels.
#[derive(Clone, Copy)]
pub(crate) struct Count {
    pub(crate) wrong: u32,
    pub(crate) renumbered: u32,
}

/// Makes a call, if it may be made. Returns whether it was made and not refused.
fn make(tier: &mut Tier, call: Call) -> bool {
    match call {
        Call::Fork(word, parent) => parent < tier.used() && tier.fork(word, parent).is_ok(),
        Call::Split(fork) => {
            fork < tier.used() && fork % 2 == 1 && !tier.is_trace(fork) && tier.split(fork).is_ok()
        }
        Call::Merge(fork) => {
            let may_be = fork < tier.used() && fork % 2 == 1 && tier.is_trace(fork);
            if may_be {
                tier.merge(fork);
            }
            may_be
        }
    }
}

fn rows_of(alloc: Global, tier: &Tier) -> Result<Vec<Row>, Fail> {
    let mut rows = Vec::new(alloc);
    for column in 0..tier.used() {
        rows.push(tier.row(column))?;
    }
    Ok(rows)
}

fn owner_in(rows: &[Row], column: u32) -> u32 {
    match rows.get(column as usize) {
        Some(row) => row.owner,
        None => 0,
    }
}

fn push_pair(brackets: &mut Vec<Bracket>, trace: u32) -> Result<(), Fail> {
    brackets.push(Bracket {
        trace,
        closes: false,
    })?;
    brackets.push(Bracket {
        trace,
        closes: true,
    })?;
    Ok(())
}

/// Returns the brackets of all traces in order after a call that was made. `rows` are those before it.
fn brackets_after(
    alloc: Global,
    brackets: &[Bracket],
    rows: &[Row],
    call: Call,
) -> Result<Vec<Bracket>, Fail> {
    let mut after = Vec::new(alloc);
    for &bracket in brackets {
        let trace = bracket.trace;
        match call {
            Call::Fork(_, _) => after.push(bracket)?,
            Call::Split(fork) => {
                after.push(bracket)?;
                if !bracket.closes && trace == owner_in(rows, fork) {
                    push_pair(&mut after, fork)?;
                    push_pair(&mut after, fork.saturating_add(1))?;
                }
            }
            Call::Merge(fork) => {
                if trace != fork && trace != fork.saturating_add(1) {
                    after.push(bracket)?;
                }
            }
        }
    }
    Ok(after)
}

/// Returns whether two rows are the same.
fn is_same(a: &Row, b: &Row) -> bool {
    a.owner == b.owner
        && a.gap == b.gap
        && a.head == b.head
        && a.lead == b.lead
        && a.up == b.up
        && a.opening == b.opening
        && a.closing == b.closing
}

fn times_in(listed: &[u32], column: usize) -> usize {
    let mut times = 0usize;
    for one in listed {
        if *one as usize == column {
            times = times.saturating_add(1);
        }
    }
    times
}

/// Returns how many listed columns were in use before and have not changed. Returns `None` if a column that changed or came into use
/// is not listed, or if a listed one is not in use or is listed twice.
fn others_listed(old: &[Row], new: &[Row], listed: &[u32]) -> Option<usize> {
    let mut found = 0usize;
    let mut others = 0usize;
    for column in 0..new.len() {
        let is_changed = match (old.get(column), new.get(column)) {
            (Some(before), Some(after)) => !is_same(before, after),
            _ => true,
        };
        let times = times_in(listed, column);
        if times > 1 || is_changed && times == 0 {
            return None;
        }
        found = found.saturating_add(times);
        if !is_changed {
            others = others.saturating_add(times);
        }
    }
    if found == listed.len() {
        Some(others)
    } else {
        None
    }
}

fn label_in(rows: &[Row], bracket: Bracket) -> u64 {
    match rows.get(bracket.trace as usize) {
        Some(row) => {
            if bracket.closes {
                row.closing
            } else {
                row.opening
            }
        }
        None => 0,
    }
}

/// Returns whether labels rise along these brackets, none of them is 0, and no other column has labels.
fn are_labels_right(rows: &[Row], brackets: &[Bracket]) -> bool {
    let mut last = 0;
    for bracket in brackets {
        let label = label_in(rows, *bracket);
        if label <= last {
            return false;
        }
        last = label;
    }
    let mut labels = 0usize;
    for row in rows {
        if row.opening > 0 {
            labels = labels.saturating_add(1);
        }
        if row.closing > 0 {
            labels = labels.saturating_add(1);
        }
    }
    labels == brackets.len()
}

/// Returns whether a trace that was there before has other labels.
fn is_renumbered(old: &[Row], new: &[Row]) -> bool {
    for column in 0..new.len() {
        if let (Some(before), Some(after)) = (old.get(column), new.get(column)) {
            if before.opening > 0
                && after.opening > 0
                && (before.opening != after.opening || before.closing != after.closing)
            {
                return true;
            }
        }
    }
    false
}

/// Makes these calls on a tier with room for `room` columns, and compares all rows after each with those before. A call that gives
/// no new labels lists at most one column that it does not change, and a call that is not made changes none.
pub(crate) fn compared(alloc: Global, room: u32, calls: &[Call]) -> Result<Count, Fail>
    requires { 0 < room }
{
    let mut tier = Tier::with_strands(alloc, room)?;
    let mut brackets = Vec::new(alloc);
    push_pair(&mut brackets, 0)?;
    let mut old = rows_of(alloc, &tier)?;
    let mut count = Count {
        wrong: 0,
        renumbered: 0,
    };
    for call in calls {
        let is_made = make(&mut tier, *call);
        if is_made {
            brackets = brackets_after(alloc, brackets.as_slice(), old.as_slice(), *call)?;
        }
        let listed = if is_made { tier.touched() } else { &[] };
        let new = rows_of(alloc, &tier)?;
        count = counted(count, &old, &new, listed, &brackets);
        old = new;
    }
    Ok(count)
}

/// Counts one call more.
fn counted(count: Count, old: &[Row], new: &[Row], listed: &[u32], brackets: &[Bracket]) -> Count {
    let is_renumbered = is_renumbered(old, new);
    let is_right = match others_listed(old, new, listed) {
        Some(others) => (is_renumbered || others <= 1) && are_labels_right(new, brackets),
        None => false,
    };
    Count {
        wrong: count.wrong.saturating_add(u32::from(!is_right)),
        renumbered: count.renumbered.saturating_add(u32::from(is_renumbered)),
    }
}

/// Where the forks of a list are made: in the root's strand, or each in the left or the right strand of the one before.
#[derive(Clone, Copy)]
enum Place {
    Root,
    Left,
    Right,
}

/// Returns the calls of forks that are split at once, and merged from the last to the first.
fn many_calls(alloc: Global, place: Place, forks: u32) -> Result<Vec<Call>, Fail> {
    let mut calls = Vec::new(alloc);
    let mut parent = 0u32;
    for fork in 0..forks {
        let left = fork.saturating_mul(2).saturating_add(1);
        calls.push(Call::Fork(0, parent))?;
        calls.push(Call::Split(left))?;
        parent = match place {
            Place::Root => 0,
            Place::Left => left,
            Place::Right => left.saturating_add(1),
        };
    }
    for fork in (0..forks).rev() {
        calls.push(Call::Merge(fork.saturating_mul(2).saturating_add(1)))?;
    }
    Ok(calls)
}

/// The brackets of all these forks go to one place, until no label is free there.
#[test]
fn rows_where_labels_are_used_up(rt: HostRuntime) -> Result<(), Fail> {
    for place in [Place::Root, Place::Left, Place::Right] {
        let calls = many_calls(rt.alloc(), place, 70)?;
        let count = compared(rt.alloc(), 141, &calls)?;
        assert!(rt; count.wrong == 0);
        assert!(rt; count.renumbered > 0);
    }
    Ok(())
}

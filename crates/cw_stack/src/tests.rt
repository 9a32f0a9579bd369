ghost use Rattle.std.specs.Prelude.{◌≡◌, ◌≤◌, length, IfOk, IfSome};

use super::*;
use cw_tree::{Entry, Mark};
use std::alloc::Global;
use std::process::Abort;
use std::test::Fail;

/// A step on a cell: an access with its stamp and the value it writes, a clean, a look at the value from before the entry with a
/// stamp, or a roll of that entry and all later ones.
#[derive(Clone, Copy)]
enum Step {
    Read(u64),
    Write(u64, i64),
    Clean,
    Before(u64),
    Roll(u64),
}

/// What a cell shows: its value after each step, or the value that was looked at. At the end: its newest stamps, the last of them,
/// and the value before each entry.
#[derive(Drop)]
struct Seen {
    values: Vec<i64>,
    chain: Vec<u64>,
    last: Option<u64>,
    olds: Vec<i64>,
}

fn access(cell: &mut Cell, stamp: u64, write: Option<i64>) -> Result<i64, Fail>
    ensures { cell.new.cleaned ≡ cell.old.cleaned }
{
    if let Some(last) = cell.last()
        && last.stamp >= stamp
    {
        return Err(Fail::new("a stamp does not rise"));
    }
    cell.reserve()?;
    Ok(cell.access(Mark { strand: 0, stamp }, write))
}

fn before(cell: &Cell, first: u64) -> Result<i64, Fail> {
    if !cell.may_roll(first) {
        return Err(Fail::new("no entry to look behind has the stamp"));
    }
    Ok(cell.before(first))
}

fn roll(cell: &mut Cell, cleaned: usize, first: u64) -> Result<(), Fail>
    requires { cell.old.cleaned ≡ cleaned }
    ensures { cell.new.cleaned ≡ cell.old.cleaned }
{
    let there = cell.journal()[cleaned..]
        .iter()
        .any(|entry| entry.mark.stamp == first);
    if !there {
        return Err(Fail::new("no entry to roll back has the stamp"));
    }
    cell.roll(first);
    Ok(())
}

fn see(alloc: Global, init: i64, steps: &[Step]) -> Result<Seen, Fail> {
    let mut cell = Cell::new(alloc, init);
    let mut cleaned = 0;
    let mut values = Vec::new(alloc);
    for step in steps {
        let value = match *step {
            Step::Read(stamp) => access(&mut cell, stamp, None)?,
            Step::Write(stamp, value) => access(&mut cell, stamp, Some(value))?,
            Step::Clean => {
                cell.clean();
                cleaned = cell.journal().len();
                cell.value()
            }
            Step::Before(first) => before(&cell, first)?,
            Step::Roll(first) => {
                roll(&mut cell, cleaned, first)?;
                cell.value()
            }
        };
        values.push(value)?;
    }
    let chain = cell.chain()?;
    let last = cell.last().map(|mark| mark.stamp);
    let olds = olds(alloc, cell.into_journal().as_slice())?;
    Ok(Seen {
        values,
        chain,
        last,
        olds,
    })
}

fn olds(alloc: Global, entries: &[Entry]) -> Result<Vec<i64>, Fail> {
    let mut olds = Vec::new(alloc);
    for entry in entries {
        olds.push(entry.old)?;
    }
    Ok(olds)
}

/// Steps from a first value of 7, and what they have to show.
struct Row {
    steps: &'static [Step],
    values: &'static [i64],
    chain: &'static [u64],
    last: Option<u64>,
    olds: &'static [i64],
}

const ROWS: [Row; 8] = [
    Row {
        steps: &[
            Step::Write(2, 8),
            Step::Write(3, 9),
            Step::Read(4),
            Step::Roll(3),
        ],
        values: &[8, 9, 9, 8],
        chain: &[2],
        last: Some(2),
        olds: &[7],
    },
    Row {
        steps: &[
            Step::Write(2, 8),
            Step::Write(3, 9),
            Step::Read(4),
            Step::Roll(3),
            Step::Roll(2),
        ],
        values: &[8, 9, 9, 8, 7],
        chain: &[],
        last: None,
        olds: &[],
    },
    Row {
        steps: &[
            Step::Write(2, 8),
            Step::Clean,
            Step::Write(4, 9),
            Step::Roll(4),
        ],
        values: &[8, 8, 9, 8],
        chain: &[2],
        last: Some(2),
        olds: &[7],
    },
    Row {
        steps: &[
            Step::Read(1),
            Step::Read(2),
            Step::Read(3),
            Step::Read(4),
            Step::Read(5),
            Step::Read(6),
            Step::Read(7),
            Step::Read(8),
            Step::Write(9, 6),
        ],
        values: &[7, 7, 7, 7, 7, 7, 7, 7, 6],
        chain: &[2, 3, 4, 5, 6, 7, 8, 9],
        last: Some(9),
        olds: &[7, 7, 7, 7, 7, 7, 7, 7, 7],
    },
    Row {
        steps: &[Step::Read(6), Step::Write(7, 8), Step::Roll(6)],
        values: &[7, 8, 7],
        chain: &[],
        last: None,
        olds: &[],
    },
    Row {
        steps: &[
            Step::Write(1, 3),
            Step::Write(2, 4),
            Step::Roll(2),
            Step::Write(3, 5),
        ],
        values: &[3, 4, 3, 5],
        chain: &[1, 3],
        last: Some(3),
        olds: &[7, 3],
    },
    // what a roll restores: the first of the entries that it removes may be a read
    Row {
        steps: &[
            Step::Write(2, 8),
            Step::Read(3),
            Step::Write(4, 9),
            Step::Write(5, 6),
            Step::Before(5),
            Step::Before(4),
            Step::Before(3),
            Step::Before(2),
            Step::Roll(4),
            Step::Before(3),
        ],
        values: &[8, 8, 9, 6, 9, 8, 8, 7, 8, 8],
        chain: &[2, 3],
        last: Some(3),
        olds: &[7, 8],
    },
    // the small run of `specs/WorkedRun.antt`
    Row {
        steps: &[
            Step::Write(5, 8),
            Step::Read(7),
            Step::Write(8, 9),
            Step::Roll(7),
        ],
        values: &[8, 8, 9, 8],
        chain: &[5],
        last: Some(5),
        olds: &[7],
    },
];

fn holds(alloc: Global, row: &Row) -> Result<bool, Fail> {
    let seen = see(alloc, 7, row.steps)?;
    Ok(
        seen.values.as_slice() == row.values
            && seen.chain.as_slice() == row.chain
            && seen.last == row.last
            && seen.olds.as_slice() == row.olds,
    )
}

#[test]
fn what_is_done_with_a_cell(rt: HostRuntime) -> Result<(), Fail> {
    for (number, row) in ROWS.iter().enumerate() {
        let right = holds(rt.alloc(), row)?;
        assert!(rt; right, "row {number}");
    }
    Ok(())
}

use super::grown::{Bud, grown};
use super::machines::program;
use cw_base::Seq;
use cw_code::Limits;
use cw_record::{Record, RecordEnd, build};
use cw_tree::{Closed, Entry, Mark, Tree};
use std::alloc::Global;
use std::test::Fail;

const SHOWS: &str = "cell c; fn main() { spawn { out 1; } out 2; c = 5; }";

// The right strand output 2 before the left one output 1.
fn shown(alloc: Global) -> Result<Tree, Fail> {
    let nodes: &[(u32, Bud<'_>, u64)] = &[
        (0, Bud::Fork, 1),
        (1, Bud::Strand, 0),
        (2, Bud::Out { value: 1 }, 3),
        (1, Bud::Strand, 0),
        (4, Bud::Out { value: 2 }, 2),
        (4, Bud::Write { cell: 0, value: 5 }, 4),
    ];
    grown(alloc, nodes, &[])
}

fn journals(alloc: Global) -> Result<Seq<Seq<Entry>>, Fail> {
    let mut entries = Seq::new(alloc);
    entries.push(Entry {
        mark: Mark {
            strand: 2,
            stamp: 4,
        },
        wrote: true,
        value: 5,
        old: 0,
    })?;
    let mut journals = Seq::new(alloc);
    journals.push(entries)?;
    Ok(journals)
}

fn built(alloc: Global, spent: bool) -> Result<Record, Fail> {
    let limits = Limits {
        fuel: 9,
        size: 9,
        aborts: 1,
        strands: 2,
        moves: 9,
    };
    let tree = shown(alloc)?;
    let journals = journals(alloc)?;
    let program = program(alloc, SHOWS)?;
    let closed = Closed {
        tree,
        journals,
        conflicts: Seq::new(alloc),
        halt: None,
    };
    Ok(build(alloc, program, Seq::new(alloc), limits, closed, spent)?)
}

// Returns the memory and the outputs of a run that finished.
fn left(alloc: Global) -> Result<(i64, i64, i64), Fail> {
    let record = built(alloc, false)?;
    let left = left_at(&record.end);
    drop(record);
    left
}

// Returns the cell and the two outputs of an end.
fn left_at(end: &RecordEnd) -> Result<(i64, i64, i64), Fail> {
    match end {
        RecordEnd::Finished { memory, outputs } => match (memory.as_slice(), outputs.as_slice()) {
            ([cell], [first, second]) => Ok((*cell, *first, *second)),
            _ => Err("another number of values".into()),
        },
        _ => Err("not finished".into()),
    }
}

fn has_spent_moves(alloc: Global) -> Result<bool, Fail> {
    let record = built(alloc, true)?;
    let spent = matches!(&record.end, RecordEnd::Moves);
    drop(record);
    Ok(spent)
}

#[test]
fn a_closed_run_has_its_record(rt: HostRuntime) -> Result<(), Fail> {
    let alloc = rt.alloc();
    assert!(rt; left(alloc)? == (5, 2, 1));
    assert!(rt; has_spent_moves(alloc)?);
    Ok(())
}

use super::{Bound, Run, ended, record, shown};
use cw_code::Back;
use cw_record::Record;
use cw_tree::{Kind, Node, Tree};
use std::alloc::Global;
use std::process::Abort;
use std::test::Fail;

fn stamped(alloc: Global, word: &str, stamp: u64) -> Result<String, Fail> {
    Ok(format!(in alloc; "{word} {stamp}")?)
}

fn block_told(alloc: Global, stamp: u64, end: u64) -> Result<String, Fail> {
    Ok(format!(in alloc; " block {stamp}-{end}")?)
}

fn cancel_told(alloc: Global, stamp: u64, back: &[Back]) -> Result<String, Fail> {
    let mut text = stamped(alloc, " cancel", stamp)?;
    for put in back {
        let (cell, value) = (put.cell, put.value);
        let told = format!(in alloc; " {cell}={value}")?;
        text.push_str(told.as_str())?;
    }
    Ok(text)
}

// Writes a node: its stamp, the end of a block, and for a cancel the cells that are put back, each with its value.
fn told(alloc: Global, node: &Node) -> Result<String, Fail> {
    match &node.kind {
        Kind::Strand => Ok(String::from_str(alloc, "|")?),
        Kind::Fork => stamped(alloc, " fork", node.stamp),
        Kind::Block => block_told(alloc, node.stamp, node.end),
        Kind::Read { .. } => stamped(alloc, " read", node.stamp),
        Kind::Write { .. } => stamped(alloc, " write", node.stamp),
        Kind::Out { .. } => stamped(alloc, " out", node.stamp),
        Kind::Tried { .. } => Ok(String::from_str(alloc, " tried")?),
        Kind::Cancel { back } => cancel_told(alloc, node.stamp, back.as_slice()),
    }
}

// Writes the nodes of a tree, depth first.
fn nodes(alloc: Global, tree: &Tree) -> Result<String, Fail> {
    let mut text = String::new(alloc);
    for node in tree.nodes() {
        let told = told(alloc, node)?;
        text.push_str(told.as_str())?;
    }
    Ok(text)
}

const SHOWN: &str =
    "language 2; cell c = 5; fn main() { atomic { c = 9; out c; cancel; out 1; } out c; }";

const SPAWNED: &str =
    "language 2; cell a = 1; cell b = 2; fn main() { atomic { spawn { a = 7; } atomic { b = 8; } cancel; } }";

const INNER: &str =
    "language 2; cell c; cell d; fn main() { atomic { c = 1; spawn { atomic { d = 2; cancel; } } cancel; } }";

const BESIDE: &str =
    "language 2; cell c; cell d; fn main() { spawn { c = 1; } atomic { c = 2; cancel; } }";

const AGAIN: &str =
    "language 2; cell c; cell d; fn main() { spawn { atomic { c = 1; } } atomic { atomic { d = 2; cancel; } c = 3; } }";

const TRIED: &str =
    "language 2; cell c; cell d; cell e; fn main() { atomic { spawn { atomic { c = 1; e = 1; } } atomic { if e == 0 { d = 1; } c = c + 2; } out c; cancel; } }";

const FAULTY: &str =
    "language 2; cell c; cell d; fn main() { spawn { let x = 1 / 0; } atomic { c = 2; d = 5; cancel; } }";

const LONG: &str =
    "language 2; cell c; cell d; fn main() { spawn { out 7; } atomic { c = 2; d = 5; cancel; } }";

const ONE: &str = "language 2; cell c; cell d; fn main() { atomic { c = 1; cancel; } }";

const BESIDE_TURNS: [u32; 12] = [0, 1, 1, 1, 0, 1, 0, 1, 0, 1, 0, 0];

const AGAIN_TURNS: [u32; 14] = [0, 1, 0, 0, 1, 1, 1, 1, 1, 1, 1, 1, 0, 1];

const TRIED_TURNS: [u32; 14] = [0, 0, 1, 0, 0, 1, 1, 1, 1, 1, 0, 0, 0, 1];

const FAULTY_TURNS: [u32; 8] = [0, 1, 1, 1, 1, 1, 1, 0];

// How a run ends, its tree, and the length of its order.
#[derive(Clone, Copy)]
struct Row<'a> {
    run: Run<'a>,
    end: &'a str,
    tree: &'a str,
    picks: usize,
}

const ROWS: [Row<'static>; 15] = [
    Row {
        run: Run(SHOWN, 1, &[], Bound::Wide),
        end: "finished [5] [9, 5] 0",
        tree: "| block 1-7 write 2 read 3 out 4 cancel 5 0=5 write 6 read 8 out 9",
        picks: 9,
    },
    Row {
        run: Run(SPAWNED, 1, &[], Bound::Wide),
        end: "finished [1, 2] [] 0",
        tree: "| block 1-10 fork 2| write 3| block 4-6 write 5 cancel 7 0=1 1=2 write 8 write 9",
        picks: 9,
    },
    Row {
        run: Run(SPAWNED, 2, &[0, 0, 1, 1, 1, 1, 0, 0, 1], Bound::Wide),
        end: "finished [1, 2] [] 0",
        tree: "| block 1-10 fork 2| write 6| block 3-5 write 4 cancel 7 0=1 1=2 write 8 write 9",
        picks: 9,
    },
    // what an inner block put back is a write of the outer one
    Row {
        run: Run(INNER, 1, &[], Bound::Wide),
        end: "finished [0, 0] [] 0",
        tree: "| block 1-12 write 2 fork 3| block 4-8 write 5 cancel 6 1=0 write 7| cancel 9 0=0 1=0 write 10 write 11",
        picks: 11,
    },
    // what was written before the block stays
    Row {
        run: Run(BESIDE, 1, &[], Bound::Wide),
        end: "finished [1, 0] [] 0",
        tree: "| fork 1| write 2| block 3-7 write 4 cancel 5 0=1 write 6",
        picks: 6,
    },
    // so does what another strand wrote between the block's begin and its first access
    Row {
        run: Run(BESIDE, 2, &[0, 1, 1, 0, 1, 1, 1, 1], Bound::Wide),
        end: "finished [1, 0] [] 0",
        tree: "| fork 1| write 3| block 2-7 write 4 cancel 5 0=1 write 6",
        picks: 6,
    },
    // a strand waits until what was put back is committed
    Row {
        run: Run(BESIDE, 2, &BESIDE_TURNS, Bound::Wide),
        end: "finished [1, 0] [] 3",
        tree: "| fork 1| tried tried tried write 7| block 2-6 write 3 cancel 4 0=0 write 5",
        picks: 6,
    },
    Row {
        run: Run(BESIDE, 2, &BESIDE_TURNS, Bound::Aborts(2)),
        end: "budget in 0.1l 2",
        tree: "| fork 1| tried tried| block 2-0 write 3 cancel 4 0=0",
        picks: 0,
    },
    // a block that was given up is rolled back with the one around it, and done again
    Row {
        run: Run(AGAIN, 2, &AGAIN_TURNS, Bound::Wide),
        end: "finished [3, 0] [] 1",
        tree: "| fork 1| block 2-11 write 3| block 4-10 block 5-9 write 6 cancel 7 1=0 write 8 tried block 12-19 block 13-17 write 14 cancel 15 1=0 write 16 write 18",
        picks: 11,
    },
    Row {
        run: Run(AGAIN, 2, &AGAIN_TURNS, Bound::Aborts(1)),
        end: "budget in 0.1r 1",
        tree: "| fork 1| block 2-0 write 3| block 4-0 block 5-9 write 6 cancel 7 1=0 write 8 tried",
        picks: 0,
    },
    // what was written only in a rolled-back attempt is not put back
    Row {
        run: Run(TRIED, 2, &TRIED_TURNS, Bound::Wide),
        end: "finished [0, 0, 0] [3] 1",
        tree: "| block 1-21 fork 2| block 3-10 write 4 write 9| block 5-8 read 6 write 7 tried block 11-15 read 12 read 13 write 14 read 16 out 17 cancel 18 0=0 2=0 write 19 write 20",
        picks: 16,
    },
    Row {
        run: Run(FAULTY, 2, &FAULTY_TURNS, Bound::Wide),
        end: "fault Zero in 0.1l 0",
        tree: "| fork 1|| block 2-0 write 3 write 4 cancel 5 0=0 1=0 write 6",
        picks: 0,
    },
    Row {
        run: Run(LONG, 2, &FAULTY_TURNS, Bound::Size(6)),
        end: "fault Size in 0.1r 0",
        tree: "| fork 1| out 7| block 2-0 write 3 write 4 cancel 5 0=0 1=0 write 6",
        picks: 6,
    },
    Row {
        run: Run(ONE, 1, &[], Bound::Moves(5)),
        end: "moves 0",
        tree: "| block 1-5 write 2 cancel 3 0=0 write 4",
        picks: 5,
    },
    Row {
        run: Run(ONE, 1, &[], Bound::Moves(6)),
        end: "finished [0, 0] [] 0",
        tree: "| block 1-5 write 2 cancel 3 0=0 write 4",
        picks: 5,
    },
];

// Fails unless a record has what a row says.
fn looks_so(rt: &impl Abort, alloc: Global, record: &Record, row: &Row<'_>) -> Result<(), Fail> {
    let end = shown(alloc, record)?;
    assert!(rt; end.as_str() == row.end);
    let tree = nodes(alloc, &record.tree)?;
    assert!(rt; tree.as_str() == row.tree);
    assert!(rt; record.order.list.len() == row.picks);
    Ok(())
}

fn is_so(rt: &impl Abort, alloc: Global, row: &Row<'_>) -> Result<(), Fail> {
    let record = record(alloc, row.run)?;
    let so = looks_so(rt, alloc, &record, row);
    drop(record);
    so
}

#[test]
fn blocks_are_given_up(rt: HostRuntime) -> Result<(), Fail> {
    for row in ROWS {
        is_so(&rt, rt.alloc(), &row)?;
    }
    Ok(())
}

#[test]
fn each_write_that_puts_back_is_a_move(rt: HostRuntime) -> Result<(), Fail> {
    for moves in 1..6u64 {
        let end = ended(rt.alloc(), Run(ONE, 1, &[], Bound::Moves(moves)))?;
        assert!(rt; end.as_str() == "moves 0");
    }
    Ok(())
}

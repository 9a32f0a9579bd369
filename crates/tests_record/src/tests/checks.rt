ghost use Rattle.std.specs.Prelude.{◌≡◌, [], IfOk};
ghost use Rattle.cw_job.specs.Jobs.{TakesWords};

use super::grown::{Bud, grown};
use super::machines::program;
use super::orders::ordered;
use cw_base::Seq;
use cw_code::{FaultKind, Limits, Program};
use cw_record::{Checked, Record, RecordEnd, check};
use cw_tree::{Conflict, Picks, Tree};
use std::alloc::Global;
use std::test::Fail;

// A strand writes in a block. Beside it, another strand begins a block and spawns in it; the spawned strand is refused, with that
// block as victim.
const REFUSED: &str = "cell c; cell d; fn main() { spawn { atomic { c = 1; c = 2; } } \
    atomic { spawn { c = 3; } d = d + 9223372036854775807 + 1; } }";
// A strand writes in a block, and one beside it is refused in the block around both.
const ALONE: &str = "cell c; fn main() { atomic { spawn { atomic { c = 1; } } c = 2; } }";

const COUNTS: &str = "cell c; fn main() { c = c + 1; out c; }";

// Makes a run of this program with this budget, tree, conflicts, end and order.
fn run(
    alloc: Global,
    program: Program,
    aborts: u32,
    tree: Tree,
    conflicts: Seq<Conflict>,
    order: Picks,
    end: RecordEnd,
) -> Record
    ensures { (result.program ≡ program) × (result.words ≡ []) }
{
    Record {
        program,
        words: Seq::new(alloc),
        limits: Limits {
            fuel: 9,
            size: 9,
            aborts,
            strands: 1,
            moves: 1,
        },
        tree,
        journals: Seq::new(alloc),
        conflicts,
        order,
        end,
    }
}

// Returns the program of a text, and the order of a run.
fn prepared(
    alloc: Global,
    text: &str,
    aborts: u32,
    tree: &Tree,
    conflicts: &[Conflict],
    end: &RecordEnd,
) -> Result<(Program, Picks), Fail>
    ensures { IfOk result (λ r. TakesWords r.0 0) }
{
    let order = ordered(alloc, tree, conflicts, aborts, end)?;
    let program = program(alloc, text)?;
    Ok((program, order))
}

// Returns what a check says of a run in its own order.
pub fn said(
    alloc: Global,
    text: &str,
    aborts: u32,
    tree: Tree,
    conflicts: Seq<Conflict>,
    end: RecordEnd,
) -> Result<Checked, Fail> {
    match prepared(alloc, text, aborts, &tree, conflicts.as_slice(), &end) {
        Ok(both) => {
            let (program, order) = both;
            let run = run(alloc, program, aborts, tree, conflicts, order, end);
            let said = check(alloc, &run);
            drop(run);
            Ok(said?)
        }
        Err(fault) => {
            drop(tree);
            drop(conflicts);
            drop(end);
            Err(fault)
        }
    }
}

fn one(alloc: Global, conflict: Conflict) -> Result<Seq<Conflict>, Fail> {
    let mut conflicts = Seq::new(alloc);
    conflicts.push(conflict)?;
    Ok(conflicts)
}

fn conflict(alloc: Global, last: u64, asker: u32, block: u64, victim: u64) -> Conflict {
    Conflict {
        cell: 0,
        last,
        asker,
        block,
        victim,
        attempt: 1,
        chain: Seq::new(alloc),
    }
}

// The answer if no cell, no output and no variant of the ends tells the difference: the record of a program with `cells` cells ends
// with the variant of number `kept`.
pub const fn differs(cells: u32, kept: i64) -> Checked {
    Checked::Disagree {
        cell: cells,
        kept,
        replayed: 4,
    }
}

// The left strand has written c once. The strand that the right one spawned was refused at c, and the right one has read d.
fn refused(alloc: Global) -> Result<Tree, Fail> {
    let nodes: &[(u32, Bud<'_>, u64)] = &[
        (0, Bud::Fork, 1),
        (1, Bud::Strand, 0),
        (2, Bud::Block, 2),
        (3, Bud::Write { cell: 0, value: 1 }, 3),
        (1, Bud::Strand, 0),
        (5, Bud::Block, 4),
        (6, Bud::Fork, 5),
        (7, Bud::Strand, 0),
        (8, Bud::Tried { cell: 0 }, 0),
        (7, Bud::Strand, 0),
        (10, Bud::Read { cell: 1, value: 0 }, 6),
    ];
    grown(alloc, nodes, &[])
}

// How such a run ends: at a fault of the strand that began a block, or with a budget that a strand spent.
#[derive(Clone, Copy)]
enum Stop {
    Fault(FaultKind),
    Budget(u32),
}

const fn end_of(stop: Stop) -> RecordEnd {
    match stop {
        Stop::Fault(kind) => RecordEnd::Fault { strand: 10, kind },
        Stop::Budget(strand) => RecordEnd::Budget { strand },
    }
}

fn said_of_refused(alloc: Global, aborts: u32, stop: Stop) -> Result<Checked, Fail> {
    let tree = refused(alloc)?;
    let conflicts = one(alloc, conflict(alloc, 3, 9, 2, 4))?;
    said(alloc, REFUSED, aborts, tree, conflicts, end_of(stop))
}

// A fault before the refused block is rolled back replays; so does the budget that the refusal spent, told for the victim's strand.
#[test]
fn a_fault_and_a_spent_budget_replay(rt: HostRuntime) -> Result<(), Fail> {
    let table = [
        (2, Stop::Fault(FaultKind::Overflow), Checked::Agrees),
        (2, Stop::Fault(FaultKind::Zero), differs(2, 1)),
        (1, Stop::Budget(5), Checked::Agrees),
        (1, Stop::Budget(8), differs(2, 2)),
        (2, Stop::Budget(5), differs(2, 2)),
    ];
    for (aborts, stop, wanted) in table {
        let answer = said_of_refused(rt.alloc(), aborts, stop)?;
        assert!(rt; answer == wanted);
    }
    Ok(())
}

// The strand of main is refused without a victim, inside the block that it began.
fn alone(alloc: Global) -> Result<Tree, Fail> {
    let nodes: &[(u32, Bud<'_>, u64)] = &[
        (0, Bud::Block, 1),
        (1, Bud::Fork, 2),
        (2, Bud::Strand, 0),
        (3, Bud::Block, 3),
        (4, Bud::Write { cell: 0, value: 1 }, 4),
        (2, Bud::Strand, 0),
        (6, Bud::Tried { cell: 0 }, 0),
    ];
    grown(alloc, nodes, &[])
}

fn said_of_alone(alloc: Global, strand: u32) -> Result<Checked, Fail> {
    let tree = alone(alloc)?;
    let conflicts = one(alloc, conflict(alloc, 4, 7, 3, 0))?;
    said(
        alloc,
        ALONE,
        1,
        tree,
        conflicts,
        RecordEnd::Budget { strand },
    )
}

#[test]
fn an_access_that_spent_the_budget_replays(rt: HostRuntime) -> Result<(), Fail> {
    for (strand, wanted) in [(6, Checked::Agrees), (3, differs(1, 2))] {
        let answer = said_of_alone(rt.alloc(), strand)?;
        assert!(rt; answer == wanted);
    }
    Ok(())
}

// The four things that main does, if its second read found `value`.
fn counted(alloc: Global, value: i64) -> Result<Tree, Fail> {
    let nodes: &[(u32, Bud<'_>, u64)] = &[
        (0, Bud::Read { cell: 0, value: 0 }, 1),
        (0, Bud::Write { cell: 0, value: 1 }, 2),
        (0, Bud::Read { cell: 0, value }, 3),
        (0, Bud::Out { value: 1 }, 4),
    ];
    grown(alloc, nodes, &[])
}

#[test]
fn moves_that_were_used_up_replay(rt: HostRuntime) -> Result<(), Fail> {
    let alloc = rt.alloc();
    for (value, wanted) in [(1, Checked::Agrees), (0, differs(1, 3))] {
        let tree = counted(alloc, value)?;
        let answer = said(alloc, COUNTS, 1, tree, Seq::new(alloc), RecordEnd::Moves)?;
        assert!(rt; answer == wanted);
    }
    Ok(())
}

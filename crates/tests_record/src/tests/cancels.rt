ghost use Rattle.cw_job.specs.Jobs.{TakesWords};
ghost use Rattle.cw_strand.specs.Programs.{IsCompiled};

use super::checks::{differs, said};
use super::grown::{Bud, grown};
use super::machines::program;
use cw_base::Seq;
use cw_code::{Back, Limits, Program};
use cw_record::{Checked, RecordEnd, depth_first};
use cw_tree::{BlockState, Kind, Tree};
use std::alloc::Global;
use std::test::Fail;

const SHOWN: &str =
    "language 2; cell c = 5; fn main() { atomic { c = 9; out c; cancel; out 1; } out c; }";

const TWICE: &str =
    "language 2; cell a = 1; cell b = 2; cell d; fn main() { atomic { a = 7; b = 8; cancel; } }";

const fn back(cell: u32, value: i64) -> Back {
    Back { cell, value }
}

fn finished(alloc: Global, memory: &[i64], outputs: &[i64]) -> Result<RecordEnd, Fail> {
    Ok(RecordEnd::Finished {
        memory: Seq::from_vec(memory.to_vec(alloc)?),
        outputs: Seq::from_vec(outputs.to_vec(alloc)?),
    })
}

// A block that writes c, outputs it, and cancels itself with this list.
fn shown(alloc: Global, list: &[Back]) -> Result<Tree, Fail> {
    let nodes = [
        (0, Bud::Block, 1),
        (1, Bud::Write { cell: 0, value: 9 }, 2),
        (1, Bud::Read { cell: 0, value: 9 }, 3),
        (1, Bud::Out { value: 9 }, 4),
        (1, Bud::Cancel { back: list }, 5),
        (1, Bud::Write { cell: 0, value: 5 }, 6),
        (0, Bud::Read { cell: 0, value: 5 }, 8),
        (0, Bud::Out { value: 5 }, 9),
    ];
    grown(alloc, &nodes, &[(1, BlockState::Committed, 7)])
}

// A block that writes a and b, and cancels itself with this list.
fn twice(alloc: Global, list: &[Back]) -> Result<Tree, Fail> {
    let nodes = [
        (0, Bud::Block, 1),
        (1, Bud::Write { cell: 0, value: 7 }, 2),
        (1, Bud::Write { cell: 1, value: 8 }, 3),
        (1, Bud::Cancel { back: list }, 4),
        (1, Bud::Write { cell: 0, value: 1 }, 5),
        (1, Bud::Write { cell: 1, value: 2 }, 6),
    ];
    grown(alloc, &nodes, &[(1, BlockState::Committed, 7)])
}

// What a check says of the first of these blocks with the list of this value.
fn said_of_shown(alloc: Global, value: i64) -> Result<Checked, Fail> {
    let tree = shown(alloc, &[back(0, value)])?;
    match finished(alloc, &[5], &[9, 5]) {
        Ok(end) => said(alloc, SHOWN, 1, tree, Seq::new(alloc), end),
        Err(fault) => {
            drop(tree);
            Err(fault)
        }
    }
}

// What a check says of the second with this list.
fn said_of_twice(alloc: Global, list: &[Back]) -> Result<Checked, Fail> {
    let tree = twice(alloc, list)?;
    match finished(alloc, &[1, 2, 0], &[]) {
        Ok(end) => said(alloc, TWICE, 1, tree, Seq::new(alloc), end),
        Err(fault) => {
            drop(tree);
            Err(fault)
        }
    }
}

#[test]
fn a_list_is_looked_at(rt: HostRuntime) -> Result<(), Fail> {
    let alloc = rt.alloc();
    for (value, wanted) in [(5, Checked::Agrees), (6, differs(1, 0))] {
        let answer = said_of_shown(alloc, value)?;
        assert!(rt; answer == wanted);
    }
    let lists: [(&[Back], Checked); 5] = [
        (&[back(0, 1), back(1, 2)], Checked::Agrees),
        (&[back(0, 1), back(1, 3)], differs(3, 0)),
        (&[back(0, 1), back(1, 2), back(2, 0)], differs(3, 0)),
        (&[back(1, 2)], differs(3, 0)),
        (&[back(1, 2), back(0, 1)], differs(3, 0)),
    ];
    for (list, wanted) in lists {
        let answer = said_of_twice(alloc, list)?;
        assert!(rt; answer == wanted);
    }
    Ok(())
}

// Writes the stamp and the list of the first cancel.
fn first_cancel(alloc: Global, tree: &Tree) -> Result<String, Fail> {
    for node in tree.nodes() {
        if let Kind::Cancel { back } = &node.kind {
            let stamp = node.stamp;
            let list = back.as_slice();
            return Ok(format!(in alloc; "{stamp} {list:?}")?);
        }
    }
    Err("no cancel".into())
}

// The same for the run of one worker.
fn first_listed(alloc: Global, program: Program) -> Result<String, Fail>
    requires compiled { IsCompiled program }
    requires words { TakesWords program 0 }
{
    let limits = Limits {
        fuel: 99,
        size: 99,
        aborts: 1,
        strands: 9,
        moves: 99,
    };
    let run = depth_first(alloc, program, Seq::new(alloc), limits)?;
    let listed = first_cancel(alloc, &run.tree);
    drop(run);
    listed
}

#[test]
fn one_worker_lists_what_is_put_back(rt: HostRuntime) -> Result<(), Fail> {
    let alloc = rt.alloc();
    let table = [
        (SHOWN, "5 [Back { cell: 0, value: 5 }]"),
        (
            "language 2; cell a = 1; cell b = 2; fn main() { atomic { spawn { a = 7; } atomic { b = 8; } cancel; } }",
            "7 [Back { cell: 0, value: 1 }, Back { cell: 1, value: 2 }]",
        ),
        (
            "language 2; cell c; cell d; fn main() { atomic { c = 1; atomic { d = 2; cancel; } } }",
            "5 [Back { cell: 1, value: 0 }]",
        ),
    ];
    for (text, wanted) in table {
        let program = program(alloc, text)?;
        let listed = first_listed(alloc, program)?;
        assert!(rt; listed.as_str() == wanted);
    }
    Ok(())
}

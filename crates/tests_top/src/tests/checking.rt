ghost use Rattle.std.specs.Prelude.{length, IfOk};
ghost use Rattle.cw_job.specs.Jobs.{TakesWords};

use super::{COUNTS, answer};
use cw_base::Seq;
use cw_io::{SureSink, SureSource};
use cw_record::{Checked, Record, RecordEnd, check};
use cw_serial::{SerialEnd, serial, takes_words};
use cw_tree::{Kind, Tree};
use std::alloc::Global;
use std::sync::Wait;
use std::test::Fail;
use std::thread::Threads;

// A block in the left strand, and an access beside it in the right one.
const BESIDE: &[u8] = b"cell c; fn main() { spawn { atomic { c = 1; } } c = 2; }";

fn record<R: AllocGlobal + Threads + Wait + Sync>(rt: &R, text: &[u8]) -> Result<Record, Fail>
    ensures { IfOk result (λ r. TakesWords r.program (length r.words)) }
{
    let mut source = SureSource::new(text.to_vec(rt.alloc())?, 100);
    let mut sink = SureSink::with_room(rt.alloc(), 100)?;
    let reply = answer(rt, &["run", "--workers=1"], &mut source, &mut sink)?;
    let kept = reply.kept.ok_or("no run is kept")?;
    if takes_words(&kept.program, kept.words.len()) {
        Ok(kept)
    } else {
        Err("main asks for other words".into())
    }
}

// Returns what a check says if the run ended with `end`.
fn with_end(alloc: Global, mut run: Record, end: RecordEnd) -> Result<Checked, Fail>
    requires { TakesWords run.program (length run.words) }
{
    run.end = end;
    Ok(check(alloc, &run)?)
}

// Returns the end under other picks.
fn end_with_picks(alloc: Global, mut run: Record, list: Seq<u32>) -> Result<SerialEnd, Fail>
    requires { TakesWords run.program (length run.words) }
{
    run.order.list = list;
    Ok(serial(
        alloc,
        &run.program,
        run.words.as_slice(),
        run.limits,
        &run.order,
    )?)
}

fn finished(alloc: Global, memory: &[i64], outputs: &[i64]) -> Result<RecordEnd, Fail> {
    Ok(RecordEnd::Finished {
        memory: Seq::from_vec(memory.to_vec(alloc)?),
        outputs: Seq::from_vec(outputs.to_vec(alloc)?),
    })
}

// Returns what a check says if the picks are these.
fn with_picks(alloc: Global, mut run: Record, list: Seq<u32>, last: u32) -> Result<Checked, Fail>
    requires { TakesWords run.program (length run.words) }
{
    run.order.list = list;
    run.order.last = last;
    Ok(check(alloc, &run)?)
}

// The tree of `COUNTS` if its first access read `value`.
fn counts_tree(alloc: Global, value: i64) -> Result<Tree, Fail> {
    let mut tree = Tree::new(alloc)?;
    tree.add(0, Kind::Read { cell: 0, value }, 1)?;
    tree.add(0, Kind::Write { cell: 0, value: 1 }, 2)?;
    tree.add(0, Kind::Read { cell: 0, value: 1 }, 3)?;
    tree.add(0, Kind::Out { value: 1 }, 4)?;
    Ok(tree)
}

// Returns what a check says if the tree is this one.
fn with_tree(alloc: Global, mut run: Record, tree: Tree) -> Result<Checked, Fail>
    requires { TakesWords run.program (length run.words) }
{
    run.tree = tree;
    Ok(check(alloc, &run)?)
}

// Both programs have one cell. So 0 is its number, and 1 says that no cell differs.
const fn disagree(cell: u32, kept: i64, replayed: i64) -> Checked {
    Checked::Disagree {
        cell,
        kept,
        replayed,
    }
}

#[test]
fn another_end_is_told_by_its_first_difference(rt: HostRuntime) -> Result<(), Fail> {
    let table: [(&[i64], &[i64], Checked); 6] = [
        (&[1], &[1], Checked::Agrees),
        (&[5], &[1], disagree(0, 5, 1)),
        (&[5], &[7], disagree(0, 5, 1)),
        (&[1], &[7], disagree(1, 7, 1)),
        (&[1, 5], &[1], disagree(1, 0, 4)),
        (&[1], &[], disagree(1, 0, 4)),
    ];
    for (memory, outputs, wanted) in table {
        let end = finished(rt.alloc(), memory, outputs)?;
        let said = with_end(rt.alloc(), record(&rt, COUNTS)?, end)?;
        assert_eq!(rt; said, wanted);
    }
    Ok(())
}

#[test]
fn an_end_of_another_kind_is_told_by_its_number(rt: HostRuntime) -> Result<(), Fail> {
    let spent = RecordEnd::Budget { strand: 0 };
    let said = with_end(rt.alloc(), record(&rt, COUNTS)?, spent)?;
    assert_eq!(rt; said, disagree(1, 2, 0));
    Ok(())
}

#[test]
fn another_order_is_refused(rt: HostRuntime) -> Result<(), Fail> {
    // The run's own picks; some that leave the begun block early; some that lead to another end; and some with another last strand.
    let table: [(&[u32], u32, Checked); 4] = [
        (&[1, 1, 1, 2], 0, Checked::Agrees),
        (&[1, 2, 1, 1], 0, disagree(1, 0, 4)),
        (&[2, 1, 1, 1], 0, disagree(0, 2, 1)),
        (&[1, 1, 1, 2], 1, disagree(1, 0, 4)),
    ];
    for (list, last, wanted) in table {
        let list = Seq::from_vec(list.to_vec(rt.alloc())?);
        let said = with_picks(rt.alloc(), record(&rt, BESIDE)?, list, last)?;
        assert_eq!(rt; said, wanted);
    }
    Ok(())
}

// The pick that leaves the block is the one that is stuck.
#[test]
fn a_begun_block_is_not_left_early(rt: HostRuntime) -> Result<(), Fail> {
    let list = Seq::from_vec([1, 2, 1, 1].to_vec(rt.alloc())?);
    let end = end_with_picks(rt.alloc(), record(&rt, BESIDE)?, list)?;
    assert!(rt; matches!(end, SerialEnd::Stuck { place: 1 }));
    Ok(())
}

#[test]
fn a_pick_that_does_otherwise_than_the_tree_is_refused(rt: HostRuntime) -> Result<(), Fail> {
    for (value, wanted) in [(0, Checked::Agrees), (7, disagree(1, 0, 4))] {
        let tree = counts_tree(rt.alloc(), value)?;
        let said = with_tree(rt.alloc(), record(&rt, COUNTS)?, tree)?;
        assert_eq!(rt; said, wanted);
    }
    Ok(())
}

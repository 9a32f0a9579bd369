ghost use Rattle.std.specs.Prelude.{◌≡◌, [], IfOk, length, List, Option};
ghost use Rattle.cw_strand.specs.Programs.{IsCompiled};
ghost use Rattle.cw_strand.specs.Names.{first_memory};
ghost use Rattle.cw_tree.specs.declared.node.Node.{Node};
ghost use Rattle.cw_tree.specs.declared.closed.Halt.{Halt};
ghost use Rattle.cw_tree.specs.InOrder.{in_order};
ghost use Rattle.cw_tree.specs.Walks.{IsNumbered};
ghost use Rattle.cw_open.specs.Machine.{OpenMachine};
ghost use Rattle.cw_job.specs.Jobs.{TakesWords};
ghost use Rattle.cw_job.specs.Room.Strands.{strands_of_job};
ghost use Rattle.cw_record.specs.Built.{AreLeft, HasRecord, IsLeftBy, end_left};
ghost use Rattle.cw_record.specs.Order.{order_of};
ghost use Rattle.cw_record.specs.Records.{BlocksEnded, HasEnded, HasItsOutputs, IsCoherentRun, IsReplayed, IsDepthFirst, IsNumberedDepthFirst};

use crate::items::items;
use crate::left::{end_left, end_of_run};
use crate::order::order_through;
use crate::worker::SoleWorker;
use crate::{RecordEnd, order_of};
use cw_base::{OutOfMemory, Seq};
use cw_code::{Limits, Program};
use cw_tree::{Closed, Conflict, Entry, Picks, Tree};
use std::alloc::Global;

/// What a run keeps: what it ran, its tree, the live accesses of each element, its refused accesses, the order in which one memory
/// does the same, and its end.
#[derive(Drop)]
pub struct Record {
    pub program: Program,
    pub words: Seq<i64>,
    pub limits: Limits,
    pub tree: Tree,
    pub journals: Seq<Seq<Entry>>,
    pub conflicts: Seq<Conflict>,
    pub order: Picks,
    pub end: RecordEnd,
}

/// Runs a program with one worker: depth first, the left strand of each fork before the right one. The run ends by itself or at the
/// first fault.
pub fn depth_first(
    alloc: Global,
    program: Program,
    words: Seq<i64>,
    limits: Limits,
) -> Result<Record, OutOfMemory>
    requires compiled { IsCompiled program }
    requires words { TakesWords program (length words) }
    ensures program { IfOk result (λ r. r.program ≡ program) }
    ensures words { IfOk result (λ r. r.words ≡ words) }
    ensures limits { IfOk result (λ r. r.limits ≡ limits) }
    ensures conflicts { IfOk result (λ r. r.conflicts ≡ []) }
    ensures ended { IfOk result (λ r. HasEnded r.end) }
    ensures coherent { IfOk result (λ r. IsCoherentRun r) }
    ensures outputs { IfOk result (λ r. HasItsOutputs r) }
    ensures depth_first { IfOk result (λ r. IsDepthFirst r) }
    ensures replays { IfOk result (λ r. IsReplayed r) }
    ensures numbered { IfOk result (λ r. IsNumberedDepthFirst r.tree) }
    ensures blocks { IfOk result (λ r. BlocksEnded r.tree r.end) }
{
    let run = match SoleWorker::run(alloc, &program, words.as_slice(), limits) {
        Ok(run) => run,
        Err(fault) => {
            drop(program);
            drop(words);
            return Err(fault);
        }
    };
    let conflicts = Seq::new(alloc);
    let order = match order_of(
        alloc,
        &run.drawing.tree,
        conflicts.as_slice(),
        limits.aborts,
        &run.end,
    ) {
        Ok(order) => order,
        Err(fault) => {
            drop(conflicts);
            drop(run);
            drop(program);
            drop(words);
            return Err(fault);
        }
    };
    Ok(Record {
        program,
        words,
        limits,
        tree: run.drawing.tree,
        journals: Seq::from_vec(run.drawing.journals),
        conflicts,
        order,
        end: run.end,
    })
}

/// Returns the record of a closed run of a job: what was run, what is left of it, its order and its end. `spent` says that the
/// moves of the run were used up before main had ended; if the run was stopped, it ended by that all the same. A run that finished
/// has the memory that its journals leave, and the outputs of its output nodes, in its order.
///
/// A run that was stopped because memory ran out has no record. If a run was stopped at a strand, the strand has to be one of the
/// tree. The only error is out of memory.
pub fn build(
    alloc: Global,
    program: Program,
    words: Seq<i64>,
    limits: Limits,
    closed: Closed,
    spent: bool,
) -> Result<Record, OutOfMemory>
    requires { HasRecord closed.tree closed.halt }
    ensures program { IfOk result (λ r. r.program ≡ program) }
    ensures words { IfOk result (λ r. r.words ≡ words) }
    ensures limits { IfOk result (λ r. r.limits ≡ limits) }
    ensures tree { IfOk result (λ r. r.tree ≡ closed.tree) }
    ensures journals { IfOk result (λ r. r.journals ≡ closed.journals) }
    ensures conflicts { IfOk result (λ r. r.conflicts ≡ closed.conflicts) }
    ensures order { IfOk result (λ r. r.order ≡ order_of r.tree r.conflicts r.limits.aborts r.end) }
    ensures end { IfOk result (λ r. r.end ≡ end_left (first_memory program.cells) limits.aborts closed spent) }
    ensures outputs { IfOk result (λ r. HasItsOutputs r) }

    // if a closed run of the program's strands left this, in depth-first order, the record is coherent
    ensures coherent { IfOk result (λ r. (m : OpenMachine) (h : Option Halt) →
        IsLeftBy (record { program = program; words = words; limits = limits }) spent m h closed → IsCoherentRun r) }

    // it is also coherent if strands of the program may leave this, however they were run
    ensures followed { IfOk result (λ r.
        AreLeft (strands_of_job (record { program = program; words = words; limits = limits })) (first_memory program.cells) limits.aborts spent closed → IsCoherentRun r) }
    ensures numbered { IfOk result (λ r. (t : List Node) →
        IsNumbered t → closed.tree ≡ in_order t → IsNumberedDepthFirst r.tree) }
{
    // a hint to the prover: the root is a strand
    let _ = closed.tree.nodes();
    let told = end_of_run(alloc, &closed, spent);
    let conflicts = closed.conflicts.as_slice();
    let items = match items(alloc, &closed.tree, conflicts, limits.aborts, &told) {
        Ok(items) => items,
        Err(fault) => {
            drop(told);
            drop(program);
            drop(words);
            drop(closed);
            return Err(fault);
        }
    };
    let end = match end_left(alloc, &program, &closed, told, items.as_slice()) {
        Ok(end) => end,
        Err(fault) => {
            drop(items);
            drop(program);
            drop(words);
            drop(closed);
            return Err(fault);
        }
    };
    let order = match order_through(alloc, &closed.tree, items.as_slice(), &end) {
        Ok(order) => order,
        Err(fault) => {
            drop(end);
            drop(items);
            drop(program);
            drop(words);
            drop(closed);
            return Err(fault);
        }
    };
    Ok(Record {
        program,
        words,
        limits,
        tree: closed.tree,
        journals: closed.journals,
        conflicts: closed.conflicts,
        order,
        end,
    })
}

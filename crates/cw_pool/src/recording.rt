//! The record of a run.
ghost use Rattle.std.specs.Prelude.{◌≡◌, ◌≢◌, ◌<◌, IfOk, IsTrue, None, false, length};
ghost use Rattle.cw_tree.specs.Nodes.{is_strand};
ghost use Rattle.cw_strand.specs.Names.{first_memory};
ghost use Rattle.cw_strand.specs.Programs.{IsCompiled};
ghost use Rattle.cw_job.specs.Jobs.{TakesWords};
ghost use Rattle.cw_log.specs.declared.token.Token.{Token};
ghost use Rattle.cw_log.specs.Tokens.{logs, root_token};
ghost use Rattle.cw_record.specs.Built.{HasRecord};
ghost use Rattle.cw_record.specs.declared.record_end.RecordEnd.TheVariants.{Moves};
ghost use Rattle.cw_record.specs.Order.{ending_strand};
ghost use Rattle.cw_record.specs.Records.{HasItsOutputs, IsNumberedDepthFirst};
ghost use Rattle.cw_course.specs.Closings.{IsPutTogether};
ghost use Rattle.cw_steps.specs.Stands.{token_of};
ghost use Rattle.cw_steps.specs.Views.{key_of};
ghost use Rattle.cw_board.specs.Boards.{columns_of, table_of, AreOfCells, IsOf};
ghost use Rattle.cw_pool.specs.Ends.{IsWorked};
ghost use Rattle.cw_pool.specs.Recorded.{IsOfBoard, IsOfOneWorker};

use crate::works::work_whole;
use cw_base::{OutOfMemory, Seq};
use cw_board::{Board, BoardName};
use cw_code::{Limits, Program};
use cw_io::Gate;
use cw_job::first_memory;
use cw_record::{Record, build, depth_first};
use cw_steps::StrandToken;
use cw_tree::{Closed, Halt};
use std::alloc::Global;
use std::marker::Brand;
use std::sync::Wait;
use std::thread::Threads;

/// Whether what a board gave has a record: the run did not stop out of memory; a strand at which it stopped is one of the tree; and
/// if no log has a halt, main came to its end and no strand had stopped. No rule of a board says the last two yet.
fn has_record(closed: &Closed, is_whole: bool) -> bool
    ensures record { IsTrue result → HasRecord closed.now.tree closed.now.halt }
    ensures whole { IsTrue result → closed.now.halt ≡ None → IsTrue is_whole }
{
    match closed.halt {
        None => is_whole,
        Some(Halt::Fault { strand, .. }) | Some(Halt::Budget { strand }) => {
            (strand as usize) < closed.tree.nodes().len() && closed.tree.is_strand(strand)
        }
        Some(Halt::Memory) => false,
    }
}

/// Makes the record from what a board gave when it was closed with the root's token.
fn record_of(
    alloc: Global,
    program: Program,
    words: Seq<i64>,
    limits: Limits,
    closed: Closed,
    is_whole: bool,
) -> Result<Record, OutOfMemory>
    ensures program { IfOk result (λ r. r.program ≡ program) }
    ensures words { IfOk result (λ r. r.words ≡ words) }
    ensures limits { IfOk result (λ r. r.limits ≡ limits) }
    ensures strand { IfOk result (λ r. IsTrue (is_strand r.tree (ending_strand r.end))) }
    ensures outputs { IfOk result (λ r. HasItsOutputs r) }
    ensures board { IfOk result (λ r. (x : Token) → IsWorked (record { program = program; words = words; limits = limits }) x → (IsTrue is_whole → x.told ≡ false)
        → IsPutTogether (logs x) x.stop closed → AreOfCells (length (first_memory program.cells)) closed.journals → IsOfBoard r × IsNumberedDepthFirst r.tree) }
    ensures moves { IfOk result (λ r. r.end ≢ Moves) }
{
    if !has_record(&closed, is_whole) {
        return Err(OutOfMemory);
    }
    // A hint to the prover: the root is a strand.
    let _ = closed.tree.nodes();
    build(alloc, program, words, limits, closed, false)
}

/// Runs a program on a board, once the board has a name.
fn run_named<N: BoardName, G: Gate, R: Threads + Wait + Sync>(
    rt: &R,
    alloc: Global,
    board: Board,
    root: StrandToken,
    program: Program,
    words: Seq<i64>,
    workers: u32,
    limits: Limits,
    gate: &G,
) -> Result<Record, OutOfMemory>
    requires compiled { IsCompiled program }
    requires words { TakesWords program (length words) }
    requires of { IsOf board root }
    requires root { token_of root ≡ root_token }
    requires name { (table_of board ≡ N.table) × (columns_of board ≡ N.columns) }
    requires key { key_of board.shared ≡ record { first = first_memory program.cells; columns = limits.strands; aborts = limits.aborts } }
    ensures program { IfOk result (λ r. r.program ≡ program) }
    ensures words { IfOk result (λ r. r.words ≡ words) }
    ensures limits { IfOk result (λ r. r.limits ≡ limits) }
    ensures strand { IfOk result (λ r. IsTrue (is_strand r.tree (ending_strand r.end))) }
    ensures outputs { IfOk result (λ r. HasItsOutputs r) }
    ensures numbered { IfOk result (λ r. IsNumberedDepthFirst r.tree) }
    ensures board { IfOk result (λ r. IsOfBoard r) }
    ensures moves { IfOk result (λ r. r.end ≢ Moves) }
{
    let (board, root) = board.named::<N>(root);
    let (token, is_whole) = work_whole(
        rt,
        alloc,
        &board,
        root,
        &program,
        words.as_slice(),
        workers,
        limits,
        gate,
    );
    match board.close(token) {
        Ok(closed) => record_of(alloc, program, words, limits, closed, is_whole),
        Err((_, _, error)) => Err(error),
    }
}

/// Runs a program with `workers` workers, the first one on the caller's thread, and each other one on a thread of its own if that
/// could be started. One worker runs depth first, with neither board nor deque. The record has the program, words and limits that are
/// passed in.
///
/// With more than one worker the record's tree is put together from what strands did on a board whose rule is still small. Whether
/// it replays has to be checked. The only error is out of memory. A run in which a strand ran out of memory has no record.
pub fn run<G: Gate, R: Threads + Wait + Sync>(
    rt: &R,
    alloc: Global,
    program: Program,
    words: Seq<i64>,
    workers: u32,
    limits: Limits,
    gate: &G,
) -> Result<Record, OutOfMemory>
    requires compiled { IsCompiled program }
    requires words { TakesWords program (length words) }
    requires strands { 0 < limits.strands }
    ensures program { IfOk result (λ r. r.program ≡ program) }
    ensures words { IfOk result (λ r. r.words ≡ words) }
    ensures limits { IfOk result (λ r. r.limits ≡ limits) }
    ensures strand { IfOk result (λ r. IsTrue (is_strand r.tree (ending_strand r.end))) }
    ensures outputs { IfOk result (λ r. HasItsOutputs r) }
    ensures numbered { IfOk result (λ r. IsNumberedDepthFirst r.tree) }
    ensures one { workers ≡ 1 → IfOk result (λ r. IsOfOneWorker r) }
    ensures several { (workers ≡ 1 → ⊥) → IfOk result (λ r. IsOfBoard r) }
    ensures moves { IfOk result (λ r. r.end ≢ Moves) }
{
    if workers == 1 {
        return depth_first(alloc, program, words, limits);
    }
    let init = first_memory(alloc, program.cells.as_slice())?;
    let (board, root) = Board::new(alloc, init.as_slice(), limits)?;
    run_named::<Brand, G, R>(
        rt, alloc, board, root, program, words, workers, limits, gate,
    )
}

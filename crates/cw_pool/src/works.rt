//! Sets up the workers, runs them, and takes back the root's token.
ghost use Rattle.std.specs.Prelude.{◌≡◌, IsTrue, false, length};
ghost use Rattle.cw_strand.specs.Names.{first_memory};
ghost use Rattle.cw_job.specs.Jobs.{Job};
ghost use Rattle.cw_job.specs.Room.Strands.{strands_of_job};
ghost use Rattle.cw_log.specs.Tokens.{root_token};
ghost use Rattle.cw_body.specs.Bodies.{goes_from};
ghost use Rattle.cw_pool.specs.Ends.{IsWorked};
ghost use Rattle.cw_pool.specs.Tasks.{IsRun};

use crate::boxes::{Task, TaskBox, empty_box};
use crate::crew::{Crew, make_workers, run_workers};
use crate::frames::Frames;
use crate::tally::Tally;
use crate::worker::{Common, never};
use crate::{Base, Ended, Memo, Mode, RunName, Running, Scene};
use crossbeam_utils::CachePadded;
use cw_base::OutOfMemory;
use cw_body::Body;
use cw_code::{Limits, Program};
use cw_io::Gate;
use cw_log::SharedBoard;
use cw_pair::{Opened, Pairs, Source};
use cw_tree::Halt;
use std::alloc::Global;
use std::marker::{Brand, PhantomData};
use std::sync::atomic::AtomicU64;
use std::sync::{Mutex, Wait};
use std::thread::Threads;

/// What a run needs before its first thread starts.
#[derive(Drop)]
struct Ready<B: SharedBoard, J: RunName> {
    crew: Crew<B, J>,
    /// The frames of each worker's forks.
    frames: Vec<Frames<B, J>>,
    tallies: Vec<CachePadded<Tally>>,
    /// The box for the task of main.
    home: TaskBox<B, J>,
}

fn all_frames<B: SharedBoard, J: RunName>(
    alloc: Global,
    workers: u32,
    strands: u32,
) -> Result<Vec<Frames<B, J>>, OutOfMemory> {
    let mut all = Vec::new(alloc);
    for _ in 0..workers {
        all.push(Frames::new(alloc, strands)?)?;
    }
    Ok(all)
}

fn all_tallies(alloc: Global, workers: u32) -> Result<Vec<CachePadded<Tally>>, OutOfMemory> {
    let mut all = Vec::new(alloc);
    for _ in 0..workers {
        all.push(CachePadded::new(Tally::new()))?;
    }
    Ok(all)
}

fn make_ready<B: SharedBoard, J: RunName>(
    alloc: Global,
    workers: u32,
    strands: u32,
    pairs: &Pairs<Memo<B::Token>, J>,
    source: Source<Memo<B::Token>, J>,
) -> Result<Ready<B, J>, OutOfMemory> {
    Ok(Ready {
        crew: make_workers(alloc, workers, pairs, source)?,
        frames: all_frames(alloc, workers, strands)?,
        tallies: all_tallies(alloc, workers)?,
        home: empty_box(alloc)?,
    })
}

/// Makes the task of main, with the root's token.
fn main_strand<B: SharedBoard, J: RunName>(
    alloc: Global,
    token: B::Token,
    body: Body,
) -> Running<B, J>
    requires run { IsRun J.job }
    requires root { B.of token ≡ root_token }
    requires start { body ≡ goes_from J.job.program (strands_of_job J.job).start }
{
    Running {
        token,
        body,
        mode: Mode::Goes,
        below: Vec::new(alloc),
        base: Base::Root,
        of: PhantomData,
    }
}

/// The root's token of a run that has ended; and whether main came to its end and no strand had stopped.
type Whole<B> = (<B as SharedBoard>::Token, bool);

/// Ends a run that ran out of memory before any strand began.
#[tactic(auto, using(crate::proofs::Tasks::Worked::none_worked))]
fn halt_before_start<B: SharedBoard>(board: &B, root: B::Token) -> Whole<B>
    requires { B.of root ≡ root_token }
    ensures worked { (job : Job) → IsWorked job (B.of result.0) }
    ensures whole { IsTrue result.1 → (B.of result.0).told ≡ false }
{
    let mut token = root;
    board.halt(&mut token, Halt::Memory);
    board.halted(&mut token);
    (token, false)
}

/// Asks a last time whether some strand has stopped.
#[tactic(auto, using(crate::proofs::Tasks::Worked::still_worked, crate::proofs::Tasks::Worked::still_untold))]
fn check_end<B: SharedBoard, J: RunName>(board: &B, ended: Ended<B, J>) -> Whole<B>
    ensures worked { IsWorked J.job (B.of result.0) }
    ensures whole { IsTrue result.1 → (B.of result.0).told ≡ false }
{
    let Ended {
        mut token,
        is_whole,
        ..
    } = ended;
    let has_stopped = board.halted(&mut token);
    (token, is_whole && !has_stopped)
}

/// Runs the program, once its pairs have a name.
fn work_in<'x, B: SharedBoard, J: RunName, G: Gate, R: Threads + Wait + Sync>(
    rt: &R,
    scene: Scene<'x, B, J>,
    source: Source<Memo<B::Token>, J>,
    root: B::Token,
    body: Body,
    workers: u32,
    strands: u32,
    gate: &'x G,
) -> Whole<B>
    requires run { IsRun J.job }
    requires root { B.of root ≡ root_token }
    requires start { body ≡ goes_from J.job.program (strands_of_job J.job).start }
    ensures worked { IsWorked J.job (B.of result.0) }
    ensures whole { IsTrue result.1 → (B.of result.0).told ≡ false }
{
    let Ok(ready) = make_ready::<B, J>(scene.alloc, workers, strands, scene.pairs, source) else {
        drop(body);
        return halt_before_start(scene.board, root);
    };
    let Ready {
        crew,
        frames,
        tallies,
        home,
    } = ready;
    let now = main_strand::<B, J>(scene.alloc, root, body);
    let board = scene.board;
    let common = Common {
        scene,
        gate,
        frames,
        tallies,
        end: Mutex::new(None),
        over: AtomicU64::new(0),
    };
    run_workers(rt, &common, crew, Task { home, now });
    let Common {
        frames,
        tallies,
        end,
        ..
    } = common;
    drop(frames);
    drop(tallies);
    let end = end.into_inner();
    match end {
        Some(ended) => check_end(board, ended),
        None => {
            drop(end);
            never(rt)
        }
    }
}

/// Runs the program under a name of its own.
fn work_named<'x, B: SharedBoard, J: RunName, G: Gate, R: Threads + Wait + Sync>(
    rt: &R,
    alloc: Global,
    board: &'x B,
    root: B::Token,
    program: &'x Program,
    words: &[i64],
    workers: u32,
    limits: Limits,
    gate: &'x G,
    opened: Opened<Memo<B::Token>>,
) -> Whole<B>
    requires table { opened ≡ J.table }
    requires job { J.job ≡ record { program = program.now; words = words.now; limits = limits } }
    requires run { IsRun J.job }
    requires root { B.of root ≡ root_token }
    requires budget { B.budget board.now ≡ limits.aborts }
    requires cells { B.cells board.now ≡ length (first_memory program.now.cells) }
    ensures worked { IsWorked J.job (B.of result.0) }
    ensures whole { IsTrue result.1 → (B.of result.0).told ≡ false }
{
    let (pairs, source) = opened.named::<J>();
    let Ok(body) = Body::start(alloc, program, words, limits) else {
        return halt_before_start(board, root);
    };
    let scene = Scene {
        alloc,
        board,
        program,
        attempts: limits.aborts,
        pairs: &pairs,
        of: PhantomData,
    };
    work_in(rt, scene, source, root, body, workers, limits.strands, gate)
}

/// Like `work`, but also returns whether main ran to its end and no strand halted.
pub(crate) fn work_whole<'x, B: SharedBoard, G: Gate, R: Threads + Wait + Sync>(
    rt: &R,
    alloc: Global,
    board: &'x B,
    root: B::Token,
    program: &'x Program,
    words: &[i64],
    workers: u32,
    limits: Limits,
    gate: &'x G,
) -> Whole<B>
    requires run { IsRun (record { program = program.now; words = words.now; limits = limits }) }
    requires root { B.of root ≡ root_token }
    requires budget { B.budget board.now ≡ limits.aborts }
    requires cells { B.cells board.now ≡ length (first_memory program.now.cells) }
    ensures worked { let job : Job = record { program = program.entry.now; words = words.entry.now; limits = limits } in IsWorked job (B.of result.0) }
    ensures whole { IsTrue result.1 → (B.of result.0).told ≡ false }
{
    let Ok(opened) = Opened::new(alloc) else {
        return halt_before_start(board, root);
    };
    let workers = workers.max(1);
    work_named::<B, Brand, G, R>(
        rt, alloc, board, root, program, words, workers, limits, gate, opened,
    )
}

/// Runs a program on the given board with `workers` workers, at least one. Returns the root's token, to which all others were
/// joined. If memory runs out, the token's halt tells so.
pub fn work<'x, B: SharedBoard, G: Gate, R: Threads + Wait + Sync>(
    rt: &R,
    alloc: Global,
    board: &'x B,
    root: B::Token,
    program: &'x Program,
    words: &[i64],
    workers: u32,
    limits: Limits,
    gate: &'x G,
) -> B::Token
    requires run { IsRun (record { program = program.now; words = words.now; limits = limits }) }
    requires root { B.of root ≡ root_token }
    requires budget { B.budget board.now ≡ limits.aborts }
    requires cells { B.cells board.now ≡ length (first_memory program.now.cells) }
    ensures { let job : Job = record { program = program.entry.now; words = words.entry.now; limits = limits } in IsWorked job (B.of result) }
{
    let (token, _) = work_whole(
        rt, alloc, board, root, program, words, workers, limits, gate,
    );
    token
}

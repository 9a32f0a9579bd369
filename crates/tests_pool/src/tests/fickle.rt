ghost use Rattle.cw_job.specs.Jobs.{TakesWords};
ghost use Rattle.cw_strand.specs.Programs.{IsCompiled};

use super::{
    ALONE, BEFORE, COUNTS, FAULTY, GIVEN_UP, GIVEN_UP_BENEATH, INSIDE, LEFTWARDS, LOST, NESTED,
    OUTER, RIGHTWARDS, TREES, UNDONE, WIDE, columns, program, up_to,
};
use crate::walk::{Told, walked};
use cw_code::{Limits, Program};
use cw_io::OpenGate;
use cw_job::first_memory;
use cw_pool::work;
use cw_tree::Halt;
use std::alloc::Global;
use std::sync::Wait;
use std::test::Fail;
use std::thread::Threads;
use tests_log::{Fickle, Odds, StrandToken};

const ODDS: Odds = Odds {
    refused: 20,
    inline: 20,
    early: 25,
};

// The number of seeds for each number of workers. On a busy machine a run may take a hundredth of a second.
const SEEDS: u64 = 100;

// No refusals: blocks are nested so deep that refusals would keep rolling them back before the innermost is reached.
const NEVER: Odds = Odds { refused: 0, ..ODDS };

// How a run ended.
#[derive(Clone, Copy, Drop, PartialEq, Eq, Debug)]
enum Ending {
    Whole,
    Fault,
    Budget,
    Memory,
}

// A program that is run once for each seed and number of workers, and how its runs may end.
#[derive(Clone, Copy, Drop)]
struct Trial<'a> {
    text: &'a str,
    limits: Limits,
    odds: Odds,
    ends: (Ending, Ending),
}

const fn row<'a>(text: &'a str, limits: Limits, odds: Odds, ends: (Ending, Ending)) -> Trial<'a> {
    Trial {
        text,
        limits,
        odds,
        ends,
    }
}

fn end_of(token: &StrandToken) -> Ending {
    match token.stop {
        None => Ending::Whole,
        Some(stop) => match stop.halt {
            Halt::Fault { .. } => Ending::Fault,
            Halt::Budget { .. } => Ending::Budget,
            Halt::Memory => Ending::Memory,
        },
    }
}

// Returns the root's token after all have worked.
fn worked<R: Threads + Wait + Sync>(
    rt: &R,
    alloc: Global,
    program: &Program,
    trial: Trial,
    workers: u32,
    seed: u64,
) -> Result<StrandToken, Fail>
    requires compiled { IsCompiled program.now }
    requires words { TakesWords program.now 0 }
{
    let memory = first_memory(alloc, program.cells.as_slice())?;
    let cells = u32::try_from(memory.len());
    drop(memory);
    let cells = cells?;
    let limits = trial.limits;
    let (board, root) = Fickle::new(alloc, cells, limits.aborts, trial.odds, seed)?;
    let token = work(
        rt,
        alloc,
        &board,
        root,
        program,
        &[],
        workers,
        limits,
        &OpenGate,
    );
    drop(board);
    Ok(token)
}

// Returns how a run ended, given the token of its root, after checking that its logs are those that strands of its program make.
fn end_of_walked(
    alloc: Global,
    program: &Program,
    limits: Limits,
    token: &StrandToken,
) -> Result<Ending, Fail>
    requires { TakesWords program.now 0 }
{
    let told = Told {
        nodes: token.nodes.as_slice(),
        conflicts: token.conflicts.as_slice(),
        joined: &token.joined,
        stop: token.stop,
    };
    walked(alloc, program, &[], limits, told)?;
    if token.told && token.stop.is_none() {
        return Err("told of a halt that no log has".into());
    }
    Ok(end_of(token))
}

// Returns how such a run ended.
fn ended<R: Threads + Wait + Sync>(
    rt: &R,
    alloc: Global,
    program: &Program,
    trial: Trial,
    workers: u32,
    seed: u64,
) -> Result<Ending, Fail>
    requires compiled { IsCompiled program.now }
    requires words { TakesWords program.now 0 }
{
    let token = worked(rt, alloc, program, trial, workers, seed)?;
    let end = end_of_walked(alloc, program, trial.limits, &token);
    drop(token);
    end
}

fn all_seeds<R: Threads + Wait + Sync>(
    rt: &R,
    alloc: Global,
    program: &Program,
    trial: Trial,
    workers: u32,
    seeds: u64,
) -> Result<(), Fail>
    requires compiled { IsCompiled program.now }
    requires words { TakesWords program.now 0 }
{
    let (one, other) = trial.ends;
    for seed in 0..seeds {
        let end = ended(rt, alloc, program, trial, workers, seed)?;
        if end != one && end != other {
            return Err((trial.text, workers, seed, end).into());
        }
    }
    Ok(())
}

fn runs<R: Threads + Wait + Sync>(
    rt: &R,
    alloc: Global,
    trial: Trial,
    workers: u32,
    seeds: u64,
) -> Result<(), Fail> {
    let program = program(alloc, trial.text)?;
    let done = all_seeds(rt, alloc, &program, trial, workers, seeds);
    drop(program);
    done
}

const WHOLE: (Ending, Ending) = (Ending::Whole, Ending::Whole);

// Runs each example program with `workers` workers.
fn worked_programs<R: Threads + Wait + Sync>(
    rt: &R,
    alloc: Global,
    workers: u32,
    seeds: u64,
) -> Result<(), Fail> {
    let table = [
        row(LOST, WIDE, ODDS, WHOLE),
        row(OUTER, WIDE, ODDS, WHOLE),
        row(OUTER, up_to(1), ODDS, (Ending::Whole, Ending::Budget)),
        row(ALONE, WIDE, ODDS, WHOLE),
        row(BEFORE, WIDE, ODDS, WHOLE),
        row(INSIDE, WIDE, ODDS, WHOLE),
        row(UNDONE, WIDE, ODDS, WHOLE),
        row(FAULTY, WIDE, ODDS, (Ending::Fault, Ending::Fault)),
        row(GIVEN_UP, WIDE, ODDS, WHOLE),
        row(GIVEN_UP_BENEATH, WIDE, ODDS, WHOLE),
        row(COUNTS, WIDE, ODDS, WHOLE),
        row(TREES, WIDE, ODDS, WHOLE),
    ];
    for trial in table {
        runs(rt, alloc, trial, workers, seeds)?;
    }
    Ok(())
}

#[test]
fn logs_of_one_worker_are_walked(rt: HostRuntime) -> Result<(), Fail> {
    worked_programs(&rt, rt.alloc(), 1, SEEDS)
}

#[test]
fn logs_of_two_workers_are_walked(rt: HostRuntime) -> Result<(), Fail> {
    worked_programs(&rt, rt.alloc(), 2, SEEDS)
}

#[test]
fn logs_of_four_workers_are_walked(rt: HostRuntime) -> Result<(), Fail> {
    worked_programs(&rt, rt.alloc(), 4, SEEDS)
}

#[test]
fn logs_of_many_workers_are_walked(rt: HostRuntime) -> Result<(), Fail> {
    worked_programs(&rt, rt.alloc(), 64, 2)
}

#[test]
fn logs_of_deep_programs_are_walked(rt: HostRuntime) -> Result<(), Fail> {
    let table = [
        row(LEFTWARDS, columns(20_000), ODDS, WHOLE),
        row(RIGHTWARDS, columns(20_000), ODDS, WHOLE),
        row(NESTED, WIDE, NEVER, WHOLE),
    ];
    for trial in table {
        for workers in [1, 2, 4] {
            runs(&rt, rt.alloc(), trial, workers, 1)?;
        }
    }
    Ok(())
}

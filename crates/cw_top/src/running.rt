ghost use Rattle.std.specs.Prelude.{◌≡◌, ◌≢◌, ◌≤◌, ◌<◌, ◌↔◌, None, Some, length, IfOk, IfErr, IfSome, IsErrOf, IsTrue, OnOk};
ghost use Rattle.cw_io.specs.Outside.{Rose};
ghost use Rattle.cw_text.specs.Syntax.{source_of};
ghost use Rattle.cw_strand.specs.Programs.{IsCompiled, IsProgramOf};
ghost use Rattle.cw_tree.specs.Walks.{IsNumbered};
ghost use Rattle.cw_job.specs.Jobs.{TakesWords};
ghost use Rattle.cw_record.specs.Records.{HasItsOutputs, IsNumberedDepthFirst};
ghost use Rattle.cw_pool.specs.Recorded.{IsOfOneWorker};
ghost use Rattle.cw_top.specs.declared.reasons.NoRun.TheVariants.{Misfit};
ghost use Rattle.cw_top.specs.Outcome.{HasCause};
ghost use Rattle.cw_top.specs.Reasons.{note_of};
ghost use Rattle.cw_top.specs.Runs.{HasSeveralThreads, IsDoneBy, IsItsSource, IsOfThreads, IsReady, IsRunOf, RunsProgram};
ghost use Rattle.cw_top.specs.Taken.{HasRead, RisesAtMost, TakesAtMost, most_ends, most_read};
ghost use Rattle.cw_words.specs.Words.{limits_of, words_of};

use crate::loading::compiled_load;
use crate::reading::{Compiled, program_from};
use crate::reasons::NoRun;
use cw_base::{OutOfMemory, Seq};
use cw_code::{Limits, Program, default_limits};
use cw_io::{Gate, Source};
use cw_job::takes_words;
use cw_pool::run;
use cw_record::{Record, depth_first};
use cw_sim::simulate;
use cw_text::Ast;
use cw_words::Command;
use std::alloc::Global;
use std::sync::Wait;
use std::thread::Threads;

/// A run, and the syntax tree of what was run.
#[derive(Drop)]
pub struct Ran {
    pub run: Record,
    pub ast: Ast,
}

// The newest language in which a command reads its source.
const NEWEST: u32 = 2;

/// Whether a command has more than one worker, and they are threads.
pub fn has_several_threads(command: &Command) -> bool
    ensures { IsTrue result ↔ HasSeveralThreads (Some command.now) }
{
    match command {
        Command::Run { workers, .. }
        | Command::Load { workers, .. }
        | Command::Keep { workers, .. } => 1 < *workers,
        Command::Sim { .. } | Command::Races { .. } | Command::Check => false,
    }
}

// Runs a program on `workers` threads.
fn run_on_threads<R: Threads + Wait + Sync, G: Gate>(
    rt: &R,
    alloc: Global,
    program: Program,
    words: Seq<i64>,
    workers: u32,
    limits: Limits,
    gate: &G,
) -> Result<Record, OutOfMemory>
    requires compiled { IsCompiled program }
    requires takes { TakesWords program (length words) }
    requires strands { 0 < limits.strands }
    ensures program { IfOk result (λ r. r.program ≡ program) }
    ensures words { IfOk result (λ r. r.words ≡ words) }
    ensures limits { IfOk result (λ r. r.limits ≡ limits) }
    ensures outputs { IfOk result (λ r. HasItsOutputs r) }
    ensures numbered { IfOk result (λ r. IsNumberedDepthFirst r.tree) }
    ensures done { IfOk result (IsOfThreads workers) }
{
    run(rt, alloc, program, words, workers, limits, gate)
}

// Runs a program by one worker.
fn run_depth_first(
    alloc: Global,
    program: Program,
    words: Seq<i64>,
    limits: Limits,
) -> Result<Record, OutOfMemory>
    requires compiled { IsCompiled program }
    requires takes { TakesWords program (length words) }
    ensures program { IfOk result (λ r. r.program ≡ program) }
    ensures words { IfOk result (λ r. r.words ≡ words) }
    ensures limits { IfOk result (λ r. r.limits ≡ limits) }
    ensures outputs { IfOk result (λ r. HasItsOutputs r) }
    ensures numbered { IfOk result (λ r. IsNumberedDepthFirst r.tree) }
    ensures done { IfOk result IsOfOneWorker }
{
    depth_first(alloc, program, words, limits)
}

// Runs a program as a command says: on threads, by the moves of virtual workers, or depth first.
fn run_program<R: Threads + Wait + Sync, G: Gate>(
    rt: &R,
    alloc: Global,
    command: Command,
    program: Program,
    gate: &G,
) -> Result<Record, OutOfMemory>
    requires compiled { IsCompiled program }
    requires takes { TakesWords program (length (words_of command)) }
    requires ready { IsReady command }
    requires runs { RunsProgram command }
    ensures program { IfOk result (λ r. r.program ≡ program) }
    ensures words { IfOk result (λ r. r.words ≡ words_of command) }
    ensures limits { IfOk result (λ r. r.limits ≡ limits_of command) }
    ensures outputs { IfOk result (λ r. HasItsOutputs r) }
    ensures numbered { IfOk result (λ r. IsNumberedDepthFirst r.tree) }
    ensures done { IfOk result (IsDoneBy command) }
{
    match command {
        Command::Run {
            words,
            limits,
            workers,
            ..
        } => run_on_threads(rt, alloc, program, words, workers, limits, gate),
        Command::Sim {
            words,
            limits,
            workers,
            schedule,
            ..
        } => simulate(alloc, program, words, workers, &schedule, limits),
        Command::Load { workers, .. } => {
            let words = Seq::new(alloc);
            run_on_threads(rt, alloc, program, words, workers, default_limits(), gate)
        }
        Command::Keep {
            words,
            limits,
            workers,
        } => run_on_threads(rt, alloc, program, words, workers, limits, gate),
        Command::Races { words, limits } => run_depth_first(alloc, program, words, limits),
        Command::Check => unreachable!(),
    }
}

// Like `done_by`, and shows that the record's tree is numbered.
fn run_command<R: Threads + Wait + Sync, G: Gate>(
    rt: &R,
    alloc: Global,
    command: Command,
    program: Program,
    gate: &G,
) -> Result<Record, OutOfMemory>
    requires compiled { IsCompiled program }
    requires takes { TakesWords program (length (words_of command)) }
    requires ready { IsReady command }
    requires runs { RunsProgram command }
    ensures program { IfOk result (λ r. r.program ≡ program) }
    ensures words { IfOk result (λ r. r.words ≡ words_of command) }
    ensures limits { IfOk result (λ r. r.limits ≡ limits_of command) }
    ensures outputs { IfOk result (λ r. HasItsOutputs r) }
    ensures tree { IfOk result (λ r. IsNumbered r.tree) }
    ensures numbered { IfOk result (λ r. IsNumberedDepthFirst r.tree) }
    ensures done { IfOk result (IsDoneBy command) }
{
    let kept = run_program(rt, alloc, command, program, gate)?;
    // A hint to the prover: the root is a strand, and each other node has a smaller parent.
    let _ = kept.tree.nodes();
    Ok(kept)
}

// Returns the program of a command: the one that the source spells, or that of a load, for which nothing is read.
fn program_by<S: Source>(
    alloc: Global,
    command: &Command,
    source: &mut S,
) -> Result<Compiled, NoRun>
    requires ready { IsReady command.now }
    requires runs { RunsProgram command.now }
    ensures later { S.faults source.old ≤ S.faults source.new }
    ensures why { IfErr result (λ n. HasCause (Some command.now) (note_of n) (S.left source.old) (Rose (S.faults source.old) (S.faults source.new)) ⊥) }
    ensures fits { IsErrOf result Misfit → ⊥ }
    ensures taken { TakesAtMost (most_read (Some command.now)) (S.left source.old) (S.left source.new) }
    ensures whole { OnOk result (HasRead (Some command.now) (S.left source.old) (S.left source.new)) }
    ensures once { RisesAtMost (most_ends (Some command.now)) (S.ends source.old) (S.ends source.new) }
    ensures source { IfOk result (λ c. IsItsSource command.now (S.left source.old) (source_of c.ast)) }
    ensures its { IfOk result (λ c. IsProgramOf (source_of c.ast).items c.program) }
    ensures compiled { IfOk result (λ c. IsCompiled c.program) }
{
    match command {
        Command::Load { transfers, .. } => Ok(compiled_load(alloc, *transfers)?),
        Command::Run { .. } | Command::Sim { .. } | Command::Keep { .. } | Command::Races { .. } =>
            program_from(alloc, source, NEWEST),
        Command::Check => unreachable!(),
    }
}

/// Runs the program of a command.
pub fn run_of<R: Threads + Wait + Sync, S: Source, G: Gate>(
    rt: &R,
    alloc: Global,
    command: Command,
    source: &mut S,
    gate: &G,
) -> Result<Ran, NoRun>
    requires ready { IsReady command }
    requires runs { RunsProgram command }
    ensures later { S.faults source.old ≤ S.faults source.new }
    ensures why { IfErr result (λ n. HasCause (Some command) (note_of n) (S.left source.old) (Rose (S.faults source.old) (S.faults source.new)) ⊥) }
    ensures taken { TakesAtMost (most_read (Some command)) (S.left source.old) (S.left source.new) }
    ensures whole { OnOk result (HasRead (Some command) (S.left source.old) (S.left source.new)) }
    ensures misfit { IsErrOf result Misfit → HasRead (Some command) (S.left source.old) (S.left source.new) }
    ensures once { RisesAtMost (most_ends (Some command)) (S.ends source.old) (S.ends source.new) }
    ensures run { IfOk result (λ ran. IsRunOf (Some command) (S.left source.old) ran.run) }
    ensures done { IfOk result (λ ran. IsDoneBy command ran.run) }
    ensures source { IfOk result (λ ran. IsItsSource command (S.left source.old) (source_of ran.ast)) }
    ensures its { IfOk result (λ ran. IsProgramOf (source_of ran.ast).items ran.run.program) }
{
    let compiled = program_by(alloc, &command, source)?;
    if !takes_words(&compiled.program, command.word_count()) {
        return Err(NoRun::Misfit);
    }
    let Compiled { ast, program } = compiled;
    let run = run_command(rt, alloc, command, program, gate)?;
    Ok(Ran { run, ast })
}

ghost use Rattle.std.specs.Prelude.{IfOk, length};
ghost use Rattle.cw_job.specs.Jobs.{TakesWords};
ghost use Rattle.cw_strand.specs.Programs.{IsCompiled};

mod cancels;

use cw_base::Seq;
use cw_code::{Limits, Program};
use cw_compile::compile;
use cw_io::Schedule;
use cw_record::{Checked, Record, RecordEnd, check};
use cw_serial::takes_words;
use cw_sim::simulate;
use cw_text::read_program;
use cw_tree::Tree;
use std::alloc::Global;
use std::test::Fail;

// Limits with enough attempts, columns and moves that none is met.
const WIDE: Limits = Limits {
    fuel: 1000,
    size: 1000,
    aborts: 1000,
    strands: 100,
    moves: 1000,
};

// Which limit is narrower, and how narrow.
#[derive(Clone, Copy)]
enum Bound {
    Wide,
    Size(u32),
    Aborts(u32),
    Columns(u32),
    Moves(u64),
}

const fn limits_of(bound: Bound) -> Limits {
    match bound {
        Bound::Wide => WIDE,
        Bound::Size(size) => Limits { size, ..WIDE },
        Bound::Aborts(aborts) => Limits { aborts, ..WIDE },
        Bound::Columns(strands) => Limits { strands, ..WIDE },
        Bound::Moves(moves) => Limits { moves, ..WIDE },
    }
}

// The text that is run, by how many workers, and in which turns.
#[derive(Clone, Copy)]
struct Run<'a>(&'a str, u32, &'a [u32], Bound);

fn program(alloc: Global, text: &str) -> Result<Program, Fail>
    ensures compiled { IfOk result (λ p. IsCompiled p) }
    ensures words { IfOk result (λ p. TakesWords p 0) }
{
    let read = read_program(alloc, text.as_bytes())?;
    let compiled = compile(alloc, &read);
    drop(read);
    let program = compiled?;
    if takes_words(&program, 0) {
        Ok(program)
    } else {
        drop(program);
        Err("main asks for words".into())
    }
}

fn name(alloc: Global, tree: &Tree, strand: u32) -> Result<String, Fail> {
    if (strand as usize) < tree.nodes().len() && tree.is_strand(strand) {
        Ok(tree.name(strand)?)
    } else {
        Ok(String::from_str(alloc, "none")?)
    }
}

// Writes how a run ended, with its number of refused accesses.
fn shown(alloc: Global, record: &Record) -> Result<String, Fail> {
    let refused = record.conflicts.len();
    Ok(match &record.end {
        RecordEnd::Finished { memory, outputs } => {
            let memory = memory.as_slice();
            let outputs = outputs.as_slice();
            format!(in alloc; "finished {memory:?} {outputs:?} {refused}")?
        }
        RecordEnd::Fault { strand, kind } => {
            let name = name(alloc, &record.tree, *strand)?;
            format!(in alloc; "fault {kind:?} in {name} {refused}")?
        }
        RecordEnd::Budget { strand } => {
            let name = name(alloc, &record.tree, *strand)?;
            format!(in alloc; "budget in {name} {refused}")?
        }
        RecordEnd::Moves => format!(in alloc; "moves {refused}")?,
    })
}

// Fails unless one memory replays the record.
fn replays(alloc: Global, record: &Record) -> Result<(), Fail>
    requires { TakesWords record.now.program (length record.now.words) }
{
    match check(alloc, record)? {
        Checked::Agrees => Ok(()),
        _ => Err("does not replay".into()),
    }
}

// Returns the record of a run, which one memory replays.
fn record(alloc: Global, run: Run<'_>) -> Result<Record, Fail> {
    let Run(text, workers, list, bound) = run;
    let limits = limits_of(bound);
    if workers == 0 || limits.strands == 0 || list.iter().any(|w| *w >= workers) {
        return Err("no such workers".into());
    }
    let list = Seq::from_vec(list.to_vec(alloc)?);
    let program = program(alloc, text)?;
    let words = Seq::new(alloc);
    let schedule = Schedule::List(list);
    let simulated = simulate(alloc, program, words, workers, &schedule, limits);
    drop(schedule);
    let record = simulated?;
    match replays(alloc, &record) {
        Ok(_) => Ok(record),
        Err(fault) => {
            drop(record);
            Err(fault)
        }
    }
}

// How the run ends.
fn ended(alloc: Global, run: Run<'_>) -> Result<String, Fail> {
    let record = record(alloc, run)?;
    let said = shown(alloc, &record);
    drop(record);
    said
}

const SUMS: &str = "cell c; fn main() { atomic { spawn { c = c + 1; } c = c + 1; } }";

const BLOCKS: &str =
    "cell c; fn main() { spawn { atomic { c = 1; } } atomic { atomic { c = 2; } } }";

const WITHIN: &str =
    "cell c; cell d; fn main() { spawn { atomic { spawn { d = 5; } c = 1; sync; d = 1; } } c = 2; }";

const FAULTY: &str =
    "cell c; cell d; fn main() { spawn { atomic { c = 1; c = 2; } } atomic { spawn { c = 3; } d = 1 / d; } }";

const NESTED: &str = "fn main() { spawn { spawn { out 1; } out 2; } out 3; }";

#[test]
fn moves_come_to_their_ends(rt: HostRuntime) -> Result<(), Fail> {
    let table: &[(Run<'_>, &str)] = &[
        (
            Run(SUMS, 2, &[0, 0, 1, 0, 1, 0, 1], Bound::Wide),
            "finished [1] [] 0",
        ),
        (
            Run(BLOCKS, 2, &[0, 1, 0, 0, 1, 1, 1], Bound::Wide),
            "finished [2] [] 1",
        ),
        (
            Run(BLOCKS, 2, &[0, 1, 0, 0, 1, 1, 1], Bound::Aborts(1)),
            "budget in 0.1r 1",
        ),
        (
            Run(WITHIN, 3, &[0, 1, 0, 0, 2, 2, 0, 2, 0, 1], Bound::Wide),
            "finished [2, 1] [] 2",
        ),
        (
            Run(FAULTY, 3, &[0, 1, 0, 0, 1, 1, 2, 1, 2, 2], Bound::Wide),
            "fault Zero in 0.1r.1r 1",
        ),
        (
            Run(NESTED, 2, &[0, 0, 1, 1], Bound::Wide),
            "finished [] [3, 1, 2] 0",
        ),
        (
            Run(NESTED, 2, &[], Bound::Columns(1)),
            "finished [] [1, 2, 3] 0",
        ),
        (
            Run(BLOCKS, 2, &[0, 1, 0, 0, 1, 1, 1], Bound::Moves(24)),
            "moves 1",
        ),
    ];
    for &(run, wanted) in table {
        let said = ended(rt.alloc(), run)?;
        assert!(rt; said.as_str() == wanted);
    }
    Ok(())
}

//! A table of tests: the races of programs, by one worker. Standard input has a program on each line (the crate's `stdin`). The program prints
//! each, and behind it a line for each race: the number of its cell, and the stamps of its two accesses. The crate's `stdout` is what it has
//! to print.
#![tactic(auto)]

ghost use Rattle.std.specs.Prelude.{◌≡◌, ◌+◌, ◌*◌, ◌<◌, ◌≤◌, IfOk, IfSome};
ghost use Rattle.cw_strand.specs.Programs.{IsCompiled};
ghost use Rattle.cw_job.specs.Jobs.{TakesWords};
ghost use Rattle.cw_race.specs.Races.{AreRaces, number_of_accesses};

use cw_base::{OutOfMemory, Seq};
use cw_code::{Limits, Program};
use cw_compile::compile;
use cw_job::takes_words;
use cw_order::Steps;
use cw_race::{Race, races};
use cw_record::{Record, depth_first};
use cw_text::read_program;
use std::alloc::Global;
use std::io;
use std::io::{Read, Write};
use std::marker::Brand;
use std::sync::ledger::{Blank, Ledger};

const LIMITS: Limits = Limits {
    fuel: 1_000_000,
    size: 1_000_000,
    aborts: 1,
    strands: 2,
    moves: 9,
};

fn program(alloc: Global, text: &str) -> Option<Program>
    ensures compiled { IfSome result (λ p. IsCompiled p) }
    ensures words { IfSome result (λ p. TakesWords p 0) }
{
    let Ok(ast) = read_program(alloc, text.as_bytes()) else {
        return None;
    };
    let compiled = compile(alloc, &ast);
    drop(ast);
    match compiled {
        Ok(program) if takes_words(&program, 0) => Some(program),
        _ => None,
    }
}

/// The run of one worker and its races. What `races` asks of a record, `depth_first` says of the one it returns.
fn run<L: Ledger>(
    alloc: Global,
    program: Program,
    steps: &mut Steps<L>,
) -> Result<(Record, Vec<Race>), OutOfMemory>
    requires compiled { IsCompiled program }
    requires words { TakesWords program 0 }
    ensures races { IfOk result (λ run. AreRaces run.0.tree run.1.items) }
    ensures cost { IfOk result (λ run. steps.new ≤ steps.old + 4 * number_of_accesses run.0.tree) }
{
    let record = depth_first(alloc, program, Seq::new(alloc), LIMITS)?;
    match races(alloc, &record, steps) {
        Ok(races) => Ok((record, races)),
        Err(error) => {
            drop(record);
            Err(error)
        }
    }
}

/// Puts a line for each race of a record behind what is shown.
fn show_races(record: &Record, races: &[Race], shown: &mut Vec<u8>) -> Result<(), OutOfMemory> {
    let count = record.tree.nodes().len() as u32;
    for race in races {
        if race.first < count && race.second < count {
            let (first, second) = (
                record.tree.node(race.first).stamp,
                record.tree.node(race.second).stamp,
            );
            let cell = race.cell;
            let line = format!(in *shown.allocator();
                "  {cell} first @{first} second @{second}\n"
            )?;
            shown.extend_from_slice(line.as_bytes())?;
        }
    }
    Ok(())
}

/// Puts a program and its races behind what is shown.
fn show<L: Ledger>(
    alloc: Global,
    text: &str,
    steps: &mut Steps<L>,
    shown: &mut Vec<u8>,
) -> Result<(), OutOfMemory> {
    shown.extend_from_slice(text.as_bytes())?;
    shown.extend_from_slice(b"\n")?;
    let Some(program) = program(alloc, text) else {
        shown.extend_from_slice(b"  no program\n")?;
        return Ok(());
    };
    let (record, races) = run(alloc, program, steps)?;
    show_races(&record, races.as_slice(), shown)
}

/// Shows the races of all programs of a table, one on each line.
fn show_all<L: Ledger>(alloc: Global, table: String, blank: Blank) -> Result<Vec<u8>, OutOfMemory>
    requires name { blank.name ≡ L.name }
    requires parts { blank.parts ≡ L.parts }
    requires some { 0 < L.parts }
{
    let mut steps = Steps::<L>::new(blank);
    let mut shown = Vec::new(alloc);
    for text in table.as_str().lines() {
        show(alloc, text, &mut steps, &mut shown)?;
    }
    Ok(shown)
}

fn main(rt: HostRuntime) -> io::Result<()> {
    let mut table = String::new(rt.alloc());
    rt.stdin().read_to_string(&mut table)?;
    match show_all::<Brand>(rt.alloc(), table, Blank::new(1)) {
        Ok(shown) => io::writer(&rt).write_all(shown.as_slice()),
        Err(OutOfMemory) => println!(rt; "out of memory"),
    }
}

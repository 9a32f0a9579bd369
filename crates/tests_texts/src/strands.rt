ghost use Rattle.std.specs.Prelude.{◌≡◌, IfOk, OnOk};
ghost use Rattle.cw_strand.specs.declared.want.Want.TheVariants.{Begin};
ghost use Rattle.cw_strand.specs.declared.want.Given.TheVariants.{Nothing};
ghost use Rattle.cw_strand.specs.Standing.{StandsIn, StandsWanting, NextFrom};
ghost use Rattle.cw_strand.specs.Saving.{Kept, kept_of, MayGoBack};

use crate::texts::{count, number};
use crate::{kinds, shown, sources};
use cw_base::{OutOfMemory, Seq};
use cw_code::{Back, Limits, Program};
use cw_strand::{Given, Strand, Want};
use std::alloc::Global;

/// Why a walk stops before its end: memory ran out, or the strand wanted something else, which is shown.
#[derive(Clone, Copy)]
enum Stop {
    Memory,
    Another,
}

impl From<OutOfMemory> for Stop {
    fn from(_failed: OutOfMemory) -> Self {
        Stop::Memory
    }
}

/// Shows what a strand wants.
fn show_want(want: Want, shown: &mut Vec<u8>) -> Result<(), OutOfMemory> {
    match want {
        Want::Load(cell) => shown::numbered(shown, "load ", i64::from(cell)),
        Want::Store(cell, value) => {
            shown::words(shown, "store ")?;
            shown::number(shown, i64::from(cell))?;
            shown::numbered(shown, " ", value)
        }
        Want::Out(value) => shown::numbered(shown, "out ", value),
        Want::Begin => shown::line(shown, "begin"),
        Want::End => shown::line(shown, "end"),
        Want::Cancel => shown::line(shown, "cancel"),
        Want::Fork => shown::line(shown, "fork"),
        Want::Sync => shown::line(shown, "sync"),
        Want::Done => shown::line(shown, "done"),
        Want::Fault(kind) => shown::line(shown, kinds::of_fault(kind)),
    }
}

/// The strand of a main without parameters.
fn strand_of(alloc: Global, program: &Program, limits: Limits) -> Result<Strand, Stop>
    ensures { IfOk result (λ s. StandsIn program.now.code s) }
{
    let Some(main) = program.code.code().func(u64::from(program.main)) else {
        return Err(Stop::Another);
    };
    if main.params != 0 {
        return Err(Stop::Another);
    }
    Ok(Strand::main(alloc, program, &[], limits)?)
}

/// The strand wants this next, answered with nothing. What it wants is shown.
fn wants(
    strand: &mut Strand,
    program: &Program,
    want: Want,
    shown: &mut Vec<u8>,
) -> Result<(), Stop>
    requires { StandsIn program.now.code strand.old }
    ensures next { OnOk result (NextFrom program.now.code strand.old Nothing want strand.new) }
    ensures stands { OnOk result (StandsWanting program.now.code want strand.new) }
{
    let found = strand.next(program, Given::Nothing)?;
    show_want(found, shown)?;
    if found == want {
        Ok(())
    } else {
        Err(Stop::Another)
    }
}

/// From the begin on: the block forks, both strands end and are joined, and its local is put out.
fn to_output(strand: &mut Strand, program: &Program, shown: &mut Vec<u8>) -> Result<(), Stop>
    requires { StandsWanting program.now.code Begin strand.old }
    ensures stands { OnOk result (StandsIn program.now.code strand.new) }
    ensures inside { OnOk result ((k : Kept) → k ≡ kept_of strand.old → (m : MayGoBack k strand.new) × (m.begin.state ≡ strand.old)) }
{
    wants(strand, program, Want::Fork, shown)?;
    let mut left = strand.fork()?;
    wants(&mut left, program, Want::Done, shown)?;
    wants(strand, program, Want::Sync, shown)?;
    strand.joined(left);
    wants(strand, program, Want::Out(2), shown)?;
    Ok(())
}

/// From the begin on: the right strand is given up where it wants to write, and joined with the left one, which never began.
fn to_write(strand: &mut Strand, program: &Program, shown: &mut Vec<u8>) -> Result<(), Stop>
    requires { StandsWanting program.now.code Begin strand.old }
    ensures { OnOk result ((k : Kept) → k ≡ kept_of strand.old → (m : MayGoBack k strand.new) × (m.begin.state ≡ strand.old)) }
{
    wants(strand, program, Want::Fork, shown)?;
    let left = strand.fork()?;
    wants(strand, program, Want::Store(0, 2), shown)?;
    strand.joined(left);
    Ok(())
}

/// Goes through the block, back to its begin and through the block again.
fn twice(strand: &mut Strand, program: &Program, shown: &mut Vec<u8>) -> Result<(), Stop>
    requires { StandsWanting program.now.code Begin strand.old }
    ensures { OnOk result (StandsIn program.now.code strand.new) }
{
    let saved = strand.save()?;
    to_output(strand, program, shown)?;
    strand.back(&saved);
    shown::line(shown, "back")?;
    to_output(strand, program, shown)
}

/// What a strand has to write back if it gives up a block.
fn backs(alloc: Global, written: &str) -> Result<Seq<Back>, OutOfMemory> {
    let mut back = Seq::new(alloc);
    let mut pairs = written.split(',');
    for pair in &mut pairs {
        let (cell, value) = pair.split_once(' ').unwrap_or((pair, ""));
        back.push(Back {
            cell: count(cell),
            value: number(value),
        })?;
    }
    Ok(back)
}

/// What a want is answered with: a cancel with what is to be written back, each other one with nothing.
fn given(alloc: Global, want: Want, back: &str) -> Result<Given, OutOfMemory> {
    match want {
        Want::Cancel => Ok(Given::Back(backs(alloc, back)?)),
        _ => Ok(Given::Nothing),
    }
}

/// Whether a strand that wants this goes no further by itself.
fn is_last(want: Want) -> bool {
    matches!(want, Want::Sync | Want::Done | Want::Fault(_))
}

/// `steps`: goes from want to want until the strand ends, a hundred at most.
fn steps(
    alloc: Global,
    strand: &mut Strand,
    program: &Program,
    back: &str,
    shown: &mut Vec<u8>,
) -> Result<(), OutOfMemory>
    requires { StandsIn program.now.code strand.old }
{
    let mut want = strand.next(program, Given::Nothing)?;
    show_want(want, shown)?;
    'wants: for _ in 0..100u8 {
        if is_last(want) {
            return Ok(());
        }
        want = strand.next(program, given(alloc, want, back)?)?;
        show_want(want, shown)?;
    }
    shown::line(shown, "and so on")
}

/// `again`: a block that forks is gone through twice, the second time from its begin.
fn again(strand: &mut Strand, program: &Program, shown: &mut Vec<u8>) -> Result<(), Stop>
    requires { StandsIn program.now.code strand.old }
    ensures { OnOk result (StandsIn program.now.code strand.new) }
{
    wants(strand, program, Want::Begin, shown)?;
    twice(strand, program, shown)
}

/// `beside`: goes back from a strand that was given up beside another one, and through the same wants again.
fn beside(strand: &mut Strand, program: &Program, shown: &mut Vec<u8>) -> Result<(), Stop>
    requires { StandsIn program.now.code strand.old }
{
    wants(strand, program, Want::Begin, shown)?;
    let saved = strand.save()?;
    to_write(strand, program, shown)?;
    strand.back(&saved);
    shown::line(shown, "back")?;
    to_write(strand, program, shown)
}

/// The limits that the words of an ask name: its fuel and its size.
fn limits(ask: &str) -> Limits {
    let mut words = ask.split(' ');
    let _walk = words.next();
    let fuel = words.next().unwrap_or("");
    let size = words.next().unwrap_or("");
    Limits {
        fuel: u64::from(count(fuel)),
        size: count(size),
        aborts: 1,
        strands: 1,
        moves: 1,
    }
}

/// Walks a strand from its first step as it is asked.
fn walk_on(
    alloc: Global,
    strand: &mut Strand,
    program: &Program,
    ask: &str,
    shown: &mut Vec<u8>,
) -> Result<(), Stop>
    requires { StandsIn program.now.code strand.old }
{
    if ask.starts_with("beside") {
        return beside(strand, program, shown);
    }
    if ask.starts_with("again") {
        again(strand, program, shown)?;
    }
    let (_walk, back) = ask.split_once(" back ").unwrap_or((ask, ""));
    steps(alloc, strand, program, back, shown)?;
    Ok(())
}

/// Walks as it is asked.
fn walk(alloc: Global, ask: &str, program: &Program, shown: &mut Vec<u8>) -> Result<(), Stop> {
    let mut strand = strand_of(alloc, program, limits(ask))?;
    let walked = walk_on(alloc, &mut strand, program, ask, shown);
    drop(strand);
    walked
}

/// Shows what the strand of the program of a text wants, one want a line. The ask has the walk, the fuel and the size:
/// - `steps`: from want to want to the end. Behind ` back ` is what a cancel has to write back: pairs of a cell and a value, with commas;
/// - `again`: a block in which the strand forks and puts out 2 is gone through twice, the left strand first, and then on to the end;
/// - `beside`: a block in which the strand forks and the right one is to write 2 to the first cell, so far twice.
pub(crate) fn answer(
    alloc: Global,
    ask: &str,
    text: &[u8],
    shown: &mut Vec<u8>,
) -> Result<(), OutOfMemory> {
    match sources::compiled(alloc, text, shown)? {
        None => Ok(()),
        Some(program) => {
            let walked = walk(alloc, ask, &program, shown);
            drop(program);
            match walked {
                Err(Stop::Memory) => Err(OutOfMemory),
                _ => Ok(()),
            }
        }
    }
}

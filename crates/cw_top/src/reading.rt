ghost use Rattle.std.specs.Prelude.{◌≡◌, ◌-◌, ◌<◌, ◌≤◌, ◌⊎◌, length, Ok, IfOk, IfErr, IfSome, OnOk};
ghost use Rattle.cw_text.specs.Syntax.{source_of};
ghost use Rattle.cw_text.specs.Text.{program};
ghost use Rattle.cw_io.specs.Outside.{IsDry, Rose, RunsDry, Takes};
ghost use Rattle.cw_strand.specs.Programs.{IsCompiled, IsProgramOf};
ghost use Rattle.cw_top.specs.Taken.{GivesOn, RisesAtMost, TakesAtMost, most_bytes};
ghost use Rattle.cw_top.specs.Reasons.{WhyNoRun, WhyRefused, WhyStopped};

use crate::reasons::{NoRun, Refusal, Stop};
use cw_code::Program;
use cw_compile::compile;
use cw_io::Source;
use cw_text::{Ast, read_language};
use std::alloc::Global;

/// A program: its syntax tree, and what that is compiled to.
#[derive(Drop)]
pub struct Compiled {
    pub ast: Ast,
    pub program: Program,
}

// One more than the text of a program may have.
const MOST_BYTES: usize = 1_048_577;

/// One more than a sheet may have.
pub const MOST_SHEET_BYTES: usize = 67_108_865;

// The most bytes that one read asks for.
const ROOM: usize = 8_192;

// Reads more bytes, up to `most` in all. Returns their number; 0 is the end.
fn read_more<S: Source>(source: &mut S, bytes: &mut Vec<u8>, most: usize) -> Result<usize, Stop>
    requires { length bytes.old.items < most }
    ensures later { S.faults source.old ≤ S.faults source.new }
    ensures why { IfErr result (λ s. WhyStopped s (Rose (S.faults source.old) (S.faults source.new))) }
    ensures taken { TakesAtMost (most - length bytes.old.items) (S.left source.old) (S.left source.new) }
    ensures given { IfOk result (λ n. GivesOn (S.left source.old) (S.left source.new) bytes.old.items bytes.new.items n) }
    ensures few { OnOk result (length bytes.new.items ≤ most) }
    ensures end { result ≡ Ok 0 → IsDry (S.left source.old) }
    ensures once { RisesAtMost 1 (S.ends source.old) (S.ends source.new) }
    ensures none { IfOk result (λ n. 0 < n → S.ends source.new ≡ S.ends source.old) }
{
    let mut buffer = [0u8; ROOM];
    let room = ROOM.min(most - bytes.len());
    let count = source.read(&mut buffer[..room])?;
    bytes.extend_from_slice(&buffer[..count])?;
    Ok(count)
}

/// Reads a source up to its end, or only its first `most` bytes if it has more.
pub fn read_all<S: Source>(alloc: Global, source: &mut S, most: usize) -> Result<Vec<u8>, Stop>
    ensures later { S.faults source.old ≤ S.faults source.new }
    ensures why { IfErr result (λ s. WhyStopped s (Rose (S.faults source.old) (S.faults source.new))) }
    ensures taken { TakesAtMost most (S.left source.old) (S.left source.new) }
    ensures given { IfOk result (λ bytes. Takes (S.left source.old) (S.left source.new) bytes.items) }
    ensures whole { IfOk result (λ bytes. length bytes.items < most → RunsDry (S.left source.old) (S.left source.new)) }
    ensures once { RisesAtMost 1 (S.ends source.old) (S.ends source.new) }
{
    let mut bytes = Vec::new(alloc);
    'pieces: while bytes.len() < most {
        let count = read_more(source, &mut bytes, most)?;
        if count == 0 {
            break;
        }
    }
    Ok(bytes)
}

// Compiles the program that `bytes` spell.
fn program_of(alloc: Global, bytes: &[u8], newest: u32) -> Result<Compiled, Refusal>
    requires { (newest ≡ 1) ⊎ (newest ≡ 2) }
    ensures spelled { IfOk result (λ c. program newest bytes.now ≡ Ok (source_of c.ast)) }
    ensures its { IfOk result (λ c. IsProgramOf (source_of c.ast).items c.program) }
    ensures compiled { IfOk result (λ c. IsCompiled c.program) }
    ensures why { IfErr result (λ r. WhyRefused newest r bytes.now) }
{
    let ast = read_language(alloc, bytes, newest)?;
    let program = compile(alloc, &ast)?;
    Ok(Compiled { ast, program })
}

/// Reads and compiles the program that a source spells, in a language up to `newest`.
pub fn program_from<S: Source>(
    alloc: Global,
    source: &mut S,
    newest: u32,
) -> Result<Compiled, NoRun>
    requires { (newest ≡ 1) ⊎ (newest ≡ 2) }
    ensures later { S.faults source.old ≤ S.faults source.new }
    ensures why { IfErr result (λ n. WhyNoRun newest n (Rose (S.faults source.old) (S.faults source.new)) ⊥ (S.left source.old)) }
    ensures taken { TakesAtMost most_bytes (S.left source.old) (S.left source.new) }
    ensures whole { OnOk result (RunsDry (S.left source.old) (S.left source.new)) }
    ensures once { RisesAtMost 1 (S.ends source.old) (S.ends source.new) }
    ensures spelled { IfOk result (λ c. IfSome (S.left source.old) (λ bytes. program newest bytes ≡ Ok (source_of c.ast))) }
    ensures its { IfOk result (λ c. IsProgramOf (source_of c.ast).items c.program) }
    ensures compiled { IfOk result (λ c. IsCompiled c.program) }
{
    let bytes = read_all(alloc, source, MOST_BYTES)?;
    Ok(program_of(alloc, bytes.as_slice(), newest)?)
}

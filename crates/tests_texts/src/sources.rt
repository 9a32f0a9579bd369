use crate::{kinds, pieces, shown};
use cw_base::OutOfMemory;
use cw_code::{Code, Program};
use cw_compile::{NameRefusal, compile};
use cw_gen::load_program;
use cw_text::{TextRefusal, print_program, read_program};
use std::alloc::Global;

/// Shows why a text is not read.
fn text_refusal(refusal: TextRefusal, shown: &mut Vec<u8>) -> Result<(), OutOfMemory> {
    match refusal {
        TextRefusal::OutOfMemory => Err(OutOfMemory),
        TextRefusal::Text(fault) => {
            shown::fault(shown, kinds::of_text(fault.kind), " in line ", fault.line)
        }
    }
}

/// `read`: whether the text is a program, and its first fault if not.
pub(crate) fn read(alloc: Global, text: &[u8], shown: &mut Vec<u8>) -> Result<(), OutOfMemory> {
    match read_program(alloc, text) {
        Err(refusal) => text_refusal(refusal, shown),
        Ok(ast) => {
            drop(ast);
            shown::line(shown, "a program")
        }
    }
}

/// `print`: the text that the program of the text is printed as.
pub(crate) fn print(alloc: Global, text: &[u8], shown: &mut Vec<u8>) -> Result<(), OutOfMemory> {
    match read_program(alloc, text) {
        Err(refusal) => text_refusal(refusal, shown),
        Ok(ast) => {
            let text = print_program(alloc, &ast);
            drop(ast);
            shown::printed(text, shown)
        }
    }
}

/// `load`: the text that the program of a load of `count` transfers is printed as.
pub(crate) fn load(alloc: Global, count: u32, shown: &mut Vec<u8>) -> Result<(), OutOfMemory> {
    // a hint to the prover: no load of the table is out of range
    let count = count.clamp(1, 20000);
    let ast = load_program(alloc, count)?;
    let text = print_program(alloc, &ast);
    drop(ast);
    shown::printed(text, shown)
}

/// Shows the first naming fault, or hands on what was compiled.
fn named(
    made: Result<Program, NameRefusal>,
    shown: &mut Vec<u8>,
) -> Result<Option<Program>, OutOfMemory> {
    match made {
        Ok(program) => Ok(Some(program)),
        Err(NameRefusal::OutOfMemory) => Err(OutOfMemory),
        Err(NameRefusal::Name(fault)) => {
            shown::fault(shown, kinds::of_name(fault.kind), " in line ", fault.line)?;
            Ok(None)
        }
    }
}

/// The program of a text, or none, with its first fault shown.
pub(crate) fn compiled(
    alloc: Global,
    text: &[u8],
    shown: &mut Vec<u8>,
) -> Result<Option<Program>, OutOfMemory> {
    match read_program(alloc, text) {
        Err(refusal) => {
            text_refusal(refusal, shown)?;
            Ok(None)
        }
        Ok(ast) => {
            let made = compile(alloc, &ast);
            drop(ast);
            named(made, shown)
        }
    }
}

/// Shows the code of a program, whether an instruction has operands that it should not have, and how many locals its first function has.
fn show_program(alloc: Global, code: &Code, shown: &mut Vec<u8>) -> Result<(), OutOfMemory> {
    pieces::show(alloc, code, shown)?;
    if !pieces::are_bare(code.instrs.as_slice()) {
        shown::line(shown, "an operand too many")?;
    }
    match code.func(0) {
        None => shown::line(shown, "no function"),
        Some(func) => shown::numbered(shown, "locals ", i64::from(func.locals)),
    }
}

/// `code`: the code of the program of the text.
pub(crate) fn code(alloc: Global, text: &[u8], shown: &mut Vec<u8>) -> Result<(), OutOfMemory> {
    match compiled(alloc, text, shown)? {
        None => Ok(()),
        Some(program) => {
            let answer = show_program(alloc, program.code.code(), shown);
            drop(program);
            answer
        }
    }
}

/// `names`: whether the program of the text is compiled, and its first naming fault if not.
pub(crate) fn names(alloc: Global, text: &[u8], shown: &mut Vec<u8>) -> Result<(), OutOfMemory> {
    match compiled(alloc, text, shown)? {
        None => Ok(()),
        Some(program) => {
            drop(program);
            shown::line(shown, "compiled")
        }
    }
}

use crate::texts::{count, number};
use crate::{kinds, shown};
use cw_base::{OutOfMemory, Seq};
use cw_code::{
    Code, CodeRefusal, Func, Instr, Operands, Program, Verified, print_code, row_at, verify,
};
use std::alloc::Global;

/// The operations that lines name, each with its number in the table.
const OPERATIONS: [(&str, u8); 16] = [
    ("push", 1),
    ("local", 2),
    ("load", 4),
    ("loadx", 5),
    ("add", 8),
    ("neg", 13),
    ("jump", 21),
    ("jumpz", 22),
    ("call", 23),
    ("ret", 24),
    ("begin", 27),
    ("end", 28),
    ("fork", 29),
    ("done", 31),
    ("tick", 32),
    ("cancel", 33),
];

/// The number of the operation with a name, and 0, which is none, where the table has no such name.
fn operation(name: &str) -> u8 {
    for (known, op) in &OPERATIONS {
        if *known == name {
            return *op;
        }
    }
    0
}

/// The function that four numbers are.
fn function(numbers: &str) -> Func {
    let mut words = numbers.split(' ');
    let params = count(words.next().unwrap_or(""));
    let locals = count(words.next().unwrap_or(""));
    let start = count(words.next().unwrap_or(""));
    let end = count(words.next().unwrap_or(""));
    Func {
        params,
        locals,
        start,
        end,
    }
}

/// The instruction of an operation with these operands, each 0 where none stands there.
fn instruction(name: &str, operands: &str) -> Instr {
    let (a, b) = operands.split_once(' ').unwrap_or((operands, ""));
    Instr {
        op: operation(name),
        a: number(a),
        b: count(b),
    }
}

/// Puts what a line says into code.
fn put_line(code: &mut Code, line: &str) -> Result<(), OutOfMemory> {
    let (name, behind) = line.split_once(' ').unwrap_or((line, ""));
    match name.as_bytes() {
        b"cells" => {
            code.cells = count(behind);
            Ok(())
        }
        b"function" => code.funcs.push(function(behind)),
        _ => code.instrs.push(instruction(name, behind)),
    }
}

/// Puts what lines say into code.
fn put_lines(code: &mut Code, text: &str) -> Result<(), OutOfMemory> {
    let mut lines = text.split('\n');
    for line in &mut lines {
        put_line(code, line)?;
    }
    Ok(())
}

/// The code of a text, line by line: `cells` and how many it may name; `function` and the function's parameters, locals, start and end; or an
/// operation and its operands.
fn of_text(alloc: Global, text: &str) -> Result<Code, OutOfMemory> {
    let mut code = Code {
        cells: 0,
        funcs: Seq::new(alloc),
        instrs: Seq::new(alloc),
    };
    match put_lines(&mut code, text) {
        Ok(()) => Ok(code),
        Err(refused) => {
            drop(code);
            Err(refused)
        }
    }
}

/// Whether an instruction has no operands but those that its operation has.
fn is_bare(instr: &Instr) -> bool {
    match row_at(instr.op) {
        None => false,
        Some(row) => match row.operands {
            Operands::Zero => instr.a == 0 && instr.b == 0,
            Operands::One => instr.b == 0,
            Operands::Two => true,
        },
    }
}

/// Whether all instructions are so.
pub(crate) fn are_bare(instrs: &[Instr]) -> bool {
    for instr in instrs {
        if !is_bare(instr) {
            return false;
        }
    }
    true
}

/// Shows code, where each operation is in the table.
pub(crate) fn show(alloc: Global, code: &Code, shown: &mut Vec<u8>) -> Result<(), OutOfMemory> {
    let instrs = code.instrs.as_slice();
    let are_known = instrs.iter().all(|instr| row_at(instr.op).is_some());
    if !are_known {
        return shown::line(shown, "an operation is not in the table");
    }
    shown::printed(print_code(alloc, code), shown)
}

/// `operations`: the text of code.
pub(crate) fn operations(
    alloc: Global,
    text: &str,
    shown: &mut Vec<u8>,
) -> Result<(), OutOfMemory> {
    let code = of_text(alloc, text)?;
    let answer = show(alloc, &code, shown);
    drop(code);
    answer
}

/// Shows the first rule that code breaks, or hands it on.
fn verified(
    alloc: Global,
    text: &str,
    shown: &mut Vec<u8>,
) -> Result<Option<Verified>, OutOfMemory> {
    match verify(alloc, of_text(alloc, text)?) {
        Ok(code) => Ok(Some(code)),
        Err(CodeRefusal::OutOfMemory) => Err(OutOfMemory),
        Err(CodeRefusal::Code(fault)) => {
            shown::fault(shown, kinds::of_code(fault.kind), " at ", fault.at)?;
            Ok(None)
        }
    }
}

/// `rules`: whether code is sound, and the first rule that it breaks if not.
pub(crate) fn rules(alloc: Global, text: &str, shown: &mut Vec<u8>) -> Result<(), OutOfMemory> {
    match verified(alloc, text, shown)? {
        None => Ok(()),
        Some(code) => {
            drop(code);
            shown::line(shown, "sound")
        }
    }
}

/// A program of code without cells that begins at its first function.
fn program_of(alloc: Global, code: Verified) -> Option<Program> {
    let functions = code.code().funcs.len();
    if functions == 0 || code.code().cells != 0 {
        drop(code);
        return None;
    }
    Some(Program {
        code,
        cells: Seq::new(alloc),
        main: 0,
    })
}

/// `program`: whether code makes a program.
pub(crate) fn program(alloc: Global, text: &str, shown: &mut Vec<u8>) -> Result<(), OutOfMemory> {
    let Some(code) = verified(alloc, text, shown)? else {
        return Ok(());
    };
    match program_of(alloc, code) {
        None => shown::line(shown, "no program"),
        Some(program) => {
            drop(program);
            shown::line(shown, "a program")
        }
    }
}

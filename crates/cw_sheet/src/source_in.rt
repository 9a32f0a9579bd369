ghost use Rattle.std.specs.Prelude.{◌≡◌, ℕ, IfOk, is_none};
ghost use Rattle.cw_text.specs.Syntax.{source_of};
ghost use Rattle.cw_text.specs.Text.{reading};
ghost use Rattle.cw_strand.specs.Names.{naming_fault};
ghost use Rattle.cw_sheet.specs.Items.{Place};
ghost use Rattle.cw_sheet.specs.Reading.{canonical, is_canonical, longest_source, source, source_of_length};
ghost use Rattle.cw_sheet.specs.Taking.{LeadsTo, Takes, place_of};

use crate::cursor::Cursor;
use crate::{SheetFault, SheetKind, SheetRefusal};
use cw_base::OutOfMemory;
use cw_compile::{NameRefusal, compile};
use cw_text::{Ast, TextRefusal, print_program, read_long};
use std::alloc::Global;

// Whether no name of the program is at fault.
fn is_named(alloc: Global, ast: &Ast) -> Result<bool, OutOfMemory>
    ensures { IfOk result (λ b. b ≡ is_none (naming_fault (source_of ast.now).items)) }
{
    match compile(alloc, ast) {
        Ok(program) => {
            drop(program);
            Ok(true)
        }
        Err(NameRefusal::Name(_)) => Ok(false),
        Err(NameRefusal::OutOfMemory) => Err(OutOfMemory),
    }
}

// Whether `bytes` are the text of the program, and no name of it is at fault.
fn is_canonical(alloc: Global, ast: &Ast, bytes: &[u8]) -> Result<bool, OutOfMemory>
    ensures { IfOk result (λ b. b ≡ is_canonical bytes.now (source_of ast.now)) }
{
    if !is_named(alloc, ast)? {
        return Ok(false);
    }
    let text = print_program(alloc, ast)?;
    Ok(text.as_slice() == bytes)
}

// Reads a source, whose faults are on line `line`.
fn canonical(alloc: Global, bytes: &[u8], line: u32) -> Result<Ast, SheetRefusal>
    ensures { (p : Place) → Takes result source_of (canonical line bytes.now (reading 2 longest_source bytes.now) p) p }
{
    let refusal = SheetRefusal::Sheet(SheetFault {
        kind: SheetKind::BadSource,
        line,
    });
    match read_long(alloc, bytes) {
        Ok(ast) => {
            if is_canonical(alloc, &ast, bytes)? {
                return Ok(ast);
            }
            Err(refusal)
        }
        Err(TextRefusal::Text(_)) => Err(refusal),
        Err(TextRefusal::OutOfMemory) => Err(SheetRefusal::OutOfMemory),
    }
}

// Takes the bytes of the source. If there are not as many, the end of the text is at fault.
fn source_bytes<'a>(cursor: &mut Cursor<'a>, count: usize) -> Result<&'a [u8], SheetFault>
    ensures { (line : ℕ) → LeadsTo result (source_of_length count line (place_of cursor.old))
        (λ bytes. canonical line bytes.now (reading 2 longest_source bytes.now) (place_of cursor.new)) }
{
    let left = cursor.len();
    if left < count {
        let _all = cursor.bytes(left);
        return Err(cursor.fault(SheetKind::Unexpected));
    }
    Ok(cursor.bytes(count))
}

/// Takes the source, behind the line that says how long it is.
pub(crate) fn source(alloc: Global, cursor: &mut Cursor<'_>) -> Result<Ast, SheetRefusal>
    ensures { Takes result source_of (source (place_of cursor.old)) (place_of cursor.new) }
{
    let line = cursor.line();
    let count = cursor.count_line("source")?;
    let bytes = source_bytes(cursor, count)?;
    canonical(alloc, bytes, line)
}

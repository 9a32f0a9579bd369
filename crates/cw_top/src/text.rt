ghost use Rattle.std.specs.Prelude.{◌≡◌, IfOk, string_bytes};
ghost use Rattle.cw_top.specs.Texts.{at_line, name_fault_name, note_text as text_of_note, sheet_fault_name, text_fault_name};

use crate::Note;
use cw_base::OutOfMemory;
use cw_sheet::SheetKind;
use cw_strand::NameKind;
use cw_text::TextKind;
use std::alloc::Global;

fn text_fault_name(kind: TextKind) -> &'static str
    ensures { result.now ≡ text_fault_name kind }
{
    match kind {
        TextKind::NotUtf8 => "NotUtf8",
        TextKind::BadChar => "BadChar",
        TextKind::BadNumber => "BadNumber",
        TextKind::Unexpected => "Unexpected",
        TextKind::TooLong => "TooLong",
        TextKind::TooDeep => "TooDeep",
    }
}

fn name_fault_name(kind: NameKind) -> &'static str
    ensures { result.now ≡ name_fault_name kind }
{
    match kind {
        NameKind::Unknown => "Unknown",
        NameKind::Twice => "Twice",
        NameKind::WrongCount => "WrongCount",
        NameKind::NoMain => "NoMain",
        NameKind::ReturnInside => "ReturnInside",
        NameKind::TooManyCells => "TooManyCells",
        NameKind::NotACell => "NotACell",
        NameKind::NotALocal => "NotALocal",
        NameKind::CancelOutside => "CancelOutside",
    }
}

fn sheet_fault_name(kind: SheetKind) -> &'static str
    ensures { result.now ≡ sheet_fault_name kind }
{
    match kind {
        SheetKind::NotUtf8 => "NotUtf8",
        SheetKind::TooLong => "TooLong",
        SheetKind::Unexpected => "Unexpected",
        SheetKind::BadNumber => "BadNumber",
        SheetKind::BadTree => "BadTree",
        SheetKind::BadSource => "BadSource",
    }
}

fn at_line(alloc: Global, line: u32, kind: &str) -> Result<String, OutOfMemory>
    ensures { IfOk result (λ text. string_bytes text ≡ at_line line kind.now) }
{
    Ok(format!(in alloc; "cwstm: line {line}: {kind}\n")?)
}

fn note_string(alloc: Global, note: &Note) -> Result<String, OutOfMemory>
    ensures { IfOk result (λ text. string_bytes text ≡ text_of_note note.now) }
{
    match note {
        Note::Nothing => Ok(String::new(alloc)),
        Note::Usage => Ok(String::from_str(alloc, "cwstm: usage\n")?),
        Note::Memory => Ok(String::from_str(alloc, "cwstm: want of memory\n")?),
        Note::Read => Ok(String::from_str(alloc, "cwstm: read fault\n")?),
        Note::Write => Ok(String::from_str(alloc, "cwstm: write fault\n")?),
        Note::Text(fault) => at_line(alloc, fault.line, text_fault_name(fault.kind)),
        Note::Name(fault) => at_line(alloc, fault.line, name_fault_name(fault.kind)),
        Note::Sheet(fault) => at_line(alloc, fault.line, sheet_fault_name(fault.kind)),
    }
}

/// Returns the text of a note: one line, or nothing for `Nothing`.
pub fn note_text(alloc: Global, note: &Note) -> Result<Vec<u8>, OutOfMemory>
    ensures { IfOk result (λ text. text.items ≡ text_of_note note.now) }
{
    Ok(note_string(alloc, note)?.into_bytes())
}

ghost use Rattle.std.specs.Prelude.{◌≡◌, ◌++◌, ◌∷◌, [], length, IfOk, OnOk, string_bytes};
ghost use Rattle.cw_text.specs.PrintedText.{printed_text};
ghost use Rattle.cw_text.specs.Syntax.{source_of};
ghost use Rattle.cw_sheet.specs.Contents.{contents_of};
ghost use Rattle.cw_sheet.specs.SheetText.{after_source, before_source, sheet_text};

use crate::Sheet;
use crate::nodes::push_nodes;
use crate::parts::{push_conflicts, push_count, push_end, push_limits, push_values};
use cw_base::OutOfMemory;
use cw_text::print_program;
use std::alloc::Global;

fn before_source(alloc: Global, count: usize) -> Result<String, OutOfMemory>
    ensures { IfOk result (λ text. string_bytes text ≡ before_source count) }
{
    let mut text = String::from_str(alloc, "cwstm record 1\n")?;
    push_count(&mut text, "source", count)?;
    Ok(text)
}

fn after_source(alloc: Global, sheet: &Sheet) -> Result<String, OutOfMemory>
    ensures { IfOk result (λ text. string_bytes text ≡ after_source (contents_of sheet.now)) }
{
    let mut text = String::new(alloc);
    push_values(&mut text, "words", sheet.words.as_slice())?;
    push_limits(&mut text, sheet.limits)?;
    push_nodes(&mut text, sheet.tree.nodes())?;
    push_conflicts(&mut text, sheet.conflicts.as_slice())?;
    push_end(&mut text, &sheet.end)?;
    text.push_str("end record\n")?;
    Ok(text)
}

/// Returns the text of a sheet: the canonical text of its program, the words and limits, a line for each node of the tree
/// and for each refused access, and how the run ended.
pub fn sheet_text(alloc: Global, sheet: &Sheet) -> Result<Vec<u8>, OutOfMemory>
    ensures { IfOk result (λ text. text.items ≡ sheet_text (contents_of sheet.now)) }
{
    let source = print_program(alloc, &sheet.ast)?;
    let mut text = before_source(alloc, source.len())?.into_bytes();
    text.extend_from_slice(source.as_slice())?;
    text.extend_from_slice(after_source(alloc, sheet)?.as_bytes())?;
    Ok(text)
}

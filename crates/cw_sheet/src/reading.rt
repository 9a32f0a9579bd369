ghost use Rattle.std.specs.Prelude.{◌≡◌, ◌≤◌, ◌^◌, length};
ghost use Rattle.cw_text.specs.Syntax.{Source};
ghost use Rattle.cw_text.specs.Text.{line_of};
ghost use Rattle.cw_sheet.specs.Reading.{behind_source, contents_from, judged_sheet, sheet_reading};
ghost use Rattle.cw_sheet.specs.Taking.{IsRest, ReadsSheet, place_of};

use crate::cursor::{Cursor, newlines};
use crate::ends_in::{conflicts, run_end};
use crate::judging::tree_of;
use crate::lines::values;
use crate::nodes_in::nodes;
use crate::source_in::source;
use crate::{Sheet, SheetFault, SheetKind, SheetRefusal};
use cw_base::Seq;
use cw_code::Limits;
use cw_record::RecordEnd;
use cw_tree::{Conflict, Tree};
use std::alloc::Global;
use std::str;

// The most bytes of a sheet.
const LONGEST: usize = 67_108_864;

/// What a sheet has behind its source.
#[derive(Drop)]
pub(crate) struct Rest {
    pub words: Seq<i64>,
    pub limits: Limits,
    pub tree: Tree,
    pub conflicts: Seq<Conflict>,
    pub end: RecordEnd,
}

// Reads what is behind the source, up to the end of the text, and makes the tree.
fn rest_of(alloc: Global, mut cursor: Cursor<'_>) -> Result<Rest, SheetRefusal>
    ensures { (s : Source) → IsRest result s (judged_sheet (behind_source s (place_of cursor.entry))) }
{
    let words = values(alloc, &mut cursor, "words")?;
    let limits = cursor.limits()?;
    let line = cursor.line();
    let nodes = nodes(alloc, &mut cursor)?;
    let conflicts = conflicts(alloc, &mut cursor)?;
    let end = run_end(alloc, &mut cursor)?;
    cursor.last()?;
    let tree = tree_of(alloc, nodes.as_slice(), line)?;
    Ok(Rest {
        words,
        limits,
        tree,
        conflicts: Seq::from_vec(conflicts),
        end,
    })
}

// Reads a sheet from its first place on.
fn sheet_from(alloc: Global, mut cursor: Cursor<'_>) -> Result<Sheet, SheetRefusal>
    ensures { ReadsSheet result (judged_sheet (contents_from (place_of cursor.entry))) }
{
    cursor.heading()?;
    let ast = source(alloc, &mut cursor)?;
    let rest = rest_of(alloc, cursor)?;
    Ok(Sheet {
        ast,
        words: rest.words,
        limits: rest.limits,
        tree: rest.tree,
        conflicts: rest.conflicts,
        end: rest.end,
    })
}

// The line of the byte at `place`: 1 plus the number of newlines before it.
fn line_of(text: &[u8], place: usize) -> u32
    requires within { place ≤ length text.now }
    requires short { length text.now ≤ 2 ^ 26 }
    ensures { result ≡ line_of place text.now }
{
    1 + newlines(&text[..place]) as u32
}

fn refusal(kind: SheetKind, line: u32) -> SheetRefusal
    ensures { result ≡ SheetRefusal.Sheet (record { kind = kind; line = line }) }
{
    SheetRefusal::Sheet(SheetFault { kind, line })
}

/// Reads a record sheet. Returns what its text tells, or the text's first fault with its line.
///
/// A text of more than 67,108,864 bytes is `TooLong`, on line 0. Otherwise a byte that belongs to no whole UTF-8
/// character is `NotUtf8`, wherever it is. Only then are the items read one by one, up to the first that is not allowed
/// in its place (`Unexpected`) or not a number as it is written (`BadNumber`). A source that is refused, has a naming
/// fault or is not the canonical text of its program is a `BadSource`, on the line that says how long it is. Once all
/// of the text has been read, the first node that has no place in a tree, or a fork without two strands, is a `BadTree`.
/// Lines are counted from 1. `OutOfMemory` says nothing about the text.
#[tactic(auto, using(crate::proofs::Whole::sheet_is))]
pub fn read_sheet(alloc: Global, bytes: &[u8]) -> Result<Sheet, SheetRefusal>
    ensures exact { ReadsSheet result (sheet_reading bytes.now) }
{
    if bytes.len() > LONGEST {
        return Err(refusal(SheetKind::TooLong, 0));
    }
    if let Err(error) = str::from_utf8(bytes) {
        return Err(refusal(SheetKind::NotUtf8, line_of(bytes, error.valid_up_to())));
    }
    sheet_from(alloc, Cursor::new(bytes))
}

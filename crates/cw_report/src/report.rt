ghost use Rattle.std.specs.Prelude.{◌≡◌, ◌++◌, List, IfOk, OnOk, map, string_bytes};
ghost use Rattle.std.specs.List.{flat_map};
ghost use Rattle.cw_code.specs.declared.CellInfo.{CellInfo};
ghost use Rattle.cw_report.specs.Elements.{element_text};
ghost use Rattle.cw_report.specs.Found.{AreFound};
ghost use Rattle.cw_report.specs.Report.{IsVersion, accesses_text, blocks_text, cancelled_text, conflict_line, counted_text, element_names, more_text, report_text, stamps_text, victim_text};

use crate::counts::Counts;
use crate::elements::{Element, elements, push_element};
use crate::found::Found;
use cw_base::OutOfMemory;
use cw_code::CellInfo;
use cw_record::Record;
use cw_tree::{Conflict, Tree};
use std::alloc::Global;
use std::fmt::Write;

// Writes what report 2 adds to the line of the blocks.
fn push_cancelled(text: &mut String, version: u32, cancelled: u32) -> Result<(), OutOfMemory>
    ensures { OnOk result (string_bytes text.new ≡ string_bytes text.old ++ cancelled_text version cancelled) }
{
    if version == 2 {
        write!(text, " cancelled {cancelled}")?;
    }
    Ok(())
}

// Writes the lines before the conflicts, with these numbers.
fn push_counts(
    text: &mut String,
    version: u32,
    counts: Counts,
    conflicts: usize,
) -> Result<(), OutOfMemory>
    ensures { OnOk result (string_bytes text.new ≡ string_bytes text.old
        ++ counted_text version counts.strands counts.committed counts.undone counts.cancelled conflicts) }
{
    writeln!(text, "report {version}")?;
    writeln!(text, "strands {}", counts.strands)?;
    write!(text, "blocks {} {}", counts.committed, counts.undone)?;
    push_cancelled(text, version, counts.cancelled)?;
    text.push_str("\n")?;
    writeln!(text, "conflicts {conflicts}")?;
    Ok(())
}

fn push_victim(text: &mut String, victim: u64) -> Result<(), OutOfMemory>
    ensures { OnOk result (string_bytes text.new ≡ string_bytes text.old ++ victim_text victim) }
{
    if victim == 0 {
        text.push_str("none")?;
    } else {
        write!(text, "{victim}")?;
    }
    Ok(())
}

// Writes stamps with commas between them.
fn push_stamps(text: &mut String, stamps: &[u64]) -> Result<(), OutOfMemory>
    ensures { OnOk result (string_bytes text.new ≡ string_bytes text.old ++ stamps_text stamps.now) }
{
    let Some((first, rest)) = stamps.split_first() else {
        return Ok(());
    };
    write!(text, "{first}")?;
    push_more(text, rest)
}

// Writes stamps, each after a comma.
fn push_more(text: &mut String, stamps: &[u64]) -> Result<(), OutOfMemory>
    ensures { OnOk result (string_bytes text.new ≡ string_bytes text.old ++ more_text stamps.now) }
{
    for stamp in stamps {
        write!(text, ",{stamp}")?;
    }
    Ok(())
}

// Writes the block in the way, the victim, the attempt, and the newest accesses of the cell.
fn push_blocks(text: &mut String, conflict: &Conflict) -> Result<(), OutOfMemory>
    ensures { OnOk result (string_bytes text.new ≡ string_bytes text.old ++ blocks_text conflict.now) }
{
    write!(text, " block {} victim ", conflict.block)?;
    push_victim(text, conflict.victim)?;
    write!(text, " attempt {} chain ", conflict.attempt)?;
    push_stamps(text, conflict.chain.as_slice())
}

// Writes the last access of the cell, by the strand of the first node with its stamp; and the refused access, by its own strand.
fn push_accesses(
    text: &mut String,
    tree: &Tree,
    elements: &[Element<'_>],
    found: &Found,
    conflict: &Conflict,
) -> Result<(), OutOfMemory>
    requires { AreFound tree.now found.now }
    ensures { OnOk result ((cells : List CellInfo) → map element_text elements.now ≡ flat_map element_names cells →
        string_bytes text.new ≡ string_bytes text.old ++ accesses_text cells tree.now conflict.now) }
{
    push_element(text, elements, conflict.cell)?;
    text.push_str(" last ")?;
    found.push_maker(text, tree, conflict.last)?;
    write!(text, "@{} asker ", conflict.last)?;
    found.strands.push_strand(text, tree, conflict.asker)
}

fn push_conflict(
    text: &mut String,
    tree: &Tree,
    elements: &[Element<'_>],
    found: &Found,
    conflict: &Conflict,
) -> Result<(), OutOfMemory>
    requires { AreFound tree.now found.now }
    ensures { OnOk result ((cells : List CellInfo) → map element_text elements.now ≡ flat_map element_names cells →
        string_bytes text.new ≡ string_bytes text.old ++ conflict_line cells tree.now conflict.now) }
{
    text.push_str("conflict ")?;
    push_accesses(text, tree, elements, found, conflict)?;
    push_blocks(text, conflict)?;
    text.push_str("\n")?;
    Ok(())
}

fn push_conflicts(
    text: &mut String,
    tree: &Tree,
    cells: &[CellInfo],
    conflicts: &[Conflict],
) -> Result<(), OutOfMemory>
    ensures { OnOk result (string_bytes text.new ≡ string_bytes text.old ++ flat_map (conflict_line cells.now tree.now) conflicts.now) }
{
    if conflicts.is_empty() {
        return Ok(());
    }
    let alloc = *text.allocator();
    let elements = elements(alloc, cells)?;
    let found = Found::of_tree(alloc, tree)?;
    for conflict in conflicts {
        push_conflict(text, tree, elements.as_slice(), &found, conflict)?;
    }
    Ok(())
}

/// Returns the report on a run, which follows its result. It begins with `report 1` or `report 2` and three lines of numbers. The
/// first has the strands of its tree, including those of rolled-back attempts and those that never started. The second has the
/// committed blocks with no aborted block above them, and all other closed blocks; in report 2 also how many of the committed ones
/// were cancelled. The third has the conflicts. Then follow a line for each conflict, in the record's order, and `end report`:
///
/// `conflict CELL last STRAND@STAMP asker STRAND block STAMP victim STAMP attempt NUMBER chain STAMPS`
///
/// A cell is `NAME`, or `NAME[I]` for an element of an array. The strand of a stamp is that of the first node with this stamp.
/// Without a victim, `none` is written; `?` is written for what the record does not have.
pub fn report_text(alloc: Global, kept: &Record, version: u32) -> Result<Vec<u8>, OutOfMemory>
    requires { IsVersion version }
    ensures { IfOk result (λ text. text.items ≡ report_text kept.now version) }
{
    let counts = Counts::of_tree(alloc, &kept.tree)?;
    let mut text = String::new(alloc);
    push_counts(&mut text, version, counts, kept.conflicts.len())?;
    let cells = kept.program.cells.as_slice();
    push_conflicts(&mut text, &kept.tree, cells, kept.conflicts.as_slice())?;
    text.push_str("end report\n")?;
    Ok(text.into_bytes())
}

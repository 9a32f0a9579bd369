ghost use Rattle.std.specs.Prelude.{◌≡◌, ◌++◌, codes, IfOk, IsTrue, OnOk, string_bytes};
ghost use Rattle.std.specs.List.{flat_map};
ghost use Rattle.cw_code.specs.FaultNames.{fault_name};
ghost use Rattle.cw_tree.specs.Nodes.{is_strand};
ghost use Rattle.cw_record.specs.Order.{ending_strand};
ghost use Rattle.cw_report.specs.Results.{cell_lines, element_line, end_text, finished_text, line, output_line, plain_line, run_text, strand_text};

use cw_base::OutOfMemory;
use cw_code::{CellInfo, FaultKind, fault_name};
use cw_job::value_at;
use cw_record::{Record, RecordEnd};
use cw_tree::Tree;
use std::alloc::Global;
use std::fmt::Write;

fn push_output(text: &mut String, value: i64) -> Result<(), OutOfMemory>
    ensures { OnOk result (string_bytes text.new ≡ string_bytes text.old ++ output_line value) }
{
    writeln!(text, "out {value}")?;
    Ok(())
}

fn push_plain(text: &mut String, cell: &CellInfo, memory: &[i64]) -> Result<(), OutOfMemory>
    ensures { OnOk result (string_bytes text.new ≡ string_bytes text.old ++ plain_line cell.now memory.now) }
{
    let name = cell.name.as_str();
    let value = value_at(memory, cell.base as usize);
    writeln!(text, "{name} = {value}")?;
    Ok(())
}

fn push_element(
    text: &mut String,
    cell: &CellInfo,
    memory: &[i64],
    index: u32,
) -> Result<(), OutOfMemory>
    ensures { OnOk result (string_bytes text.new ≡ string_bytes text.old ++ element_line cell.now memory.now index) }
{
    let name = cell.name.as_str();
    let value = value_at(memory, cell.base as usize + index as usize);
    writeln!(text, "{name}[{index}] = {value}")?;
    Ok(())
}

fn push_cell(text: &mut String, cell: &CellInfo, memory: &[i64]) -> Result<(), OutOfMemory>
    ensures { OnOk result (string_bytes text.new ≡ string_bytes text.old ++ cell_lines cell.now memory.now) }
{
    if cell.len == 0 {
        return push_plain(text, cell, memory);
    }
    for index in 0..cell.len {
        push_element(text, cell, memory, index)?;
    }
    Ok(())
}

fn push_outputs(text: &mut String, outputs: &[i64]) -> Result<(), OutOfMemory>
    ensures { OnOk result (string_bytes text.new ≡ string_bytes text.old ++ flat_map output_line outputs.now) }
{
    for value in outputs {
        push_output(text, *value)?;
    }
    Ok(())
}

fn push_cells(text: &mut String, cells: &[CellInfo], memory: &[i64]) -> Result<(), OutOfMemory>
    ensures { OnOk result (string_bytes text.new ≡ string_bytes text.old ++ flat_map (λ c. cell_lines c memory.now) cells.now) }
{
    for cell in cells {
        push_cell(text, cell, memory)?;
    }
    Ok(())
}

fn finished_text(
    alloc: Global,
    cells: &[CellInfo],
    memory: &[i64],
    outputs: &[i64],
) -> Result<String, OutOfMemory>
    ensures { IfOk result (λ text. string_bytes text ≡ finished_text cells.now memory.now outputs.now) }
{
    let mut text = String::new(alloc);
    push_outputs(&mut text, outputs)?;
    push_cells(&mut text, cells, memory)?;
    text.push_str("end\n")?;
    Ok(text)
}

fn fault_text(
    alloc: Global,
    tree: &Tree,
    strand: u32,
    kind: FaultKind,
) -> Result<String, OutOfMemory>
    requires { IsTrue (is_strand tree.now strand) }
    ensures { IfOk result (λ text. string_bytes text ≡ line (codes "fault " ++ fault_name kind ++ codes " in " ++ strand_text tree.now strand)) }
{
    let name = tree.name(strand)?;
    let kind = fault_name(kind);
    Ok(format!(in alloc; "fault {kind} in {name}\n")?)
}

fn budget_text(alloc: Global, tree: &Tree, strand: u32) -> Result<String, OutOfMemory>
    requires { IsTrue (is_strand tree.now strand) }
    ensures { IfOk result (λ text. string_bytes text ≡ line (codes "budget spent in " ++ strand_text tree.now strand)) }
{
    let name = tree.name(strand)?;
    Ok(format!(in alloc; "budget spent in {name}\n")?)
}

fn end_text(
    alloc: Global,
    cells: &[CellInfo],
    tree: &Tree,
    end: &RecordEnd,
) -> Result<String, OutOfMemory>
    requires { IsTrue (is_strand tree.now (ending_strand end.now)) }
    ensures { IfOk result (λ text. string_bytes text ≡ end_text cells.now tree.now end.now) }
{
    match end {
        RecordEnd::Finished { memory, outputs } => {
            finished_text(alloc, cells, memory.as_slice(), outputs.as_slice())
        }
        RecordEnd::Fault { strand, kind } => fault_text(alloc, tree, *strand, *kind),
        RecordEnd::Budget { strand } => budget_text(alloc, tree, *strand),
        RecordEnd::Moves => Ok(String::from_str(alloc, "moves spent\n")?),
    }
}

/// Returns the text of a run. A finished run has a line `out V` for each output, in order; then a line `NAME = V` for each cell, in
/// the order of declaration (`NAME[I] = V` for each element of an array); then `end`. Any other run has one line, which says why it
/// ended, and in which strand.
pub fn result_text(alloc: Global, kept: &Record) -> Result<Vec<u8>, OutOfMemory>
    requires { IsTrue (is_strand kept.now.tree (ending_strand kept.now.end)) }
    ensures { IfOk result (λ text. text.items ≡ run_text kept.now) }
{
    let cells = kept.program.cells.as_slice();
    Ok(end_text(alloc, cells, &kept.tree, &kept.end)?.into_bytes())
}

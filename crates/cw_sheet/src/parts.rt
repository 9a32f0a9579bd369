ghost use Rattle.std.specs.Prelude.{◌≡◌, ◌++◌, ◌∷◌, [], length, OnOk, string_bytes};
ghost use Rattle.std.specs.Fmt.{decimal};
ghost use Rattle.std.specs.List.{flat_map};
ghost use Rattle.cw_sheet.specs.SheetText.{budget_line, conflict_line, conflicts_part, decimals, end_part, fault_line, finished_part, limits_line, line, moves_line, signed_decimals, spaced};

use cw_base::OutOfMemory;
use cw_code::{FaultKind, Limits, fault_name};
use cw_record::RecordEnd;
use cw_tree::Conflict;
use std::fmt::Write;

// Writes numbers, each behind a space.
fn push_numbers(text: &mut String, numbers: &[u64]) -> Result<(), OutOfMemory>
    ensures { OnOk result (string_bytes text.new ≡ string_bytes text.old ++ spaced (decimals numbers.now)) }
{
    for number in numbers {
        write!(text, " {number}")?;
    }
    Ok(())
}

// Writes values, each behind a space.
fn push_spaced(text: &mut String, values: &[i64]) -> Result<(), OutOfMemory>
    ensures { OnOk result (string_bytes text.new ≡ string_bytes text.old ++ spaced (signed_decimals values.now)) }
{
    for value in values {
        write!(text, " {value}")?;
    }
    Ok(())
}

/// Writes the line of a word and values.
pub(crate) fn push_values(text: &mut String, word: &str, values: &[i64]) -> Result<(), OutOfMemory>
    ensures { OnOk result (string_bytes text.new ≡ string_bytes text.old ++ line word.now (signed_decimals values.now)) }
{
    text.push_str(word)?;
    push_spaced(text, values)?;
    text.push_str("\n")?;
    Ok(())
}

/// Writes the line that says how many lines of a kind follow.
pub(crate) fn push_count(text: &mut String, word: &str, count: usize) -> Result<(), OutOfMemory>
    ensures { OnOk result (string_bytes text.new ≡ string_bytes text.old ++ line word.now (decimals (count ∷ []))) }
{
    writeln!(text, "{word} {count}")?;
    Ok(())
}

pub(crate) fn push_limits(text: &mut String, limits: Limits) -> Result<(), OutOfMemory>
    ensures { OnOk result (string_bytes text.new ≡ string_bytes text.old ++ limits_line limits) }
{
    write!(
        text,
        "limits {} {} {}",
        limits.fuel, limits.size, limits.aborts
    )?;
    writeln!(text, " {} {}", limits.strands, limits.moves)?;
    Ok(())
}

// Writes a conflict up to its chain.
fn push_refusal(text: &mut String, conflict: &Conflict) -> Result<(), OutOfMemory>
    ensures { let k = conflict.now in
        OnOk result (string_bytes text.new ≡ string_bytes text.old ++ decimal k.cell ++ spaced (decimals (k.last ∷ k.asker ∷ k.block ∷ k.victim ∷ k.attempt ∷ []))) }
{
    write!(
        text,
        "{} {} {}",
        conflict.cell, conflict.last, conflict.asker
    )?;
    write!(
        text,
        " {} {} {}",
        conflict.block, conflict.victim, conflict.attempt
    )?;
    Ok(())
}

fn push_conflict(text: &mut String, conflict: &Conflict) -> Result<(), OutOfMemory>
    ensures { OnOk result (string_bytes text.new ≡ string_bytes text.old ++ conflict_line conflict.now) }
{
    push_refusal(text, conflict)?;
    push_numbers(text, conflict.chain.as_slice())?;
    text.push_str("\n")?;
    Ok(())
}

fn push_each_conflict(text: &mut String, conflicts: &[Conflict]) -> Result<(), OutOfMemory>
    ensures { OnOk result (string_bytes text.new ≡ string_bytes text.old ++ flat_map conflict_line conflicts.now) }
{
    for conflict in conflicts {
        push_conflict(text, conflict)?;
    }
    Ok(())
}

pub(crate) fn push_conflicts(text: &mut String, conflicts: &[Conflict]) -> Result<(), OutOfMemory>
    ensures { OnOk result (string_bytes text.new ≡ string_bytes text.old ++ conflicts_part conflicts.now) }
{
    push_count(text, "conflicts", conflicts.len())?;
    push_each_conflict(text, conflicts)
}

// Writes the end of a finished run: its memory and its outputs.
fn push_finished(text: &mut String, memory: &[i64], outputs: &[i64]) -> Result<(), OutOfMemory>
    ensures { OnOk result (string_bytes text.new ≡ string_bytes text.old ++ finished_part memory.now outputs.now) }
{
    text.push_str("finished\n")?;
    push_values(text, "memory", memory)?;
    push_values(text, "outputs", outputs)
}

fn push_fault(text: &mut String, strand: u32, kind: FaultKind) -> Result<(), OutOfMemory>
    ensures { OnOk result (string_bytes text.new ≡ string_bytes text.old ++ fault_line strand kind) }
{
    let kind = fault_name(kind);
    writeln!(text, "fault {strand} {kind}")?;
    Ok(())
}

fn push_budget(text: &mut String, strand: u32) -> Result<(), OutOfMemory>
    ensures { OnOk result (string_bytes text.new ≡ string_bytes text.old ++ budget_line strand) }
{
    writeln!(text, "budget {strand}")?;
    Ok(())
}

fn push_moves(text: &mut String) -> Result<(), OutOfMemory>
    ensures { OnOk result (string_bytes text.new ≡ string_bytes text.old ++ moves_line) }
{
    text.push_str("moves\n")?;
    Ok(())
}

pub(crate) fn push_end(text: &mut String, end: &RecordEnd) -> Result<(), OutOfMemory>
    ensures { OnOk result (string_bytes text.new ≡ string_bytes text.old ++ end_part end.now) }
{
    match end {
        RecordEnd::Finished { memory, outputs } => {
            push_finished(text, memory.as_slice(), outputs.as_slice())
        }
        RecordEnd::Fault { strand, kind } => push_fault(text, *strand, *kind),
        RecordEnd::Budget { strand } => push_budget(text, *strand),
        RecordEnd::Moves => push_moves(text),
    }
}

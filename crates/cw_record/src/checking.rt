ghost use Rattle.std.specs.Prelude.{◌≡◌, ◌↔◌, pos, length, IfOk, IsTrue};
ghost use Rattle.cw_job.specs.Jobs.{TakesWords};
ghost use Rattle.cw_tree.specs.Nodes.{is_strand};
ghost use Rattle.cw_serial.specs.MachineOf.{end_under};
ghost use Rattle.cw_record.specs.Order.{ending_strand};
ghost use Rattle.cw_record.specs.Replay.{SameEnd};
ghost use Rattle.cw_record.specs.Records.{IsReplayed, job_of_record};
ghost use Rattle.cw_record.specs.Checking.{IsCheckOf, answer_of, end_number};

use crate::disagreement::{Disagreement, EndKind, first_disagreement};
use crate::order::ending_strand;
use crate::replaying::is_followed;
use crate::{Record, RecordEnd, order_of};
use cw_base::OutOfMemory;
use cw_job::first_memory;
use cw_serial::{SerialEnd, serial};
use cw_tree::{Name, Picks, Tree};
use std::alloc::Global;

/// What a check of a record says. If it disagrees, the numbers tell what differs first.
/// - A cell: `cell` is its number, `kept` and `replayed` are its two values.
/// - Otherwise an output: `cell` is the number of cells, `kept` and `replayed` are the first two outputs that differ.
/// - Otherwise the ends: `cell` is the number of cells, `kept` and `replayed` are the variants of the two ends, from 0 on in the
///   order of `RecordEnd`. `replayed` is 4 if the variant of the replay's end tells nothing.
#[derive(Clone, Copy, PartialEq, Eq, Debug)]
pub enum Checked {
    Agrees,
    Disagree { cell: u32, kept: i64, replayed: i64 },
}

/// Replays a record by the machine with one memory. It agrees exactly if the order is that of the record's tree, conflicts and end,
/// the machine does at each pick what the tree has there, and ends as the record ends. More than 4,294,967,295 cells, strands or
/// picks fail as out of memory.
pub fn check(alloc: Global, kept: &Record) -> Result<Checked, OutOfMemory>
    requires { TakesWords kept.now.program (length kept.now.words) }
    ensures { IfOk result (λ c. IsCheckOf kept.now c) }
{
    let program = &kept.program;
    let first = first_memory(alloc, program.cells.as_slice())?;
    let Ok(cells) = u32::try_from(first.len()) else {
        return Err(OutOfMemory);
    };
    let end = serial(
        alloc,
        program,
        kept.words.as_slice(),
        kept.limits,
        &kept.order,
    )?;
    let agrees = is_replayed(alloc, kept, &end);
    match agrees {
        Ok(true) => {
            drop(end);
            Ok(Checked::Agrees)
        }
        Ok(false) => {
            let found = first_disagreement(&kept.end, &end);
            drop(end);
            answer_of(cells, found)
        }
        Err(fault) => {
            drop(end);
            Err(fault)
        }
    }
}

/// Returns whether a record replays, given the machine's end under its order.
fn is_replayed(alloc: Global, kept: &Record, end: &SerialEnd) -> Result<bool, OutOfMemory>
    requires words { TakesWords kept.now.program (length kept.now.words) }
    requires end { end.now ≡ end_under (job_of_record kept.now) kept.now.order }
    ensures { IfOk result (λ b. IsTrue b ↔ IsReplayed kept.now) }
{
    // a hint to the prover: the root is a strand, and each other node has a smaller parent
    let _ = kept.tree.nodes();
    if !has_named_strand(&kept.tree, &kept.end) || !is_same_end(&kept.end, &kept.order, end) {
        return Ok(false);
    }
    let order = order_of(
        alloc,
        &kept.tree,
        kept.conflicts.as_slice(),
        kept.limits.aborts,
        &kept.end,
    )?;
    if !same_picks(&kept.order, &order) {
        return Ok(false);
    }
    is_followed(alloc, kept)
}

/// Returns whether the strand that an end names is a strand of the tree.
fn has_named_strand(tree: &Tree, end: &RecordEnd) -> bool
    ensures { result ≡ is_strand tree.now (ending_strand end.now) }
{
    let strand = ending_strand(end);
    (strand as usize) < tree.nodes().len() && tree.is_strand(strand)
}

/// Returns whether the kept end and the machine's end under these picks are the same.
fn is_same_end(kept: &RecordEnd, picks: &Picks, end: &SerialEnd) -> bool
    ensures { IsTrue result ↔ SameEnd kept.now picks.now end.now }
{
    match (kept, end) {
        (
            RecordEnd::Finished { memory, outputs },
            SerialEnd::Finished {
                memory: values,
                outputs: shown,
            },
        ) => {
            same_values(memory.as_slice(), values.as_slice())
                && same_values(outputs.as_slice(), shown.as_slice())
        }
        (RecordEnd::Fault { kind, .. }, SerialEnd::Fault { name, kind: found }) => {
            *name == picks.last && kind == found
        }
        (RecordEnd::Budget { .. }, SerialEnd::At { name }) => *name == picks.last,
        (RecordEnd::Moves, SerialEnd::Stuck { place }) => picks.list.len() <= *place as usize,
        (RecordEnd::Moves, _) => true,
        _ => false,
    }
}

/// Returns whether two orders are the same.
fn same_picks(a: &Picks, b: &Picks) -> bool
    ensures { IsTrue result ↔ (a.now ≡ b.now) }
{
    a.last == b.last
        && same_numbers(a.list.as_slice(), b.list.as_slice())
        && same_names(a.names.as_slice(), b.names.as_slice())
}

fn same_values(a: &[i64], b: &[i64]) -> bool
    ensures { IsTrue result ↔ (a.now ≡ b.now) }
{
    a == b
}

fn same_numbers(a: &[u32], b: &[u32]) -> bool
    ensures { IsTrue result ↔ (a.now ≡ b.now) }
{
    a == b
}

fn same_names(a: &[Name], b: &[Name]) -> bool
    ensures { IsTrue result ↔ (a.now ≡ b.now) }
{
    a == b
}

/// Returns the answer that tells a disagreement in three numbers, for a memory of `cells` cells.
fn answer_of(cells: u32, found: Disagreement) -> Result<Checked, OutOfMemory>
    ensures { IfOk result (λ c. c ≡ answer_of cells found) }
{
    match found {
        Disagreement::Cell {
            cell,
            kept,
            replayed,
        } => match u32::try_from(cell) {
            Ok(cell) => Ok(Checked::Disagree {
                cell,
                kept,
                replayed,
            }),
            Err(_) => Err(OutOfMemory),
        },
        Disagreement::Output { kept, replayed, .. } => Ok(Checked::Disagree {
            cell: cells,
            kept,
            replayed,
        }),
        Disagreement::End { kept, replayed } => Ok(Checked::Disagree {
            cell: cells,
            kept: end_number(kept),
            replayed: replayed.map_or(4, end_number),
        }),
    }
}

/// Returns the number of a variant, in the order of the variants.
fn end_number(kind: EndKind) -> i64
    ensures { result ≡ pos (end_number kind) }
{
    match kind {
        EndKind::Finished => 0,
        EndKind::Fault => 1,
        EndKind::Budget => 2,
        EndKind::Moves => 3,
    }
}

ghost use Rattle.std.specs.Prelude.{◌≡◌, ◌<◌, [], All, IfOk, length};
ghost use Rattle.cw_strand.specs.Names.{first_memory};
ghost use Rattle.cw_record.specs.Built.{HasRecord, memory_left, value_left, with_left};
ghost use Rattle.cw_record.specs.ClosedRun.{end_after};
ghost use Rattle.cw_record.specs.Coherent.{outputs_shown};
ghost use Rattle.cw_record.specs.Items.{items};
ghost use Rattle.cw_record.specs.Order.{node_of};

use crate::RecordEnd;
use crate::items::{OrderItem, items};
use cw_base::{OutOfMemory, Seq};
use cw_code::Program;
use cw_job::first_memory;
use cw_tree::{Closed, Conflict, Entry, Halt, Kind, Tree};
use std::alloc::Global;

/// Returns how a closed run ended: as it was stopped; otherwise its moves were spent; otherwise it finished. What it left is filled
/// in later: the order of a run that finished does not depend on it.
pub(crate) fn end_of_run(alloc: Global, closed: &Closed, spent: bool) -> RecordEnd
    requires { HasRecord closed.now.tree closed.now.halt }
    ensures { result ≡ end_after closed.now.halt spent [] [] }
{
    match closed.halt {
        Some(Halt::Fault { strand, kind }) => RecordEnd::Fault { strand, kind },
        Some(Halt::Budget { strand }) => RecordEnd::Budget { strand },
        Some(Halt::Memory) => unreachable!(),
        None if spent => RecordEnd::Moves,
        None => RecordEnd::Finished {
            memory: Seq::new(alloc),
            outputs: Seq::new(alloc),
        },
    }
}

/// Returns the end `told` of a closed run with these items. If the run finished, the end has what the run left.
pub(crate) fn end_left(
    alloc: Global,
    program: &Program,
    closed: &Closed,
    told: RecordEnd,
    items: &[OrderItem],
) -> Result<RecordEnd, OutOfMemory>
    requires { All (λ i. node_of i < length closed.now.tree) items.now }
    ensures { IfOk result (λ e. e ≡ with_left told
        (memory_left (first_memory program.now.cells) closed.now.journals) (outputs_shown closed.now.tree items.now)) }
{
    match told {
        RecordEnd::Finished { memory, outputs } => {
            drop(memory);
            drop(outputs);
            Ok(RecordEnd::Finished {
                memory: memory_left(alloc, program, closed.journals.as_slice())?,
                outputs: outputs_left(alloc, &closed.tree, items)?,
            })
        }
        RecordEnd::Fault { strand, kind } => {
            drop(told);
            Ok(RecordEnd::Fault { strand, kind })
        }
        RecordEnd::Budget { strand } => {
            drop(told);
            Ok(RecordEnd::Budget { strand })
        }
        RecordEnd::Moves => {
            drop(told);
            Ok(RecordEnd::Moves)
        }
    }
}

/// Returns the memory of a run that finished: each cell's value after its journal.
fn memory_left(
    alloc: Global,
    program: &Program,
    journals: &[Seq<Entry>],
) -> Result<Seq<i64>, OutOfMemory>
    ensures { IfOk result (λ vs. vs ≡ memory_left (first_memory program.now.cells) journals.now) }
{
    let mut memory = first_memory(alloc, program.cells.as_slice())?;
    for (cell, journal) in journals.iter().enumerate() {
        if let Some(value) = memory.get_mut(cell) {
            *value = value_left(*value, journal.as_slice());
        }
    }
    Ok(Seq::from_vec(memory))
}

/// Returns the value of a cell after its journal, if it had the value `first` before.
fn value_left(first: i64, journal: &[Entry]) -> i64
    ensures { result ≡ value_left first journal.now }
{
    match journal.last() {
        Some(entry) => entry.value,
        None => first,
    }
}

/// Returns the outputs that a run whose budget is `aborts` attempts made, in its order.
pub fn outputs_of(
    alloc: Global,
    tree: &Tree,
    conflicts: &[Conflict],
    aborts: u32,
    end: &RecordEnd,
) -> Result<Seq<i64>, OutOfMemory>
    ensures { IfOk result (λ vs. vs ≡ outputs_shown tree.now (items tree.now conflicts.now aborts end.now)) }
{
    let items = items(alloc, tree, conflicts, aborts, end)?;
    outputs_left(alloc, tree, items.as_slice())
}

/// Returns the outputs among the items of a run, in their order.
fn outputs_left(alloc: Global, tree: &Tree, items: &[OrderItem]) -> Result<Seq<i64>, OutOfMemory>
    requires { All (λ i. node_of i < length tree.now) items.now }
    ensures { IfOk result (λ vs. vs ≡ outputs_shown tree.now items.now) }
{
    let mut outputs = Seq::new(alloc);
    for item in items {
        if let Kind::Out { value } = tree.node(item.node()).kind {
            outputs.push(value)?;
        }
    }
    Ok(outputs)
}

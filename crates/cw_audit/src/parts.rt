ghost use Rattle.std.specs.Prelude.{◌≡◌, ◌↔◌, All, IfOk, IsTrue, map};
ghost use Rattle.cw_strand.specs.Programs.{IsProgramOf};
ghost use Rattle.cw_tree.specs.Accesses.{is_live};
ghost use Rattle.cw_tree.specs.Nodes.{all_nodes, is_tried};
ghost use Rattle.cw_tree.specs.Refusals.{RollsBack};
ghost use Rattle.cw_tree.specs.Shape.{AreStamps, PendingLast};
ghost use Rattle.cw_record.specs.Coherent.{IsMemory};
ghost use Rattle.cw_sheet.specs.Contents.{HasText, contents_of};
ghost use Rattle.cw_audit.specs.Audits.{PartHolds, order};
ghost use Rattle.cw_audit.specs.Laws.{HoldsButOrder};
ghost use Rattle.cw_audit.specs.Parts.{EndHolds, StrandsHold, first_values, strands_of_sheet, unfinished};

use crate::ending::{has_memory, may_fault};
use crate::limits::are_in_range;
use crate::outputs::has_outputs;
use crate::series::{laters, pending_is_last};
use crate::strands::can_have_done;
use crate::victims::rolls_back;
use crate::words::{names_strand, takes_its_words};
use cw_base::OutOfMemory;
use cw_code::Program;
use cw_record::RecordEnd;
use cw_sheet::Sheet;
use std::alloc::Global;

/// Decides part 5, once parts 1 to 4 hold: whether words, limits and the strand of the end may be so, and strands can have done what
/// the tree tells.
pub(crate) fn strands_hold(
    alloc: Global,
    sheet: &Sheet,
    program: &Program,
    lives: &[bool],
) -> Result<bool, OutOfMemory>
    requires text { HasText (contents_of sheet.now) }
    requires program { IsProgramOf (contents_of sheet.now).source.items program.now }
    requires lives { lives.now ≡ map (is_live sheet.now.tree) (all_nodes sheet.now.tree) }
    requires stamps { AreStamps sheet.now.tree }
    requires askers { All (λ c. IsTrue (is_tried sheet.now.tree c.asker)) sheet.now.conflicts }
    ensures { IfOk result (λ b. IsTrue b ↔ StrandsHold (contents_of sheet.now)) }
{
    if !takes_its_words(sheet, program) {
        return Ok(false);
    }
    if !are_in_range(&sheet.limits) {
        return Ok(false);
    }
    if !names_strand(&sheet.tree, &sheet.end) {
        return Ok(false);
    }
    if !stop_in_place(alloc, sheet)? {
        return Ok(false);
    }
    let end = unfinished(&sheet.end);
    can_have_done(alloc, sheet, program, lives, &end)
}

/// Returns whether nothing comes after a pending block, nor after what a strand that rolls back did last.
fn stop_in_place(alloc: Global, sheet: &Sheet) -> Result<bool, OutOfMemory>
    requires stamps { AreStamps sheet.now.tree }
    requires askers { All (λ c. IsTrue (is_tried sheet.now.tree c.asker)) sheet.now.conflicts }
    ensures { IfOk result (λ b. IsTrue b ↔ (PendingLast sheet.now.tree × RollsBack sheet.now.tree sheet.now.conflicts)) }
{
    let laters = laters(alloc, &sheet.tree)?;
    if !pending_is_last(alloc, &sheet.tree, laters.as_slice())? {
        return Ok(false);
    }
    rolls_back(
        alloc,
        &sheet.tree,
        sheet.conflicts.as_slice(),
        laters.as_slice(),
    )
}

/// Returns the end, without what a run that finished says of itself.
fn unfinished(end: &RecordEnd) -> RecordEnd
    ensures { result ≡ unfinished end.now }
{
    match end {
        RecordEnd::Fault { strand, kind } => RecordEnd::Fault {
            strand: *strand,
            kind: *kind,
        },
        RecordEnd::Budget { strand } => RecordEnd::Budget { strand: *strand },
        RecordEnd::Finished { .. } | RecordEnd::Moves => RecordEnd::Moves,
    }
}

/// Decides part 6, once parts 1 to 5 hold: whether the end may be so, given the memory that the run leaves.
pub(crate) fn end_holds(
    alloc: Global,
    sheet: &Sheet,
    program: &Program,
    lives: &[bool],
    left: &[i64],
) -> Result<bool, OutOfMemory>
    requires text { HasText (contents_of sheet.now) }
    requires program { IsProgramOf (contents_of sheet.now).source.items program.now }
    requires lives { lives.now ≡ map (is_live sheet.now.tree) (all_nodes sheet.now.tree) }
    requires left { IsMemory sheet.now.tree (first_values (contents_of sheet.now)) left.now }
    requires strands { StrandsHold (contents_of sheet.now) }
    ensures { IfOk result (λ b. IsTrue b ↔ EndHolds (strands_of_sheet (contents_of sheet.now)) sheet.now.tree (first_values (contents_of sheet.now)) sheet.now.end) }
{
    if !may_fault(&sheet.tree, lives, &sheet.end) {
        return Ok(false);
    }
    if !has_memory(&sheet.end, left) {
        return Ok(false);
    }
    match &sheet.end {
        RecordEnd::Finished { .. } => can_have_done(alloc, sheet, program, lives, &sheet.end),
        // part 5 says it
        _ => Ok(true),
    }
}

/// Decides part 8, once parts 1 to 7 hold: whether one memory does the same.
pub(crate) fn order_holds(alloc: Global, sheet: &Sheet) -> Result<bool, OutOfMemory>
    requires text { HasText (contents_of sheet.now) }
    requires before { HoldsButOrder (contents_of sheet.now) }
    ensures { IfOk result (λ b. IsTrue b ↔ PartHolds (contents_of sheet.now) order) }
{
    let conflicts = sheet.conflicts.as_slice();
    has_outputs(
        alloc,
        &sheet.tree,
        conflicts,
        sheet.limits.aborts,
        &sheet.end,
    )
}

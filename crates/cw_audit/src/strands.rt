ghost use Rattle.std.specs.Prelude.{◌≡◌, ◌↔◌, IfOk, IsTrue, length, map};
ghost use Rattle.cw_strand.specs.Programs.{IsProgramOf};
ghost use Rattle.cw_tree.specs.Accesses.{is_live};
ghost use Rattle.cw_tree.specs.Nodes.{all_nodes, is_strand};
ghost use Rattle.cw_tree.specs.Shape.{IsTree};
ghost use Rattle.cw_record.specs.Order.{ending_strand};
ghost use Rattle.cw_job.specs.Jobs.{TakesWords};
ghost use Rattle.cw_sheet.specs.Contents.{contents_of};
ghost use Rattle.cw_audit.specs.Parts.{CanHaveDone, TakesItsWords, strands_of_sheet};
ghost use Rattle.cw_audit.specs.Settled.{ClosesBlocks, CanDo};
ghost use Rattle.cw_audit.specs.Walkers.{IsTold, law_of_told};

mod told;
mod walk;
mod walker;
mod wants;

use crate::ending::none_pending;
use crate::series::laters;
use crate::strands::told::{Told, place_of_fault};
use crate::strands::walk::walk;
use crate::strands::walker::Walker;
use cw_base::OutOfMemory;
use cw_code::Program;
use cw_job::Task;
use cw_record::RecordEnd;
use cw_sheet::Sheet;
use cw_tree::{Family, Tree};
use std::alloc::Global;

/// Returns whether the strands of a sheet's program can have done what its tree tells, and are then where the end says. Takes one
/// walk over the tree, and a copy of a strand for each block that was tried again.
pub(crate) fn can_have_done(
    alloc: Global,
    sheet: &Sheet,
    program: &Program,
    lives: &[bool],
    end: &RecordEnd,
) -> Result<bool, OutOfMemory>
    requires program { IsProgramOf (contents_of sheet.now).source.items program.now }
    requires words { TakesItsWords (contents_of sheet.now) }
    requires tree { IsTree sheet.now.tree }
    requires named { IsTrue (is_strand sheet.now.tree (ending_strand end.now)) }
    requires lives { lives.now ≡ map (is_live sheet.now.tree) (all_nodes sheet.now.tree) }
    ensures { IfOk result (λ b. IsTrue b ↔ CanHaveDone (strands_of_sheet (contents_of sheet.now)) sheet.now.tree end.now) }
{
    if !closes_blocks(&sheet.tree, end) {
        return Ok(false);
    }
    let laters = laters(alloc, &sheet.tree)?;
    let place = place_of_fault(&sheet.tree, end)?;
    let task = Task {
        program,
        words: sheet.words.as_slice(),
        limits: sheet.limits,
    };
    let told = Told {
        alloc,
        task,
        tree: &sheet.tree,
        laters: laters.as_slice(),
        lives,
        end,
        place,
    };
    fits(&told)
}

/// Returns whether no block is left pending, if the run finished.
fn closes_blocks(tree: &Tree, end: &RecordEnd) -> bool
    ensures { IsTrue result ↔ ClosesBlocks tree.now end.now }
{
    match end {
        RecordEnd::Finished { .. } => none_pending(tree),
        _ => true,
    }
}

/// Returns whether the strand of main can have done what the tree tells.
fn fits(told: &Told) -> Result<bool, OutOfMemory>
    requires told { IsTold told.now }
    requires words { TakesWords told.now.task.program.now (length told.now.task.words.now) }
    ensures { IfOk result (λ b. IsTrue b ↔ CanDo (law_of_told told.now) told.now.tree.now told.now.end.now (length told.now.tree.now) 0 (law_of_told told.now).start) }
{
    let family = Family::of_tree(told.tree)?;
    let mut walker = match Walker::start(told.alloc, &told.task) {
        Ok(walker) => walker,
        Err(fault) => {
            drop(family);
            return Err(fault);
        }
    };
    let fits = walk(told, &family, &mut walker);
    drop(walker);
    drop(family);
    fits
}

ghost use Rattle.std.specs.Prelude.{◌≡◌, ◌↔◌, IfOk, IsTrue, map};
ghost use Rattle.cw_tree.specs.Accesses.{is_live};
ghost use Rattle.cw_tree.specs.Nodes.{all_nodes};
ghost use Rattle.cw_tree.specs.Shape.{AreStamps};
ghost use Rattle.cw_audit.specs.Parts.{RefusalsHold};

use crate::recorded::are_recorded;
use crate::refused::{askers_are_refused, victims_fit};
use crate::spent::spent_holds;
use cw_base::OutOfMemory;
use cw_sheet::Sheet;
use std::alloc::Global;

/// Decides part 4, once part 1 holds: whether refused accesses, conflicts and rolled-back blocks fit together, and a budget was spent.
pub(crate) fn refusals_hold(
    alloc: Global,
    sheet: &Sheet,
    lives: &[bool],
) -> Result<bool, OutOfMemory>
    requires lives { lives.now ≡ map (is_live sheet.now.tree) (all_nodes sheet.now.tree) }
    requires stamps { AreStamps sheet.now.tree }
    ensures { IfOk result (λ b. IsTrue b ↔ RefusalsHold sheet.now.tree sheet.now.conflicts sheet.now.limits.aborts sheet.now.end) }
{
    let tree = &sheet.tree;
    let conflicts = sheet.conflicts.as_slice();
    if !askers_are_refused(alloc, tree, conflicts)? {
        return Ok(false);
    }
    if !victims_fit(alloc, tree, conflicts)? {
        return Ok(false);
    }
    if !spent_holds(tree, conflicts, sheet.limits.aborts, lives, &sheet.end)? {
        return Ok(false);
    }
    are_recorded(alloc, tree, conflicts)
}

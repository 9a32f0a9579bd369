ghost use Rattle.std.specs.Prelude.{◌↔◌, All, IfOk, IsTrue};
ghost use Rattle.cw_tree.specs.Refusals.{IsRecorded};
ghost use Rattle.cw_tree.specs.Shape.{AreStamps};
ghost use Rattle.cw_audit.specs.Moments.{AreFirstStamps, AreFloors};
ghost use Rattle.cw_audit.specs.Told.{AreTables};

use crate::firsts::firsts;
use crate::latest::{floors, latest_beneath};
use crate::moments::has_moment;
use crate::told::{Tables, is_told};
use cw_base::OutOfMemory;
use cw_tree::{Conflict, Tree};
use std::alloc::Global;

/// Returns whether all that conflicts tell is right.
pub(crate) fn are_recorded(
    alloc: Global,
    tree: &Tree,
    conflicts: &[Conflict],
) -> Result<bool, OutOfMemory>
    requires { AreStamps tree.now }
    ensures { IfOk result (λ b. IsTrue b ↔ All (IsRecorded tree.now) conflicts.now) }
{
    let tables = Tables::of_tree(alloc, tree)?;
    let latest = latest_beneath(alloc, tree)?;
    let floors = floors(alloc, tree, latest.as_slice())?;
    let firsts = firsts(alloc, tree)?;
    for i in 0..conflicts.len() {
        if !is_recorded(
            tree,
            &tables,
            floors.as_slice(),
            firsts.as_slice(),
            &conflicts[i],
        ) {
            return Ok(false);
        }
    }
    Ok(true)
}

/// Returns whether all that a conflict tells is right. Takes as many steps as its accesses are deep.
fn is_recorded(
    tree: &Tree,
    tables: &Tables,
    floors: &[u64],
    firsts: &[Option<u64>],
    conflict: &Conflict,
) -> bool
    requires stamps { AreStamps tree.now }
    requires tables { AreTables tree.now tables.now }
    requires floors { AreFloors tree.now floors.now }
    requires firsts { AreFirstStamps tree.now firsts.now }
    ensures { IsTrue result ↔ IsRecorded tree.now conflict.now }
{
    let Some(access) = tables.node_at(tree, conflict.last) else {
        return false;
    };
    let Some(block) = tables.node_at(tree, conflict.block) else {
        return false;
    };
    if !is_told(tree, tables, conflict, access, block) {
        return false;
    }
    has_moment(tree, floors, firsts, conflict, block)
}

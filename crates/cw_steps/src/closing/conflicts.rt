//! The conflicts of logs, with the numbers of their askers in the tree.
ghost use Rattle.std.specs.Prelude.{◌≡◌, ◌+◌, ◌++◌, map, IfOk, OnOk};
ghost use Rattle.cw_tree.specs.declared.conflict.Conflict.{Conflict};
ghost use Rattle.cw_course.specs.Closings.{conflicts_of};
ghost use Rattle.cw_steps.specs.Leaving.{logs_of_track, HasBases};

use super::bases::Bases;
use crate::Track;
use cw_base::{OutOfMemory, Seq};
use cw_tree::Conflict;
use std::alloc::Global;

/// Copies a conflict of the log that begins at number `base`.
fn move_conflict(alloc: Global, base: u32, conflict: &Conflict) -> Result<Conflict, OutOfMemory>
    ensures { IfOk result (λ c. c ≡ record conflict.now { asker = base + conflict.now.asker }) }
{
    let Some(asker) = base.checked_add(conflict.asker) else {
        return Err(OutOfMemory);
    };
    let copy = conflict.try_clone(alloc)?;
    Ok(Conflict { asker, ..copy })
}

/// Adds copies of the conflicts of the log that begins at number `base`.
fn add_moved(list: &mut Vec<Conflict>, base: u32, conflicts: &[Conflict]) -> Result<(), OutOfMemory>
    ensures { OnOk result (list.new.items ≡ list.old.items ++ map (λ (c : Conflict). record c { asker = base + c.asker }) conflicts.now) }
{
    let alloc = *list.allocator();
    for conflict in conflicts {
        list.push(move_conflict(alloc, base, conflict)?)?;
    }
    Ok(())
}

pub(crate) fn conflicts_of(
    alloc: Global,
    track: &Track,
    bases: &Bases,
) -> Result<Seq<Conflict>, OutOfMemory>
    requires { HasBases bases.now (logs_of_track track.now) }
    ensures { IfOk result (λ cs. cs ≡ conflicts_of (logs_of_track track.now) (logs_of_track track.now)) }
{
    let mut list = Vec::new(alloc);
    let base = bases.base(track.first)?;
    add_moved(&mut list, base, track.conflicts.as_slice())?;
    for log in track.joined.iter() {
        let base = bases.base(log.column)?;
        add_moved(&mut list, base, log.conflicts.as_slice())?;
    }
    Ok(Seq::from_vec(list))
}

ghost use Rattle.std.specs.Prelude.{◌↔◌, ◌<◌, IsTrue, length};
ghost use Rattle.cw_audit.specs.Moments.{AreFirstStamps, AreFloors, HasMoment, IsUnder};

use cw_tree::{Conflict, Tree};

/// Returns whether there was a moment for a conflict: whether what is before the asker came before what is after the block, and the
/// last access before what is after the asker. Takes one step, given the floors and the firsts of the tree.
pub(crate) fn has_moment(
    tree: &Tree,
    floors: &[u64],
    firsts: &[Option<u64>],
    conflict: &Conflict,
    block: u32,
) -> bool
    requires asker { conflict.now.asker < length tree.now }
    requires block { block < length tree.now }
    requires floors { AreFloors tree.now floors.now }
    requires firsts { AreFirstStamps tree.now firsts.now }
    ensures { IsTrue result ↔ HasMoment tree.now conflict.now block }
{
    let asker = conflict.asker as usize;
    is_under(floors[asker], firsts[block as usize]) && is_under(conflict.last, firsts[asker])
}

/// Returns whether a number is less than a limit, if there is one.
fn is_under(number: u64, limit: Option<u64>) -> bool
    ensures { IsTrue result ↔ IsUnder number limit }
{
    match limit {
        Some(limit) => number < limit,
        None => true,
    }
}

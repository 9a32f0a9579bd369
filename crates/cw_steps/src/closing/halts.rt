//! The halt of a run, with the number of its strand in the tree.
ghost use Rattle.std.specs.Prelude.{◌≡◌, ◌<◌, ◌==◌, Some, length, if◌then◌else◌, IfOk, IfSome};
ghost use Rattle.std.specs.Option.{option_map_or};
ghost use Rattle.cw_tree.specs.Nodes.{block_with_stamp};
ghost use Rattle.cw_tree.specs.Series.{strand_of};
ghost use Rattle.cw_course.specs.Closings.{halt_in, last_conflict, last_of_conflicts, tree_of};
ghost use Rattle.cw_steps.specs.Leaving.{logs_of_track, HasBases};

use super::bases::Bases;
use crate::Track;
use cw_base::OutOfMemory;
use cw_log::Stop;
use cw_tree::{Conflict, Halt, Tree};

/// Returns the strand that began the victim's block, or `strand` if there is no victim or no such block.
fn spender(tree: &Tree, victim: u64, strand: u32) -> u32
    ensures { result ≡ (if victim == 0 then strand else option_map_or (strand_of tree.now) (block_with_stamp tree.now victim) strand) }
{
    if victim == 0 {
        return strand;
    }
    match tree.block_with_stamp(victim) {
        Some(block) => tree.strand_of(block),
        None => strand,
    }
}

/// Returns the victim of the last of these conflicts, or 0.
fn last_of(conflicts: &[Conflict]) -> u64
    ensures { result ≡ option_map_or (λ c. c.victim) (last_of_conflicts conflicts.now) 0 }
{
    match conflicts.last() {
        Some(conflict) => conflict.victim,
        None => 0,
    }
}

/// Returns the victim of the last conflict in the log with `column`, or 0.
fn last_victim(track: &Track, column: u32) -> u64
    ensures { result ≡ option_map_or (λ c. c.victim) (last_conflict (logs_of_track track.now) column) 0 }
{
    if track.first == column {
        return last_of(track.conflicts.as_slice());
    }
    for log in track.joined.iter() {
        if log.column == column {
            return last_of(log.conflicts.as_slice());
        }
    }
    0
}

fn number_halt(track: &Track, bases: &Bases, tree: &Tree, stop: Stop) -> Result<Halt, OutOfMemory>
    requires bases { HasBases bases.now (logs_of_track track.now) }
    requires tree { tree.now ≡ tree_of (logs_of_track track.now) }
    ensures { IfOk result (λ h. Some h ≡ halt_in (logs_of_track track.now) (Some stop)) }
{
    match stop.halt {
        Halt::Fault { kind, .. } => {
            let strand = bases.number(stop.column, stop.strand)?;
            Ok(Halt::Fault { strand, kind })
        }
        Halt::Budget { .. } => {
            let strand = bases.number(stop.column, stop.strand)?;
            let victim = last_victim(track, stop.column);
            Ok(Halt::Budget {
                strand: spender(tree, victim, strand),
            })
        }
        Halt::Memory => Ok(Halt::Memory),
    }
}

pub(crate) fn halt_in(
    track: &Track,
    bases: &Bases,
    tree: &Tree,
    stop: Option<Stop>,
) -> Result<Option<Halt>, OutOfMemory>
    requires bases { HasBases bases.now (logs_of_track track.now) }
    requires tree { tree.now ≡ tree_of (logs_of_track track.now) }
    ensures { IfOk result (λ h. h ≡ halt_in (logs_of_track track.now) stop) }
{
    match stop {
        None => Ok(None),
        Some(stop) => Ok(Some(number_halt(track, bases, tree, stop)?)),
    }
}

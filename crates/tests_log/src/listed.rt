//! What a board of tests lists for a cancel, out of the token's own log alone.
ghost use Rattle.std.specs.Prelude.{◌<◌, All, IfOk, map};
ghost use Rattle.std.specs.List.Sorted.{IsStrictlyIncreasing};

use cw_base::{OutOfMemory, Seq};
use cw_code::Back;
use cw_tree::{Kind, Node};
use std::alloc::Global;

/// Returns the value that the last access of `cell` among these nodes left; 0 if there is none.
fn last_value(nodes: &[Node], cell: u32) -> i64 {
    let mut last = 0;
    for node in nodes {
        match node.kind {
            Kind::Read { cell: at, value } | Kind::Write { cell: at, value } => {
                if at == cell {
                    last = value;
                }
            }
            _ => {}
        }
    }
    last
}

/// Returns whether one of these nodes is a write to `cell`.
fn is_written(nodes: &[Node], cell: u32) -> bool {
    for node in nodes {
        if let Kind::Write { cell: at, .. } = node.kind {
            if at == cell {
                return true;
            }
        }
    }
    false
}

/// Lists the cells that were written from `place` on, by rising number, each with the value that the accesses before `place` left.
pub(crate) fn listed(
    alloc: Global,
    nodes: &[Node],
    place: u32,
    cells: u32,
) -> Result<Seq<Back>, OutOfMemory>
    ensures rises { IfOk result (λ back. IsStrictlyIncreasing (map (λ b. b.cell) back)) }
    ensures there { IfOk result (λ back. All (λ b. b.cell < cells) back) }
{
    let place = (place as usize).min(nodes.len());
    let (before, since) = nodes.split_at(place);
    let mut list = Vec::new(alloc);
    for cell in 0..cells {
        if is_written(since, cell) {
            let value = last_value(before, cell);
            list.push(Back { cell, value })?;
        }
    }
    Ok(Seq::from_vec(list))
}

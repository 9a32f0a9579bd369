ghost use Rattle.std.specs.Prelude.{◌≡◌};
ghost use Rattle.cw_record.specs.Order.{ending_strand};

use super::grown::{Bud, grown};
use cw_base::Seq;
use cw_code::FaultKind;
use cw_record::{RecordEnd, order_of};
use cw_tree::{BlockState, Conflict, Name, Picks, Tree};
use std::alloc::Global;
use std::test::Fail;

const fn name(parent: u32, fork: u32, right: bool) -> Name {
    Name {
        parent,
        fork,
        right,
    }
}

// Returns the strand that an end names, or the root's.
const fn ending_strand(end: &RecordEnd) -> u32
    ensures { result ≡ ending_strand end.now }
{
    match end {
        RecordEnd::Fault { strand, .. } | RecordEnd::Budget { strand } => *strand,
        RecordEnd::Finished { .. } | RecordEnd::Moves => 0,
    }
}

// Returns the order of a run of this tree.
pub fn ordered(
    alloc: Global,
    tree: &Tree,
    conflicts: &[Conflict],
    budget: u32,
    end: &RecordEnd,
) -> Result<Picks, Fail> {
    let strand = ending_strand(end);
    if strand as usize >= tree.nodes().len() || !tree.is_strand(strand) {
        return Err("no strand".into());
    }
    Ok(order_of(alloc, tree, conflicts, budget, end)?)
}

// Two parallel committed blocks, and the later one ends first; a block that was rolled back; and two pending blocks, one
// inside the other. Each has an output.
fn apart(alloc: Global) -> Result<Tree, Fail> {
    let nodes: &[(u32, Bud<'_>, u64)] = &[
        (0, Bud::Fork, 1),
        (1, Bud::Strand, 0),
        (1, Bud::Strand, 0),
        (2, Bud::Block, 2),
        (4, Bud::Write { cell: 0, value: 1 }, 3),
        (4, Bud::Block, 4),
        (6, Bud::Out { value: 2 }, 5),
        (3, Bud::Block, 7),
        (8, Bud::Read { cell: 1, value: 0 }, 8),
        (3, Bud::Block, 11),
        (10, Bud::Out { value: 3 }, 12),
        (3, Bud::Block, 14),
        (12, Bud::Block, 15),
        (13, Bud::Out { value: 4 }, 16),
        (12, Bud::Out { value: 5 }, 17),
    ];
    let ends = [
        (6, BlockState::Committed, 6),
        (8, BlockState::Committed, 9),
        (4, BlockState::Committed, 10),
        (10, BlockState::Aborted, 13),
    ];
    grown(alloc, nodes, &ends)
}

fn conflict(alloc: Global, victim: u64) -> Conflict {
    Conflict {
        cell: 0,
        last: 3,
        asker: 15,
        block: 2,
        victim,
        attempt: 2,
        chain: Seq::new(alloc),
    }
}

#[test]
fn each_item_is_a_pick_of_its_strand(rt: HostRuntime) -> Result<(), Fail> {
    let tree = apart(rt.alloc())?;
    let end = RecordEnd::Fault {
        strand: 3,
        kind: FaultKind::Overflow,
    };
    let picks = ordered(rt.alloc(), &tree, &[], 1, &end);
    drop(tree);
    drop(end);
    let picks = picks?;
    let names = [name(0, 0, false), name(0, 1, false), name(0, 1, true)];
    assert!(rt; picks.names.as_slice() == names.as_slice());
    let list = [2, 2, 2, 1, 1, 1, 1, 1, 1, 2, 2, 2, 2];
    assert!(rt; picks.list.as_slice() == list.as_slice());
    assert!(rt; picks.last == 2);
    Ok(())
}

// Returns the number of items left of that tree if its strand spent this budget and the conflict has this victim.
fn items_left(alloc: Global, victim: u64, budget: u32) -> Result<usize, Fail> {
    let tree = apart(alloc)?;
    let conflicts = [conflict(alloc, victim)];
    let end = RecordEnd::Budget { strand: 3 };
    let picks = ordered(alloc, &tree, &conflicts, budget, &end);
    drop(end);
    drop(conflicts);
    drop(tree);
    let picks = picks?;
    Ok(picks.list.len())
}

#[test]
fn a_spent_budget_leaves_the_victim_out(rt: HostRuntime) -> Result<(), Fail> {
    for (victim, budget, wanted) in [(15, 2, 11), (0, 2, 11), (15, 3, 9)] {
        assert!(rt; items_left(rt.alloc(), victim, budget)? == wanted);
    }
    Ok(())
}

// Returns the names in the order of a run of the tree of these nodes that spent its moves.
fn names_of(
    alloc: Global,
    nodes: &[(u32, Bud<'_>, u64)],
    ends: &[(u32, BlockState, u64)],
) -> Result<Seq<Name>, Fail> {
    let tree = grown(alloc, nodes, ends)?;
    let picks = ordered(alloc, &tree, &[], 1, &RecordEnd::Moves);
    drop(tree);
    Ok(picks?.names)
}

// A block with a fork is rolled back. Its next attempt forks, and the right strand there forks again. Then the root strand forks.
#[test]
fn attempts_share_the_names_of_their_strands(rt: HostRuntime) -> Result<(), Fail> {
    let nodes: &[(u32, Bud<'_>, u64)] = &[
        (0, Bud::Block, 1),
        (1, Bud::Fork, 1),
        (2, Bud::Strand, 0),
        (2, Bud::Strand, 0),
        (0, Bud::Block, 2),
        (5, Bud::Fork, 1),
        (6, Bud::Strand, 0),
        (6, Bud::Strand, 0),
        (8, Bud::Fork, 1),
        (9, Bud::Strand, 0),
        (9, Bud::Strand, 0),
        (0, Bud::Fork, 1),
        (12, Bud::Strand, 0),
        (12, Bud::Strand, 0),
        (14, Bud::Out { value: 1 }, 3),
    ];
    let ends = [(1, BlockState::Aborted, 4), (5, BlockState::Committed, 5)];
    let names = names_of(rt.alloc(), nodes, &ends)?;
    let wanted = [
        name(0, 0, false),
        name(0, 1, false),
        name(0, 1, true),
        name(2, 1, false),
        name(2, 1, true),
        name(0, 2, false),
        name(0, 2, true),
    ];
    assert!(rt; names.as_slice() == wanted.as_slice());
    Ok(())
}

// A right strand forks before the left one.
#[test]
fn names_are_listed_depth_first(rt: HostRuntime) -> Result<(), Fail> {
    let nodes: &[(u32, Bud<'_>, u64)] = &[
        (0, Bud::Fork, 1),
        (1, Bud::Strand, 0),
        (1, Bud::Strand, 0),
        (3, Bud::Fork, 1),
        (4, Bud::Strand, 0),
        (4, Bud::Strand, 0),
        (2, Bud::Fork, 1),
        (7, Bud::Strand, 0),
        (7, Bud::Strand, 0),
    ];
    let names = names_of(rt.alloc(), nodes, &[])?;
    let wanted = [
        name(0, 0, false),
        name(0, 1, false),
        name(1, 1, false),
        name(1, 1, true),
        name(0, 1, true),
        name(4, 1, false),
        name(4, 1, true),
    ];
    assert!(rt; names.as_slice() == wanted.as_slice());
    Ok(())
}

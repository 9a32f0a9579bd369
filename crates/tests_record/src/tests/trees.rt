ghost use Rattle.std.specs.Prelude.{◌<◌, length};

use super::grown::{Bud, grown};
use cw_base::OutOfMemory;
use cw_tree::{BlockState, Kind, Tree, Turn};
use std::alloc::Global;
use std::process::Abort;
use std::test::Fail;

// What a tree answers: its number of nodes, and questions about one or two of them.
#[derive(Clone, Copy)]
enum Says {
    Size(usize),
    Nua(u32, Option<u32>),
    Xparent(u32, Option<u32>),
    Lca(u32, u32, u32),
    Ancestor(u32, u32, bool),
    Conflict(u32, u32, bool),
    Victim(u32, u32, Option<u32>),
}

// Whether a tree gives this answer about two of its nodes.
fn says_of_two(tree: &Tree, says: Says) -> bool {
    let size = tree.nodes().len();
    match says {
        Says::Lca(a, b, wanted) => {
            (a as usize) < size && (b as usize) < size && tree.lca(a, b) == wanted
        }
        Says::Ancestor(a, b, wanted) => {
            (a as usize) < size && (b as usize) < size && tree.ancestor(a, b) == wanted
        }
        Says::Conflict(a, b, wanted) => {
            (a as usize) < size && (b as usize) < size && tree.conflict_plain(a, b) == wanted
        }
        Says::Victim(a, b, wanted) => {
            (a as usize) < size && (b as usize) < size && tree.victim_plain(a, b) == wanted
        }
        _ => false,
    }
}

// Whether a tree gives this answer.
fn is_so(tree: &Tree, says: Says) -> bool {
    let size = tree.nodes().len();
    match says {
        Says::Size(wanted) => size == wanted,
        Says::Nua(n, wanted) => (n as usize) < size && tree.nua(n) == wanted,
        Says::Xparent(n, wanted) => (n as usize) < size && tree.xparent(n) == wanted,
        _ => says_of_two(tree, says),
    }
}

fn says_all(rt: &impl Abort, tree: &Tree, list: &[Says]) {
    for one in list {
        assert!(rt; is_so(tree, *one));
    }
}

// A strand that begins a block and forks in it; the left strand begins another, writes and forks, and the right one is refused.
#[test]
fn a_refused_access_has_no_victim_in_one_block(rt: HostRuntime) -> Result<(), Fail> {
    let nodes: &[(u32, Bud<'_>, u64)] = &[
        (0, Bud::Block, 1),
        (1, Bud::Fork, 2),
        (2, Bud::Strand, 0),
        (2, Bud::Strand, 0),
        (3, Bud::Block, 3),
        (5, Bud::Write { cell: 0, value: 1 }, 4),
        (4, Bud::Tried { cell: 0 }, 0),
    ];
    let tree = grown(rt.alloc(), nodes, &[])?;
    let list = [
        Says::Size(8),
        Says::Nua(6, Some(5)),
        Says::Nua(5, Some(1)),
        Says::Xparent(7, Some(1)),
        Says::Xparent(1, None),
        Says::Lca(6, 7, 2),
        Says::Ancestor(1, 7, true),
        Says::Ancestor(6, 6, true),
        Says::Ancestor(5, 7, false),
        Says::Conflict(6, 7, true),
        Says::Victim(6, 7, None),
    ];
    says_all(&rt, &tree, &list);
    Ok(())
}

// The same cell is written in a block of the left strand, and the right strand is refused in the inner of two blocks.
#[test]
fn the_outermost_block_of_the_asker_is_the_victim(rt: HostRuntime) -> Result<(), Fail> {
    let nodes: &[(u32, Bud<'_>, u64)] = &[
        (0, Bud::Fork, 1),
        (1, Bud::Strand, 0),
        (1, Bud::Strand, 0),
        (2, Bud::Block, 2),
        (4, Bud::Write { cell: 0, value: 1 }, 3),
        (3, Bud::Block, 4),
        (6, Bud::Block, 5),
        (7, Bud::Tried { cell: 0 }, 0),
    ];
    let mut tree = grown(rt.alloc(), nodes, &[])?;
    assert!(rt; tree.nodes().len() == 9 && tree.is_block(4));
    says_all(
        &rt,
        &tree,
        &[Says::Conflict(5, 8, true), Says::Victim(5, 8, Some(6))],
    );
    tree.close(4, BlockState::Committed, 6);
    says_all(
        &rt,
        &tree,
        &[Says::Conflict(5, 8, false), Says::Nua(5, None)],
    );
    Ok(())
}

// A block with a fork is rolled back. Its next attempt forks and is committed, and the strand forks once more.
fn tried_again(alloc: Global) -> Result<Tree, Fail> {
    let nodes: &[(u32, Bud<'_>, u64)] = &[
        (0, Bud::Block, 1),
        (1, Bud::Fork, 2),
        (2, Bud::Strand, 0),
        (2, Bud::Strand, 0),
        (0, Bud::Block, 4),
        (5, Bud::Fork, 5),
        (6, Bud::Strand, 0),
        (6, Bud::Strand, 0),
        (0, Bud::Fork, 7),
        (9, Bud::Strand, 0),
        (10, Bud::Fork, 8),
        (11, Bud::Strand, 0),
        (11, Bud::Strand, 0),
    ];
    let ends = [(1, BlockState::Aborted, 3), (5, BlockState::Committed, 6)];
    grown(alloc, nodes, &ends)
}

// Returns the name of a node, if it is a strand.
fn name_at(tree: &Tree, n: u32) -> Result<Option<String>, OutOfMemory> {
    if (n as usize) < tree.nodes().len() && tree.is_strand(n) {
        Ok(Some(tree.name(n)?))
    } else {
        Ok(None)
    }
}

// Whether a node is a strand of that name, or no strand if no name is given.
fn has_name(tree: &Tree, n: u32, name: Option<&str>) -> Result<bool, OutOfMemory> {
    let found = name_at(tree, n)?;
    Ok(match (&found, name) {
        (Some(found), Some(name)) => found.as_str() == name,
        (None, None) => true,
        _ => false,
    })
}

fn names_are(
    rt: &impl Abort,
    tree: &Tree,
    rows: &[(u32, Option<&str>)],
) -> Result<(), OutOfMemory> {
    for &(strand, name) in rows {
        let named = has_name(tree, strand, name)?;
        assert!(rt; named);
    }
    Ok(())
}

#[test]
fn forks_that_were_rolled_back_are_not_counted(rt: HostRuntime) -> Result<(), Fail> {
    let tree = tried_again(rt.alloc())?;
    let rows = [
        (0, Some("0")),
        (3, Some("0.1l")),
        (4, Some("0.1r")),
        (7, Some("0.1l")),
        (8, Some("0.1r")),
        (10, Some("0.2l")),
        (12, Some("0.2l.1l")),
        (13, Some("0.2l.1r")),
        (11, None),
        (14, None),
    ];
    let named = names_are(&rt, &tree, &rows);
    drop(tree);
    Ok(named?)
}

// The number of right sides.
fn how_many(sides: &[bool]) -> u32 {
    let mut count = 0u32;
    for side in sides {
        if *side {
            count = count.saturating_add(1);
        }
    }
    count
}

// Whether the forks of a tree have these numbers, and `right` of its strands are right ones.
fn has_forks(tree: &Tree, numbers: &[u32], right: u32) -> Result<bool, OutOfMemory> {
    let found = tree.fork_numbers()?;
    let same = found.as_slice() == numbers;
    drop(found);
    let sides = tree.right_strands()?;
    Ok(same && how_many(sides.as_slice()) == right)
}

// Whether these are the turns down to a node.
fn has_turns(tree: &Tree, n: u32, turns: &[Turn]) -> Result<bool, OutOfMemory> {
    if n as usize >= tree.nodes().len() {
        return Ok(false);
    }
    let found = tree.turns(n)?;
    Ok(found.as_slice() == turns)
}

fn has_forks_and_sides(tree: &Tree) -> Result<bool, OutOfMemory> {
    let numbers = [1, 1, 1, 1, 1, 1, 1, 1, 1, 2, 1, 1, 1, 1];
    let second = Turn {
        fork: 2,
        right: false,
    };
    let first = Turn {
        fork: 1,
        right: true,
    };
    let size = tree.nodes().len();
    Ok(has_forks(tree, &numbers, 3)? && size == 14 && has_turns(tree, 13, &[second, first])?)
}

#[test]
fn forks_have_numbers_and_strands_have_sides(rt: HostRuntime) -> Result<(), Fail> {
    let tree = tried_again(rt.alloc())?;
    let so = has_forks_and_sides(&tree);
    drop(tree);
    assert!(rt; so?);
    Ok(())
}

// The length of the name of a node, if it is a strand.
fn name_length(tree: &Tree, n: u32) -> Result<Option<usize>, OutOfMemory> {
    Ok(match name_at(tree, n)? {
        Some(found) => Some(found.len()),
        None => None,
    })
}

// A block, and in it a strand in a strand, and so on: the block and the last strand.
fn deepen(tree: &mut Tree) -> Result<(u32, u32), Fail>
    requires { 0 < length tree.old }
{
    let block = tree.add(0, Kind::Block, 1)?;
    let mut last = block;
    for _ in 0..500_000 {
        let fork = tree.add(last, Kind::Fork, 2)?;
        last = tree.add(fork, Kind::Strand, 0)?;
    }
    Ok((block, last))
}

// Makes a tree a million nodes deep, and walks and names it.
fn is_deep(rt: &impl Abort, tree: &mut Tree) -> Result<(), Fail>
    requires { 0 < length tree.old }
{
    let (block, last) = deepen(tree)?;
    let list = [
        Says::Ancestor(block, last, true),
        Says::Ancestor(last, block, false),
        Says::Lca(last, block, block),
        Says::Nua(last, Some(block)),
        Says::Xparent(last, Some(block)),
        Says::Conflict(last, last, false),
        Says::Victim(block, last, Some(block)),
    ];
    says_all(rt, tree, &list);
    let length = name_length(tree, last)?;
    assert!(rt; length == Some(1_500_001));
    Ok(())
}

// Strands in strands, a million nodes deep.
#[test]
fn a_deep_tree_is_walked_named_and_dropped(rt: HostRuntime) -> Result<(), Fail> {
    let mut tree = Tree::new(rt.alloc())?;
    let deep = is_deep(&rt, &mut tree);
    drop(tree);
    deep
}

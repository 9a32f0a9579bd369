//! Example rows: strands that take turns on one board, what its calls return, and what it leaves.
ghost use Rattle.std.specs.Prelude.{◌≡◌, ◌<◌};
ghost use Rattle.cw_log.specs.Tokens.{root_token};
ghost use Rattle.cw_steps.specs.Stands.{token_of};
ghost use Rattle.cw_board.specs.Boards.{budget_of, cells_in, columns_of, table_of, IsOf};

use super::led::{Scene, Strand};
use cw_base::OutOfMemory;
use cw_board::{Board, BoardName, Moved};
use cw_code::{Back, Limits};
use cw_log::Access;
use cw_trace::Verdict;
use cw_tree::{Closed, Conflict, Entry, Mark, Node};
use std::alloc::Global;
use std::marker::Brand;
use std::sync::Wait;
use std::test::Fail;

/// A call. Strands are numbered in the order in which they appear: first the root, then the right strand of each fork.
#[derive(Clone, Copy, Drop)]
pub(super) enum Call {
    Begin(usize),
    Commit(usize),
    Out(usize, i64),
    Read(usize, u32),
    Write(usize, u32, i64),
    /// The right strand gets the next number.
    Fork(usize),
    Split(usize),
    Join(usize, usize),
    Merge(usize),
    Roll(usize),
    Cancel(usize),
    Chain(usize, u32),
    /// Asks about an access that a column made, with its stamp.
    Ask(usize, u32, u64),
}

const LIMITS: Limits = Limits {
    fuel: 0,
    size: 0,
    aborts: 9,
    strands: 9,
    moves: 0,
};

/// The strands that are led, each at its number until it is joined.
type Cast<N> = Vec<Option<Strand<N>>>;

fn taken<N: BoardName>(cast: &mut Cast<N>, n: usize) -> Result<Strand<N>, OutOfMemory> {
    match cast.get_mut(n) {
        Some(place) => place.take().ok_or(OutOfMemory),
        None => Err(OutOfMemory),
    }
}

fn put<N: BoardName>(cast: &mut Cast<N>, n: usize, led: Strand<N>) {
    match cast.get_mut(n) {
        Some(place) => drop(place.replace(led)),
        None => drop(led),
    }
}

/// Writes a word and a number after it.
fn number_told(text: &mut String, word: &str, number: u64) -> Result<(), Fail> {
    text.push_str(word)?;
    write!(text, "{number}")?;
    Ok(())
}

/// Writes the stamps of a chain, each followed by a blank.
fn stamps_told(text: &mut String, chain: &[u64]) -> Result<(), Fail> {
    for stamp in chain {
        number_told(text, "", *stamp)?;
        text.push_str(" ")?;
    }
    Ok(())
}

/// Writes a conflict, with the block that was met, the victim and the attempt.
fn conflict_told(text: &mut String, conflict: &Conflict) -> Result<(), Fail> {
    let numbers = [
        ("conflict ", u64::from(conflict.cell)),
        (" last ", conflict.last),
        (" asker ", u64::from(conflict.asker)),
        (" block ", conflict.block),
        (" victim ", conflict.victim),
        (" attempt ", u64::from(conflict.attempt)),
    ];
    for (word, number) in numbers {
        number_told(text, word, number)?;
    }
    text.push_str(" of ")?;
    stamps_told(text, conflict.chain.as_slice())
}

fn value_told(text: &mut String, value: i64) -> Result<(), Fail> {
    write!(text, "{value} ")?;
    Ok(())
}

fn answer_told(text: &mut String, answer: Result<Verdict, Moved>) -> Result<(), Fail> {
    write!(text, "{answer:?} ")?;
    Ok(())
}

fn chain_told(text: &mut String, chain: &[u64]) -> Result<(), Fail> {
    text.push_str("chain ")?;
    stamps_told(text, chain)
}

/// Writes what is put back, each cell with its value.
fn list_told(text: &mut String, list: &[Back]) -> Result<(), Fail> {
    text.push_str("back ")?;
    for back in list {
        write!(text, "{}={} ", back.cell, back.value)?;
    }
    Ok(())
}

fn access_told(text: &mut String, access: &Access) -> Result<(), Fail> {
    match access {
        Access::Value(value) => value_told(text, *value),
        Access::Conflict(conflict) => conflict_told(text, conflict),
    }
}

/// Makes a call that returns nothing.
fn moved<N: BoardName, R: Wait>(
    rt: &R,
    scene: &Scene<N>,
    led: Strand<N>,
    call: Call,
) -> Result<Strand<N>, OutOfMemory> {
    match call {
        Call::Begin(_) => scene.begin(led),
        Call::Commit(_) => scene.commit(led),
        Call::Out(_, value) => scene.out(led, value),
        Call::Split(_) => scene.split(rt, led),
        Call::Merge(_) => scene.merge(rt, led),
        Call::Roll(_) => scene.roll(rt, led),
        Call::Read(_, _)
        | Call::Write(_, _, _)
        | Call::Fork(_)
        | Call::Join(_, _)
        | Call::Cancel(_)
        | Call::Chain(_, _)
        | Call::Ask(_, _, _) => Ok(led),
    }
}

/// Returns the strand, once what its call returned is written.
fn kept<N: BoardName>(led: Strand<N>, told: Result<(), Fail>) -> Result<Strand<N>, Fail> {
    match told {
        Ok(()) => Ok(led),
        Err(fault) => {
            drop(led);
            Err(fault)
        }
    }
}

/// Makes an access, and writes what it returns.
fn accessed<N: BoardName, R: Wait>(
    rt: &R,
    scene: &Scene<N>,
    led: Strand<N>,
    access: (u32, Option<i64>),
    text: &mut String,
) -> Result<Strand<N>, Fail> {
    let (cell, write) = access;
    let (led, access) = scene.access(rt, led, cell, write)?;
    let told = access_told(text, &access);
    drop(access);
    kept(led, told)
}

/// Gives up a block, and writes what is put back.
fn cancelled<N: BoardName, R: Wait>(
    rt: &R,
    scene: &Scene<N>,
    led: Strand<N>,
    text: &mut String,
) -> Result<Strand<N>, Fail> {
    let (led, back) = scene.cancel(rt, led)?;
    let told = list_told(text, back.as_slice());
    drop(back);
    kept(led, told)
}

fn chained<N: BoardName, R: Wait>(
    rt: &R,
    scene: &Scene<N>,
    led: Strand<N>,
    cell: u32,
    text: &mut String,
) -> Result<Strand<N>, Fail> {
    let (led, chain) = scene.chain(rt, led, cell)?;
    let told = chain_told(text, chain.as_slice());
    drop(chain);
    kept(led, told)
}

fn asked<N: BoardName>(
    scene: &Scene<N>,
    led: Strand<N>,
    last: Mark,
    text: &mut String,
) -> Result<Strand<N>, Fail> {
    let (led, answer) = scene.ask(led, last);
    kept(led, answer_told(text, answer))
}

/// Makes a call other than fork or join, and writes what it returns.
fn told<N: BoardName, R: Wait>(
    rt: &R,
    scene: &Scene<N>,
    led: Strand<N>,
    call: Call,
    text: &mut String,
) -> Result<Strand<N>, Fail> {
    match call {
        Call::Read(_, cell) => accessed(rt, scene, led, (cell, None), text),
        Call::Write(_, cell, value) => accessed(rt, scene, led, (cell, Some(value)), text),
        Call::Cancel(_) => cancelled(rt, scene, led, text),
        Call::Chain(_, cell) => chained(rt, scene, led, cell, text),
        Call::Ask(_, strand, stamp) => asked(scene, led, Mark { strand, stamp }, text),
        Call::Begin(_)
        | Call::Commit(_)
        | Call::Out(_, _)
        | Call::Fork(_)
        | Call::Split(_)
        | Call::Join(_, _)
        | Call::Merge(_)
        | Call::Roll(_) => Ok(moved(rt, scene, led, call)?),
    }
}

fn who(call: Call) -> usize {
    match call {
        Call::Begin(n)
        | Call::Commit(n)
        | Call::Out(n, _)
        | Call::Read(n, _)
        | Call::Write(n, _, _)
        | Call::Fork(n)
        | Call::Split(n)
        | Call::Join(n, _)
        | Call::Merge(n)
        | Call::Roll(n)
        | Call::Cancel(n)
        | Call::Chain(n, _)
        | Call::Ask(n, _, _) => n,
    }
}

fn forked<N: BoardName, R: Wait>(
    rt: &R,
    scene: &Scene<N>,
    cast: &mut Cast<N>,
    n: usize,
) -> Result<(), Fail> {
    let led = taken(cast, n)?;
    let (left, right) = scene.fork(rt, led)?;
    put(cast, n, left);
    cast.push(Some(right))?;
    Ok(())
}

fn joined<N: BoardName>(
    scene: &Scene<N>,
    cast: &mut Cast<N>,
    n: usize,
    other: usize,
) -> Result<(), Fail> {
    let left = taken(cast, n)?;
    let right = match taken(cast, other) {
        Ok(right) => right,
        Err(fault) => {
            drop(left);
            return Err(fault.into());
        }
    };
    put(cast, n, scene.join(left, right)?);
    Ok(())
}

/// Makes a call, and writes what it returns.
fn called<N: BoardName, R: Wait>(
    rt: &R,
    scene: &Scene<N>,
    cast: &mut Cast<N>,
    call: Call,
    text: &mut String,
) -> Result<(), Fail> {
    let n = who(call);
    match call {
        Call::Fork(_) => forked(rt, scene, cast, n),
        Call::Join(_, other) => joined(scene, cast, n, other),
        _ => {
            let led = taken(cast, n)?;
            put(cast, n, told(rt, scene, led, call, text)?);
            Ok(())
        }
    }
}

/// Writes the stamp of a node, with the end of a block.
fn node_told(text: &mut String, node: &Node) -> Result<(), Fail> {
    number_told(text, " ", node.stamp)?;
    if node.end > 0 {
        number_told(text, "-", node.end)?;
    }
    Ok(())
}

fn entry_told(text: &mut String, entry: &Entry) -> Result<(), Fail> {
    number_told(text, " ", entry.mark.stamp)?;
    write!(text, "={}", entry.value)?;
    Ok(())
}

fn entries_told(text: &mut String, entries: &[Entry]) -> Result<(), Fail> {
    text.push_str(" cell")?;
    for entry in entries {
        entry_told(text, entry)?;
    }
    Ok(())
}

/// Writes the stamps of the nodes with the ends of blocks, the conflicts, and the stamps and values of each cell's entries.
fn closed_told(text: &mut String, closed: &Closed) -> Result<(), Fail> {
    text.push_str("nodes")?;
    for node in closed.tree.nodes() {
        node_told(text, node)?;
    }
    for conflict in closed.conflicts.as_slice() {
        number_told(text, " refused ", u64::from(conflict.asker))?;
        number_told(text, " by ", conflict.block)?;
    }
    for journal in closed.journals.as_slice() {
        entries_told(text, journal.as_slice())?;
    }
    Ok(())
}

/// Makes the calls and writes what they return. Returns the root's strand.
fn all_called<N: BoardName, R: Wait>(
    rt: &R,
    scene: &Scene<N>,
    cast: &mut Cast<N>,
    calls: &[Call],
    text: &mut String,
) -> Result<Strand<N>, Fail> {
    for call in calls {
        called(rt, scene, cast, *call, text)?;
    }
    Ok(taken(cast, 0)?)
}

/// Makes the calls; the first strand is the root.
fn plays<N: BoardName, R: Wait>(
    rt: &R,
    alloc: Global,
    scene: &Scene<N>,
    root: Strand<N>,
    calls: &[Call],
    text: &mut String,
) -> Result<Strand<N>, Fail> {
    let mut cast: Cast<N> = Vec::new(alloc);
    cast.push(Some(root))?;
    let root = all_called(rt, scene, &mut cast, calls, text);
    drop(cast);
    root
}

/// Writes what the board leaves.
fn closes<N: BoardName>(scene: Scene<N>, root: Strand<N>, text: &mut String) -> Result<(), Fail> {
    let closed = scene.close(root)?;
    let told = closed_told(text, &closed);
    drop(closed);
    told
}

/// Writes what the calls return, and what the board leaves.
fn played<N: BoardName, R: Wait>(
    rt: &R,
    alloc: Global,
    made: (Board, cw_steps::StrandToken),
    cells: u32,
    calls: &[Call],
    text: &mut String,
) -> Result<(), Fail>
    requires name { (table_of made.0 ≡ N.table) × (columns_of made.0 ≡ N.columns) }
    requires size { (budget_of made.0 ≡ 9) × (cells_in made.0 ≡ cells) }
    requires of { IsOf made.0 made.1 }
    requires root { token_of made.1 ≡ root_token }
{
    let (board, token) = made;
    let (scene, root) = Scene::<N>::new(alloc, board, token, cells, 9);
    match plays(rt, alloc, &scene, root, calls, text) {
        Ok(root) => closes(scene, root, text),
        Err(fault) => {
            drop(scene);
            Err(fault)
        }
    }
}

/// Like `played`, on a new board with the cells `init`.
fn row<R: Wait>(
    rt: &R,
    alloc: Global,
    init: &[i64],
    calls: &[Call],
    text: &mut String,
) -> Result<(), Fail> {
    let made = Board::new(alloc, init, LIMITS)?;
    let cells = init.len() as u32;
    played::<Brand, R>(rt, alloc, made, cells, calls, text)
}

/// Whether the calls of a row answer what is wanted; the row is named where they do not.
pub(super) fn expect<R: Wait>(
    rt: &R,
    alloc: Global,
    name: &str,
    init: &[i64],
    calls: &[Call],
    wanted: &str,
) -> Result<(), Fail> {
    let mut text = String::new(alloc);
    row(rt, alloc, init, calls, &mut text)?;
    if text.as_str() == wanted {
        Ok(())
    } else {
        Err((name, text).into())
    }
}

#[test]
fn strands_take_turns(rt: HostRuntime) -> Result<(), Fail> {
    let table: [(&str, &[i64], &[Call], &str); 8] = [
        (
            "one strand reads what it wrote",
            &[0],
            &[
                Call::Write(0, 0, 5),
                Call::Chain(0, 0),
                Call::Ask(0, 0, 1),
                Call::Begin(0),
                Call::Read(0, 0),
                Call::Ask(0, 0, 3),
                Call::Commit(0),
                Call::Out(0, 7),
            ],
            "5 chain 1 Ok(Free) 5 Ok(Within) nodes 0 1 2-4 3 5 cell 1=5 3=5",
        ),
        (
            "an update is lost in a block",
            &[0],
            &[
                Call::Begin(0),
                Call::Fork(0),
                Call::Split(1),
                Call::Read(0, 0),
                Call::Read(1, 0),
                Call::Write(0, 0, 1),
                Call::Write(1, 0, 1),
                Call::Join(0, 1),
                Call::Merge(0),
                Call::Commit(0),
            ],
            "0 0 1 1 nodes 0 1-7 2 0 3 5 0 4 6 cell 3=0 4=0 5=1 6=1",
        ),
        (
            "the outer block is the victim",
            &[0],
            &[
                Call::Fork(0),
                Call::Split(1),
                Call::Begin(0),
                Call::Write(0, 0, 1),
                Call::Begin(1),
                Call::Begin(1),
                Call::Write(1, 0, 2),
                Call::Commit(0),
                Call::Roll(1),
                Call::Roll(1),
                Call::Begin(1),
                Call::Begin(1),
                Call::Write(1, 0, 2),
                Call::Commit(1),
                Call::Commit(1),
                Call::Join(0, 1),
                Call::Merge(0),
            ],
            "1 conflict 0 last 3 asker 3 block 2 victim 4 attempt 1 of 3 2 nodes 0 1 0 2-6 3 0 4-8 5-7 0 9-13 10-12 11 refused 8 by 2 cell 3=1 11=2",
        ),
        (
            "a stolen branch is joined before a block",
            &[0, 0],
            &[
                Call::Fork(0),
                Call::Split(1),
                Call::Fork(0),
                Call::Split(2),
                Call::Write(2, 0, 1),
                Call::Write(0, 1, 5),
                Call::Join(0, 2),
                Call::Merge(0),
                Call::Begin(0),
                Call::Write(0, 1, 1),
                Call::Ask(1, 4, 3),
                Call::Write(1, 0, 2),
                Call::Write(0, 1, 2),
                Call::Commit(0),
                Call::Join(0, 1),
                Call::Merge(0),
            ],
            "1 5 1 Ok(Free) 2 2 nodes 0 1 0 2 0 4 0 3 5-9 6 8 0 7 cell 3=1 7=2 cell 4=5 6=1 8=2",
        ),
        (
            "a stolen branch is joined inside a block",
            &[0, 0],
            &[
                Call::Fork(0),
                Call::Split(1),
                Call::Begin(0),
                Call::Fork(0),
                Call::Split(2),
                Call::Write(2, 0, 1),
                Call::Write(0, 1, 5),
                Call::Join(0, 2),
                Call::Merge(0),
                Call::Ask(1, 4, 4),
                Call::Write(1, 0, 2),
                Call::Write(1, 0, 2),
                Call::Write(0, 1, 1),
                Call::Commit(0),
                Call::Write(1, 0, 2),
                Call::Join(0, 1),
                Call::Merge(0),
            ],
            "1 5 Ok(Against(2)) conflict 0 last 4 asker 1 block 2 victim 0 attempt 1 of 4 conflict 0 last 4 asker 2 block 2 victim 0 attempt 2 of 4 1 2 nodes 0 1 0 2-7 3 0 5 0 4 6 0 0 0 8 refused 11 by 2 refused 12 by 2 cell 4=1 8=2 cell 5=5 6=1",
        ),
        (
            "a cancel lists each cell once, with its value from before",
            &[7, 8],
            &[
                Call::Begin(0),
                Call::Write(0, 0, 1),
                Call::Begin(0),
                Call::Write(0, 1, 5),
                Call::Commit(0),
                Call::Write(0, 0, 2),
                Call::Cancel(0),
                Call::Write(0, 0, 7),
                Call::Write(0, 1, 8),
                Call::Commit(0),
                Call::Read(0, 0),
                Call::Read(0, 1),
            ],
            "1 5 2 back 0=7 1=8 7 8 7 8 nodes 0 1-10 2 3-5 4 6 7 8 9 11 12 cell 2=1 6=2 8=7 11=7 cell 4=5 9=8 12=8",
        ),
        (
            "a cancel lists what a stolen branch wrote",
            &[7, 8],
            &[
                Call::Begin(0),
                Call::Fork(0),
                Call::Split(1),
                Call::Write(1, 1, 5),
                Call::Write(0, 0, 1),
                Call::Join(0, 1),
                Call::Merge(0),
                Call::Cancel(0),
                Call::Write(0, 0, 7),
                Call::Write(0, 1, 8),
                Call::Commit(0),
            ],
            "5 1 back 0=7 1=8 7 8 nodes 0 1-8 2 0 4 0 3 5 6 7 cell 4=1 6=7 cell 3=5 7=8",
        ),
        (
            "a block is undone after one within it was committed",
            &[7, 8, 0],
            &[
                Call::Fork(0),
                Call::Split(1),
                Call::Begin(0),
                Call::Write(0, 2, 1),
                Call::Begin(1),
                Call::Begin(1),
                Call::Read(1, 0),
                Call::Write(1, 0, 8),
                Call::Commit(1),
                Call::Read(1, 1),
                Call::Write(1, 1, 9),
                Call::Write(1, 2, 2),
                Call::Roll(1),
                Call::Chain(1, 0),
                Call::Chain(1, 1),
                Call::Commit(0),
                Call::Begin(1),
                Call::Begin(1),
                Call::Read(1, 0),
                Call::Write(1, 0, 8),
                Call::Commit(1),
                Call::Read(1, 1),
                Call::Write(1, 1, 9),
                Call::Write(1, 2, 2),
                Call::Commit(1),
                Call::Join(0, 1),
                Call::Merge(0),
            ],
            "1 7 8 8 9 conflict 2 last 3 asker 7 block 2 victim 4 attempt 1 of 3 chain chain 7 8 8 9 2 nodes 0 1 0 2-12 3 0 4-11 5-8 6 7 9 10 0 13-21 14-17 15 16 18 19 20 refused 12 by 2 cell 15=7 16=8 cell 18=8 19=9 cell 3=1 20=2",
        ),
    ];
    for (name, init, calls, wanted) in table {
        expect(&rt, rt.alloc(), name, init, calls, wanted)?;
    }
    Ok(())
}

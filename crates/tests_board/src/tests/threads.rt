//! Threads that make accesses on one board at the same time, and threads that ask while others change the tier.
ghost use Rattle.std.specs.Prelude.{◌≡◌};
ghost use Rattle.cw_log.specs.Tokens.{root_token};
ghost use Rattle.cw_steps.specs.Stands.{token_of};
ghost use Rattle.cw_board.specs.Boards.{budget_of, cells_in, columns_of, table_of, IsOf};

use super::led::{Scene, Strand};
use cw_base::OutOfMemory;
use cw_board::{Board, BoardName, Moved};
use cw_code::Limits;
use cw_log::Access;
use cw_steps::StrandToken;
use cw_trace::Verdict;
use cw_tree::{Closed, Entry, Mark, Node};
use std::alloc::Global;
use std::marker::Brand;
use std::sync::Wait;
use std::test::Fail;
use std::thread::{Threads, join};

const LIMITS: Limits = Limits {
    fuel: 0,
    size: 0,
    aborts: 9,
    strands: 9,
    moves: 0,
};

/// The cell that all strands share, behind those that they have for themselves.
const SHARED: u32 = 4;

/// The number of accesses in all.
const ACCESSES: u32 = 100_000;

/// Returns the value of a granted access.
fn granted<N: BoardName>(found: (Strand<N>, Access)) -> Result<(Strand<N>, i64), OutOfMemory> {
    let (led, access) = found;
    match access {
        Access::Value(value) => Ok((led, value)),
        Access::Conflict(conflict) => {
            drop(conflict);
            drop(led);
            Err(OutOfMemory)
        }
    }
}

/// Adds 1 to the value of a cell.
fn adds<N: BoardName, R: Wait>(
    rt: &R,
    scene: &Scene<N>,
    led: Strand<N>,
    cell: u32,
) -> Result<Strand<N>, OutOfMemory> {
    let (led, value) = granted(scene.access(rt, led, cell, None)?)?;
    let next = value.wrapping_add(1);
    let (led, _) = granted(scene.access(rt, led, cell, Some(next))?)?;
    Ok(led)
}

/// Adds 1 `times` times to a cell of its own and to the shared one: four accesses each time.
fn counts<N: BoardName, R: Wait>(
    rt: &R,
    scene: &Scene<N>,
    led: Strand<N>,
    own: u32,
    times: u32,
) -> Result<Strand<N>, OutOfMemory> {
    let mut led = led;
    for _ in 0..times {
        led = adds(rt, scene, led, own)?;
        led = adds(rt, scene, led, SHARED)?;
    }
    Ok(led)
}

/// Returns the two strands of a split fork.
fn parts<N: BoardName, R: Wait>(
    rt: &R,
    scene: &Scene<N>,
    led: Strand<N>,
) -> Result<(Strand<N>, Strand<N>), OutOfMemory> {
    let (left, right) = scene.fork(rt, led)?;
    match scene.split(rt, right) {
        Ok(right) => Ok((left, right)),
        Err(fault) => {
            drop(left);
            Err(fault)
        }
    }
}

/// Joins both strands, and returns the strand that forked.
fn meets<N: BoardName, R: Wait>(
    rt: &R,
    scene: &Scene<N>,
    left: Result<Strand<N>, OutOfMemory>,
    right: Result<Strand<N>, OutOfMemory>,
) -> Result<Strand<N>, OutOfMemory> {
    match (left, right) {
        (Ok(left), Ok(right)) => {
            let led = scene.join(left, right)?;
            scene.merge(rt, led)
        }
        (left, right) => {
            drop(left);
            drop(right);
            Err(OutOfMemory)
        }
    }
}

/// Both strands of a fork count, each on a thread of its own.
fn pair<N: BoardName, R: Threads + Wait + Sync>(
    rt: &R,
    scene: &Scene<N>,
    led: Strand<N>,
    own: (u32, u32),
    times: u32,
) -> Result<Strand<N>, OutOfMemory> {
    let (left, right) = parts(rt, scene, led)?;
    let (first, second) = own;
    let (left, right) = join(
        rt,
        || counts(rt, scene, left, first, times),
        || counts(rt, scene, right, second, times),
    );
    meets(rt, scene, left, right)
}

/// Both strands of two forks count.
fn pairs<N: BoardName, R: Threads + Wait + Sync>(
    rt: &R,
    scene: &Scene<N>,
    led: Strand<N>,
    times: u32,
) -> Result<Strand<N>, OutOfMemory> {
    let (left, right) = parts(rt, scene, led)?;
    let (left, right) = join(
        rt,
        || pair(rt, scene, left, (0, 1), times),
        || pair(rt, scene, right, (2, 3), times),
    );
    meets(rt, scene, left, right)
}

fn counted<N: BoardName, R: Threads + Wait + Sync>(
    rt: &R,
    alloc: Global,
    made: (Board, StrandToken),
    threads: u32,
) -> Result<Closed, OutOfMemory>
    requires name { (table_of made.0 ≡ N.table) × (columns_of made.0 ≡ N.columns) }
    requires size { (budget_of made.0 ≡ 9) × (cells_in made.0 ≡ 5) }
    requires of { IsOf made.0 made.1 }
    requires root { token_of made.1 ≡ root_token }
{
    let (board, token) = made;
    let (scene, root) = Scene::<N>::new(alloc, board, token, 5, 9);
    let root = if threads == 2 {
        pair(rt, &scene, root, (0, 1), ACCESSES / 8)
    } else {
        pairs(rt, &scene, root, ACCESSES / 16)
    };
    match root {
        Ok(root) => scene.close(root),
        Err(fault) => {
            drop(scene);
            Err(fault)
        }
    }
}

fn closed<R: Threads + Wait + Sync>(
    rt: &R,
    alloc: Global,
    threads: u32,
) -> Result<Closed, OutOfMemory> {
    let made = Board::new(alloc, &[0, 0, 0, 0, 0], LIMITS)?;
    counted::<Brand, R>(rt, alloc, made, threads)
}

/// Returns the stamps of the nodes that have one, in order.
fn stamps(alloc: Global, nodes: &[Node]) -> Result<Vec<u64>, OutOfMemory> {
    let mut stamps = Vec::new(alloc);
    for node in nodes {
        if node.stamp > 0 {
            stamps.push(node.stamp)?;
        }
    }
    stamps.sort()?;
    Ok(stamps)
}

/// Whether these are the numbers from 1 on, each once.
fn are_all(stamps: &[u64]) -> bool {
    (1u64..).zip(stamps.iter()).all(|(n, stamp)| n == *stamp)
}

fn last_value(entries: &[Entry]) -> i64 {
    entries.last().map_or(0, |entry| entry.value)
}

/// Whether each access and each fork drew a stamp of its own.
fn have_stamps(alloc: Global, nodes: &[Node], threads: u32) -> Result<bool, OutOfMemory> {
    let stamps = stamps(alloc, nodes)?;
    let count = stamps.len();
    Ok(count == 100_000 + threads as usize - 1 && are_all(stamps.as_slice()))
}

/// Whether the cells of the threads have what each of them left, and the shared cell has all accesses.
fn are_counted(closed: &Closed, threads: u32, own: i64) -> bool {
    for (n, journal) in closed.journals.as_slice().iter().enumerate() {
        let entries = journal.as_slice();
        if n < threads as usize && last_value(entries) != own {
            return false;
        }
        if n == SHARED as usize && entries.len() != 50_000 {
            return false;
        }
    }
    true
}

#[test]
fn threads_count(rt: HostRuntime) -> Result<(), Fail> {
    for (threads, own) in [(2u32, 12_500), (4, 6_250)] {
        let closed = closed(&rt, rt.alloc(), threads)?;
        let have_stamps = have_stamps(rt.alloc(), closed.tree.nodes(), threads);
        let are_counted = are_counted(&closed, threads, own);
        drop(closed);
        assert!(rt; have_stamps?);
        assert!(rt; are_counted);
    }
    Ok(())
}

/// How often each of two threads splits a fork and merges it.
const CHANGES: u32 = 10_000;

/// How often each of two other threads asks.
const QUESTIONS: u32 = 1_000_000;

/// The limits of a board with two columns for each fork.
const WIDE: Limits = Limits {
    fuel: 0,
    size: 0,
    aborts: 9,
    strands: 41_000,
    moves: 0,
};

/// The write of the left strand, which is in the block 2.
const LAST: Mark = Mark {
    strand: 1,
    stamp: 3,
};

/// Splits a fork and merges it again, `times` times.
fn changes<N: BoardName, R: Wait>(
    rt: &R,
    scene: &Scene<N>,
    led: Strand<N>,
    times: u32,
) -> Result<Strand<N>, OutOfMemory> {
    let mut led = led;
    for _ in 0..times {
        let (left, right) = parts(rt, scene, led)?;
        led = meets(rt, scene, Ok(left), Ok(right))?;
    }
    Ok(led)
}

/// Whether it is an answer other than the block 2, which is pending and not above the asker.
fn is_wrong(answer: Result<Verdict, Moved>) -> bool {
    match answer {
        Ok(Verdict::Against(block)) => block != 2,
        Ok(Verdict::Free | Verdict::Within) => true,
        Err(_) => false,
    }
}

/// Asks about the write `times` times. Returns the strand, and whether an answer was wrong.
fn asks<N: BoardName>(scene: &Scene<N>, led: Strand<N>, times: u32) -> (Strand<N>, bool) {
    let mut led = led;
    let mut wrong = false;
    for _ in 0..times {
        let (asked, answer) = scene.ask(led, LAST);
        led = asked;
        wrong = wrong || is_wrong(answer);
    }
    (led, wrong)
}

/// Both strands of a fork change the tier, each on a thread of its own.
fn changers<N: BoardName, R: Threads + Wait + Sync>(
    rt: &R,
    scene: &Scene<N>,
    led: Strand<N>,
) -> Result<Strand<N>, OutOfMemory> {
    let (left, right) = parts(rt, scene, led)?;
    let (left, right) = join(
        rt,
        || changes(rt, scene, left, CHANGES),
        || changes(rt, scene, right, CHANGES),
    );
    meets(rt, scene, left, right)
}

/// Both strands of a fork ask, each on a thread of its own. Returns the strand that forked, and whether an answer was wrong.
fn askers<N: BoardName, R: Threads + Wait + Sync>(
    rt: &R,
    scene: &Scene<N>,
    led: Strand<N>,
) -> Result<(Strand<N>, bool), OutOfMemory> {
    let (left, right) = parts(rt, scene, led)?;
    let ((left, one), (right, other)) = join(
        rt,
        || asks(scene, left, QUESTIONS),
        || asks(scene, right, QUESTIONS),
    );
    let led = meets(rt, scene, Ok(left), Ok(right))?;
    Ok((led, one || other))
}

/// Begins a block and writes in it.
fn writes<N: BoardName, R: Wait>(
    rt: &R,
    scene: &Scene<N>,
    led: Strand<N>,
) -> Result<Strand<N>, OutOfMemory> {
    let led = scene.begin(led)?;
    let (led, _) = granted(scene.access(rt, led, SHARED, Some(1))?)?;
    Ok(led)
}

/// Asks once more, now that nothing changes. Then joins both strands, the left one after its block was committed. Returns whether an
/// answer was wrong.
fn ends<N: BoardName, R: Wait>(
    rt: &R,
    scene: &Scene<N>,
    left: Result<Strand<N>, OutOfMemory>,
    right: Result<(Strand<N>, bool), OutOfMemory>,
) -> Result<(Strand<N>, bool), OutOfMemory> {
    match (left, right) {
        (Ok(left), Ok((right, wrong))) => {
            let (right, answer) = scene.ask(right, LAST);
            let wrong = wrong || answer.is_err() || is_wrong(answer);
            let left = scene.commit(left);
            let led = meets(rt, scene, left, Ok(right))?;
            Ok((led, wrong))
        }
        (left, right) => {
            drop(left);
            drop(right);
            Err(OutOfMemory)
        }
    }
}

/// Two threads change the tier inside a pending block, while two ask about a write of it. Returns whether an answer was wrong.
fn asked_while_changed<N: BoardName, R: Threads + Wait + Sync>(
    rt: &R,
    scene: &Scene<N>,
    root: Strand<N>,
) -> Result<(Strand<N>, bool), OutOfMemory> {
    let (left, right) = parts(rt, scene, root)?;
    let left = match writes(rt, scene, left) {
        Ok(left) => left,
        Err(fault) => {
            drop(right);
            return Err(fault);
        }
    };
    let (left, right) = join(
        rt,
        || changers(rt, scene, left),
        || askers(rt, scene, right),
    );
    ends(rt, scene, left, right)
}

fn has_asked<N: BoardName, R: Threads + Wait + Sync>(
    rt: &R,
    alloc: Global,
    made: (Board, StrandToken),
) -> Result<bool, OutOfMemory>
    requires name { (table_of made.0 ≡ N.table) × (columns_of made.0 ≡ N.columns) }
    requires size { (budget_of made.0 ≡ 9) × (cells_in made.0 ≡ 5) }
    requires of { IsOf made.0 made.1 }
    requires root { token_of made.1 ≡ root_token }
{
    let (board, token) = made;
    let (scene, root) = Scene::<N>::new(alloc, board, token, 5, 9);
    let found = asked_while_changed(rt, &scene, root);
    drop(scene);
    let (root, wrong) = found?;
    drop(root);
    Ok(!wrong)
}

fn has_asked_rightly<R: Threads + Wait + Sync>(rt: &R, alloc: Global) -> Result<bool, OutOfMemory> {
    let made = Board::new(alloc, &[0, 0, 0, 0, 0], WIDE)?;
    has_asked::<Brand, R>(rt, alloc, made)
}

#[test]
fn threads_ask_while_others_change_the_tier(rt: HostRuntime) -> Result<(), Fail> {
    let right = has_asked_rightly(&rt, rt.alloc())?;
    assert!(rt; right);
    Ok(())
}

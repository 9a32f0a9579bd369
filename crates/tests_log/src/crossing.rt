//! A value that both sides of a pair know: one side goes through a deque to another thread, and from there under a lock.
ghost use Rattle.std.specs.Prelude.{◌≡◌, ◌<◌, IfOk, IfSome, Some};

use cw_base::OutOfMemory;
use cw_deck::{Deck, Thief};
use cw_pair::{Half, Opened, Pairs, Source, TableName};
use std::alloc::Global;
use std::marker::Brand;
use std::sync::{Mutex, Wait};
use std::thread;
use std::thread::Threads;

/// The number of looks before a thief gives up.
const LOOKS: u64 = 1_000_000_000;

/// A value, with a half that stands for it.
#[derive(Drop)]
struct Side<N: TableName> {
    value: u32,
    half: Half<u32, N>,
    ghost stands: { half.of ≡ Some value },
}

fn forks<N: TableName>(
    pairs: &Pairs<u32, N>,
    source: &mut Source<u32, N>,
    value: u32,
) -> (Side<N>, Side<N>)
    requires { source.old.next < source.old.end }
{
    let (left, right) = source.pair(pairs, &value);
    (Side { value, half: left }, Side { value, half: right })
}

/// Returns the values of two sides, if they belong to one pair.
fn meets<N: TableName>(pairs: &Pairs<u32, N>, mine: Side<N>, other: Side<N>) -> Option<(u32, u32)>
    ensures { IfSome result (λ values. values.0 ≡ values.1) }
{
    let here = mine.value;
    let there = other.value;
    if mine.half.number() != other.half.number() {
        drop(mine);
        drop(other);
        return None;
    }
    pairs.meet(mine.half, other.half);
    Some((here, there))
}

/// Steals a side and leaves it under the lock.
fn parks<N: TableName, R: Wait>(rt: &R, thief: Thief<Side<N>>, frame: &Mutex<Option<Side<N>>>) {
    let mut thief = thief;
    for _ in 0..LOOKS {
        if let Some(side) = thief.steal(rt) {
            *frame.lock(rt) = Some(side);
            break;
        }
        thread::yield_now();
    }
}

/// A deque with its thief.
fn decks<N: TableName>(alloc: Global) -> Result<(Deck<Side<N>>, Thief<Side<N>>), OutOfMemory> {
    let mut deck = Deck::new(alloc)?;
    match deck.thief() {
        Ok(thief) => Ok((deck, thief)),
        Err(fault) => {
            drop(deck);
            Err(fault)
        }
    }
}

fn pushes<N: TableName>(deck: &mut Deck<Side<N>>, side: Side<N>) -> Result<(), OutOfMemory> {
    match deck.push(side) {
        Ok(()) => Ok(()),
        Err(back) => {
            drop(back);
            Err(OutOfMemory)
        }
    }
}

/// What another thread stole and left under a lock.
fn stolen<N: TableName, R: Threads + Wait + Sync>(
    rt: &R,
    thief: Thief<Side<N>>,
) -> Option<Side<N>> {
    let frame: Mutex<Option<Side<N>>> = Mutex::new(None);
    let shared = &frame;
    let _ = thread::join(rt, || parks(rt, thief, shared), || ());
    frame.into_inner()
}

/// A side that went through a deque to another thread, and back.
fn crossed<N: TableName, R: Threads + Wait + Sync>(
    rt: &R,
    alloc: Global,
    side: Side<N>,
) -> Result<Option<Side<N>>, OutOfMemory> {
    let (deck, thief) = match decks(alloc) {
        Ok(decks) => decks,
        Err(fault) => {
            drop(side);
            return Err(fault);
        }
    };
    let mut deck = deck;
    let crossed = match pushes(&mut deck, side) {
        Ok(()) => Ok(stolen(rt, thief)),
        Err(fault) => {
            drop(thief);
            Err(fault)
        }
    };
    drop(deck);
    crossed
}

fn crosses<N: TableName, R: Threads + Wait + Sync>(
    rt: &R,
    alloc: Global,
    opened: Opened<u32>,
    value: u32,
) -> Result<Option<(u32, u32)>, OutOfMemory>
    requires { opened ≡ N.table }
    ensures { IfOk result (λ r. IfSome r (λ values. values.0 ≡ values.1)) }
{
    let (pairs, mut source) = opened.named::<N>();
    let (mine, other) = forks(&pairs, &mut source, value);
    let crossed = crossed(rt, alloc, other);
    drop(source);
    let met = match crossed {
        Ok(Some(other)) => Ok(meets(&pairs, mine, other)),
        Ok(None) => {
            drop(mine);
            Ok(None)
        }
        Err(fault) => {
            drop(mine);
            Err(fault)
        }
    };
    drop(pairs);
    met
}

/// Returns both values of a pair, one half of which went to another thread and back.
pub fn there_and_back<R: Threads + Wait + Sync>(
    rt: &R,
    alloc: Global,
    value: u32,
) -> Result<Option<(u32, u32)>, OutOfMemory>
    ensures { IfOk result (λ r. IfSome r (λ values. values.0 ≡ values.1)) }
{
    let opened = Opened::new(alloc)?;
    crosses::<Brand, R>(rt, alloc, opened, value)
}

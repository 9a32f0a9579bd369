ghost use Rattle.std.specs.Prelude.{◌≡◌, ◌<◌, Contains};
ghost use Rattle.std.specs.Option.{ForSome};

use super::*;
use std::alloc::Global;
use std::marker::Brand;
use std::process::Abort;
use std::sync::ledger::{Blank, Ledger};
use std::test::Fail;

fn fill_two_places<L: Ledger, R: Abort>(rt: &R, alloc: Global, blank: Blank) -> Result<(), Fail>
    requires name { blank.name ≡ L.name }
    requires parts { blank.parts ≡ L.parts }
    requires some { 0 < L.parts }
{
    let mut steps = Steps::<L>::new(blank);
    let mut list = OrderList::with_room(alloc, 2)?;
    let e0 = list.insert_after(None)?;
    let e1 = list.insert_after(Some(e0))?;
    assert!(rt; list.before(e0, e1, &mut steps));
    assert!(rt; !list.before(e1, e0, &mut steps));
    match list.insert_after(Some(e1)) {
        Ok(_) => panic!(rt; "a third was taken"),
        Err(Full) => {}
    }
    list.remove(e0);
    let e2 = list.insert_after(Some(e1))?;
    assert!(rt; list.before(e1, e2, &mut steps));
    Ok(())
}

#[test]
fn a_list_with_room_for_two(rt: HostRuntime) -> Result<(), Fail> {
    fill_two_places::<Brand, HostRuntime>(&rt, rt.alloc(), Blank::new(1))
}

/// Where new elements go.
#[derive(Clone, Copy)]
enum Places {
    First,
    AfterOne,
    AfterTwoInTurn,
    AfterAny,
}

/// Returns an element that was made before, which the new one is to follow. Returns `None` if the new one is to go first.
fn place(made: &[u32], places: Places, turn: u32, random: u64) -> Option<u32>
    ensures { ForSome result (Contains made.now) }
{
    let index = match places {
        Places::First => return None,
        Places::AfterOne => 0,
        Places::AfterTwoInTurn => (turn % 2) as usize,
        Places::AfterAny => (random % (u64::from(turn) + 1)) as usize,
    };
    if index < made.len() {
        Some(made[index])
    } else {
        None
    }
}

fn next_random(random: u64) -> u64 {
    let mixed = random ^ (random << 13);
    let mixed = mixed ^ (mixed >> 7);
    mixed ^ (mixed << 17)
}

fn insert_many(alloc: Global, places: Places, n: u32) -> Result<(), Fail> {
    let mut list = OrderList::with_room(alloc, n)?;
    let mut made = Vec::with_capacity(alloc, n as usize)?;
    let mut random = 88_172_645_463_325_252;
    for turn in 0..n {
        random = next_random(random);
        let at = place(&made, places, turn, random);
        let element = list.insert_after(at)?;
        made.push(element)?;
    }
    Ok(())
}

/// Tests what no clause says: renumbering stays cheap, wherever the new elements go.
#[test]
fn many_insertions_end_soon(rt: HostRuntime) -> Result<(), Fail> {
    for places in [
        Places::First,
        Places::AfterOne,
        Places::AfterTwoInTurn,
        Places::AfterAny,
    ] {
        insert_many(rt.alloc(), places, 100_000)?;
    }
    Ok(())
}

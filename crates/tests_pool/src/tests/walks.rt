use std::test::Fail;
use tests_log::{Counts, Odds, Way, read_back, walked};

const WALKS: u64 = 20;

const ODDS: Odds = Odds {
    refused: 20,
    inline: 30,
    early: 30,
};

fn way(threads: bool, halts: bool) -> Way {
    Way {
        walks: WALKS,
        threads,
        halts,
    }
}

// Returns the smallest of the counts that walks without halts have to reach.
fn least(counts: &Counts) -> u64 {
    counts
        .refused
        .min(counts.rolled)
        .min(counts.inline)
        .min(counts.split)
        .min(counts.early)
        .min(counts.taken_back)
}

#[test]
fn walks_on_one_thread(rt: HostRuntime) -> Result<(), Fail> {
    let counts = walked(&rt, rt.alloc(), ODDS, way(false, false))?;
    assert!(rt; least(&counts) > 20);
    assert!(rt; counts.stuck == 0 && counts.halts == 0);
    assert!(rt; counts.logs == counts.two.saturating_add(WALKS));
    assert!(rt; counts.merged == counts.split);
    assert!(rt; walked(&rt, rt.alloc(), ODDS, way(false, false))? == counts);
    Ok(())
}

#[test]
fn walks_on_several_threads(rt: HostRuntime) -> Result<(), Fail> {
    let counts = walked(&rt, rt.alloc(), ODDS, way(true, false))?;
    assert!(rt; least(&counts) > 20);
    assert!(rt; counts.stuck == 0 && counts.halts == 0);
    assert!(rt; counts.logs == counts.two.saturating_add(WALKS));
    assert!(rt; counts.merged == counts.split);
    Ok(())
}

#[test]
fn walks_with_halts(rt: HostRuntime) -> Result<(), Fail> {
    let counts = walked(&rt, rt.alloc(), ODDS, way(true, true))?;
    assert!(rt; counts.halts > 10);
    assert!(rt; counts.stuck == 0);
    assert!(rt; counts.logs == counts.two.saturating_add(WALKS));
    Ok(())
}

#[test]
fn a_list_gives_what_was_written(rt: HostRuntime) -> Result<(), Fail> {
    assert!(rt; read_back(&rt, rt.alloc(), 5)? == Some(5));
    Ok(())
}

//! Comparisons of stamps, each with its tick.
ghost use Rattle.std.specs.Prelude.{◌≡◌, ◌+◌, nat_lt};
ghost use Rattle.cw_trace.specs.Query as query;

use cw_order::Steps;
use std::sync::ledger::Ledger;

/// Returns whether `stamp` is less than `other`.
pub(crate) fn is_less<L: Ledger>(stamp: u64, other: u64, compares: &mut Steps<L>) -> bool
    ensures value { result ≡ nat_lt stamp other }
    ensures cost { compares.new ≡ compares.old + 1 }
{
    compares.tick();
    stamp < other
}

/// Returns whether a block was begun at `word`, before `stamp`. A word of 0 is no begin.
pub(crate) fn came_before<L: Ledger>(word: u64, stamp: u64, compares: &mut Steps<L>) -> bool
    ensures value { result ≡ query.came_before word stamp }
    ensures cost { compares.new ≡ compares.old + 2 }
{
    let begun = is_less(0, word, compares);
    let earlier = is_less(word, stamp, compares);
    begun && earlier
}

ghost use Rattle.std.specs.Prelude.{◌↔◌, ◌≤◌, IsTrue};
ghost use Rattle.cw_audit.specs.Parts.{AreInRange};

use cw_code::{ABORTS, FUEL, Limits, MOVES, NumberRange, SIZE, STRANDS};

/// Returns whether each limit is a value that its option may have.
pub(crate) fn are_in_range(limits: &Limits) -> bool
    ensures { IsTrue result ↔ AreInRange limits.now }
{
    if !is_within(FUEL, limits.fuel) {
        return false;
    }
    if !is_within(SIZE, u64::from(limits.size)) {
        return false;
    }
    if !is_within(ABORTS, u64::from(limits.aborts)) {
        return false;
    }
    if !is_within(STRANDS, u64::from(limits.strands)) {
        return false;
    }
    is_within(MOVES, limits.moves)
}

/// Returns whether an option may have a value.
fn is_within(range: NumberRange, value: u64) -> bool
    ensures { IsTrue result ↔ ((range.least ≤ value) × (value ≤ range.most)) }
{
    range.least <= value && value <= range.most
}

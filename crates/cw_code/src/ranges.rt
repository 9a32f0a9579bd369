ghost use Rattle.std.specs.Prelude.{◌≡◌};
ghost use Rattle.cw_code.specs.Ranges.{AreRangesOfOptions, default_limits};

use crate::Limits;

/// The range of an option whose value is a number, and the value that it has if it is not given.
#[derive(Clone, Copy)]
pub struct NumberRange {
    pub least: u64,
    pub most: u64,
    pub default: u64,
}

/// The range of `fuel`.
pub const FUEL: NumberRange = NumberRange {
    least: 1,
    most: 1_000_000_000,
    default: 1_000_000,
};

/// The range of `size`.
pub const SIZE: NumberRange = NumberRange {
    least: 1,
    most: 10_000_000,
    default: 1_000_000,
};

/// The range of `aborts`.
pub const ABORTS: NumberRange = NumberRange {
    least: 1,
    most: 1_000_000_000,
    default: 100_000,
};

/// The range of `strands`.
pub const STRANDS: NumberRange = NumberRange {
    least: 1,
    most: 1_000_000,
    default: 262_144,
};

/// The range of `moves`.
pub const MOVES: NumberRange = NumberRange {
    least: 1,
    most: 1_000_000_000,
    default: 10_000_000,
};

/// The range of the number of workers.
pub const WORKERS: NumberRange = NumberRange {
    least: 1,
    most: 64,
    default: 4,
};

/// `FUEL` and the five constants after it are the ranges of the options, with their defaults.
pub fn constants_are_ranges_of_options()
    ensures { AreRangesOfOptions }
{}

/// Returns the limits of a command that gives none.
pub fn default_limits() -> Limits
    ensures { result ≡ default_limits }
{
    Limits {
        fuel: FUEL.default,
        size: SIZE.default as u32,
        aborts: ABORTS.default as u32,
        strands: STRANDS.default as u32,
        moves: MOVES.default,
    }
}

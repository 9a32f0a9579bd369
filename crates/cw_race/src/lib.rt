//! Races inside blocks: accesses of one cell that are in parallel, one of which writes, and that no inner block keeps apart.
//! Use `races` on the record of one worker's run.
//! Contracts cite `specs/Races.antt` (races, and the first one of each cell) and `specs/Kept.antt` (accesses in two orders, what is kept of
//! them, and what that tells). `specs/Worked.antt` tries them.
#![tactic(auto)]

ghost use Rattle.cw_race.specs.Kept.{KeptIsEnough, RivalsRace};
ghost use Rattle.cw_race.specs.Races.{RacesAgree};
ghost use Rattle.cw_race.specs.Worked.{Keeping, Racing, Quiet, Later};

mod finding;
mod kept;
mod race;
mod search;

pub use finding::races;
pub use race::Race;

/// Law: while no two accesses of a cell in a block race, the last writer and one reader tell whether the next access races with any of
/// them, and with which. The reader is replaced only by a read that comes after it in series.
pub fn kept_is_enough()
    ensures enough { KeptIsEnough }
    ensures rivals { RivalsRace }
{}

/// Law: any two lists of the races of a tree name the same cells, each with the same second access.
pub fn races_agree()
    ensures { RacesAgree }
{}

/// Computed examples: what is kept of a few accesses, and which accesses of small trees race.
pub fn worked_races()
    ensures kept { Keeping }
    ensures racing { Racing }
    ensures quiet { Quiet }
    ensures later { Later }
{}

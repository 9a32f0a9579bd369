//! Audits of record sheets: whether all that a sheet says fits together.
//! Use `audit` to find out whether to believe a sheet, and which part of it is the first that does not hold. Use the laws to conclude
//! from its parts that a sheet tells a coherent run, or from a coherent record that its sheet is sound.
//! Contracts cite `specs/Audits.antt` (what an audit answers), over `specs/Parts.antt` (the parts) and `specs/Journals.antt` (the
//! journals that a tree tells), and `specs/Laws.antt` (what the parts say together). `specs/TwoBlocks.antt` and `Together` are short
//! ways to parts 3 and 7. `specs/Settled.antt` tells from the tree alone whether strands can have done what it tells.
//! `specs/Worked.antt` tries it all on examples. `Groundwork`, `Stamps`, `Latest`, `LiveAccesses`, `Spans`, `Ended`, `Later`, `Victims`,
//! `Stamped`, `Apart`, `Repeats`, `Told`, `Moments`, `Backs`, `Naming`, `Visits`, `Visiting` and `Walkers` have what is computed on the
//! way to an answer.
#![tactic(auto)]

ghost use Rattle.cw_job.specs.Jobs.{Job};
ghost use Rattle.cw_job.specs.Room.Strands.{strands_of_job};
ghost use Rattle.cw_audit.specs.Laws.{AuditsAreOne, CoherentAreSound, OnlyOutputsBreakOrder, OrderIsOutputs, PartsAreCoherence, RecordsByParts, SoundIsCoherence, SoundOverSource};
ghost use Rattle.cw_audit.specs.Settled.{StatesAreSettled};
ghost use Rattle.cw_audit.specs.Together.{AccessesAreTogether, WrittenByPairs};
ghost use Rattle.cw_audit.specs.TwoBlocks.{EndedByTwo};
ghost use Rattle.cw_audit.specs.Worked.{BrokenSheets, SoundSheets};

mod accesses;
mod apart;
mod attempts;
mod auditing;
mod blocks;
mod by_cell;
mod cancels;
mod ending;
mod entries;
mod findings;
mod firsts;
mod kinds;
mod latest;
mod limits;
mod moments;
mod naming;
mod outputs;
mod parts;
mod program;
mod recorded;
mod refusals;
mod refused;
mod series;
mod spans;
mod spent;
mod stamped;
mod stamps;
mod strands;
mod surely;
mod told;
mod victims;
mod words;

pub use auditing::audit;
pub use findings::Audit;

/// Law: parts 1 to 7 of a sheet hold exactly if the sheet tells a coherent run of its program, with words and limits as they may
/// be. The same for a record's sheet, if the record's journals are those of its tree.
pub fn parts_are_coherence()
    ensures sheets { PartsAreCoherence }
    ensures records { RecordsByParts }
{}

/// Law: a sheet is sound exactly if it tells a coherent run and has its outputs. So is the sheet of a coherent record that has its
/// outputs, if its limits are in range.
pub fn coherent_are_sound()
    ensures sheets { SoundIsCoherence }
    ensures records { CoherentAreSound }
{}

/// Law: once parts 1 to 7 hold, part 8 is about outputs alone. If it does not hold, one memory finishes with the same memory and
/// other outputs.
pub fn order_is_outputs()
    ensures holds { OrderIsOutputs }
    ensures breaks { OnlyOutputsBreakOrder }
{}

/// Law: a sound sheet replays over the syntax tree of its source, so that nobody need read code or the compiler.
pub fn sound_over_source()
    ensures { SoundOverSource }
{}

/// Law: for two neighbours in a journal, two blocks above the first tell whether part 3 holds of them, if part 1 holds.
pub fn two_blocks_tell()
    ensures { EndedByTwo }
{}

/// Law: if parts 1 and 3 hold, the live accesses of a cell beneath a block are together in its journal. So neighbours among its live
/// writes tell whether the cell was written beneath the block.
pub fn accesses_are_together()
    ensures together { AccessesAreTogether }
    ensures written { WrittenByPairs }
{}

/// Law: strands can have done what a tree tells exactly if the strand of main fits the tree, from the root down. So a walk down the
/// tree decides it: where a strand is behind each node is settled wherever something may follow.
pub fn states_are_settled()
    ensures { (job : Job) → StatesAreSettled (strands_of_job job) }
{}

/// Law: no sheet has two answers.
pub fn audits_are_one()
    ensures { AuditsAreOne }
{}

/// Computed examples: small sheets that are sound, and the first part that breaks if one thing in them is changed.
pub fn worked_audits()
    ensures sound { SoundSheets }
    ensures broken { BrokenSheets }
{}

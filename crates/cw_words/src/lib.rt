//! The words of the command line: which of them are a command, and what it says. clap parses them; use this crate in a program
//! that takes the same commands. Contracts cite `specs/Words.antt` (which words are which command) and, beneath it,
//! `specs/Options.antt` (how words give options). Private ones cite `specs/Shapes.antt` (the command line as clap has it),
//! `specs/Asked.antt` (what clap's matches ask for) and `specs/Reading.antt` (what reading gives if memory may run out).
#![tactic(auto)]

mod asked;
mod command;
mod line;
mod options;

ghost use Rattle.cw_words.specs.Worked.{Checks, Commands, Keeps, Loads, RaceSearches, Simulations};

pub use command::{Command, ReportVersion, command_of};

/// Examples of words, and the commands that they are.
pub fn worked_words()
    ensures runs { Commands }
    ensures simulations { Simulations }
    ensures loads { Loads }
    ensures keeps { Keeps }
    ensures races { RaceSearches }
    ensures checks { Checks }
{}

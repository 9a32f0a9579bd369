ghost use Rattle.std.specs.Prelude.{◌≡◌, IfOk, false, length, map, string_bytes, true};
ghost use Rattle.std.specs.List.{list_any};
ghost use Rattle.clap.specs.Words.{found_of};
ghost use Rattle.cw_words.specs.Asked.{check_at, is_dash, keep_at, load_asked, races_at, run_at, sim_at, value_in, words_in};
ghost use Rattle.cw_words.specs.Shapes.{has_no_odd};
ghost use Rattle.cw_words.specs.Words.{command_of, words_of};

use crate::asked::{
    has_no_word, integers_of, limits_of, report_of, schedule_of, transfers_of, workers_of,
};
use crate::line::parsed;
use clap::ArgMatches;
use clap::error::ErrorKind;
use cw_base::{OutOfMemory, Seq};
use cw_code::Limits;
use cw_io::Schedule;
use std::alloc::Global;

/// The versions of the report. The second one also says how many blocks were cancelled.
#[derive(Clone, Copy, PartialEq, Eq, Debug)]
pub enum ReportVersion {
    First,
    Second,
}

/// What a command asks for, with what its words say.
#[derive(Drop)]
pub enum Command {
    /// Reads a program from the source, runs it with these words and limits by `workers` workers, and writes its result, and the
    /// report if it is asked for.
    Run {
        words: Seq<i64>,
        limits: Limits,
        workers: u32,
        report: Option<ReportVersion>,
    },
    /// Like `Run`, but with virtual workers, who move in the turns of `schedule`.
    Sim {
        words: Seq<i64>,
        limits: Limits,
        workers: u32,
        schedule: Schedule,
        report: Option<ReportVersion>,
    },
    /// Reads nothing, runs a program of `transfers` transfers by `workers` workers, and writes a summary of it.
    Load {
        transfers: u32,
        workers: u32,
    },
    /// Runs a program as `Run` does, and writes the whole run down as a record sheet.
    Keep {
        words: Seq<i64>,
        limits: Limits,
        workers: u32,
    },
    /// Reads a program from the source, runs it depth first with these words and limits, and writes the races of that run.
    Races {
        words: Seq<i64>,
        limits: Limits,
    },
    /// Reads a record sheet from the source, runs nothing, and writes whether all that the sheet says fits together.
    Check,
}

impl Command {
    /// Returns the number of main's words.
    pub fn word_count(&self) -> usize
        ensures { result ≡ length (words_of self.now) }
    {
        match self {
            Command::Run { words, .. }
            | Command::Sim { words, .. }
            | Command::Keep { words, .. }
            | Command::Races { words, .. } => words.len(),
            Command::Load { .. } | Command::Check => 0,
        }
    }
}

// Returns the run that options and words ask for.
fn run_with(alloc: Global, found: &ArgMatches<'_>) -> Result<Option<Command>, OutOfMemory>
    ensures { IfOk result (λ c. c ≡ run_at (value_in (found_of found.now)) (words_in (found_of found.now))) }
{
    let Some(limits) = limits_of(found) else {
        return Ok(None);
    };
    let Some(report) = report_of(found) else {
        return Ok(None);
    };
    let Some(workers) = workers_of(found) else {
        return Ok(None);
    };
    let Some(kept) = integers_of(alloc, found) else {
        return Ok(None);
    };
    Ok(Some(Command::Run {
        words: kept?,
        limits,
        workers,
        report,
    }))
}

// Returns the simulation that options and words ask for.
fn sim_with(alloc: Global, found: &ArgMatches<'_>) -> Result<Option<Command>, OutOfMemory>
    ensures { IfOk result (λ c. c ≡ sim_at (value_in (found_of found.now)) (words_in (found_of found.now))) }
{
    let Some(limits) = limits_of(found) else {
        return Ok(None);
    };
    let Some(report) = report_of(found) else {
        return Ok(None);
    };
    let Some(workers) = workers_of(found) else {
        return Ok(None);
    };
    let Some(schedule) = schedule_of(alloc, found, workers) else {
        return Ok(None);
    };
    let Some(kept) = integers_of(alloc, found) else {
        return Ok(None);
    };
    Ok(Some(Command::Sim {
        words: kept?,
        limits,
        workers,
        schedule: schedule?,
        report,
    }))
}

// Returns the load that options and a word ask for.
fn load_with(found: &ArgMatches<'_>) -> Option<Command>
    ensures { result ≡ load_asked (value_in (found_of found.now)) (words_in (found_of found.now)) }
{
    let workers = workers_of(found)?;
    let transfers = transfers_of(found)?;
    Some(Command::Load { transfers, workers })
}

// Returns the kept run that options and words ask for.
fn keep_with(alloc: Global, found: &ArgMatches<'_>) -> Result<Option<Command>, OutOfMemory>
    ensures { IfOk result (λ c. c ≡ keep_at (value_in (found_of found.now)) (words_in (found_of found.now))) }
{
    let Some(limits) = limits_of(found) else {
        return Ok(None);
    };
    let Some(workers) = workers_of(found) else {
        return Ok(None);
    };
    let Some(kept) = integers_of(alloc, found) else {
        return Ok(None);
    };
    Ok(Some(Command::Keep {
        words: kept?,
        limits,
        workers,
    }))
}

// Returns the search for races that options and words ask for.
fn races_with(alloc: Global, found: &ArgMatches<'_>) -> Result<Option<Command>, OutOfMemory>
    ensures { IfOk result (λ c. c ≡ races_at (value_in (found_of found.now)) (words_in (found_of found.now))) }
{
    let Some(limits) = limits_of(found) else {
        return Ok(None);
    };
    let Some(kept) = integers_of(alloc, found) else {
        return Ok(None);
    };
    Ok(Some(Command::Races {
        words: kept?,
        limits,
    }))
}

// Returns the check of a sheet, if there is no word.
fn check_with(found: &ArgMatches<'_>) -> Option<Command>
    ensures { result ≡ check_at (value_in (found_of found.now)) (words_in (found_of found.now)) }
{
    if has_no_word(found) {
        Some(Command::Check)
    } else {
        None
    }
}

// Whether one of the words is `-`. clap takes it as a value or a plain word.
fn has_hyphen_alone(words: &[String]) -> bool
    ensures dash { result ≡ list_any is_dash (map string_bytes words.now) }
    ensures even { result ≡ false → has_no_odd (map string_bytes words.now) ≡ true }
{
    for word in words {
        if word.as_str() == "-" {
            return true;
        }
    }
    false
}

/// Returns the command that the words behind the program's name are, if they are one. Out of memory may be returned for any words.
pub fn command_of(alloc: Global, words: &[String]) -> Result<Option<Command>, OutOfMemory>
    ensures exact { IfOk result (λ c. c ≡ command_of (map string_bytes words.now)) }
{
    if has_hyphen_alone(words) {
        return Ok(None);
    }
    let matches = match parsed(alloc, words) {
        Ok(matches) => matches,
        Err(error) => {
            return match error.kind() {
                ErrorKind::OutOfMemory => Err(OutOfMemory),
                _ => Ok(None),
            };
        }
    };
    let Some((name, found)) = matches.subcommand() else {
        return Ok(None);
    };
    if name == "run" {
        run_with(alloc, found)
    } else if name == "sim" {
        sim_with(alloc, found)
    } else if name == "load" {
        Ok(load_with(found))
    } else if name == "keep" {
        keep_with(alloc, found)
    } else if name == "races" {
        races_with(alloc, found)
    } else if name == "check" {
        Ok(check_with(found))
    } else {
        Ok(None)
    }
}

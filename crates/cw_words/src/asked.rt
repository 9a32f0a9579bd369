ghost use Rattle.std.specs.Prelude.{◌≡◌, ◌<◌, ◌≤◌, ◌==◌, ℕ, IfOk, IfSome, IsOkAnd, None, length, map, option_map};
ghost use Rattle.clap.specs.Words.{found_of};
ghost use Rattle.cw_code.specs.Ranges.{option_of, workers_option};
ghost use Rattle.cw_io.specs.declared.schedule.Schedule.TheVariants.{List as Listed};
ghost use Rattle.cw_words.specs.Asked.{limits_at, report_at, schedule_at, transfers_at, value_in, words_in};
ghost use Rattle.cw_words.specs.Options.{integers_of, number_in, sole_word};
ghost use Rattle.cw_words.specs.Reading.{Reads};
ghost use Rattle.cw_words.specs.Words.{schedule_in as schedule_by};

use crate::ReportVersion;
use crate::options::{Kept, integer_of, list_below, number_within, with_one};
use clap::ArgMatches;
use cw_base::{OutOfMemory, Seq};
use cw_code::{ABORTS, FUEL, Limits, MOVES, NumberRange, SIZE, STRANDS, WORKERS};
use cw_io::Schedule;
use std::alloc::Global;

// The most workers that may be listed.
const MOST_LISTED: usize = 20_000;

// The most transfers that a load has.
const MOST_TRANSFERS: u64 = 20_000;

// Returns the value given to the option `name`, if one is given.
fn value_of<'a>(found: &ArgMatches<'a>, name: &str) -> Option<&'a str>
    ensures { option_map (λ v. v.now) result ≡ value_in (found_of found.now) name.now }
{
    found.get_str(name)
}

// Returns the number in `range` given to the option `name`, or the default if the option is not given.
fn number_of(found: &ArgMatches<'_>, name: &str, range: NumberRange) -> Option<u64>
    requires least { range.least ≤ range.default }
    requires most { range.default ≤ range.most }
    ensures exact { result ≡ number_in (option_of name.now range) (value_in (found_of found.now) name.now) }
    ensures within { IfSome result (λ n. (range.least ≤ n) × (n ≤ range.most)) }
{
    match value_of(found, name) {
        Some(value) => number_within(value, range.least, range.most),
        None => Some(range.default),
    }
}

/// Returns the limits that options give.
pub fn limits_of(found: &ArgMatches<'_>) -> Option<Limits>
    ensures { result ≡ limits_at (value_in (found_of found.now)) }
{
    let fuel = number_of(found, "fuel", FUEL)?;
    let size = number_of(found, "size", SIZE)?;
    let aborts = number_of(found, "aborts", ABORTS)?;
    let strands = number_of(found, "strands", STRANDS)?;
    let moves = number_of(found, "moves", MOVES)?;
    Some(Limits {
        fuel,
        size: size as u32,
        aborts: aborts as u32,
        strands: strands as u32,
        moves,
    })
}

/// Returns the version of the report that options ask for, if they ask for one.
pub fn report_of(found: &ArgMatches<'_>) -> Option<Option<ReportVersion>>
    ensures { result ≡ report_at (value_in (found_of found.now)) }
{
    match value_of(found, "report") {
        Some(value) => {
            let number = number_within(value, 1, 2)?;
            let version = if number == 1 {
                ReportVersion::First
            } else {
                ReportVersion::Second
            };
            Some(Some(version))
        }
        None => Some(None),
    }
}

/// Returns the number of workers that options give.
pub fn workers_of(found: &ArgMatches<'_>) -> Option<u32>
    ensures some { IfSome result (λ n. 0 < n) }
    ensures exact { result ≡ number_in workers_option (value_in (found_of found.now) workers_option.name) }
{
    Some(number_of(found, "workers", WORKERS)? as u32)
}

fn listed(kept: Kept<u32>) -> Result<Schedule, OutOfMemory>
    ensures { IfOk result (λ s. IsOkAnd kept (λ list. s ≡ Listed list)) }
{
    Ok(Schedule::List(kept?))
}

// Without `--schedule`: the seed, or an empty list if there is none either.
fn unlisted(alloc: Global, seed: Option<&str>) -> Option<Result<Schedule, OutOfMemory>>
    ensures { (workers : ℕ) → Reads (schedule_by workers None (option_map (λ v. v.now) seed.entry)) result }
{
    match seed {
        Some(text) => Some(Ok(Schedule::Seeded(number_within(text, 0, u64::MAX)?))),
        None => Some(Ok(Schedule::List(Seq::new(alloc)))),
    }
}

/// Returns the schedule for `workers` workers that options give: a list or a seed, and not both.
pub fn schedule_of(
    alloc: Global,
    found: &ArgMatches<'_>,
    workers: u32,
) -> Option<Result<Schedule, OutOfMemory>>
    requires { 0 < workers }
    ensures { Reads (schedule_at workers (value_in (found_of found.now))) result }
{
    let list = value_of(found, "schedule");
    let seed = value_of(found, "seed");
    let Some(text) = list else {
        return unlisted(alloc, seed);
    };
    if seed.is_some() {
        return None;
    }
    let kept = list_below(alloc, text, workers, MOST_LISTED)?;
    Some(listed(kept))
}

// Returns the integers that words spell.
fn integers_in(alloc: Global, words: &[&str]) -> Option<Kept<i64>>
    ensures { Reads (integers_of (map (λ w. w.now) words.now)) result }
{
    let mut kept = Ok(Seq::new(alloc));
    for word in words {
        kept = with_one(kept, integer_of(*word)?);
    }
    Some(kept)
}

/// Returns the integers that the words belonging to no option spell.
pub fn integers_of(alloc: Global, found: &ArgMatches<'_>) -> Option<Kept<i64>>
    ensures { Reads (integers_of (words_in (found_of found.now))) result }
{
    match found.get_strs("words") {
        Some(words) => integers_in(alloc, words),
        None => Some(Ok(Seq::new(alloc))),
    }
}

/// Whether there is no word that belongs to no option.
pub fn has_no_word(found: &ArgMatches<'_>) -> bool
    ensures { result ≡ (length (words_in (found_of found.now)) == 0) }
{
    match found.get_strs("words") {
        Some(words) => words.is_empty(),
        None => true,
    }
}

// Returns the one word, if there is exactly one.
fn sole_of<'a>(words: &[&'a str]) -> Option<&'a str>
    ensures { option_map (λ w. w.now) result ≡ sole_word (map (λ w. w.now) words.now) }
{
    if let [word] = words {
        Some(*word)
    } else {
        None
    }
}

/// Returns the number of transfers: what the one word that belongs to no option spells.
pub fn transfers_of(found: &ArgMatches<'_>) -> Option<u32>
    ensures { result ≡ transfers_at (words_in (found_of found.now)) }
{
    let words = found.get_strs("words")?;
    let word = sole_of(words)?;
    Some(number_within(word, 1, MOST_TRANSFERS)? as u32)
}

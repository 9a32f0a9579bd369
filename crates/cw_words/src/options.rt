ghost use Rattle.std.specs.Prelude.{◌≡◌, ◌<◌, ◌≤◌, ◌∷◌, ◌++◌, [], IfOk, IfSome, IsOkAnd};
ghost use Rattle.cw_words.specs.Options.{integer_of, list_below, number_within, parts_of};
ghost use Rattle.cw_words.specs.Reading.{Reads, parts_behind};

use cw_base::{OutOfMemory, Seq};
use std::alloc::Global;

/// What was read, or out of memory. Reading goes on after that error, so that words which are no command are still found.
pub type Kept<T> = Result<Seq<T>, OutOfMemory>;

/// Adds `item` to what was read.
pub fn with_one<T: Drop>(kept: Kept<T>, item: T) -> Kept<T>
    ensures { IfOk result (λ ns. IsOkAnd kept (λ ms. ns ≡ ms ++ item ∷ [])) }
{
    let mut items = kept?;
    items.push(item)?;
    Ok(items)
}

/// Returns the number within these bounds that `value` spells.
pub fn number_within(value: &str, least: u64, most: u64) -> Option<u64>
    ensures exact { result ≡ number_within least most value.now }
    ensures within { IfSome result (λ n. (least ≤ n) × (n ≤ most)) }
{
    // `parse` takes a sign, which a number here may not have.
    if value.starts_with('+') {
        return None;
    }
    let number = value.parse::<u64>().ok()?;
    if number < least || most < number {
        return None;
    }
    Some(number)
}

/// Returns the integer that `word` spells.
pub fn integer_of(word: &str) -> Option<i64>
    ensures { result ≡ integer_of word.now }
{
    // `parse` takes a plus, which a word may not have.
    if word.starts_with('+') {
        return None;
    }
    word.parse::<i64>().ok()
}

// Returns the part of a text before its first comma, and what comes behind that comma.
fn first_part(text: &str) -> (&str, Option<&str>)
    ensures { parts_of text.now ≡ result.0.now ∷ parts_behind result.1 }
{
    match text.split_once(',') {
        Some((part, behind)) => (part, Some(behind)),
        None => (text, None),
    }
}

/// Returns the list that `text` spells: at most `most` numbers below `limit`, with commas between them.
pub fn list_below(alloc: Global, text: &str, limit: u32, most: usize) -> Option<Kept<u32>>
    requires { 0 < limit }
    ensures { Reads (list_below limit most text.now) result }
{
    let mut kept = Ok(Seq::new(alloc));
    let mut count = 0;
    let mut rest = text;
    'parts: loop {
        if count == most {
            return None;
        }
        let (part, behind) = first_part(rest);
        let number = number_within(part, 0, u64::from(limit) - 1)?;
        kept = with_one(kept, number as u32);
        count += 1;
        let Some(behind) = behind else {
            return Some(kept);
        };
        rest = behind;
    }
}

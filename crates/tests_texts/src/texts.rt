use cw_base::OutOfMemory;
use std::alloc::Global;

/// The number that a word spells, and 0 where it spells none.
pub(crate) fn number(word: &str) -> i64 {
    word.parse::<i64>().unwrap_or(0)
}

/// The number that a word spells, and 0 where it spells none that fits.
pub(crate) fn count(word: &str) -> u32 {
    word.parse::<u32>().unwrap_or(0)
}

/// Puts the bytes behind a text that these words spell, two digits each.
fn put_bytes(text: &mut Vec<u8>, digits: &str) -> Result<(), OutOfMemory> {
    let mut words = digits.split(' ');
    for word in &mut words {
        text.push(u8::from_str_radix(word, 16).unwrap_or(0))?;
    }
    Ok(())
}

/// Puts a text behind another one, as many times as `times` says.
fn put_often(text: &mut Vec<u8>, times: &str, repeated: &str) -> Result<(), OutOfMemory> {
    for _ in 0..count(times) {
        text.extend_from_slice(repeated.as_bytes())?;
    }
    Ok(())
}

/// Puts a part between backquotes behind a text.
fn put_part(text: &mut Vec<u8>, part: &str) -> Result<(), OutOfMemory> {
    let (first, behind) = part.split_once(' ').unwrap_or((part, ""));
    if first == "x" {
        put_bytes(text, behind)
    } else {
        put_often(text, first, behind)
    }
}

/// Puts the text of a case behind another one.
fn put_all(text: &mut Vec<u8>, written: &str) -> Result<(), OutOfMemory> {
    let mut is_quoted = false;
    let mut parts = written.split('`');
    for part in &mut parts {
        if is_quoted {
            put_part(text, part)?;
        } else {
            text.extend_from_slice(part.as_bytes())?;
        }
        is_quoted = !is_quoted;
    }
    Ok(())
}

/// The text of a case: as it is written, except between two backquotes. A number, a space and a text there mean that text, that many times. An
/// `x`, a space and bytes of two digits each, with a space between them, mean these bytes.
pub(crate) fn whole(alloc: Global, written: &str) -> Result<Vec<u8>, OutOfMemory> {
    let mut text = Vec::new(alloc);
    put_all(&mut text, written)?;
    Ok(text)
}

ghost use Rattle.std.specs.Prelude.{◌≡◌, ◌≤◌, ◌<◌, ◌^◌, length, ◌⊎◌};
ghost use Rattle.cw_text.specs.Text.{line_of, program, reading, Reads};

use crate::parser::{self, refusal};
use crate::scan::newlines;
use crate::{Ast, TextKind, TextRefusal};
use std::alloc::Global;
use std::str;

// The most bytes of a text that `read_language` reads.
const MAX_LEN: usize = 1_048_576;

// The most bytes of a text that `read_long` reads.
const MAX_LONG_LEN: usize = 67_108_864;

// The line of the byte at `place`: 1 plus the number of newlines before it.
fn line_of(text: &[u8], place: usize) -> u32
    requires within { place ≤ length text.now }
    requires short { length text.now < 2 ^ 31 }
    ensures { result ≡ line_of place text.now }
{
    1 + newlines(&text[..place]) as u32
}

/// Reads a program. Returns the tree that the text spells, or the text's first fault with its line.
///
/// A program is cells, plain ones and arrays, and functions, each with its parameters. Its statements are `let`,
/// assignments to names and to elements of arrays, calls, `out`, `sync`, `return`, the choice `if` with or without its
/// `else`, the loop `while`, the blocks `atomic` and `spawn`, and in language 2 `cancel`. Blocks may be nested.
///
/// A text may begin with `language`, a number and `;`: its language, 1 or 2. Without them it is of language 1.
///
/// A text of more than 1,048,576 bytes is `TooLong`, on line 0. Otherwise a byte that belongs to no whole UTF-8
/// character is `NotUtf8`, wherever it is. Only then are the tokens read one by one, up to the first that is no token
/// (`BadChar`, `BadNumber`), is not allowed in its place (`Unexpected`) or makes the text `TooDeep`. An array length of
/// 0 is a `BadNumber` too.
/// Lines are counted from 1, and the end of the text is on its last line. `OutOfMemory` says nothing about the text.
/// `read_language` refuses a language after `newest` as `Unexpected`, at its number.
pub fn read_language(alloc: Global, bytes: &[u8], newest: u32) -> Result<Ast, TextRefusal>
    requires newest { (newest ≡ 1) ⊎ (newest ≡ 2) }
    ensures exact { Reads result (program newest bytes.now) }
{
    read_at_most(alloc, bytes, newest, MAX_LEN)
}

/// Like `read_language`, up to the newest language, which is 2.
pub fn read_program(alloc: Global, bytes: &[u8]) -> Result<Ast, TextRefusal>
    ensures exact { Reads result (program 2 bytes.now) }
{
    read_language(alloc, bytes, 2)
}

/// Like `read_program`, but only a text of more than 67,108,864 bytes is `TooLong`.
pub fn read_long(alloc: Global, bytes: &[u8]) -> Result<Ast, TextRefusal>
    ensures exact { Reads result (reading 2 67108864 bytes.now) }
{
    read_at_most(alloc, bytes, 2, MAX_LONG_LEN)
}

// Reads a text of at most `most` bytes, in a language up to `newest`.
#[tactic(auto, using(crate::proofs::Readings::reading_is))]
fn read_at_most(alloc: Global, bytes: &[u8], newest: u32, most: usize) -> Result<Ast, TextRefusal>
    requires most { most ≤ 2 ^ 26 }
    ensures exact { Reads result (reading newest most bytes.now) }
{
    if bytes.len() > most {
        return Err(refusal(TextKind::TooLong, 0));
    }
    if let Err(error) = str::from_utf8(bytes) {
        return Err(refusal(TextKind::NotUtf8, line_of(bytes, error.valid_up_to())));
    }
    parser::source(alloc, bytes, newest)
}

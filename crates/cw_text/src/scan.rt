ghost use Rattle.std.specs.Prelude.{◌≡◌, ◌≤◌, ◌<◌, ◌^◌, ◌==◌, not, length, take_while, count_by, SomeIff};
ghost use Rattle.std.specs.Char.{is_ascii_digit};
ghost use Rattle.std.specs.List.{AllPass};
ghost use Rattle.cw_text.specs.Front.{lexeme_of, front_of};
ghost use Rattle.cw_text.specs.Lexemes.{is_letter, is_word, is_blank, begins_by};
ghost use Rattle.cw_text.specs.Lexemes.{word_token, number_token, value_of_digits, after_digits};
ghost use Rattle.cw_text.specs.Lexemes.{found, sign_front, front};

use crate::cursor::Token;
use crate::letters::{Letters, Whole};
use crate::spelling::{SIGNS, spelling};
use crate::{Terminal, TextKind};

/// What a text begins with, a gap or a token, and how many bytes it takes.
#[derive(Clone, Copy)]
pub enum Front<'a> {
    Gap(usize),
    Found(Token<'a>, usize),
}

// Whether a byte may begin a word.
fn is_letter(byte: u8) -> bool
    ensures { result ≡ is_letter byte }
{
    byte.is_ascii_alphabetic() || byte == b'_'
}

// Whether a byte may occur in a word.
fn is_word(byte: u8) -> bool
    ensures { result ≡ is_word byte }
{
    is_letter(byte) || byte.is_ascii_digit()
}

// Whether a byte only separates tokens.
fn is_blank(byte: u8) -> bool
    ensures { result ≡ is_blank byte }
{
    matches!(byte, b' ' | b'\t' | b'\r' | b'\n')
}

/// The number of newlines in `text`.
pub fn newlines(text: &[u8]) -> usize
    ensures { result ≡ count_by (λ c. c == 10) text.now }
{
    text.iter().filter(|byte| **byte == b'\n').count()
}

// The length of the word that `text` begins with.
fn word_len(text: &[u8]) -> usize
    ensures exact { result ≡ length (take_while is_word text.now) }
    ensures fits { result ≤ length text.now }
{
    text.iter().take_while(|byte| is_word(**byte)).count()
}

// The number of digits that `text` begins with.
fn digits_len(text: &[u8]) -> usize
    ensures exact { result ≡ length (take_while is_ascii_digit text.now) }
    ensures fits { result ≤ length text.now }
{
    text.iter().take_while(|byte| byte.is_ascii_digit()).count()
}

// The length of the rest of the line, without its newline.
fn line_len(text: &[u8]) -> usize
    ensures { result ≡ length (take_while (λ c. not (c == 10)) text.now) }
{
    text.iter().take_while(|byte| **byte != b'\n').count()
}

// The keyword that `word` is, otherwise a name.
fn word_token<'a>(words: &[Terminal], word: &'a [u8]) -> Token<'a>
    requires { AllPass is_word word.now }
    ensures { lexeme_of result ≡ word_token words.now word.now }
{
    for terminal in words {
        if spelling(*terminal) == word {
            return Token::Terminal(*terminal);
        }
    }
    Token::Name(Letters { bytes: word })
}

// The value of `digits`, if it fits an `i64`.
#[tactic(auto, using(crate::proofs::Digits::value_on_next))]
fn value_of(digits: &[u8]) -> Option<u64>
    requires { AllPass is_ascii_digit digits.now }
    ensures { SomeIff result (value_of_digits digits.now < 2 ^ 63) (value_of_digits digits.now) }
{
    let mut value: u64 = 0;
    for digit in digits {
        value = value.checked_mul(10)?.checked_add(u64::from(digit - b'0'))?;
    }
    (value <= i64::MAX as u64).then_some(value)
}

// Whether `text` begins with a letter.
fn begins_word(text: &[u8]) -> bool
    ensures { result ≡ begins_by is_letter text.now }
{
    text.first().is_some_and(|byte| is_letter(*byte))
}

// The number that `digits` spell, unless it is too large or `rest` begins with a letter.
fn number_token(digits: &[u8], rest: &[u8]) -> Token<'static>
    requires { AllPass is_ascii_digit digits.now }
    ensures { lexeme_of result ≡ number_token digits.now rest.now }
{
    match value_of(digits) {
        Some(value) if !begins_word(rest) => Token::Number(Whole { value }),
        _ => Token::Bad(TextKind::BadNumber),
    }
}

// The first of `signs` that `text` begins with.
fn sign_front(signs: &[Terminal], text: &[u8]) -> Front<'static>
    ensures { front_of result ≡ sign_front signs.now text.now }
{
    for terminal in signs {
        let spelling = spelling(*terminal);
        if text.starts_with(spelling) {
            return Front::Found(Token::Terminal(*terminal), spelling.len());
        }
    }
    Front::Found(Token::Bad(TextKind::BadChar), 1)
}

// The word that `text` begins with.
fn word_front<'a>(words: &[Terminal], text: &'a [u8]) -> Front<'a>
    ensures { let word = take_while is_word text.now in
        front_of result ≡ found (word_token words.now word) (length word) }
{
    let word = &text[..word_len(text)];
    Front::Found(word_token(words, word), word.len())
}

// The number that `text` begins with.
fn number_front(text: &[u8]) -> Front<'static>
    ensures { let digits = take_while is_ascii_digit text.now in
        front_of result ≡ found (number_token digits (after_digits text.now)) (length digits) }
{
    let (digits, rest) = text.split_at(digits_len(text));
    Front::Found(number_token(digits, rest), digits.len())
}

/// Returns what `text` begins with. `words` are the keywords.
#[tactic(auto, using(crate::proofs::Fronts::word_is_front, crate::proofs::Fronts::number_is_front))]
pub fn read_front<'a>(words: &[Terminal], text: &'a [u8]) -> Front<'a>
    ensures { front_of result ≡ front words.now text.now }
{
    match text {
        [] => Front::Gap(0),
        [byte, ..] if is_blank(*byte) => Front::Gap(1),
        [byte, ..] if is_letter(*byte) => word_front(words, text),
        [byte, ..] if byte.is_ascii_digit() => number_front(text),
        _ if text.starts_with(b"//") => Front::Gap(line_len(text)),
        _ => sign_front(&SIGNS, text),
    }
}

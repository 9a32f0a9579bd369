ghost use Rattle.std.specs.Prelude.{◌≡◌, ◌<◌, ◌≤◌, ◌+◌, ◌^◌, length, drop, List};
ghost use Rattle.cw_text.specs.declared.terminal.Terminal.{Terminal};
ghost use Rattle.cw_text.specs.Lexemes.{keywords_of, lexemes, lexemes_from};

use crate::letters::{Letters, Whole};
use crate::scan::{Front, newlines, read_front};
use crate::spelling::keywords_of;
use crate::{Terminal, TextKind};

/// A token of a text. `Bad` means that there is no token, and why.
#[derive(Clone, Copy)]
pub enum Token<'a> {
    Name(Letters<'a>),
    Number(Whole),
    Terminal(Terminal),
    Bad(TextKind),
    End,
}

/// A position in a text: the token there with its line, and the bytes behind it with the line on which they begin.
/// `language` decides which words are keywords.
#[derive(Drop)]
pub struct Cursor<'a> {
    pub language: u32,
    pub token: Token<'a>,
    pub line: u32,
    rest: &'a [u8],
    rest_line: u32,
    ghost short: { rest_line + length rest.now ≤ 2 ^ 26 + 1 },
}

impl<'a> Cursor<'a> {
    ghost use Rattle.cw_text.specs.Cursor.{tokens_left};
    ghost use Rattle.cw_text.specs.Lexemes.{rest_of};
    ghost use Rattle.cw_text.specs.Text.{is_headed, items_of};

    /// Returns the cursor at the first token of `text`, read with the keywords of `language`.
    pub fn new(language: u32, text: &'a [u8]) -> Cursor<'a>
        requires { length text.now ≤ 2 ^ 26 }
        ensures { tokens_left result ≡ lexemes (keywords_of language) text.now }
    {
        Cursor::first_in(language, text, 1)
    }

    /// Returns the cursor at the first token behind the line that names the language.
    pub fn behind_heading(language: u32, text: &'a [u8]) -> Cursor<'a>
        requires { length text.now ≤ 2 ^ 26 }
        ensures { tokens_left result ≡ items_of (lexemes (keywords_of language) text.now) }
    {
        let mut cursor = Cursor::new(language, text);
        if cursor.is_headed() {
            cursor.advance();
            cursor.advance();
            cursor.advance();
        }
        cursor
    }

    /// Whether a line begins here that names the language of the text.
    pub fn is_headed(&self) -> bool
        ensures { result ≡ is_headed (tokens_left self.now) }
    {
        match self.token {
            Token::Name(letters) => letters.bytes == b"language".as_slice(),
            _ => false,
        }
    }

    /// Goes on to the next token. At the end the cursor stays.
    pub fn advance(&mut self)
        ensures { tokens_left self.new ≡ rest_of (tokens_left self.old) }
    {
        if !matches!(self.token, Token::End) {
            *self = Cursor::first_in(self.language, self.rest, self.rest_line);
        }
    }

    // The cursor at the first token of `text`, which begins on line `line`.
    #[tactic(auto, using(crate::proofs::Fronts::front_width, crate::proofs::Passing::begun))]
    fn first_in(language: u32, text: &'a [u8], line: u32) -> Cursor<'a>
        requires { line + length text.now ≤ 2 ^ 26 + 1 }
        ensures { tokens_left result ≡ lexemes_from (keywords_of language) line 0 text.now }
    {
        let words = keywords_of(language);
        let (mut rest, mut rest_line) = (text, line);
        while !rest.is_empty() {
            match read_front(words, rest) {
                Front::Gap(len) => (rest, rest_line) = pass(rest, rest_line, len),
                Front::Found(token, len) => {
                    let line = rest_line;
                    let (rest, rest_line) = pass(rest, line, len);
                    return Cursor {
                        language,
                        token,
                        line,
                        rest,
                        rest_line,
                    };
                }
            }
        }
        Cursor {
            language,
            token: Token::End,
            line: rest_line,
            rest,
            rest_line,
        }
    }
}

// Returns what is left of `text` behind its first `len` bytes, and the line on which that begins. The text begins on line `line`.
#[tactic(auto, using(crate::proofs::Passing::passed))]
fn pass(text: &[u8], line: u32, len: usize) -> (&[u8], u32)
    requires within { len ≤ length text.now }
    requires short { line + length text.now < 2 ^ 32 }
    ensures rest { result.0.now ≡ drop len text.now }
    ensures line { (words : List Terminal) → lexemes_from words line len text.now ≡ lexemes_from words result.1 0 result.0.now }
    ensures shorter { result.1 + length result.0.now ≤ line + length text.now }
{
    let (passed, rest) = text.split_at(len);
    (rest, line + newlines(passed) as u32)
}

ghost use Rattle.std.specs.Prelude.{◌≡◌, ◌≤◌, ◌<◌, ◌+◌, ◌^◌, length, List, ◌∷◌, IfOk, OnOk};
ghost use Rattle.cw_text.specs.Cursor.{count_of_lexemes, tokens_left};
ghost use Rattle.cw_text.specs.Lexemes.{keywords, lexemes, rest_of};
ghost use Rattle.cw_text.specs.Grammar.{Symbol, Values, a_word, exactly, fault_at, pending, program_of, read, word, word_at};
ghost use Rattle.cw_text.specs.Parser.{GoesOn, IsLanguage, ReadsItems, ahead, taken};
ghost use Rattle.cw_text.specs.Text.{Reads, line_ended, language_of, numbered, source_in};

use crate::cursor::{Cursor, Token};
use crate::letters::Letters;
use crate::{Ast, Item, Terminal, TextFault, TextKind, TextRefusal, Word};
use cw_base::{OutOfMemory, Text};
use std::alloc::Global;

/// The most brackets and unary operators that may be open, and the greatest height of an expression.
pub(crate) const DEEPEST: u32 = 200;

/// Reads a program: the position in its text, and how many brackets and unary operators are open there. Only those lead
/// to a call within a call, so `depth` bounds the stack: loops read operators between operands, the statements of a
/// block, and items. After an `Err` it is not used again.
#[derive(Drop)]
pub(crate) struct Parser<'a> {
    pub alloc: Global,
    pub cursor: Cursor<'a>,
    pub depth: u32,
}

impl<'a> Parser<'a> {
    /// The fault of the next token, which is not allowed here.
    pub(crate) fn unexpected(&self) -> TextRefusal
        ensures { result ≡ TextRefusal.Text (fault_at (ahead self.now)) }
    {
        unexpected(&self.cursor)
    }

    /// Takes the next token, which opens a bracket or is a unary operator, or returns `TooDeep`.
    pub(crate) fn enter(&mut self) -> Result<(), TextRefusal>
        requires { self.old.depth ≤ 200 }
        ensures counted { OnOk result (self.new.depth ≡ self.old.depth + 1) }
        ensures low { OnOk result (self.new.depth ≤ 200) }
        ensures left { OnOk result (ahead self.new ≡ rest_of (ahead self.old)) }
        ensures read { (k : List Symbol) (vs : Values) → pending k ≡ self.old.depth + 1 →
            GoesOn result (taken k vs self.old.cursor.line (ahead self.old))
            (λ _. read k vs) (ahead self.new) }
    {
        if self.depth == DEEPEST {
            return Err(refusal(TextKind::TooDeep, self.cursor.line));
        }
        self.depth += 1;
        self.cursor.advance();
        Ok(())
    }

    /// Takes `terminal`, or returns the fault of the token that is next.
    pub(crate) fn expect(&mut self, terminal: Terminal) -> Result<(), TextRefusal>
        ensures same { OnOk result (self.new.depth ≡ self.old.depth) }
        ensures shorter { OnOk result (count_of_lexemes (ahead self.new) < count_of_lexemes (ahead self.old)) }
        ensures read { (k : List Symbol) (vs : Values) → pending k ≤ 200 →
            GoesOn result (read (exactly terminal ∷ k) vs (ahead self.old))
            (λ _. read k vs) (ahead self.new) }
    {
        let token = self.cursor.token;
        match token {
            Token::Terminal(found) if found == terminal => {
                self.cursor.advance();
                Ok(())
            }
            _ => Err(self.unexpected()),
        }
    }

    /// Takes a name, or returns the fault of the token that is next.
    pub(crate) fn word(&mut self) -> Result<Word, TextRefusal>
        ensures same { OnOk result (self.new.depth ≡ self.old.depth) }
        ensures shorter { OnOk result (count_of_lexemes (ahead self.new) < count_of_lexemes (ahead self.old)) }
        ensures read { (k : List Symbol) (vs : Values) → pending k ≤ 200 →
            GoesOn result (read (word ∷ k) vs (ahead self.old))
            (λ w. read k (a_word w ∷ vs)) (ahead self.new) }
    {
        match self.cursor.token {
            Token::Name(letters) => Ok(self.word_of(letters)?),
            _ => Err(self.unexpected()),
        }
    }

    /// Takes the next token, which is the name `letters`.
    pub(crate) fn word_of(&mut self, letters: Letters<'a>) -> Result<Word, OutOfMemory>
        ensures same { OnOk result (self.new.depth ≡ self.old.depth) }
        ensures left { OnOk result (ahead self.new ≡ rest_of (ahead self.old)) }
        ensures word { IfOk result (λ w. w ≡ word_at letters.entry.bytes.now self.old.cursor.line) }
    {
        let name = Text::from_ascii(self.alloc, letters.bytes)?;
        let line = self.cursor.line;
        self.cursor.advance();
        Ok(Word { name, line })
    }
}

// Expects the end of the heading, the `;`, and returns `language`.
fn ended(cursor: &Cursor<'_>, language: u32) -> Result<u32, TextRefusal>
    ensures { IsLanguage result (line_ended language (tokens_left cursor.now)) }
{
    match cursor.token {
        Token::Terminal(Terminal::Semicolon) => Ok(language),
        _ => Err(unexpected(cursor)),
    }
}

// Reads the number of the language, up to `newest`, and the end of the heading.
fn numbered(cursor: &mut Cursor<'_>, newest: u32) -> Result<u32, TextRefusal>
    ensures { IsLanguage result (numbered newest (tokens_left cursor.old)) }
{
    match cursor.token {
        Token::Number(number) if 1 <= number.value && number.value <= u64::from(newest) => {
            cursor.advance();
            ended(cursor, number.value as u32)
        }
        _ => Err(unexpected(cursor)),
    }
}

// The language that the text names, or 1 if it names none.
fn language_of(text: &[u8], newest: u32) -> Result<u32, TextRefusal>
    requires { length text.now ≤ 2 ^ 26 }
    ensures { IsLanguage result (language_of newest (lexemes keywords text.now)) }
{
    let mut cursor = Cursor::new(1, text);
    if !cursor.is_headed() {
        return Ok(1);
    }
    cursor.advance();
    numbered(&mut cursor, newest)
}

/// Reads a text in a language up to `newest`.
pub(crate) fn source(alloc: Global, text: &[u8], newest: u32) -> Result<Ast, TextRefusal>
    requires { length text.now ≤ 2 ^ 26 }
    ensures { Reads result (source_in (language_of newest (lexemes keywords text.now)) text.now) }
{
    let language = language_of(text, newest)?;
    let items = items(alloc, Cursor::behind_heading(language, text))?;
    Ok(Ast { language, items })
}

// Reads all items that are left.
fn items(alloc: Global, cursor: Cursor<'_>) -> Result<Vec<Item>, TextRefusal>
    ensures { ReadsItems result (program_of (tokens_left cursor.entry)) }
{
    let mut parser = Parser {
        alloc,
        cursor,
        depth: 0,
    };
    let mut items = Vec::new(alloc);
    while let Some(item) = parser.item()? {
        items.push(item)?;
    }
    Ok(items)
}

// The fault of the next token, which is not allowed here.
fn unexpected(cursor: &Cursor<'_>) -> TextRefusal
    ensures { result ≡ TextRefusal.Text (fault_at (tokens_left cursor.now)) }
{
    let kind = match cursor.token {
        Token::Bad(kind) => kind,
        _ => TextKind::Unexpected,
    };
    refusal(kind, cursor.line)
}

/// A fault on line `line`.
pub(crate) fn refusal(kind: TextKind, line: u32) -> TextRefusal
    ensures { result ≡ TextRefusal.Text (record { kind = kind; line = line }) }
{
    TextRefusal::Text(TextFault { kind, line })
}

ghost use Rattle.std.specs.Prelude.{◌≡◌};
ghost use Rattle.cw_text.specs.Lexemes.{keywords_of, signs, spelling};

use crate::Terminal;

// The keywords of language 1.
const KEYWORDS: [Terminal; 11] = [
    Terminal::Cell,
    Terminal::Fn,
    Terminal::Let,
    Terminal::Out,
    Terminal::If,
    Terminal::Else,
    Terminal::While,
    Terminal::Atomic,
    Terminal::Spawn,
    Terminal::Sync,
    Terminal::Return,
];

// The keywords of language 2.
const NEWER_KEYWORDS: [Terminal; 12] = [
    Terminal::Cancel,
    Terminal::Cell,
    Terminal::Fn,
    Terminal::Let,
    Terminal::Out,
    Terminal::If,
    Terminal::Else,
    Terminal::While,
    Terminal::Atomic,
    Terminal::Spawn,
    Terminal::Sync,
    Terminal::Return,
];

/// The keywords of a language, which are no names in it.
pub fn keywords_of(language: u32) -> &'static [Terminal]
    ensures { result.now ≡ keywords_of language }
{
    if language == 2 {
        &NEWER_KEYWORDS
    } else {
        &KEYWORDS
    }
}

/// The signs. A sign comes before those that begin it.
pub const SIGNS: [Terminal; 21] = [
    Terminal::EqEq,
    Terminal::BangEq,
    Terminal::LessEq,
    Terminal::GreaterEq,
    Terminal::BraceOpen,
    Terminal::BraceClose,
    Terminal::ParenOpen,
    Terminal::ParenClose,
    Terminal::SquareOpen,
    Terminal::SquareClose,
    Terminal::Comma,
    Terminal::Semicolon,
    Terminal::Assign,
    Terminal::Plus,
    Terminal::Minus,
    Terminal::Star,
    Terminal::Slash,
    Terminal::Percent,
    Terminal::Bang,
    Terminal::Less,
    Terminal::Greater,
];

/// How a keyword or a sign is written.
pub fn spelling(terminal: Terminal) -> &'static [u8]
    ensures { result.now ≡ spelling terminal }
{
    match terminal {
        Terminal::Cell => b"cell",
        Terminal::Fn => b"fn",
        Terminal::Let => b"let",
        Terminal::Out => b"out",
        Terminal::If => b"if",
        Terminal::Else => b"else",
        Terminal::While => b"while",
        Terminal::Atomic => b"atomic",
        Terminal::Spawn => b"spawn",
        Terminal::Sync => b"sync",
        Terminal::Cancel => b"cancel",
        Terminal::Return => b"return",
        Terminal::BraceOpen => b"{",
        Terminal::BraceClose => b"}",
        Terminal::ParenOpen => b"(",
        Terminal::ParenClose => b")",
        Terminal::SquareOpen => b"[",
        Terminal::SquareClose => b"]",
        Terminal::Comma => b",",
        Terminal::Semicolon => b";",
        Terminal::Assign => b"=",
        Terminal::Plus => b"+",
        Terminal::Minus => b"-",
        Terminal::Star => b"*",
        Terminal::Slash => b"/",
        Terminal::Percent => b"%",
        Terminal::Bang => b"!",
        Terminal::EqEq => b"==",
        Terminal::BangEq => b"!=",
        Terminal::Less => b"<",
        Terminal::LessEq => b"<=",
        Terminal::Greater => b">",
        Terminal::GreaterEq => b">=",
    }
}

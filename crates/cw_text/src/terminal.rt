ghost use Rattle.std.specs.Prelude.{◌≡◌};
ghost use Rattle.cw_text.specs.Grammar.{comparison_of, prefix_of, product_of, sum_of};

use crate::ast::Op;

/// A keyword or a sign.
#[derive(Clone, Copy, PartialEq, Eq, Debug)]
pub enum Terminal {
    Cell,
    Fn,
    Let,
    Out,
    If,
    Else,
    While,
    Atomic,
    Spawn,
    Sync,
    Cancel,
    Return,
    BraceOpen,
    BraceClose,
    ParenOpen,
    ParenClose,
    SquareOpen,
    SquareClose,
    Comma,
    Semicolon,
    Assign,
    Plus,
    Minus,
    Star,
    Slash,
    Percent,
    Bang,
    EqEq,
    BangEq,
    Less,
    LessEq,
    Greater,
    GreaterEq,
}

/// The unary operator that a terminal is.
pub fn prefix_of(terminal: Terminal) -> Option<Op>
    ensures { result ≡ prefix_of terminal }
{
    match terminal {
        Terminal::Minus => Some(Op::Neg),
        Terminal::Bang => Some(Op::Not),
        _ => None,
    }
}

/// The operator of a product that a terminal is.
pub fn product_of(terminal: Terminal) -> Option<Op>
    ensures { result ≡ product_of terminal }
{
    match terminal {
        Terminal::Star => Some(Op::Mul),
        Terminal::Slash => Some(Op::Div),
        Terminal::Percent => Some(Op::Rem),
        _ => None,
    }
}

/// The operator of a sum that a terminal is.
pub fn sum_of(terminal: Terminal) -> Option<Op>
    ensures { result ≡ sum_of terminal }
{
    match terminal {
        Terminal::Plus => Some(Op::Add),
        Terminal::Minus => Some(Op::Sub),
        _ => None,
    }
}

/// The operator of a comparison that a terminal is.
pub fn comparison_of(terminal: Terminal) -> Option<Op>
    ensures { result ≡ comparison_of terminal }
{
    match terminal {
        Terminal::EqEq => Some(Op::Eq),
        Terminal::BangEq => Some(Op::Ne),
        Terminal::Less => Some(Op::Lt),
        Terminal::LessEq => Some(Op::Le),
        Terminal::Greater => Some(Op::Gt),
        Terminal::GreaterEq => Some(Op::Ge),
        _ => None,
    }
}

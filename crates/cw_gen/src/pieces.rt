//! Pieces of a tree, all on line 1.
ghost use Rattle.std.specs.Prelude.{◌≡◌, ◌<◌, All, IfOk, codes};
ghost use Rattle.std.specs.Prelude.{◌∷◌, []};
ghost use Rattle.cw_text.specs.declared.ast.Op.TheVariants.{Add, Sub};
ghost use Rattle.cw_text.specs.Syntax.{Term, at, binary, block_of, name, number, statement_of, term_of, declare, assign, out, first, empty, spawn, run, none, more};
ghost use Rattle.cw_gen.specs.Load.{account, changed, name_term, word};

use cw_base::{OutOfMemory, Text};
use cw_text::{Expr, Op, Stmt, Word};
use std::alloc::Global;

pub(crate) fn word(alloc: Global, text: &[u8]) -> Result<Word, OutOfMemory>
    requires { All (λ b. b < 128) text.now }
    ensures { IfOk result (λ w. w ≡ word text.now) }
{
    let name = Text::from_ascii(alloc, text)?;
    Ok(Word { name, line: 1 })
}

pub(crate) fn named(alloc: Global, text: &[u8]) -> Result<Expr, OutOfMemory>
    requires { All (λ b. b < 128) text.now }
    ensures { IfOk result (λ e. term_of e ≡ name_term text.now) }
{
    Ok(Expr::Name(word(alloc, text)?))
}

/// Makes the expression `a[NAME]`.
pub(crate) fn account(alloc: Global, text: &[u8]) -> Result<Expr, OutOfMemory>
    requires { All (λ b. b < 128) text.now }
    ensures { IfOk result (λ e. term_of e ≡ account text.now) }
{
    let at = Box::new(alloc, named(alloc, text)?)?;
    let name = word(alloc, b"a")?;
    Ok(Expr::At { name, at })
}

pub(crate) fn binary(alloc: Global, op: Op, left: Expr, right: Expr) -> Result<Expr, OutOfMemory>
    ensures { IfOk result (λ e. term_of e ≡ binary op (term_of left) (term_of right)) }
{
    let left = Box::new(alloc, left)?;
    let right = Box::new(alloc, right)?;
    Ok(Expr::Binary { op, left, right })
}

/// Makes the statement `a[NAME] = a[NAME] OP x;`.
pub(crate) fn changed(alloc: Global, text: &[u8], op: Op) -> Result<Stmt, OutOfMemory>
    requires { All (λ b. b < 128) text.now }
    ensures { IfOk result (λ s. statement_of s ≡ changed text.now op) }
{
    let sum = binary(alloc, op, account(alloc, text)?, named(alloc, b"x")?)?;
    let at = named(alloc, text)?;
    let name = word(alloc, b"a")?;
    Ok(Stmt::AssignAt {
        name,
        at,
        value: sum,
    })
}

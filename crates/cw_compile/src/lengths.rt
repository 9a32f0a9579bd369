//! How long the code of a block is, before it is emitted.

ghost use Rattle.std.specs.Prelude.{◌≡◌, ◌+◌, IfOk};
ghost use Rattle.cw_text.specs.Syntax.{term_of, terms_of, statement_of, block_of};
ghost use Rattle.cw_strand.specs.Compilation.{term_length, terms_length, statement_length, block_length};

use crate::instructions::lifted;
use cw_base::OutOfMemory;
use cw_text::{Expr, Stmt};

/// Returns `length + more` if it is less than 2^32, otherwise out of memory.
fn sum(length: u32, more: u32) -> Result<u32, OutOfMemory>
    ensures { IfOk result (λ all. all ≡ length + more) }
{
    length.checked_add(more).ok_or(OutOfMemory)
}

#[cycle(expression)]
fn of_term(term: &Expr) -> Result<u32, OutOfMemory>
    ensures { IfOk result (λ length. length ≡ term_length (term_of term.now)) }
{
    match term {
        Expr::Number(_) | Expr::Name(_) => Ok(1),
        Expr::At { at, .. } => sum(of_term(at)?, 1),
        Expr::Call { args, .. } => sum(of_terms(args.as_slice())?, 1),
        Expr::Unary { op, of } => match lifted(*op) {
            Some(_) => sum(of_term(of)?, 1),
            None => of_term(of),
        },
        Expr::Binary { left, right, .. } => sum(sum(of_term(left)?, of_term(right)?)?, 1),
    }
}

#[cycle(expression)]
fn of_terms(terms: &[Expr]) -> Result<u32, OutOfMemory>
    ensures { IfOk result (λ length. length ≡ terms_length (terms_of terms.now)) }
{
    let mut length = 0;
    for term in terms {
        length = sum(length, of_term(term)?)?;
    }
    Ok(length)
}

#[cycle(walk)]
fn of_statement(statement: &Stmt) -> Result<u32, OutOfMemory>
    ensures { IfOk result (λ length. length ≡ statement_length (statement_of statement.now)) }
{
    match statement {
        Stmt::Let { value, .. } | Stmt::Assign { value, .. } | Stmt::Out(value) => {
            sum(of_term(value)?, 2)
        }
        Stmt::AssignAt { at, value, .. } => sum(sum(of_term(at)?, of_term(value)?)?, 2),
        Stmt::Call { args, .. } => sum(of_terms(args.as_slice())?, 3),
        Stmt::If { test, then, other } => {
            let chosen = sum(of_term(test)?, of_block(then.as_slice())?)?;
            sum(sum(chosen, of_block(other.as_slice())?)?, 3)
        }
        Stmt::While { test, body } => { sum(sum(of_term(test)?, of_block(body.as_slice())?)?, 3) }
        Stmt::Atomic(body) => sum(of_block(body.as_slice())?, 4),
        Stmt::Spawn(body) => sum(of_block(body.as_slice())?, 4),
        Stmt::Sync => Ok(2),
        Stmt::Cancel { .. } => Ok(4),
        Stmt::Return { value, .. } => sum(of_term(value)?, 3),
    }
}

#[cycle(walk)]
fn of_block(body: &[Stmt]) -> Result<u32, OutOfMemory>
    ensures { IfOk result (λ length. length ≡ block_length (block_of body.now)) }
{
    let mut length = 0;
    for statement in body {
        length = sum(length, of_statement(statement)?)?;
    }
    Ok(length)
}

/// The place of the `end` of an atomic block whose first statement is at `place`. Between its statements and the `end` is its `wait`.
pub(crate) fn place_behind(place: u32, body: &[Stmt]) -> Result<u32, OutOfMemory>
    ensures { IfOk result (λ last. last ≡ place + block_length (block_of body.now) + 1) }
{
    sum(sum(place, of_block(body)?)?, 1)
}

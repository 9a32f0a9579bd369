//! The instructions that compiled code is made of.

ghost use Rattle.std.specs.Prelude.{◌≡◌};
ghost use Rattle.cw_strand.specs.Meaning.{lifted, joining};
ghost use Rattle.cw_strand.specs.Compilation as code;

use cw_code::{Instr, Operator};
use cw_text::Op;

// the numbers of the instructions that are no operators
const PUSH: u8 = 1;

const LOCAL: u8 = 2;

const SET: u8 = 3;

const LOAD: u8 = 4;

const LOAD_AT: u8 = 5;

const STORE: u8 = 6;

const STORE_AT: u8 = 7;

const JUMP: u8 = 21;

const JUMP_ZERO: u8 = 22;

const CALL: u8 = 23;

pub(crate) const RET: u8 = 24;

pub(crate) const DISCARD: u8 = 25;

pub(crate) const SHOW: u8 = 26;

pub(crate) const BEGIN: u8 = 27;

pub(crate) const END: u8 = 28;

const FORK: u8 = 29;

pub(crate) const WAIT: u8 = 30;

pub(crate) const DONE: u8 = 31;

pub(crate) const TICK: u8 = 32;

pub(crate) const CANCEL: u8 = 33;

/// An instruction without operands.
pub(crate) fn plain(op: u8) -> Instr
    ensures { result ≡ code.plain op }
{
    Instr { op, a: 0, b: 0 }
}

/// An instruction with one operand.
fn with_a(op: u8, a: u32) -> Instr
    ensures { result ≡ code.with_a op a }
{
    Instr {
        op,
        a: i64::from(a),
        b: 0,
    }
}

pub(crate) fn push(number: i64) -> Instr
    ensures { result ≡ code.push number }
{
    Instr {
        op: PUSH,
        a: number,
        b: 0,
    }
}

pub(crate) fn local(number: u32) -> Instr
    ensures { result ≡ code.local number }
{
    with_a(LOCAL, number)
}

pub(crate) fn set(number: u32) -> Instr
    ensures { result ≡ code.set number }
{
    with_a(SET, number)
}

pub(crate) fn load(element: u32) -> Instr
    ensures { result ≡ code.load element }
{
    with_a(LOAD, element)
}

pub(crate) fn store(element: u32) -> Instr
    ensures { result ≡ code.store element }
{
    with_a(STORE, element)
}

/// Loads, from the `len` elements from number `element` on, the one that an index selects.
pub(crate) fn load_at(element: u32, len: u32) -> Instr
    ensures { result ≡ code.load_at element len }
{
    Instr {
        op: LOAD_AT,
        a: i64::from(element),
        b: len,
    }
}

/// Stores to the one that an index selects of the `len` elements from number `element` on.
pub(crate) fn store_at(element: u32, len: u32) -> Instr
    ensures { result ≡ code.store_at element len }
{
    Instr {
        op: STORE_AT,
        a: i64::from(element),
        b: len,
    }
}

pub(crate) fn jump(place: u32) -> Instr
    ensures { result ≡ code.jump place }
{
    with_a(JUMP, place)
}

/// Jumps to `place` if the operand is 0.
pub(crate) fn jump_zero(place: u32) -> Instr
    ensures { result ≡ code.jump_zero place }
{
    with_a(JUMP_ZERO, place)
}

/// Calls the function with the number `function`.
pub(crate) fn call(function: u32) -> Instr
    ensures { result ≡ code.call function }
{
    with_a(CALL, function)
}

pub(crate) fn fork(place: u32) -> Instr
    ensures { result ≡ code.fork place }
{
    with_a(FORK, place)
}

/// The number of an operator's instruction.
fn number_of(operator: Operator) -> u8
    ensures { result ≡ code.operator_number operator }
{
    match operator {
        Operator::Add => 8,
        Operator::Sub => 9,
        Operator::Mul => 10,
        Operator::Div => 11,
        Operator::Rem => 12,
        Operator::Neg => 13,
        Operator::Not => 14,
        Operator::Eq => 15,
        Operator::Ne => 16,
        Operator::Lt => 17,
        Operator::Le => 18,
        Operator::Gt => 19,
        Operator::Ge => 20,
    }
}

/// The instruction of an operator.
pub(crate) fn arithmetic(operator: Operator) -> Instr
    ensures { result ≡ code.plain (code.operator_number operator) }
{
    plain(number_of(operator))
}

/// The unary operator that `op` is. A tree may name a binary one here, which then changes nothing.
pub(crate) fn lifted(op: Op) -> Option<Operator>
    ensures { result ≡ lifted op }
{
    match op {
        Op::Neg => Some(Operator::Neg),
        Op::Not => Some(Operator::Not),
        Op::Add | Op::Sub | Op::Mul | Op::Div | Op::Rem => None,
        Op::Eq | Op::Ne | Op::Lt | Op::Le | Op::Gt | Op::Ge => None,
    }
}

/// The binary operator that `op` is. A tree may name a unary one here, which then gives the first operand.
fn joining(op: Op) -> Option<Operator>
    ensures { result ≡ joining op }
{
    match op {
        Op::Add => Some(Operator::Add),
        Op::Sub => Some(Operator::Sub),
        Op::Mul => Some(Operator::Mul),
        Op::Div => Some(Operator::Div),
        Op::Rem => Some(Operator::Rem),
        Op::Eq => Some(Operator::Eq),
        Op::Ne => Some(Operator::Ne),
        Op::Lt => Some(Operator::Lt),
        Op::Le => Some(Operator::Le),
        Op::Gt => Some(Operator::Gt),
        Op::Ge => Some(Operator::Ge),
        Op::Neg | Op::Not => None,
    }
}

/// The instruction of a binary operator.
pub(crate) fn join(op: Op) -> Instr
    ensures { result ≡ code.join_code (joining op) }
{
    match joining(op) {
        Some(operator) => arithmetic(operator),
        None => plain(DISCARD),
    }
}

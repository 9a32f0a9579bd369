ghost use Rattle.std.specs.Prelude.{◌≡◌, slice_get};

use cw_base::Seq;

/// An instruction: its number in the table, counted from 1, and its operands.
#[derive(Clone, Copy, PartialEq, Eq, Debug)]
pub struct Instr {
    pub op: u8,
    pub a: i64,
    pub b: u32,
}

/// A function: how many parameters and locals it has, the place where it starts, and the place behind its last one.
#[derive(Clone, Copy, PartialEq, Eq, Debug)]
pub struct Func {
    pub params: u32,
    pub locals: u32,
    pub start: u32,
    pub end: u32,
}

/// Compiled code: how many cells it may name, its functions, and the instructions at its places.
#[derive(Drop)]
pub struct Code {
    pub cells: u32,
    pub funcs: Seq<Func>,
    pub instrs: Seq<Instr>,
}

impl Code {
    /// The instruction at `place`.
    pub fn instr(&self, place: u32) -> Option<Instr>
        ensures { result ≡ slice_get self.now.instrs place }
    {
        self.instrs.as_slice().get(place as usize).copied()
    }

    /// The function with the number `number`.
    pub fn func(&self, number: u64) -> Option<Func>
        ensures { result ≡ slice_get self.now.funcs number }
    {
        self.funcs.as_slice().get(number as usize).copied()
    }
}

/// What is wrong at a place of code.
#[derive(Clone, Copy, PartialEq, Eq, Debug)]
pub enum CodeKind {
    /// An operand or a local is missing, or there is no such instruction.
    Underflow = 1,
    /// Two ways into the place bring different heights or open parts, or the instruction is not allowed inside the open parts.
    Uneven = 2,
    /// A target, a function or a cell does not exist, or a function does not begin where the one before it ended.
    JumpOut = 3,
    /// The end of a function can be passed, or the function is empty.
    NoEnd = 4,
}

/// What is wrong, and at which place.
#[derive(Clone, Copy, PartialEq, Eq, Debug)]
pub struct CodeFault {
    pub kind: CodeKind,
    pub at: u32,
}

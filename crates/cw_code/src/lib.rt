//! What compiled code is: its instructions and their table, the rules that it keeps, its text, and programs. The crate
//! also has plain types that several layers share: run faults, limits with their ranges, cells. Use `verify` to have code
//! checked against the rules.
//! Contracts cite `specs/Table.antt` (instructions), `specs/Rules.antt` (the rules, as the list of what is broken),
//! `specs/Answers.antt` (what the verifier returns), `specs/Nested.antt` (how it keeps situations), `specs/Walked.antt`
//! (how it walks over a function), `specs/Printed.antt` (texts), `specs/Programs.antt` (programs), `specs/Ranges.antt`
//! (ranges and defaults of numeric options) and `specs/FaultNames.antt` (names of run faults). `Worked` tries them.
#![tactic(auto)]

ghost use Rattle.cw_code.specs.Worked.{Verdicts, Texts};

mod effects;
mod fault_names;
mod finding;
mod instruction;
mod judging;
mod nestings;
mod print;
mod program;
mod ranges;
mod situation;
mod table;
mod verified;
mod walking;

use cw_base::Text;
pub use effects::{Effect, Operator};
pub use fault_names::fault_name;
pub use instruction::{Code, CodeFault, CodeKind, Func, Instr};
pub use print::print_code;
pub use program::Program;
pub use ranges::{
    ABORTS, FUEL, MOVES, NumberRange, SIZE, STRANDS, WORKERS, constants_are_ranges_of_options,
    default_limits,
};
pub use table::{Operands, Row, TABLE, effect_at, look_up, row_at};
pub use verified::{CodeRefusal, Verified, verify};

/// Why a strand stops for good.
#[derive(Clone, Copy, PartialEq, Eq, Debug)]
pub enum FaultKind {
    Zero = 1,
    Overflow = 2,
    Range = 3,
    Depth = 4,
    Fuel = 5,
    Size = 6,
}

/// The limits of a run: units of fuel and counted things of a strand, attempts of an atomic block or an access, strand
/// columns, moves of a simulation.
#[derive(Clone, Copy, PartialEq, Eq, Debug)]
pub struct Limits {
    pub fuel: u64,
    pub size: u32,
    pub aborts: u32,
    pub strands: u32,
    pub moves: u64,
}

/// A cell, and the value that a cancelled block puts back there.
#[derive(Clone, Copy, PartialEq, Eq, Debug)]
pub struct Back {
    pub cell: u32,
    pub value: i64,
}

/// A cell: its name, its number of elements (0 for a plain one), the number of its first element, and the initial value of each element.
#[derive(Drop)]
pub struct CellInfo {
    pub name: Text,
    pub len: u32,
    pub base: u32,
    pub init: i64,
}

/// The verdicts and the texts of small pieces of code.
pub fn worked_code()
    ensures verdicts { Verdicts }
    ensures texts { Texts }
{}

use cw_base::{OutOfMemory, Seq};
use cw_code::Limits;
use cw_record::RecordEnd;
use cw_text::Ast;
use cw_tree::{Conflict, Tree};
use std::alloc::AllocFailed;

/// A whole run as a sheet tells it: the program's syntax tree, the words and limits, the tree of the run, its refused
/// accesses, and how it ended.
#[derive(Drop)]
pub struct Sheet {
    pub ast: Ast,
    pub words: Seq<i64>,
    pub limits: Limits,
    pub tree: Tree,
    pub conflicts: Seq<Conflict>,
    pub end: RecordEnd,
}

/// What is wrong with the text of a sheet.
#[derive(Clone, Copy, PartialEq, Eq, Debug)]
pub enum SheetKind {
    /// A byte that belongs to no whole UTF-8 character.
    NotUtf8 = 1,
    /// More than 67,108,864 bytes. Its line is 0.
    TooLong = 2,
    /// An item or a newline that is not allowed in its place, or an end that comes too early or too late.
    Unexpected = 3,
    /// A number that is out of range, or not spelled as it is written.
    BadNumber = 4,
    /// A node that has no place in a computation tree.
    BadTree = 5,
    /// A source that is refused, or that is not the text that its tree is printed as.
    BadSource = 6,
}

/// The first fault of a text. Lines are counted from 1.
#[derive(Clone, Copy, PartialEq, Eq, Debug)]
pub struct SheetFault {
    pub kind: SheetKind,
    pub line: u32,
}

/// Why a text was not read.
#[derive(Clone, Copy, PartialEq, Eq, Debug)]
pub enum SheetRefusal {
    Sheet(SheetFault),
    OutOfMemory,
}

impl From<SheetFault> for SheetRefusal {
    ghost use Rattle.std.specs.Prelude.{◌≡◌};
    ghost use Rattle.cw_sheet.specs.declared.sheet.SheetRefusal.TheVariants.{Sheet};

    ghost from_gives = { λ f e. e ≡ Sheet f };

    fn from(fault: SheetFault) -> Self {
        SheetRefusal::Sheet(fault)
    }
}

impl From<OutOfMemory> for SheetRefusal {
    ghost use Rattle.std.specs.Prelude.{◌≡◌};
    ghost use Rattle.cw_sheet.specs.declared.sheet.SheetRefusal.TheVariants as refusal;

    ghost from_gives = { λ _ e. e ≡ refusal.OutOfMemory };

    fn from(_failed: OutOfMemory) -> Self {
        SheetRefusal::OutOfMemory
    }
}

impl<T: Drop> From<AllocFailed<T>> for SheetRefusal {
    ghost use Rattle.std.specs.Prelude.{◌≡◌};
    ghost use Rattle.cw_sheet.specs.declared.sheet.SheetRefusal.TheVariants as refusal;

    ghost from_gives = { λ _ e. e ≡ refusal.OutOfMemory };

    fn from(_failed: AllocFailed<T>) -> Self {
        SheetRefusal::OutOfMemory
    }
}

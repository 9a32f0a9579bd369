use cw_base::OutOfMemory;
use std::alloc::{AllocError, AllocFailed};

/// What is wrong with a text.
#[derive(Clone, Copy, PartialEq, Eq, Debug)]
pub enum TextKind {
    /// A byte that belongs to no whole UTF-8 character.
    NotUtf8 = 1,
    /// A character that begins no token.
    BadChar = 2,
    /// A number that is too large or runs into a letter, or an array length of 0.
    BadNumber = 3,
    /// A token that is not allowed in its place, or an end that comes too early.
    Unexpected = 4,
    /// More bytes than the call reads. Its line is 0.
    TooLong = 5,
    /// More than 200 open brackets and unary operators, or an expression higher than 200.
    TooDeep = 6,
}

/// The first fault of a text. Lines are counted from 1.
#[derive(Clone, Copy, PartialEq, Eq, Debug)]
pub struct TextFault {
    pub kind: TextKind,
    pub line: u32,
}

/// Why a text was not read.
#[derive(Clone, Copy, PartialEq, Eq, Debug)]
pub enum TextRefusal {
    Text(TextFault),
    OutOfMemory,
}

impl From<AllocError> for TextRefusal {
    ghost use Rattle.std.specs.Prelude.{◌≡◌};
    ghost use Rattle.cw_text.specs.declared.fault.TextRefusal.TheVariants.{OutOfMemory};

    ghost from_gives = { λ _ e. e ≡ OutOfMemory };

    fn from(_failed: AllocError) -> Self {
        TextRefusal::OutOfMemory
    }
}

impl<T: Drop> From<AllocFailed<T>> for TextRefusal {
    ghost use Rattle.std.specs.Prelude.{◌≡◌};
    ghost use Rattle.cw_text.specs.declared.fault.TextRefusal.TheVariants.{OutOfMemory};

    ghost from_gives = { λ _ e. e ≡ OutOfMemory };

    fn from(_failed: AllocFailed<T>) -> Self {
        TextRefusal::OutOfMemory
    }
}

impl From<OutOfMemory> for TextRefusal {
    ghost use Rattle.std.specs.Prelude.{◌≡◌};
    ghost use Rattle.cw_text.specs.declared.fault.TextRefusal.TheVariants as refusal;

    ghost from_gives = { λ _ e. e ≡ refusal.OutOfMemory };

    fn from(_failed: OutOfMemory) -> Self {
        TextRefusal::OutOfMemory
    }
}

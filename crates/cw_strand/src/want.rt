ghost use Rattle.std.specs.Prelude.{◌≡◌};
ghost use Rattle.cw_strand.specs.Strands.{given_for};

use cw_base::Seq;
use cw_code::{Back, FaultKind};

/// What a strand needs done before it goes on.
#[derive(Clone, Copy, PartialEq, Eq, Debug)]
pub enum Want {
    /// Read the element with this number.
    Load(u32),
    /// Write a value to an element.
    Store(u32, i64),
    Out(i64),
    /// Begin a block.
    Begin,
    /// End the innermost block.
    End,
    /// Give up the innermost block: the values from before its writes are to be written back.
    Cancel,
    /// Start a strand beside this one, which goes on as the right strand.
    Fork,
    /// Nothing more: as a right strand it has ended, and waits for the left one.
    Sync,
    /// Nothing more: it has ended.
    Done,
    /// Nothing more: it stopped at a fault.
    Fault(FaultKind),
}

/// The answer to a want. A `Load` gets a value, a `Cancel` what is to be written back, in this order. A `Store`, an
/// `Out`, a `Begin` and an `End` get nothing.
#[derive(Drop)]
pub enum Given {
    Nothing,
    Value(i64),
    Back(Seq<Back>),
}

impl Given {
    /// Returns the answer to an access of a cell that holds `value` after it: the value for a read, nothing for a write.
    /// `write` is the value written, or `None` for a read.
    pub fn of_access(write: Option<i64>, value: i64) -> Given
        ensures { result ≡ given_for write value }
    {
        match write {
            None => Given::Value(value),
            Some(_) => Given::Nothing,
        }
    }
}

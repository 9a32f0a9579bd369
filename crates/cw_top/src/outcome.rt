use cw_record::Record;
use cw_sheet::SheetFault;
use cw_strand::NameFault;
use cw_text::TextFault;

/// Why there is no run, why no sheet was judged, or why a text was not written.
#[derive(Clone, Copy, PartialEq, Eq, Debug)]
pub enum Note {
    Nothing,
    /// The words are no command, or not as many as main has parameters.
    Usage,
    /// Out of memory.
    Memory,
    /// A read failed.
    Read,
    /// A write failed.
    Write,
    /// The text's first fault.
    Text(TextFault),
    /// The program's first naming fault.
    Name(NameFault),
    /// The sheet's first fault.
    Sheet(SheetFault),
}

/// The answer of the top call: the program's exit status, the reason for it, and the run if there was one. A check keeps none.
///
/// | Status | Meaning |
/// |---|---|
/// | 0 | the run finished, and its text was written; or the sheet is sound |
/// | 1 | out of memory, or on threads a failed test inside the board; nothing was written |
/// | 2 | the words are no command, and nothing was read; or they are not as many as main has parameters; nothing was written |
/// | 3 | a read failed; nothing was written |
/// | 4 | a write failed; a front of the text was written |
/// | 5 | the program was refused; nothing was written |
/// | 6 | the run ended at a fault, and its text was written |
/// | 7 | a strand spent its budget: the last attempt that a block or an access may have was refused, and the text was written |
/// | 8 | several threads did what one memory, in the order that is kept, does not; nothing was written |
/// | 9 | all moves of a simulation were made without an end, and the text was written |
/// | 10 | the sheet was refused; nothing was written |
/// | 11 | a part of the sheet is broken, and the first that is was written |
#[derive(Drop)]
pub struct Reply {
    pub status: u8,
    pub note: Note,
    pub kept: Option<Record>,
}

//! Record sheets: a whole run as a text. Use it to write a run down for a stranger who judges it without running anything,
//! and to read what was written.
//! Contracts cite `specs/Contents.antt` (what a sheet says, and which sheets have a text) and `specs/SheetText.antt` (the
//! text). `specs/Reading.antt` is what a text says as a sheet, otherwise its first fault, over `specs/Items.antt` (words and
//! numbers). `specs/Laws.antt` says that reading and writing undo each other. `specs/Worked.antt` tries them on examples.
#![tactic(auto)]

ghost use Rattle.cw_sheet.specs.Worked.{Cancels, EndFaults, NumberFaults, OtherRuns, SourceFaults, Texts, TreeFaults};

mod cursor;
mod ends_in;
mod judging;
mod laws;
mod lines;
mod nodes;
mod nodes_in;
mod numbers;
mod parts;
mod reading;
mod sheet;
mod source_in;
mod writing;

pub use laws::{read_is_text, text_is_read, worked_readings};
pub use reading::read_sheet;
pub use sheet::{Sheet, SheetFault, SheetKind, SheetRefusal};
pub use writing::sheet_text;

/// Examples: the texts of small sheets, and what is read.
pub fn worked_sheets()
    ensures texts { Texts }
    ensures ends { EndFaults }
    ensures sources { SourceFaults }
    ensures numbers { NumberFaults }
    ensures trees { TreeFaults }
    ensures cancels { Cancels }
    ensures others { OtherRuns }
{}

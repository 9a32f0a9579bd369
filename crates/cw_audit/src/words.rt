ghost use Rattle.std.specs.Prelude.{◌≡◌, ◌↔◌, IsTrue};
ghost use Rattle.cw_strand.specs.Programs.{IsProgramOf};
ghost use Rattle.cw_tree.specs.Nodes.{is_strand};
ghost use Rattle.cw_record.specs.Order.{ending_strand};
ghost use Rattle.cw_sheet.specs.Contents.{contents_of};
ghost use Rattle.cw_audit.specs.Parts.{TakesItsWords};

use crate::kinds::is_strand;
use cw_code::Program;
use cw_job::takes_words;
use cw_record::RecordEnd;
use cw_sheet::Sheet;
use cw_tree::Tree;

/// Returns whether a sheet has as many words as the main of its program has parameters.
pub(crate) fn takes_its_words(sheet: &Sheet, program: &Program) -> bool
    requires { IsProgramOf (contents_of sheet.now).source.items program.now }
    ensures { IsTrue result ↔ TakesItsWords (contents_of sheet.now) }
{
    takes_words(program, sheet.words.len())
}

/// Returns whether the strand that an end names is one of the tree.
pub(crate) fn names_strand(tree: &Tree, end: &RecordEnd) -> bool
    ensures { result ≡ is_strand tree.now (ending_strand end.now) }
{
    is_strand(tree, ending_strand(end))
}

/// Returns the strand that an end names, or the root.
fn ending_strand(end: &RecordEnd) -> u32
    ensures { result ≡ ending_strand end.now }
{
    match end {
        RecordEnd::Fault { strand, .. } | RecordEnd::Budget { strand } => *strand,
        RecordEnd::Finished { .. } | RecordEnd::Moves => 0,
    }
}

ghost use Rattle.std.specs.Prelude.{◌≡◌, ◌++◌, IfOk, List, OnOk, string_bytes};
ghost use Rattle.cw_code.specs.declared.CellInfo.{CellInfo};
ghost use Rattle.cw_report.specs.Report.{cell_text, maker_text, node_there};
ghost use Rattle.cw_report.specs.RunNames.{HasElements, HasStrands};

use crate::elements::{Element, elements, push_element};
use crate::strands::Strands;
use cw_base::OutOfMemory;
use cw_code::CellInfo;
use cw_tree::Tree;
use std::alloc::Global;

/// The names of a run's elements and strands, as a report has them. They are looked up once, to write many.
#[derive(Drop)]
pub struct RunNames<'a> {
    elements: Vec<Element<'a>>,
    strands: Strands,
}

impl<'a> RunNames<'a> {
    /// Looks up the names of these cells' elements, and those of a tree's strands.
    pub fn of(
        alloc: Global,
        cells: &'a [CellInfo],
        tree: &Tree,
    ) -> Result<RunNames<'a>, OutOfMemory>
        ensures elements { IfOk result (λ names. HasElements names cells.now) }
        ensures strands { IfOk result (λ names. HasStrands names tree.now) }
    {
        let elements = elements(alloc, cells)?;
        let strands = Strands::of_tree(tree)?;
        Ok(RunNames { elements, strands })
    }

    /// Writes the name of element `number`, or `?` if there is none.
    pub fn push_element(&self, text: &mut String, number: u32) -> Result<(), OutOfMemory>
        ensures { OnOk result ((cells : List CellInfo) → HasElements self.now cells → string_bytes text.new ≡ string_bytes text.old ++ cell_text cells number) }
    {
        push_element(text, self.elements.as_slice(), number)
    }

    /// Writes the name of the strand in which `node` stands, or `?` if there is no such node.
    pub fn push_strand(&self, text: &mut String, tree: &Tree, node: u32) -> Result<(), OutOfMemory>
        requires { HasStrands self.now tree.now }
        ensures { OnOk result (string_bytes text.new ≡ string_bytes text.old ++ maker_text tree.now (node_there tree.now node)) }
    {
        self.strands.push_strand(text, tree, node)
    }
}

ghost use Rattle.std.specs.Prelude.{◌≡◌, IfOk, option_map};
ghost use Rattle.cw_strand.specs.Meaning.{cell_of, element_of};
ghost use Rattle.cw_compile.specs.Numbered.{extent_of};

use crate::names::Names;
use cw_base::OutOfMemory;
use cw_code::CellInfo;
use std::alloc::Global;
use std::marker::Model;

/// The elements of a cell: the number of the first one, and how many there are, or 0 for a plain cell.
#[derive(Clone, Copy)]
pub(crate) struct Extent {
    pub(crate) base: u32,
    pub(crate) len: u32,
}

/// Cells, and their elements by name. If two cells have one name, the first counts. Contracts see the cells.
#[derive(Drop)]
pub(crate) struct Elements<'a> {
    cells: &'a [CellInfo],
    extents: Names<'a, Extent>,
}

impl<'a> Model for Elements<'a> {
    ghost use Rattle.std.specs.Prelude.{List};
    ghost use Rattle.cw_code.specs.declared.CellInfo.{CellInfo};
    ghost use Rattle.cw_compile.specs.Numbered.{HasElements};

    ghost Value = { List CellInfo };

    ghost view = { λ e. e.cells.now };

    ghost invariant = { λ e. HasElements e.extents e.cells.now };
}

impl<'a> Elements<'a> {
    pub(crate) fn of_cells(
        alloc: Global,
        cells: &'a [CellInfo],
    ) -> Result<Elements<'a>, OutOfMemory>
        ensures { IfOk result (λ e. e ≡ cells.now) }
    {
        let mut extents = Names::new(alloc);
        for cell in cells.iter().rev() {
            let extent = Extent {
                base: cell.base,
                len: cell.len,
            };
            extents.set(cell.name.as_str(), Some(extent))?;
        }
        Ok(Elements { cells, extents })
    }

    /// The elements of the cell called `name`.
    pub(crate) fn find(&self, name: &str) -> Option<Extent>
        ensures { result ≡ option_map extent_of (cell_of self.now name.now) }
    {
        self.extents.get(name)
    }

    /// The number of the first element of the cell called `name`.
    pub(crate) fn get(&self, name: &str) -> Option<u32>
        ensures { result ≡ element_of self.now name.now }
    {
        match self.find(name) {
            Some(extent) => Some(extent.base),
            None => None,
        }
    }
}

ghost use Rattle.std.specs.Prelude.{◌≡◌, ◌+◌, ◌≤◌, [], map, IfOk, None, option_map, nat_lt, if◌then◌else◌};
ghost use Rattle.std.specs.Result.{result_err};
ghost use Rattle.cw_text.specs.Syntax.{declaration_of};
ghost use Rattle.cw_strand.specs.Names.{cell_thing, declared_new, elements, fault, in_items};
ghost use Rattle.cw_compile.specs.NamingRules.Scopes.{thing_of, Finds};

use super::scope::{Scope, Thing};
use crate::NameRefusal;
use cw_code::CellInfo;
use cw_strand::{NameFault, NameKind};
use cw_text::Item;
use std::alloc::Global;

/// The most elements that the cells of a program have together.
const MOST_ELEMENTS: u32 = 65_536;

/// What items declare: their names, and the cells with the number of their elements.
#[derive(Drop)]
pub(crate) struct Declared {
    pub(crate) names: Scope,
    pub(crate) cells: Vec<CellInfo>,
    pub(crate) elements: u32,
    ghost few: { elements ≤ 65536 },
}

/// The fault of a name that is declared although it is taken.
pub(crate) fn declared_new(found: Option<Thing>, line: u32) -> Result<(), NameFault>
    ensures { result_err result ≡ declared_new (option_map thing_of found) line }
{
    match found {
        None => Ok(()),
        Some(_) => Err(NameFault {
            kind: NameKind::Twice,
            line,
        }),
    }
}

/// Whether a cell of length `len` is plain or an array.
fn cell_thing(len: u64) -> Thing
    ensures { thing_of result ≡ cell_thing len }
{
    if len == 0 { Thing::Cell } else { Thing::Array }
}

impl Declared {
    ghost use Rattle.cw_compile.specs.NamingRules.Items.{Declares, IsAllOf};

    /// Returns what all items declare, or the first fault of a name that they declare.
    pub(crate) fn of_items(alloc: Global, items: &[Item]) -> Result<Declared, NameRefusal>
        ensures exact { Finds result (in_items [] 0 (map declaration_of items.now)) }
        ensures declared { IfOk result (IsAllOf (map declaration_of items.now)) }
    {
        let mut declared = Declared {
            names: Scope::new(alloc),
            cells: Vec::new(alloc),
            elements: 0,
        };
        for item in items {
            declared.add(alloc, item)?;
        }
        Ok(declared)
    }

    /// Adds what one item declares.
    fn add(&mut self, alloc: Global, item: &Item) -> Result<(), NameRefusal>
        ensures { Declares (declaration_of item.now) self.old self.new result }
    {
        match item {
            Item::Cell {
                name,
                line,
                len,
                init,
            } => {
                declared_new(self.names.find(name), *line)?;
                let size = self.size_of(*len, *line)?;
                self.names.add(alloc, name, cell_thing(*len))?;
                self.cells.push(CellInfo {
                    name: name.clone()?,
                    len: *len as u32,
                    base: self.elements,
                    init: *init,
                })?;
                self.elements += size;
            }
            Item::Func {
                name,
                line,
                params,
                ..
            } => {
                declared_new(self.names.find(name), *line)?;
                self.names.add(alloc, name, Thing::Function(params.len()))?;
            }
        }
        Ok(())
    }

    /// Returns the number of elements of one more cell, or the fault that there are too many.
    fn size_of(&self, len: u64, line: u32) -> Result<u32, NameFault>
        ensures exact { result_err result ≡ (if nat_lt 65536 (self.now.elements + elements len) then fault NameKind.TooManyCells line else None) }
        ensures size { IfOk result (λ size. size ≡ elements len) }
        ensures room { IfOk result (λ size. self.now.elements + size ≤ 65536) }
    {
        let size = len.max(1);
        if size > u64::from(MOST_ELEMENTS - self.elements) {
            return Err(NameFault {
                kind: NameKind::TooManyCells,
                line,
            });
        }
        Ok(size as u32)
    }
}

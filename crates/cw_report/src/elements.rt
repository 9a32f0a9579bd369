ghost use Rattle.std.specs.Prelude.{◌≡◌, ◌++◌, IfOk, OnOk, map, string_bytes};
ghost use Rattle.std.specs.List.{flat_map};
ghost use Rattle.cw_report.specs.Elements.{element_text, named_element};
ghost use Rattle.cw_report.specs.Report.{element_names};

use cw_base::OutOfMemory;
use cw_code::CellInfo;
use std::alloc::Global;
use std::fmt::Write;

/// An element of a cell: the cell's name, and the element's position in an array.
#[derive(Clone, Copy)]
pub(crate) struct Element<'a> {
    name: &'a str,
    place: Option<u32>,
}

/// Lists the elements of all cells, by their numbers.
pub(crate) fn elements<'a>(
    alloc: Global,
    cells: &'a [CellInfo],
) -> Result<Vec<Element<'a>>, OutOfMemory>
    ensures { IfOk result (λ es. map element_text es.items ≡ flat_map element_names cells.now) }
{
    let mut list = Vec::new(alloc);
    for cell in cells {
        push_elements(&mut list, cell)?;
    }
    Ok(list)
}

fn push_elements<'a>(list: &mut Vec<Element<'a>>, cell: &'a CellInfo) -> Result<(), OutOfMemory>
    ensures { OnOk result (map element_text list.new.items ≡ map element_text list.old.items ++ element_names cell.now) }
{
    let name = cell.name.as_str();
    if cell.len == 0 {
        list.push(Element { name, place: None })?;
        return Ok(());
    }
    for place in 0..cell.len {
        list.push(Element {
            name,
            place: Some(place),
        })?;
    }
    Ok(())
}

/// Writes the name of element `number`.
pub(crate) fn push_element(
    text: &mut String,
    elements: &[Element<'_>],
    number: u32,
) -> Result<(), OutOfMemory>
    ensures { OnOk result (string_bytes text.new ≡ string_bytes text.old ++ named_element (map element_text elements.now) number) }
{
    match elements.get(number as usize) {
        None => text.push_str("?")?,
        Some(Element { name, place: None }) => text.push_str(name)?,
        Some(
            Element {
                name,
                place: Some(place),
            },
        ) => write!(text, "{name}[{place}]")?,
    }
    Ok(())
}

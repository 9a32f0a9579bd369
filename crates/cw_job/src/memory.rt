ghost use Rattle.std.specs.Prelude.{◌≡◌, ◌++◌, IfOk, OnOk, replicate};
ghost use Rattle.cw_strand.specs.Names.{first_memory, elements};
ghost use Rattle.cw_job.specs.Memory.{value_at};

use cw_base::OutOfMemory;
use cw_code::CellInfo;
use std::alloc::Global;

/// Returns what the memory holds at first.
pub fn first_memory(alloc: Global, cells: &[CellInfo]) -> Result<Vec<i64>, OutOfMemory>
    ensures { IfOk result (λ v. v.items ≡ first_memory cells.now) }
{
    let mut memory = Vec::new(alloc);
    for cell in cells {
        add_elements(&mut memory, cell)?;
    }
    Ok(memory)
}

/// Adds the elements of a cell to `memory`.
fn add_elements(memory: &mut Vec<i64>, cell: &CellInfo) -> Result<(), OutOfMemory>
    ensures { OnOk result
        (memory.new.items ≡ memory.old.items ++ replicate (elements cell.now.len) cell.now.init) }
{
    let elements = cell.len.max(1) as usize;
    memory.resize(memory.len() + elements, cell.init)?;
    Ok(())
}

/// Returns what the memory holds at `element`, or 0 if there is none.
pub fn value_at(memory: &[i64], element: usize) -> i64
    ensures { result ≡ value_at memory.now element }
{
    memory.get(element).copied().unwrap_or(0)
}

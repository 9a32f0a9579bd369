ghost use Rattle.std.specs.Prelude.{◌≡◌, IfOk, None};
ghost use Rattle.cw_strand.specs.Names.{naming_fault};
ghost use Rattle.cw_strand.specs.Programs.{IsProgramOf};
ghost use Rattle.cw_sheet.specs.Contents.{contents_of};
ghost use Rattle.cw_audit.specs.Parts.{first_values};

use cw_base::OutOfMemory;
use cw_code::Program;
use cw_compile::{NameRefusal, compile};
use cw_job::first_memory;
use cw_sheet::Sheet;
use std::alloc::Global;

/// Returns the program of a sheet whose source has no naming fault.
pub(crate) fn program_of(alloc: Global, sheet: &Sheet) -> Result<Program, OutOfMemory>
    requires { naming_fault (contents_of sheet.now).source.items ≡ None }
    ensures { IfOk result (IsProgramOf (contents_of sheet.now).source.items) }
{
    match compile(alloc, &sheet.ast) {
        Ok(program) => Ok(program),
        Err(NameRefusal::OutOfMemory) => Err(OutOfMemory),
        Err(NameRefusal::Name(_)) => unreachable!(),
    }
}

/// Returns what the memory of a sheet's program holds at first.
pub(crate) fn first_values(
    alloc: Global,
    sheet: &Sheet,
    program: &Program,
) -> Result<Vec<i64>, OutOfMemory>
    requires { IsProgramOf (contents_of sheet.now).source.items program.now }
    ensures { IfOk result (λ v. v.items ≡ first_values (contents_of sheet.now)) }
{
    first_memory(alloc, program.cells.as_slice())
}

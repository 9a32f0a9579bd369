ghost use Rattle.std.specs.Prelude.{◌≤◌, ◌≡◌, IfOk, string_bytes};
ghost use Rattle.cw_text.specs.Syntax.{source_of};
ghost use Rattle.cw_strand.specs.Programs.{IsProgramOf};
ghost use Rattle.cw_gen.specs.Load.{load_tree};
ghost use Rattle.cw_words.specs.Words.{most_transfers};
ghost use Rattle.cw_top.specs.Written.{sum_of_values, summary_text};

use crate::reading::Compiled;
use cw_base::OutOfMemory;
use cw_compile::{NameRefusal, compile};
use cw_gen::{load_program, loads_have_no_fault};
use std::alloc::Global;

/// Returns the program of a load of `transfers` transfers, compiled.
pub fn compiled_load(alloc: Global, transfers: u32) -> Result<Compiled, OutOfMemory>
    requires some { 1 ≤ transfers }
    requires most { transfers ≤ most_transfers }
    ensures tree { IfOk result (λ c. (source_of c.ast).items ≡ load_tree transfers) }
    ensures its { IfOk result (λ c. IsProgramOf (source_of c.ast).items c.program) }
{
    let ast = load_program(alloc, transfers)?;
    // A hint to the prover: no name is at fault.
    loads_have_no_fault();
    match compile(alloc, &ast) {
        Ok(program) => Ok(Compiled { ast, program }),
        Err(NameRefusal::OutOfMemory) => Err(OutOfMemory),
        Err(NameRefusal::Name(_)) => unreachable!(),
    }
}

// Returns the sum of the values. It cannot overflow: there are fewer values than that needs.
fn sum_of(values: &[i64]) -> i128
    ensures { result ≡ sum_of_values values.now }
{
    let mut sum = 0i128;
    for value in values {
        sum += i128::from(*value);
    }
    sum
}

/// Returns the text of a finished load: the number of transfers, and the sum of all cells.
pub fn summary(alloc: Global, transfers: u32, memory: &[i64]) -> Result<Vec<u8>, OutOfMemory>
    ensures { IfOk result (λ text. text.items ≡ summary_text transfers memory.now) }
{
    let sum = sum_of(memory);
    let text = format!(in alloc; "transfers {transfers}\nsum {sum}\nend\n")?;
    Ok(text.into_bytes())
}

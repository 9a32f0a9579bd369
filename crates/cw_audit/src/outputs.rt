ghost use Rattle.std.specs.Prelude.{◌↔◌, IfOk, IsTrue};
ghost use Rattle.cw_record.specs.Coherent.{HasOutputs};

use cw_base::OutOfMemory;
use cw_record::{RecordEnd, outputs_of};
use cw_tree::{Conflict, Tree};
use std::alloc::Global;

/// Returns whether the outputs of a run that finished are those of its output nodes, in its order.
pub(crate) fn has_outputs(
    alloc: Global,
    tree: &Tree,
    conflicts: &[Conflict],
    aborts: u32,
    end: &RecordEnd,
) -> Result<bool, OutOfMemory>
    ensures { IfOk result (λ b. IsTrue b ↔ HasOutputs tree.now conflicts.now aborts end.now) }
{
    let RecordEnd::Finished { outputs, .. } = end else {
        return Ok(true);
    };
    let shown = outputs_of(alloc, tree, conflicts, aborts, end)?;
    Ok(outputs.as_slice() == shown.as_slice())
}

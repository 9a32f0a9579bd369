ghost use Rattle.std.specs.Prelude.{◌≡◌, ℕ, [], IfOk, length, map, slice_index_or};
ghost use Rattle.cw_tree.specs.Accesses.{live_accesses};
ghost use Rattle.cw_tree.specs.Journals.{FitsCells};
ghost use Rattle.cw_tree.specs.Nodes.{below};
ghost use Rattle.cw_audit.specs.LiveAccesses.{all_live_accesses};

use crate::accesses::cell_accessed;
use cw_base::{OutOfMemory, Seq};
use cw_tree::Tree;
use std::alloc::Global;

/// Returns the live accesses of each of the first `cells` cells, oldest first. All live accesses are given oldest first.
pub(crate) fn journals(
    alloc: Global,
    tree: &Tree,
    accesses: &[u32],
    cells: usize,
) -> Result<Vec<Seq<u32>>, OutOfMemory>
    requires accesses { accesses.now ≡ all_live_accesses tree.now }
    requires cells { FitsCells tree.now cells }
    ensures { IfOk result (λ v. v.items ≡ map (live_accesses tree.now) (below cells)) }
{
    let mut journals = empty_journals(alloc, cells)?;
    for i in 0..accesses.len() {
        let access = accesses[i];
        let Some(cell) = cell_accessed(tree, access) else {
            continue;
        };
        journals[cell as usize].push(access)?;
    }
    Ok(journals)
}

/// Returns as many empty journals as there are cells.
fn empty_journals(alloc: Global, cells: usize) -> Result<Vec<Seq<u32>>, OutOfMemory>
    ensures len { IfOk result (λ v. length v.items ≡ cells) }
    ensures empty { IfOk result (λ v. (c : ℕ) → slice_index_or v.items c [] ≡ []) }
{
    let mut journals = Vec::with_capacity(alloc, cells)?;
    for _ in 0..cells {
        journals.push(Seq::new(alloc))?;
    }
    Ok(journals)
}

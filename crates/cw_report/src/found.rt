ghost use Rattle.std.specs.Prelude.{◌≡◌, ◌++◌, ℕ, if◌then◌else◌, IfOk, OnOk, None, Some, string_bytes};
ghost use Rattle.std.specs.BTreeMap.{get};
ghost use Rattle.std.specs.Option.{option_or};
ghost use Rattle.std.specs.Ordering.{is_eq, nat_cmp};
ghost use Rattle.cw_tree.specs.Nodes.{with_stamp};
ghost use Rattle.cw_report.specs.Found.{AreFound};
ghost use Rattle.cw_report.specs.Report.{maker_text};

use crate::strands::Strands;
use cw_base::OutOfMemory;
use cw_tree::Tree;
use std::alloc::Global;
use std::collections::BTreeMap;

/// What is computed once for all lines of a report.
#[derive(Drop)]
pub(crate) struct Found {
    pub(crate) strands: Strands,
    // The first node with each stamp.
    first: BTreeMap<u64, u32>,
}

impl Found {
    pub(crate) fn of_tree(alloc: Global, tree: &Tree) -> Result<Found, OutOfMemory>
        ensures { IfOk result (AreFound tree.now) }
    {
        Ok(Found {
            strands: Strands::of_tree(tree)?,
            first: first_nodes(alloc, tree)?,
        })
    }

    /// Writes the strand that made the first node with `stamp`.
    pub(crate) fn push_maker(
        &self,
        text: &mut String,
        tree: &Tree,
        stamp: u64,
    ) -> Result<(), OutOfMemory>
        requires { AreFound tree.now self.now }
        ensures { OnOk result (string_bytes text.new ≡ string_bytes text.old ++ maker_text tree.now (with_stamp tree.now stamp)) }
    {
        match self.first.get(&stamp) {
            Some(node) => self.strands.push_strand(text, tree, *node)?,
            None => text.push_str("?")?,
        }
        Ok(())
    }
}

// Returns for each stamp the first node that has it.
fn first_nodes(alloc: Global, tree: &Tree) -> Result<BTreeMap<u64, u32>, OutOfMemory>
    ensures { IfOk result (λ first. (stamp : ℕ) → get nat_cmp first stamp ≡ with_stamp tree.now stamp) }
{
    let mut first = BTreeMap::new(alloc);
    for n in 0..tree.nodes().len() as u32 {
        note_first(&mut first, tree.node(n).stamp, n)?;
    }
    Ok(first)
}

// Notes `node` as the first one with `stamp`, unless one was noted before.
fn note_first(first: &mut BTreeMap<u64, u32>, stamp: u64, node: u32) -> Result<(), OutOfMemory>
    ensures { OnOk result ((s : ℕ) → get nat_cmp first.new s ≡ option_or (get nat_cmp first.old s) (if is_eq (nat_cmp stamp s) then Some node else None)) }
{
    if first.get(&stamp).is_none() {
        first.insert(stamp, node)?;
    }
    Ok(())
}

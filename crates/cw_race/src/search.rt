ghost use Rattle.std.specs.Prelude.{◌≡◌, ◌+◌, ◌≤◌, [], None, IsTrue, IfOk, OnOk};
ghost use Rattle.std.specs.Ordering.{nat_cmp};
ghost use Rattle.std.specs.BTreeMap.{get, values, IsOrdered};
ghost use Rattle.cw_sp.specs.Orders.{is_leaf};
ghost use Rattle.cw_race.specs.InMemory.{AreLeaves, IsNoted, kept_at};

use crate::Race;
use crate::kept::Kept;
use cw_base::OutOfMemory;
use cw_order::Steps;
use cw_sp::Pairs;
use std::alloc::Global;
use std::collections::BTreeMap;
use std::sync::ledger::Ledger;

/// A cell, and a block or none: the accesses of the cell that have this innermost block, or none.
pub(crate) type Group = (u32, Option<u32>);

/// What is known of the accesses that a search has come to: what is kept of each group, and for each cell in which a race was found
/// the first one.
#[derive(Drop)]
pub(crate) struct Search {
    kept: BTreeMap<Group, Kept>,
    found: BTreeMap<u32, Race>,
}

impl Search {
    pub(crate) fn new(alloc: Global) -> Search
        ensures kept { result.kept.entries ≡ [] }
        ensures found { result.found.entries ≡ [] }
    {
        Search {
            kept: BTreeMap::new(alloc),
            found: BTreeMap::new(alloc),
        }
    }

    /// Takes the next access of a group, `node`. After the first race in a cell, nothing more is asked of the cell.
    pub(crate) fn note<L: Ledger>(
        &mut self,
        pairs: &Pairs<'_>,
        group: Group,
        node: u32,
        writes: bool,
        steps: &mut Steps<L>,
    ) -> Result<(), OutOfMemory>
        requires leaf { IsTrue (is_leaf pairs.now node) }
        requires kept { get nat_cmp self.old.found group.0 ≡ None → AreLeaves pairs.now (kept_at self.old.kept group) }
        ensures noted { OnOk result (IsNoted pairs.now group node writes self.old self.new) }
        ensures cost { steps.new ≤ steps.old + 4 }
    {
        if self.found.contains_key(&group.0) {
            return Ok(());
        }
        let mut kept = self.kept_of(group);
        if let Some(first) = kept.take(pairs, node, writes, steps) {
            let race = Race {
                cell: group.0,
                first,
                second: node,
            };
            self.found.insert(group.0, race)?;
        } else {
            self.kept.insert(group, kept)?;
        }
        Ok(())
    }

    /// Returns what is kept of a group.
    fn kept_of(&self, group: Group) -> Kept
        ensures { result ≡ kept_at self.now.kept group }
    {
        match self.kept.get(&group) {
            Some(kept) => *kept,
            None => Kept {
                writer: None,
                reader: None,
            },
        }
    }

    /// Returns the races that were found, by rising cells.
    pub(crate) fn races(&self, alloc: Global) -> Result<Vec<Race>, OutOfMemory>
        ensures races { IfOk result (λ races. races.items ≡ values self.now.found) }
        ensures ordered { OnOk result (IsOrdered nat_cmp self.now.found) }
    {
        let mut races = Vec::new(alloc);
        for race in self.found.values() {
            races.push(*race)?;
        }
        Ok(races)
    }
}

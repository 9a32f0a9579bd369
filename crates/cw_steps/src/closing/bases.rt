//! Where each log begins in the tree.
ghost use Rattle.std.specs.Prelude.{◌≡◌, ◌+◌, ◌++◌, ◌∷◌, [], List, length, IfOk, OnOk};
ghost use Rattle.cw_log.specs.declared.log.Log.{Log};
ghost use Rattle.cw_course.specs.Closings.{base_of};
ghost use Rattle.cw_steps.specs.Leaving.{logs_of_track, HasBases};

use crate::Track;
use cw_base::OutOfMemory;
use std::alloc::Global;

/// For each column, the number in the tree of the first node of its log, if logs are laid one after another; and the number of
/// their nodes.
#[derive(Drop)]
pub(crate) struct Bases {
    table: Vec<Option<u32>>,
    count: u32,
}

impl Bases {
    fn new(alloc: Global, columns: usize) -> Result<Bases, OutOfMemory>
        ensures { IfOk result (λ b. HasBases b []) }
    {
        let table = vec![in alloc; None; columns]?;
        Ok(Bases { table, count: 0 })
    }

    /// Adds a log with this column and this many nodes, if no other log has that column.
    fn add(&mut self, column: u32, nodes: usize) -> Result<(), OutOfMemory>
        ensures { OnOk result ((ls : List Log) (l : Log) → l.column ≡ column → length l.nodes ≡ nodes → HasBases self.old ls → HasBases self.new (ls ++ l ∷ [])) }
    {
        let Bases { table, count } = self;
        let Ok(more) = u32::try_from(nodes) else {
            return Err(OutOfMemory);
        };
        let Some(next) = count.checked_add(more) else {
            return Err(OutOfMemory);
        };
        let place = column as usize;
        if place >= table.len() || table[place].is_some() {
            return Err(OutOfMemory);
        }
        table[place] = Some(*count);
        *count = next;
        Ok(())
    }

    /// Returns the number in the tree of the first node of the log with `column`.
    pub(crate) fn base(&self, column: u32) -> Result<u32, OutOfMemory>
        ensures { IfOk result (λ n. (all : List Log) → HasBases self.now all → n ≡ base_of all column) }
    {
        let place = column as usize;
        if place >= self.table.len() {
            return Err(OutOfMemory);
        }
        match self.table[place] {
            Some(base) => Ok(base),
            None => Err(OutOfMemory),
        }
    }

    /// Returns the number in the tree of `node` of the log with `column`.
    pub(crate) fn number(&self, column: u32, node: u32) -> Result<u32, OutOfMemory>
        ensures { IfOk result (λ n. (all : List Log) → HasBases self.now all → n ≡ base_of all column + node) }
    {
        let base = self.base(column)?;
        match base.checked_add(node) {
            Some(number) => Ok(number),
            None => Err(OutOfMemory),
        }
    }
}

/// Returns the length of a table that has a position for the column of each log.
fn columns(track: &Track) -> usize {
    let mut most = track.first;
    for log in track.joined.iter() {
        most = most.max(log.column);
    }
    most as usize + 1
}

pub(crate) fn bases_of(alloc: Global, track: &Track) -> Result<Bases, OutOfMemory>
    ensures { IfOk result (λ b. HasBases b (logs_of_track track.now)) }
{
    let mut bases = Bases::new(alloc, columns(track))?;
    bases.add(track.first, track.nodes.len())?;
    for log in track.joined.iter() {
        bases.add(log.column, log.nodes.len())?;
    }
    Ok(bases)
}

ghost use Rattle.std.specs.Prelude.{◌≡◌, ℕ, ℤ, List, [], IfOk, OnOk, if◌then◌else◌, None, nat_lt};
ghost use Rattle.std.specs.BTreeMap.{get};
ghost use Rattle.std.specs.Ordering.{nat_cmp};
ghost use Rattle.cw_strand.specs.declared.want.Want.TheVariants as Want;
ghost use Rattle.cw_serial.specs.Wants.{put_back_since};
ghost use Rattle.cw_serial.specs.InMemory.{held_before, since_of};

use crate::value_at;
use cw_base::{OutOfMemory, Seq, Stack};
use cw_code::Back;
use cw_strand::Want;
use std::alloc::Global;
use std::collections::BTreeMap;

/// A write of an element, with what the element held before.
#[derive(Clone, Copy)]
pub struct Write {
    pub element: u32,
    pub replaced: i64,
}

/// A begun block: the number of the strand that began it, and how many writes had been kept at its begin.
#[derive(Clone, Copy)]
pub struct Begun {
    pub strand: u32,
    pub writes: usize,
}

/// The begun blocks, and the writes since the outermost of them began, the oldest first. So a begin copies nothing, and
/// giving up a block takes only the writes since its begin.
#[derive(Drop)]
pub struct Undo {
    pub begun: Stack<Begun>,
    pub writes: Vec<Write>,
}

impl Undo {
    ghost use Rattle.cw_serial.specs.Wants.{Since, given_up};
    ghost use Rattle.cw_serial.specs.InMemory.{AreSince, UndoFollows, is_own};

    pub fn new(alloc: Global) -> Undo
        ensures begun { result.begun ≡ [] }
        ensures few { result.writes.items ≡ [] }
        ensures since { (memory : List ℤ) → AreSince result memory [] }
    {
        Undo {
            begun: Stack::new(alloc),
            writes: Vec::new(alloc),
        }
    }

    /// Whether the innermost begun block is the strand's own.
    fn is_own(&self, strand: u32) -> bool
        ensures { result ≡ is_own strand self.now.begun }
    {
        self.begun
            .newest()
            .is_some_and(|block| block.strand == strand)
    }

    /// Follows a want of `strand` before it is done in the memory: a block begins or ends, and while one is begun, what
    /// a write replaces is kept. Returns false, with nothing changed, if the want cannot be done.
    pub fn follow(&mut self, strand: u32, want: Want, memory: &[i64]) -> Result<bool, OutOfMemory>
        ensures follows { IfOk result (λ done. UndoFollows want strand memory.now self.old done self.new) }
        ensures few { OnOk result ((self.old.begun ≡ [] → self.old.writes.items ≡ []) → self.new.begun ≡ [] → self.new.writes.items ≡ []) }
    {
        match want {
            Want::Load(_) | Want::Out(_) => Ok(true),
            Want::Store(element, _) => {
                if self.begun.len() > 0 {
                    let replaced = value_at(memory, element as usize);
                    self.writes.push(Write { element, replaced })?;
                }
                Ok(true)
            }
            Want::Begin => {
                let writes = self.writes.len();
                self.begun.push(Begun { strand, writes })?;
                Ok(true)
            }
            Want::End => Ok(self.end(strand)),
            Want::Cancel => Ok(self.is_own(strand)),
            Want::Fork | Want::Sync | Want::Done | Want::Fault(_) => Ok(false),
        }
    }

    /// Ends the innermost block, if it is the strand's own. After the outermost one has ended, no write is kept.
    fn end(&mut self, strand: u32) -> bool
        ensures follows { (memory : List ℤ) → UndoFollows Want.End strand memory self.old result self.new }
        ensures few { (self.old.begun ≡ [] → self.old.writes.items ≡ []) → self.new.begun ≡ [] → self.new.writes.items ≡ [] }
    {
        if !self.is_own(strand) {
            return false;
        }
        self.begun.pop();
        if self.begun.len() == 0 {
            self.writes.clear();
        }
        true
    }

    /// Returns what the innermost begun block would put back if it were given up.
    pub fn given_up(&self, alloc: Global, memory: &[i64]) -> Result<Seq<Back>, OutOfMemory>
        ensures { IfOk result (λ list. (since : List Since) → AreSince self.now memory.now since → list ≡ given_up since) }
    {
        let Some(block) = self.begun.newest() else {
            return Ok(Seq::new(alloc));
        };
        let writes = self.writes.get(block.writes..).unwrap_or(&[]);
        put_back(alloc, writes, memory)
    }
}

/// Returns what is put back to undo `writes` in the memory.
fn put_back(alloc: Global, writes: &[Write], memory: &[i64]) -> Result<Seq<Back>, OutOfMemory>
    ensures { IfOk result (λ list. list ≡ put_back_since (since_of writes.now memory.now)) }
{
    let held = held_before(alloc, writes, memory.len())?;
    let mut list = Seq::new(alloc);
    for (cell, value) in &held {
        list.push(Back {
            cell: *cell,
            value: *value,
        })?;
    }
    Ok(list)
}

/// Returns what each element held before the first of `writes` that wrote it. Elements from number `elements` on do not
/// exist and are left out.
fn held_before(
    alloc: Global,
    writes: &[Write],
    elements: usize,
) -> Result<BTreeMap<u32, i64>, OutOfMemory>
    ensures { IfOk result (λ held. (c : ℕ) → get nat_cmp held c ≡ (if nat_lt c elements then held_before writes.now c else None)) }
{
    let mut held = BTreeMap::new(alloc);
    for write in writes.iter().rev() {
        if (write.element as usize) < elements {
            held.insert(write.element, write.replaced)?;
        }
    }
    Ok(held)
}

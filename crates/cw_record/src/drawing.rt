ghost use Rattle.std.specs.Prelude.{◌≡◌, ◌+◌, ◌<◌, IfOk, IsTrue, OnOk, length};
ghost use Rattle.cw_tree.specs.Nodes.{is_block};
ghost use Rattle.cw_tree.specs.declared.node.Kind.TheVariants.{Cancel, Out};
ghost use Rattle.cw_record.specs.Drawn.{after_begin, after_end, after_entry, after_fork, after_join, after_node, after_read, after_start, after_write, blank, drawn};

use cw_base::{OutOfMemory, Seq};
use cw_code::Back;
use cw_tree::{BlockState, Entry, Kind, Mark, Tree};
use std::alloc::Global;

/// What one worker draws of its run: the tree, the place of the next node, the last stamp, and the journals.
#[derive(Drop)]
pub(crate) struct Drawing {
    pub(crate) tree: Tree,
    pub(crate) place: u32,
    pub(crate) clock: u64,
    pub(crate) journals: Vec<Seq<Entry>>,
}

impl Drawing {
    /// Returns a drawing of the root strand alone, with an empty journal for each of `elements` elements.
    pub(crate) fn begin(alloc: Global, elements: usize) -> Result<Drawing, OutOfMemory>
        ensures { IfOk result (λ d. drawn d ≡ blank elements) }
    {
        let mut journals = Vec::with_capacity(alloc, elements)?;
        for _ in 0..elements {
            journals.push(Seq::new(alloc))?;
        }
        Ok(Drawing {
            tree: Tree::new(alloc)?,
            place: 0,
            clock: 0,
            journals,
        })
    }

    /// Adds a node at the place, with the next stamp, and returns its number.
    fn add(&mut self, kind: Kind) -> Result<u32, OutOfMemory>
        requires { self.old.place < length self.old.tree }
        ensures number { IfOk result (λ n. n ≡ length self.old.tree) }
        ensures drawn { OnOk result (drawn self.new ≡ after_node kind (drawn self.old)) }
    {
        let stamp = self.next_stamp()?;
        self.tree.add(self.place, kind, stamp)
    }

    /// Returns the next stamp. There are far fewer nodes than stamps; past the last stamp it fails as out of memory.
    fn next_stamp(&mut self) -> Result<u64, OutOfMemory>
        ensures stamp { IfOk result (λ s. s ≡ self.old.clock + 1) }
        ensures drawing { IfOk result (λ s. self.new ≡ record self.old { clock = s }) }
    {
        let Some(stamp) = self.clock.checked_add(1) else {
            return Err(OutOfMemory);
        };
        self.clock = stamp;
        Ok(stamp)
    }

    /// Adds an entry for the newest access to the journal of `cell`, if there is one.
    fn note(&mut self, cell: u32, wrote: bool, value: i64, old: i64) -> Result<(), OutOfMemory>
        ensures { OnOk result (drawn self.new ≡ after_entry cell wrote value old (drawn self.old)) }
    {
        let mark = Mark {
            strand: 0,
            stamp: self.clock,
        };
        if let Some(journal) = self.journals.get_mut(cell as usize) {
            journal.push(Entry {
                mark,
                wrote,
                value,
                old,
            })?;
        }
        Ok(())
    }

    /// Draws a read of `cell`, which gave `value`.
    pub(crate) fn add_read(&mut self, cell: u32, value: i64) -> Result<(), OutOfMemory>
        requires { self.old.place < length self.old.tree }
        ensures { OnOk result (drawn self.new ≡ after_read cell value (drawn self.old)) }
    {
        self.add(Kind::Read { cell, value })?;
        self.note(cell, false, value, value)
    }

    /// Draws a write of `value` to `cell`, which had the value `old`.
    pub(crate) fn add_write(&mut self, cell: u32, value: i64, old: i64) -> Result<(), OutOfMemory>
        requires { self.old.place < length self.old.tree }
        ensures { OnOk result (drawn self.new ≡ after_write cell value old (drawn self.old)) }
    {
        self.add(Kind::Write { cell, value })?;
        self.note(cell, true, value, old)
    }

    /// Draws an output.
    pub(crate) fn add_output(&mut self, value: i64) -> Result<(), OutOfMemory>
        requires { self.old.place < length self.old.tree }
        ensures { OnOk result (drawn self.new ≡ after_node (Out value) (drawn self.old)) }
    {
        self.add(Kind::Out { value })?;
        Ok(())
    }

    /// Draws that a block is given up, and that `back` is what is put back.
    pub(crate) fn add_cancel(&mut self, alloc: Global, back: &Seq<Back>) -> Result<(), OutOfMemory>
        requires { self.old.place < length self.old.tree }
        ensures { OnOk result (drawn self.new ≡ after_node (Cancel back.now) (drawn self.old)) }
    {
        let back = Seq::from_vec(Vec::from_slice(alloc, back.as_slice())?);
        self.add(Kind::Cancel { back })?;
        Ok(())
    }

    /// Draws the begin of a block. The next node goes into it.
    pub(crate) fn begin_block(&mut self) -> Result<(), OutOfMemory>
        requires { self.old.place < length self.old.tree }
        ensures { OnOk result (drawn self.new ≡ after_begin (drawn self.old)) }
    {
        let block = self.add(Kind::Block)?;
        self.place = block;
        Ok(())
    }

    /// Draws the end of the block at the place, which is committed.
    pub(crate) fn end_block(&mut self) -> Result<(), OutOfMemory>
        requires { IsTrue (is_block self.old.tree self.old.place) }
        ensures { OnOk result (drawn self.new ≡ after_end (drawn self.old)) }
    {
        let stamp = self.next_stamp()?;
        let outer = self.tree.parent(self.place);
        self.tree.close(self.place, BlockState::Committed, stamp);
        self.place = outer;
        Ok(())
    }

    /// Draws a fork. The next node goes into its left strand. Returns the node of the fork.
    pub(crate) fn add_fork(&mut self) -> Result<u32, OutOfMemory>
        requires { self.old.place < length self.old.tree }
        ensures fork { IfOk result (λ f. f ≡ length self.old.tree) }
        ensures drawn { OnOk result (drawn self.new ≡ after_fork (drawn self.old)) }
    {
        let fork = self.add(Kind::Fork)?;
        self.start_strand(fork)?;
        Ok(fork)
    }

    /// Draws the start of a strand of `fork`. The next node goes into it.
    pub(crate) fn start_strand(&mut self, fork: u32) -> Result<(), OutOfMemory>
        requires { fork < length self.old.tree }
        ensures { OnOk result (drawn self.new ≡ after_start fork (drawn self.old)) }
    {
        self.place = self.tree.add(fork, Kind::Strand, 0)?;
        Ok(())
    }

    /// Draws that both strands of `fork` have ended. The next node goes after it.
    pub(crate) fn join_fork(&mut self, fork: u32)
        requires { fork < length self.old.tree }
        ensures { drawn self.new ≡ after_join fork (drawn self.old) }
    {
        self.place = self.tree.parent(fork);
    }
}

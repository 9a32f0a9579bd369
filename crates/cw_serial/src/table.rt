ghost use Rattle.std.specs.Prelude.{◌≡◌, ◌+◌, ◌<◌, ◌∷◌, List, [], true, Some, IfOk, OnOk, slice_get, vec_len, length};

use crate::{Name, Standing};
use cw_base::OutOfMemory;
use cw_code::{Limits, Program};
use cw_strand::{Given, Want};
use std::alloc::Global;
use std::mem;

/// What a strand is doing.
#[derive(Drop)]
pub enum Place<S> {
    /// It is at a want, or it has ended and the other strand of its fork has not.
    Stands(S),
    /// It waits for the two strands of its newest fork.
    Waits,
    /// It has ended, and so has the other strand of its fork: the strand that forked goes on.
    Gone,
}

/// The numbers of the two strands of a fork.
#[derive(Clone, Copy)]
pub struct Sides {
    pub left: u32,
    pub right: u32,
    ghost next: { right ≡ left + 1 },
}

/// A strand, with its forks, the oldest first.
#[derive(Drop)]
pub struct Row<S> {
    pub place: Place<S>,
    pub forks: Vec<Sides>,
}

/// The strands that were started, by their numbers. A strand's number is greater than that of the strand that started it.
#[derive(Drop)]
pub struct Table<S> {
    pub names: Vec<Name>,
    pub rows: Vec<Row<S>>,
}

impl<S: Drop> Table<S> {
    ghost use Rattle.cw_tree.specs.declared.picks.Turn.{Turn};
    ghost use Rattle.cw_serial.specs.Machine.{steps_down, is_beneath};
    ghost use Rattle.cw_serial.specs.TableInMemory.{StrandsAreNumbered, Starts, Puts, Notes, awaited_at, started_at};

    /// Adds a strand.
    fn start(&mut self, alloc: Global, name: Name, strand: S) -> Result<(), OutOfMemory>
        ensures { OnOk result (Starts self.old name strand self.new) }
    {
        self.names.push(name)?;
        self.rows.push(Row {
            place: Place::Stands(strand),
            forks: Vec::new(alloc),
        })?;
        Ok(())
    }

    /// Whether the strand `number` is the strand `above`, or was started beneath it.
    pub fn is_beneath(&self, above: u32, number: u32) -> bool
        ensures { StrandsAreNumbered self.now.names.items self.now.rows.items → (q z : List Turn) →
            steps_down self.now.names.items above ≡ Some q → steps_down self.now.names.items number ≡ Some z →
            result ≡ is_beneath q z }
    {
        let mut at = number;
        while at > above {
            let Some(name) = self.name(at) else {
                return false;
            };
            if name.parent >= at {
                return false;
            }
            at = name.parent;
        }
        at == above
    }

    /// The name of the strand with the number `number`.
    pub fn name(&self, number: u32) -> Option<Name>
        ensures { result ≡ slice_get self.now.names.items number }
    {
        self.names.get(number as usize).copied()
    }

    /// The number of a strand, by the fork that started it.
    pub fn started(&self, name: Name) -> Option<u32>
        ensures { result ≡ started_at self.now.rows.items name }
    {
        let row = self.rows.get(name.parent as usize)?;
        let fork = name.fork.checked_sub(1)?;
        let sides = row.forks.get(fork as usize)?;
        Some(if name.right { sides.right } else { sides.left })
    }

    /// The two strands that a strand waits for.
    fn awaited(&self, number: u32) -> Option<Sides>
        ensures { result ≡ awaited_at self.now.rows.items number }
    {
        let row = self.rows.get(number as usize)?;
        match row.place {
            Place::Waits => row.forks.last().copied(),
            Place::Stands(_) | Place::Gone => None,
        }
    }

    /// Returns the numbers of the next two strands. More than 4,294,967,295 strands are reported as out of memory.
    fn next_sides(&self) -> Result<Sides, OutOfMemory>
        ensures { IfOk result (λ x. x.left ≡ length self.now.names.items) }
    {
        let left = u32::try_from(self.names.len()).map_err(|_| OutOfMemory)?;
        let right = left.checked_add(1).ok_or(OutOfMemory)?;
        Ok(Sides { left, right })
    }

    /// Sets the place of a strand and returns the former one.
    fn put(&mut self, number: u32, place: Place<S>) -> Place<S>
        requires { number < vec_len self.old.rows }
        ensures { Puts self.old number place result self.new }
    {
        let row = &mut self.rows[number as usize];
        mem::replace(&mut row.place, place)
    }

    /// Notes one more fork of a strand and returns which one it is, counted from 1.
    fn note(&mut self, number: u32, sides: Sides) -> Result<u32, OutOfMemory>
        requires { number < vec_len self.old.rows }
        ensures { IfOk result (λ fork. Notes self.old number sides fork self.new) }
    {
        let row = &mut self.rows[number as usize];
        row.forks.push(sides)?;
        let Ok(fork) = u32::try_from(row.forks.len()) else {
            return Err(OutOfMemory);
        };
        Ok(fork)
    }
}

impl Table<Standing> {
    ghost use Rattle.cw_job.specs.Jobs.{Job, TakesWords, bare_job};
    ghost use Rattle.cw_job.specs.Room.Strands.{StrandState, state_of, strands_of_job};
    ghost use Rattle.cw_serial.specs.StrandTree.{StrandTree, goes_on};
    ghost use Rattle.cw_serial.specs.Spots.{IsSettled};
    ghost use Rattle.cw_serial.specs.TableInMemory.{AnswersStrand, answers_by, Moves, SettlesTo, Holds, IsFront, want_at, over_at};
    ghost use Rattle.cw_serial.specs.AreOf.{AreOf};

    /// Returns the table with the strand of main alone, with its forks made.
    pub fn of_main(
        alloc: Global,
        program: &Program,
        words: &[i64],
        limits: Limits,
    ) -> Result<Table<Standing>, OutOfMemory>
        requires { TakesWords program.now (length words.now) }
        ensures holds { IfOk result (λ table. let job : Job = record { program = program.now; words = words.now; limits = limits } in
            let s = strands_of_job job in
            Holds state_of table (goes_on s 0 s.start) × IsSettled s (goes_on s 0 s.start)) }
        ensures stands { IfOk result (λ table. AreOf program.now table.rows.items) }
    {
        let mut table = Table {
            names: Vec::new(alloc),
            rows: Vec::new(alloc),
        };
        let root = Name {
            parent: 0,
            fork: 0,
            right: false,
        };
        let strand = Standing::start(alloc, program, words, limits)?;
        table.start(alloc, root, strand)?;
        table.settle(alloc, 0, program)?;
        Ok(table)
    }

    /// The want of the strand with the number `number`, if it is at one.
    pub fn want(&self, number: u32) -> Option<Want>
        ensures { (job : Job) → result ≡ want_at (strands_of_job job) state_of self.now.rows.items number }
    {
        let row = self.rows.get(number as usize)?;
        match &row.place {
            Place::Stands(strand) => Some(strand.want()),
            Place::Waits | Place::Gone => None,
        }
    }

    /// Whether a strand has ended, and waits for the other strand of its fork.
    pub fn is_over(&self, number: u32) -> bool
        ensures { (job : Job) → result ≡ over_at (strands_of_job job) state_of self.now.rows.items number }
    {
        matches!(self.want(number), Some(Want::Sync | Want::Done))
    }

    /// Answers the want of the strand `number`, which goes on to its next want.
    pub fn answer(
        &mut self,
        number: u32,
        given: Given,
        program: &Program,
    ) -> Result<(), OutOfMemory>
        requires stands { AreOf program.now self.old.rows.items }
        requires answered { answers_by (want_at (strands_of_job (bare_job program.now)) state_of self.old.rows.items number) ≡ true }
        ensures answers { OnOk result ((job : Job) → job.program ≡ program.now →
            AnswersStrand (strands_of_job job) state_of self.old number given self.new) }
        ensures stands { OnOk result (AreOf program.now self.new.rows.items) }
    {
        let Place::Stands(mut strand) = self.put(number, Place::Gone) else {
            unreachable!()
        };
        strand.answer(given, program)?;
        self.put(number, Place::Stands(strand));
        Ok(())
    }

    /// Makes all forks and joins that can be made, if at first only the strand `number` can make any.
    pub fn settle(
        &mut self,
        alloc: Global,
        number: u32,
        program: &Program,
    ) -> Result<(), OutOfMemory>
        requires { AreOf program.now self.old.rows.items }
        ensures strands { OnOk result ((job : Job) → job.program ≡ program.now → (t : StrandTree StrandState) →
            SettlesTo (strands_of_job job) state_of self.old (number ∷ []) t →
            Holds state_of self.new t × IsSettled (strands_of_job job) t) }
        ensures names { OnOk result (IsFront self.old.names.items self.new.names.items) }
        ensures stands { OnOk result (AreOf program.now self.new.rows.items) }
    {
        let mut todo = Vec::new(alloc);
        todo.push(number)?;
        while let Some(number) = todo.pop() {
            self.advance(alloc, number, program, &mut todo)?;
        }
        Ok(())
    }

    /// Makes the fork that a strand wants, or its join with the other strand of its fork. Adds to `todo` the strands
    /// that have to be looked at next.
    fn advance(
        &mut self,
        alloc: Global,
        number: u32,
        program: &Program,
        todo: &mut Vec<u32>,
    ) -> Result<(), OutOfMemory>
        requires { AreOf program.now self.old.rows.items }
        ensures moves { OnOk result ((job : Job) → job.program ≡ program.now →
            Moves (strands_of_job job) state_of self.old number todo.old.items self.new todo.new.items) }
        ensures stands { OnOk result (AreOf program.now self.new.rows.items) }
    {
        match self.want(number) {
            Some(Want::Fork) => self.fork(alloc, number, program, todo),
            Some(Want::Sync | Want::Done) => self.join(number, program, todo),
            _ => Ok(()),
        }
    }

    /// Makes the fork that a strand wants.
    fn fork(
        &mut self,
        alloc: Global,
        number: u32,
        program: &Program,
        todo: &mut Vec<u32>,
    ) -> Result<(), OutOfMemory>
        requires stands { AreOf program.now self.old.rows.items }
        requires wants { want_at (strands_of_job (bare_job program.now)) state_of self.old.rows.items number ≡ Some Want.Fork }
        ensures moves { OnOk result ((job : Job) → job.program ≡ program.now →
            Moves (strands_of_job job) state_of self.old number todo.old.items self.new todo.new.items) }
        ensures stands { OnOk result (AreOf program.now self.new.rows.items) }
    {
        let sides = self.next_sides()?;
        let Place::Stands(mut strand) = self.put(number, Place::Waits) else {
            unreachable!()
        };
        let left = strand.fork(program)?;
        let fork = self.note(number, sides)?;
        let parent = number;
        let right = false;
        self.start(
            alloc,
            Name {
                parent,
                fork,
                right,
            },
            left,
        )?;
        let right = true;
        self.start(
            alloc,
            Name {
                parent,
                fork,
                right,
            },
            strand,
        )?;
        todo.push(sides.left)?;
        todo.push(sides.right)?;
        Ok(())
    }

    /// Joins a strand that has ended with the other strand of its fork, if that has ended too.
    fn join(
        &mut self,
        number: u32,
        program: &Program,
        todo: &mut Vec<u32>,
    ) -> Result<(), OutOfMemory>
        requires stands { AreOf program.now self.old.rows.items }
        requires over { over_at (strands_of_job (bare_job program.now)) state_of self.old.rows.items number ≡ true }
        ensures moves { OnOk result ((job : Job) → job.program ≡ program.now →
            Moves (strands_of_job job) state_of self.old number todo.old.items self.new todo.new.items) }
        ensures stands { OnOk result (AreOf program.now self.new.rows.items) }
    {
        let Some(name) = self.name(number) else {
            return Ok(());
        };
        let Some(sides) = self.awaited(name.parent) else {
            return Ok(());
        };
        if !self.is_over(sides.left) || !self.is_over(sides.right) {
            return Ok(());
        }
        let Place::Stands(left) = self.put(sides.left, Place::Gone) else {
            unreachable!()
        };
        let Place::Stands(mut right) = self.put(sides.right, Place::Gone) else {
            unreachable!()
        };
        right.join(left, program)?;
        self.put(name.parent, Place::Stands(right));
        todo.push(name.parent)?;
        Ok(())
    }
}

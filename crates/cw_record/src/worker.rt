ghost use Rattle.std.specs.Prelude.{◌≡◌, ◌<◌, ◌++◌, List, [], ◌∷◌, true, All, IfOk, IsTrue, OnOk, length, map};
ghost use Rattle.std.specs.Option.{IsSome};
ghost use Rattle.cw_strand.specs.Names.{first_memory};
ghost use Rattle.cw_strand.specs.Strands.{takes_answer};
ghost use Rattle.cw_strand.specs.declared.want.Want.TheVariants as Want;
ghost use Rattle.cw_tree.specs.Nodes.{fresh_node, is_block};
ghost use Rattle.cw_tree.specs.Series.{strand_of};
ghost use Rattle.cw_tree.specs.declared.node.Kind.TheVariants.{Strand as AStrand};
ghost use Rattle.cw_strand.specs.Programs.{IsCompiled};
ghost use Rattle.cw_job.specs.Jobs.{TakesWords, job_of_task};
ghost use Rattle.cw_job.specs.Room.Strands.{IsOf, state_of};
ghost use Rattle.cw_serial.specs.InMemory.{begun_after};
ghost use Rattle.cw_serial.specs.Wants.{Since, answer_to};
ghost use Rattle.cw_record.specs.Drawn.{after_fork, after_join, after_start, blank, drawn};
ghost use Rattle.cw_record.specs.Records.{IsWorkerRun};
ghost use Rattle.cw_record.specs.OneWorker.{DoesItsWant, AllBranchesStand, AllStand, FollowsBlocks, LooksRight, SwitchesStrand, WaitsOnLeft, law_of_worker, unstarted, want_of_worker};
ghost use Rattle.cw_record.specs.declared.worker.Branch.TheVariants.{Right as OnRight};
ghost use Rattle.cw_record.specs.declared.record_end.RecordEnd.TheVariants as ending;

use crate::RecordEnd;
use crate::drawing::Drawing;
use cw_base::{OutOfMemory, Seq, Stack};
use cw_code::{FaultKind, Limits, Program};
use cw_job::{Standing, Task, first_memory, value_at};
use cw_serial::Undo;
use cw_strand::{Given, Want};
use std::alloc::Global;

/// A fork on the way down to the running strand, with its node.
#[derive(Drop)]
pub(crate) enum Branch {
    /// The left strand runs, and the right one has yet to start.
    Left { fork: u32, right: Standing },
    /// The right strand runs, and the left one has ended.
    Right { fork: u32, left: Standing },
}

/// The sole worker of a run: the strand that it runs, at its want, and the forks on the way down to that strand, innermost first.
#[derive(Drop)]
pub(crate) struct SoleWorker<'a> {
    pub(crate) task: Task<'a>,
    pub(crate) memory: Vec<i64>,
    pub(crate) outputs: Vec<i64>,
    pub(crate) undo: Undo,
    pub(crate) drawing: Drawing,
    pub(crate) strand: Standing,
    pub(crate) branches: Stack<Branch>,
}

/// What a run leaves.
#[derive(Drop)]
pub(crate) struct Run {
    pub(crate) drawing: Drawing,
    pub(crate) end: RecordEnd,
}

impl<'a> SoleWorker<'a> {
    /// Returns a worker at the first want of main.
    fn begin(
        alloc: Global,
        program: &'a Program,
        words: &'a [i64],
        limits: Limits,
    ) -> Result<SoleWorker<'a>, OutOfMemory>
        requires { TakesWords program.now (length words.now) }
        ensures job { IfOk result (λ w. job_of_task w.task ≡ record { program = program.now; words = words.now; limits = limits }) }
        ensures memory { IfOk result (λ w. w.memory.items ≡ first_memory program.now.cells) }
        ensures outputs { IfOk result (λ w. w.outputs.items ≡ []) }
        ensures undo { IfOk result (λ w. w.undo.begun ≡ []) }
        ensures drawing { IfOk result (λ w. drawn w.drawing ≡ blank (length w.memory.items)) }
        ensures strand { IfOk result (λ w. state_of w.strand ≡ (law_of_worker w).start) }
        ensures branches { IfOk result (λ w. w.branches ≡ []) }
        ensures stands { IfOk result (λ w. AllStand w) }
    {
        let task = Task {
            program,
            words,
            limits,
        };
        let memory = first_memory(alloc, program.cells.as_slice())?;
        let drawing = match Drawing::begin(alloc, memory.len()) {
            Ok(drawing) => drawing,
            Err(fault) => {
                drop(memory);
                return Err(fault);
            }
        };
        let strand = match Standing::start(alloc, program, words, limits) {
            Ok(strand) => strand,
            Err(fault) => {
                drop(memory);
                drop(drawing);
                return Err(fault);
            }
        };
        Ok(SoleWorker {
            task,
            memory,
            outputs: Vec::new(alloc),
            undo: Undo::new(alloc),
            drawing,
            strand,
            branches: Stack::new(alloc),
        })
    }

    /// Runs a program depth first, the left strand of each fork before the right one, to its end or to the first fault.
    pub(crate) fn run(
        alloc: Global,
        program: &'a Program,
        words: &'a [i64],
        limits: Limits,
    ) -> Result<Run, OutOfMemory>
        requires compiled { IsCompiled program.now }
        requires words { TakesWords program.now (length words.now) }
        ensures { IfOk result (λ r. IsWorkerRun (record { program = program.now; words = words.now; limits = limits })
            r.drawing.tree r.drawing.journals.items r.end) }
    {
        let mut worker = SoleWorker::begin(alloc, program, words, limits)?;
        'wants: loop {
            match worker.strand.want() {
                Want::Fork => match worker.fork(alloc) {
                    Ok(_) => {}
                    Err(fault) => {
                        drop(worker);
                        return Err(fault);
                    }
                },
                Want::Sync | Want::Done => match worker.branches.pop() {
                    None => return Ok(worker.finish()),
                    Some(Branch::Left { fork, right }) => match worker.turn(fork, right) {
                        Ok(_) => {}
                        Err(fault) => {
                            drop(worker);
                            return Err(fault);
                        }
                    },
                    Some(Branch::Right { fork, left }) => match worker.join(fork, left) {
                        Ok(_) => {}
                        Err(fault) => {
                            drop(worker);
                            return Err(fault);
                        }
                    },
                },
                Want::Fault(kind) => return worker.stop_at_fault(kind),
                Want::Load(_)
                | Want::Store(..)
                | Want::Out(_)
                | Want::Cancel
                | Want::Begin
                | Want::End => {
                    match worker.follow() {
                        Ok(_) => {}
                        Err(fault) => {
                            drop(worker);
                            return Err(fault);
                        }
                    }
                    match worker.act(alloc) {
                        Ok(_) => {}
                        Err(fault) => {
                            drop(worker);
                            return Err(fault);
                        }
                    }
                }
            }
        }
    }

    /// Begins or ends the block that the strand wants to begin or end, or keeps what its write will replace. All blocks count as
    /// blocks of strand 0, because the innermost begun block always belongs to the running strand.
    fn follow(&mut self) -> Result<(), OutOfMemory>
        requires done { IsSome (begun_after (want_of_worker self.old) 0 self.old.undo) }
        ensures { OnOk result (FollowsBlocks self.old self.new) }
    {
        if !self.undo.follow(0, self.strand.want(), &self.memory)? {
            unreachable!();
        }
        Ok(())
    }

    /// Does what the strand wants, and goes on to its next want. `follow` comes first, for the blocks.
    fn act(&mut self, alloc: Global) -> Result<(), OutOfMemory>
        requires there { self.old.drawing.place < length self.old.drawing.tree }
        requires answered { takes_answer (want_of_worker self.old) ≡ true }
        requires block { want_of_worker self.old ≡ Want.End → IsTrue (is_block self.old.drawing.tree self.old.drawing.place) }
        requires stands { IsOf self.old.task.program.now self.old.strand }
        ensures acts { OnOk result (DoesItsWant self.old self.new) }
        ensures stands { OnOk result (IsOf self.old.task.program.now self.new.strand) }
        ensures strand { OnOk result ((since : List Since) → LooksRight self.old since → state_of self.new.strand
            ≡ (law_of_worker self.old).answer (state_of self.old.strand) (answer_to (want_of_worker self.old) self.old.memory.items since)) }
    {
        let given = self.do_want(alloc)?;
        self.strand.answer(given, self.task.program)
    }

    /// Does what the strand wants in memory and outputs, draws it, and returns the answer.
    fn do_want(&mut self, alloc: Global) -> Result<Given, OutOfMemory>
        requires there { self.old.drawing.place < length self.old.drawing.tree }
        requires answered { takes_answer (want_of_worker self.old) ≡ true }
        requires block { want_of_worker self.old ≡ Want.End → IsTrue (is_block self.old.drawing.tree self.old.drawing.place) }
        ensures given { IfOk result (λ g. (since : List Since) → LooksRight self.old since → g ≡ answer_to (want_of_worker self.old) self.old.memory.items since) }
        ensures acts { OnOk result (DoesItsWant self.old self.new) }
        ensures strand { OnOk result (self.new.strand ≡ self.old.strand) }
    {
        match self.strand.want() {
            Want::Load(element) => {
                let value = value_at(&self.memory, element as usize);
                self.drawing.add_read(element, value)?;
                return Ok(Given::Value(value));
            }
            Want::Store(element, value) => {
                let old = value_at(&self.memory, element as usize);
                if let Some(held) = self.memory.get_mut(element as usize) {
                    *held = value;
                }
                self.drawing.add_write(element, value, old)?;
            }
            Want::Out(value) => {
                self.outputs.push(value)?;
                self.drawing.add_output(value)?;
            }
            Want::Cancel => {
                let back = self.undo.given_up(alloc, &self.memory)?;
                self.drawing.add_cancel(alloc, &back)?;
                return Ok(Given::Back(back));
            }
            Want::Begin => self.drawing.begin_block()?,
            Want::End => self.drawing.end_block()?,
            Want::Fork | Want::Sync | Want::Done | Want::Fault(_) => unreachable!(),
        }
        Ok(Given::Nothing)
    }

    /// Goes on with the left strand of the fork that the strand wants.
    fn fork(&mut self, alloc: Global) -> Result<(), OutOfMemory>
        requires there { self.old.drawing.place < length self.old.drawing.tree }
        requires wanted { want_of_worker self.old ≡ Want.Fork }
        requires stands { IsOf self.old.task.program.now self.old.strand }
        ensures keeps { OnOk result (SwitchesStrand self.old self.new) }
        ensures drawing { OnOk result (drawn self.new.drawing ≡ after_fork (drawn self.old.drawing)) }
        ensures left { OnOk result (state_of self.new.strand ≡ (law_of_worker self.old).left (state_of self.old.strand)) }
        ensures right { OnOk result (WaitsOnLeft self.old.branches self.new.branches (length self.old.drawing.tree)
            ((law_of_worker self.old).right (state_of self.old.strand))) }
        ensures stands { OnOk result (AllBranchesStand self.old.task.program.now self.old.branches → AllStand self.new) }
    {
        let fork = self.drawing.add_fork()?;
        let left = self.strand.fork(self.task.program)?;
        let right = std::mem::replace(&mut self.strand, left);
        self.branches.push(Branch::Left { fork, right })
    }

    /// Goes on with the right strand of `fork`, whose left strand has ended.
    fn turn(&mut self, fork: u32, right: Standing) -> Result<(), OutOfMemory>
        requires { fork < length self.old.drawing.tree }
        ensures keeps { OnOk result (SwitchesStrand self.old self.new) }
        ensures drawing { OnOk result (drawn self.new.drawing ≡ after_start fork (drawn self.old.drawing)) }
        ensures strand { OnOk result (self.new.strand ≡ right) }
        ensures branches { OnOk result (self.new.branches ≡ OnRight fork self.old.strand ∷ self.old.branches) }
    {
        match self.drawing.start_strand(fork) {
            Ok(_) => {}
            Err(fault) => {
                drop(right);
                return Err(fault);
            }
        }
        let left = std::mem::replace(&mut self.strand, right);
        self.branches.push(Branch::Right { fork, left })
    }

    /// Goes on with the strand that forked, once both strands of `fork` have ended.
    fn join(&mut self, fork: u32, left: Standing) -> Result<(), OutOfMemory>
        requires there { fork < length self.old.drawing.tree }
        requires stands { IsOf self.old.task.program.now self.old.strand }
        ensures keeps { OnOk result (SwitchesStrand self.old self.new) }
        ensures drawing { OnOk result (drawn self.new.drawing ≡ after_join fork (drawn self.old.drawing)) }
        ensures branches { OnOk result (self.new.branches ≡ self.old.branches) }
        ensures strand { OnOk result (state_of self.new.strand
            ≡ (law_of_worker self.old).joined (state_of self.old.strand) (state_of left)) }
        ensures stands { OnOk result (IsOf self.old.task.program.now self.new.strand) }
    {
        self.drawing.join_fork(fork);
        self.strand.join(left, self.task.program)
    }

    /// Returns the run, once main has ended.
    fn finish(self) -> Run
        ensures drawing { result.drawing ≡ self.entry.drawing }
        ensures end { result.end ≡ ending.Finished self.entry.memory.items self.entry.outputs.items }
    {
        drop(self.undo);
        drop(self.strand);
        drop(self.branches);
        Run {
            drawing: self.drawing,
            end: RecordEnd::Finished {
                memory: Seq::from_vec(self.memory),
                outputs: Seq::from_vec(self.outputs),
            },
        }
    }

    /// Returns the run, once the strand is at a fault. Right strands that have yet to start are in the tree, too.
    fn stop_at_fault(self, kind: FaultKind) -> Result<Run, OutOfMemory>
        requires there { self.drawing.place < length self.drawing.tree }
        requires forks { All (λ f. f < length self.drawing.tree) (unstarted self.branches) }
        ensures tree { IfOk result (λ r. r.drawing.tree
            ≡ self.entry.drawing.tree ++ map (λ f. fresh_node f AStrand 0) (unstarted self.entry.branches)) }
        ensures journals { IfOk result (λ r. r.drawing.journals.items ≡ self.entry.drawing.journals.items) }
        ensures end { IfOk result (λ r. r.end
            ≡ ending.Fault (strand_of self.entry.drawing.tree self.entry.drawing.place) kind) }
    {
        drop(self.memory);
        drop(self.outputs);
        drop(self.undo);
        drop(self.strand);
        let mut drawing = self.drawing;
        let strand = drawing.tree.strand_of(drawing.place);
        let mut branches = self.branches;
        while let Some(branch) = branches.pop() {
            match branch {
                Branch::Left { fork, right } => {
                    drop(right);
                    drawing.start_strand(fork)?
                }
                Branch::Right { left, .. } => drop(left),
            }
        }
        Ok(Run {
            drawing,
            end: RecordEnd::Fault { strand, kind },
        })
    }
}

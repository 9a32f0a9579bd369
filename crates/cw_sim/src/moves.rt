ghost use Rattle.std.specs.Prelude.{◌≡◌, ◌<◌, ◌^◌, ◌∷◌, ℕ, List, ◌&&◌, true, false, not, None, IfOk, OnOk, length};
ghost use Rattle.cw_strand.specs.declared.want.Want.TheVariants as Want;
ghost use Rattle.cw_strand.specs.declared.want.Given.TheVariants as given;
ghost use Rattle.cw_strand.specs.Programs.{IsCompiled};
ghost use Rattle.cw_job.specs.Jobs.{TakesWords, job_of_task};
ghost use Rattle.cw_sim.specs.Workers.{left_node, right_node, tree, with_strand, worker};
ghost use Rattle.cw_sim.specs.Moves.{access_cell, do_want, answer_want, begin_block, die, does, finish_strand, follow_up, fork_strand, give_up, is_run_over, join_strands, join_or_idle, move, others, steal, stop_if_spent, take_fork, go_to_right};
ghost use Rattle.cw_sim.specs.Runs.{closed_of, simulation_of};
ghost use Rattle.cw_sim.specs.Turns.{ListsWorkers};
ghost use Rattle.cw_open.specs.Machine.{has_finished};
ghost use Rattle.cw_tree.specs.Series.{place};
ghost use Rattle.cw_core.specs.declared.event.Event.TheVariants as event;
ghost use Rattle.cw_core.specs.Events.{fits};

use crate::by_node::ByNode;
use crate::turns::Turns;
use crate::worker::{
    WorkerInMemory, opening, take_newest, take_oldest, with_fork, with_run, worker_to_rob,
};
use cw_base::OutOfMemory;
use cw_code::{Limits, Program};
use cw_core::{Core, Event, Reply};
use cw_io::Schedule;
use cw_job::{Standing, Task, first_memory};
use cw_strand::{Given, Saved, Want};
use cw_tree::{Closed, Halt};
use std::alloc::Global;

/// The workers, the core that they share, and the strands of a program, each in its state.
#[derive(Drop)]
pub(crate) struct Driver<'a> {
    pub(crate) task: Task<'a>,
    pub(crate) core: Core,
    /// The strands in memory: those that run, those that have yet to start, and those that have finished while the other strand of
    /// their fork has not. A strand that waits for its fork has no body: it goes on in the right strand.
    pub(crate) bodies: ByNode<Standing>,
    /// What is saved at the begins of pending blocks.
    pub(crate) saved: ByNode<Saved>,
    pub(crate) workers: Vec<WorkerInMemory>,
}

// Each rule does what the definition with its name says.
impl<'a> Driver<'a> {
    ghost use Rattle.cw_sim.specs.ThingsInMemory.{thing_at};
    ghost use Rattle.cw_sim.specs.TurnsInMemory.{AreAt};
    ghost use Rattle.cw_sim.specs.InMemory.{Comes, Ends, HasFinished, MayAct, MayAnswer, MayDie, MayDo, MayFinish, MayFork, MayJoin, MayMeet, MayMove, MayRoll, MayTake, MayTurn, Seen, StandsFor, access_of, answered, law_of, opened};

    /// Returns the driver before the first move: worker 0 runs main, and the others are idle.
    fn opening(alloc: Global, task: Task<'a>, workers: u32) -> Result<Driver<'a>, OutOfMemory>
        requires words { TakesWords task.program.now (length task.words.now) }
        requires strands { 0 < task.limits.strands }
        requires workers { 0 < workers }
        ensures { IfOk result (λ z. StandsFor z (opened (job_of_task task.entry) workers)) }
    {
        let workers = opening(alloc, workers)?;
        let main = Standing::start(alloc, task.program, task.words, task.limits)?;
        let mut bodies = ByNode::new(alloc);
        bodies.put(0, main)?;
        let memory = first_memory(alloc, task.program.cells.as_slice())?;
        let core = Core::new(alloc, memory.as_slice(), task.limits)?;
        Ok(Driver {
            task,
            core,
            bodies,
            saved: ByNode::new(alloc),
            workers,
        })
    }

    /// Returns the number of the next node.
    fn next_node(&self) -> u32
        ensures { result ≡ length self.now.core.machine.tree }
    {
        self.core.tree().nodes().len() as u32
    }

    /// A hint to the prover, without effect: each node has a number.
    fn hint(&self)
        ensures { length self.now.core.machine.tree < 2 ^ 32 }
    {
        let _next = self.next_node();
    }

    /// Returns whether the run is over: by a halt, or by the end of main.
    fn is_over(&self) -> bool
        requires { (z : Seen) × StandsFor self.now z }
        ensures { (z : Seen) → StandsFor self.now z → result ≡ is_run_over z.m }
    {
        // nothing has stopped if the core may still stop
        let goes_on = self.core.fits(&Event::Stop { halt: Halt::Memory });
        !goes_on || self.core.has_finished(0)
    }

    /// Takes the oldest fork of worker `v` for worker `w`, which is idle. The fork is split, and `w` runs its right strand.
    fn take_fork(&mut self, w: u32, v: usize) -> Result<(), OutOfMemory>
        requires { (z : Seen) × MayTake self.old w v z }
        ensures { OnOk result ((z : Seen) → MayTake self.old w v z → (f : ℕ) (fs : List ℕ) → (worker z.m v).deque ≡ f ∷ fs → Comes self.new z (take_fork w v f fs z.m)) }
    {
        let Some(fork) = take_oldest(&mut self.workers, v) else {
            unreachable!()
        };
        self.core.step(Event::Split { fork })?;
        self.hint();
        with_run(&mut self.workers, w, Some(fork + 2));
        Ok(())
    }

    /// Takes a fork for worker `w`, which is idle, from the next worker that has one.
    fn steal(&mut self, w: u32) -> Result<(), OutOfMemory>
        requires { (z : Seen) × MayMove self.old w z }
        ensures { OnOk result ((z : Seen) → MayMove self.old w z → Comes self.new z (steal w (others z.m w) z.m)) }
    {
        match worker_to_rob(self.workers.as_slice(), w) {
            Some(v) => self.take_fork(w, v),
            None => Ok(()),
        }
    }

    /// Joins `fork`, whose strands have both finished. Worker `w` goes on with the strand that forked. If that is dying, so were
    /// they, and it gets the body of the right strand as it is.
    fn join_strands(&mut self, w: u32, fork: u32) -> Result<(), OutOfMemory>
        requires { (z : Seen) × MayJoin self.old w fork z }
        ensures { OnOk result ((z : Seen) → MayJoin self.old w fork z → Comes self.new z (join_strands (law_of z) w fork z.m)) }
    {
        let parent = self.core.strand_of(fork);
        self.hint();
        let left = self.bodies.take(fork + 1);
        let mut right = self.bodies.take(fork + 2);
        match self.core.step(Event::Join { fork }) {
            Ok(reply) => drop(reply),
            Err(fault) => {
                drop(left);
                drop(right);
                return Err(fault);
            }
        }
        if !self.core.is_dying(parent) {
            match right.join(left, self.task.program) {
                Ok(_) => {}
                Err(fault) => {
                    drop(right);
                    return Err(fault);
                }
            }
        } else {
            drop(left);
        }
        self.bodies.put(parent, right)?;
        with_run(&mut self.workers, w, Some(parent));
        Ok(())
    }

    /// Goes on from the left strand of `fork`, which has finished, to the right one, which waits in worker `w`. After a live left
    /// strand, `w` goes on with the right one. After a dead one, the right one finishes dead, too, and they join.
    fn go_to_right(&mut self, w: u32, fork: u32, dead: bool) -> Result<(), OutOfMemory>
        requires { (z : Seen) × MayTurn self.old w fork dead z }
        ensures { OnOk result ((z : Seen) → MayTurn self.old w fork dead z → Comes self.new z (go_to_right (law_of z) w fork dead z.m)) }
    {
        take_newest(&mut self.workers, w, fork);
        self.hint();
        let strand = fork + 2;
        if dead {
            self.core.step(Event::Finish { strand, dead })?;
            return self.join_strands(w, fork);
        }
        with_run(&mut self.workers, w, Some(strand));
        Ok(())
    }

    /// Joins `fork`, one strand of which has just finished, if its other strand has finished, too. Otherwise worker `w` is idle.
    fn join_or_idle(&mut self, w: u32, fork: u32) -> Result<(), OutOfMemory>
        requires { (z : Seen) × MayMeet self.old w fork z }
        ensures { OnOk result ((z : Seen) → MayMeet self.old w fork z → Comes self.new z (join_or_idle (law_of z) w fork (has_finished z.m.core.machine (left_node fork) && has_finished z.m.core.machine (right_node fork)) z.m)) }
    {
        self.hint();
        if self.core.has_finished(fork + 1) && self.core.has_finished(fork + 2) {
            return self.join_strands(w, fork);
        }
        with_run(&mut self.workers, w, None);
        Ok(())
    }

    /// Does what follows a finished strand: after main nothing; after the left strand of an unsplit fork its right strand;
    /// otherwise the join of the fork, if both strands have finished.
    fn follow_up(&mut self, w: u32, strand: u32, dead: bool) -> Result<(), OutOfMemory>
        requires { (z : Seen) × HasFinished self.old w strand dead z }
        ensures { OnOk result ((z : Seen) → HasFinished self.old w strand dead z → Comes self.new z (follow_up (law_of z) w strand dead z.m)) }
    {
        if strand == 0 {
            with_run(&mut self.workers, w, None);
            return Ok(());
        }
        self.hint();
        let fork = self.core.tree().parent(strand);
        if strand == fork + 1 && !self.core.is_split(fork) {
            return self.go_to_right(w, fork, dead);
        }
        self.join_or_idle(w, fork)
    }

    /// Finishes `strand`, which worker `w` runs.
    fn finish_strand(&mut self, w: u32, strand: u32, dead: bool) -> Result<(), OutOfMemory>
        requires { (z : Seen) × MayFinish self.old w strand dead z }
        ensures { OnOk result ((z : Seen) → MayFinish self.old w strand dead z → Comes self.new z (finish_strand (law_of z) w strand dead z.m)) }
    {
        self.core.step(Event::Finish { strand, dead })?;
        self.follow_up(w, strand, dead)
    }

    /// Rolls back the innermost pending block of a dying strand. The strand is at the begin of the block again.
    fn roll_back(&mut self, strand: u32) -> Result<(), OutOfMemory>
        requires { (z : Seen) × MayRoll self.old strand z }
        ensures { OnOk result ((z : Seen) → MayRoll self.old strand z → Comes self.new z (with_strand strand (z.m.saved (place (tree z.m) strand)) (does (event.Roll strand) z.m))) }
    {
        let block = self.core.place(strand);
        let saved = self.saved.take(block);
        let mut body = self.bodies.take(strand);
        match self.core.step(Event::Roll { strand }) {
            Ok(reply) => drop(reply),
            Err(fault) => {
                drop(saved);
                drop(body);
                return Err(fault);
            }
        }
        body.back(&saved);
        drop(saved);
        self.bodies.put(strand, body)
    }

    /// Rolls back a block of a dying strand, or finishes the strand dead if it has no block.
    fn die(&mut self, w: u32, strand: u32) -> Result<(), OutOfMemory>
        requires { (z : Seen) × MayDie self.old w strand z }
        ensures { OnOk result ((z : Seen) → MayDie self.old w strand z → Comes self.new z (die (law_of z) w strand z.m)) }
    {
        if self.core.in_block(strand) {
            self.roll_back(strand)
        } else {
            self.finish_strand(w, strand, true)
        }
    }

    /// Answers the want of `strand`, which goes on to its next want.
    fn answer_want(&mut self, strand: u32, given: Given) -> Result<(), OutOfMemory>
        requires { (z : Seen) × MayAnswer self.old strand z }
        ensures stands { OnOk result ((z : Seen) → MayAnswer self.old strand z → StandsFor self.new (answered strand given z)) }
        ensures saves { self.new.saved ≡ self.old.saved }
    {
        let mut body = self.bodies.take(strand);
        body.answer(given, self.task.program)?;
        self.bodies.put(strand, body)
    }

    /// Stops the run.
    fn stop_run(&mut self, halt: Halt) -> Result<(), OutOfMemory>
        requires { fits self.old.core (event.Stop halt) ≡ true }
        ensures { OnOk result ((z : Seen) → StandsFor self.old z → StandsFor self.new (record z { m = does (event.Stop halt) z.m })) }
    {
        self.core.step(Event::Stop { halt })?;
        Ok(())
    }

    /// Stops the run if the last attempt of a block or an access was refused.
    fn stop_if_spent(&mut self) -> Result<(), OutOfMemory>
        requires { self.old.core.halt ≡ None }
        ensures { OnOk result ((z : Seen) → StandsFor self.old z → StandsFor self.new (record z { m = stop_if_spent (law_of z) z.m })) }
    {
        match self.core.spent() {
            Some(strand) => self.stop_run(Halt::Budget { strand }),
            None => Ok(()),
        }
    }

    /// Makes an access of `strand` and answers it. If it is refused, the strand stays where it is.
    fn access_cell(&mut self, strand: u32, cell: u32, write: Option<i64>) -> Result<(), OutOfMemory>
        requires { (z : Seen) × MayDo self.old strand (access_of cell write) z }
        ensures { OnOk result ((z : Seen) → MayDo self.old strand (access_of cell write) z → Comes self.new z (access_cell (law_of z) strand cell write z.m)) }
    {
        match self.core.step(Event::Access {
            strand,
            cell,
            write,
        })? {
            Reply::Value(value) => self.answer_want(strand, Given::of_access(write, value)),
            _ => self.stop_if_spent(),
        }
    }

    /// Outputs `value`.
    fn put_out(&mut self, strand: u32, value: i64) -> Result<(), OutOfMemory>
        requires { (z : Seen) × MayDo self.old strand (Want.Out value) z }
        ensures { OnOk result ((z : Seen) → MayDo self.old strand (Want.Out value) z → Comes self.new z (answer_want (law_of z) strand given.Nothing (does (event.Out strand value) z.m))) }
    {
        self.core.step(Event::Out { strand, value })?;
        self.answer_want(strand, Given::Nothing)
    }

    /// Begins a block, and saves what its strand needs to go back there.
    fn begin_block(&mut self, strand: u32) -> Result<(), OutOfMemory>
        requires { (z : Seen) × MayDo self.old strand Want.Begin z }
        ensures { OnOk result ((z : Seen) → MayDo self.old strand Want.Begin z → Comes self.new z (begin_block (law_of z) strand z.m)) }
    {
        let saved = self.bodies.at(strand).save()?;
        let block = self.next_node();
        self.core.step(Event::Begin { strand })?;
        self.saved.put(block, saved)?;
        self.answer_want(strand, Given::Nothing)
    }

    /// Ends the innermost block of `strand`.
    fn end_block(&mut self, strand: u32) -> Result<(), OutOfMemory>
        requires { (z : Seen) × MayDo self.old strand Want.End z }
        ensures comes { OnOk result ((z : Seen) → MayDo self.old strand Want.End z → Comes self.new z (answer_want (law_of z) strand given.Nothing (does (event.Commit strand) z.m))) }
        ensures saves { OnOk result (thing_at self.new.saved (place self.old.core.machine.tree strand) ≡ None) }
    {
        let block = self.core.place(strand);
        let _ = self.saved.take(block);
        self.core.step(Event::Commit { strand })?;
        self.answer_want(strand, Given::Nothing)
    }

    /// Gives up the innermost block of `strand`, and tells the strand what to put back.
    fn give_up(&mut self, strand: u32) -> Result<(), OutOfMemory>
        requires { (z : Seen) × MayDo self.old strand Want.Cancel z }
        ensures { OnOk result ((z : Seen) → MayDo self.old strand Want.Cancel z → Comes self.new z (give_up (law_of z) strand z.m)) }
    {
        match self.core.step(Event::Cancel { strand })? {
            Reply::Back(back) => self.answer_want(strand, Given::Back(back)),
            _ => unreachable!(),
        }
    }

    /// Forks `strand`, which worker `w` runs. `w` goes on with the left strand.
    fn fork_strand(&mut self, w: u32, strand: u32) -> Result<(), OutOfMemory>
        requires { (z : Seen) × MayFork self.old w strand z }
        ensures { OnOk result ((z : Seen) → MayFork self.old w strand z → Comes self.new z (fork_strand (law_of z) w strand z.m)) }
    {
        let fork = self.next_node();
        let mut right = self.bodies.take(strand);
        let left = match right.fork(self.task.program) {
            Ok(left) => left,
            Err(fault) => {
                drop(right);
                return Err(fault);
            }
        };
        let reply = match self.core.step(Event::Fork { strand }) {
            Ok(reply) => reply,
            Err(fault) => {
                drop(left);
                drop(right);
                return Err(fault);
            }
        };
        self.hint();
        let columns = matches!(reply, Reply::Forked { .. });
        drop(reply);
        match self.bodies.put(fork + 1, left) {
            Ok(_) => {}
            Err(fault) => {
                drop(right);
                return Err(fault);
            }
        }
        self.bodies.put(fork + 2, right)?;
        with_fork(&mut self.workers, w, columns, fork)?;
        with_run(&mut self.workers, w, Some(fork + 1));
        Ok(())
    }

    /// Does what `strand` wants. Worker `w` runs that strand.
    fn do_want(&mut self, w: u32, strand: u32, want: Want) -> Result<(), OutOfMemory>
        requires { (z : Seen) × MayAct self.old w strand want z }
        ensures { OnOk result ((z : Seen) → MayAct self.old w strand want z → Comes self.new z (do_want (law_of z) w strand want z.m)) }
    {
        match want {
            Want::Load(cell) => self.access_cell(strand, cell, None),
            Want::Store(cell, value) => self.access_cell(strand, cell, Some(value)),
            Want::Out(value) => self.put_out(strand, value),
            Want::Begin => self.begin_block(strand),
            Want::End => self.end_block(strand),
            Want::Cancel => self.give_up(strand),
            Want::Fork => self.fork_strand(w, strand),
            Want::Sync | Want::Done => self.finish_strand(w, strand, false),
            Want::Fault(kind) => self.stop_run(Halt::Fault { strand, kind }),
        }
    }

    /// Makes a move of worker `w`.
    fn make_move(&mut self, w: u32) -> Result<(), OutOfMemory>
        requires { (z : Seen) × MayMove self.old w z }
        ensures { OnOk result ((z : Seen) → MayMove self.old w z → Comes self.new z (move (law_of z) w z.m)) }
    {
        let Some(strand) = self.workers[w as usize].runs else {
            return self.steal(w);
        };
        if self.core.is_dying(strand) {
            return self.die(w, strand);
        }
        let want = self.bodies.at(strand).want();
        self.do_want(w, strand, want)
    }

    /// Makes moves until the run is over, at most as many as the limit says.
    fn run(&mut self, turns: &mut Turns) -> Result<(), OutOfMemory>
        requires compiled { IsCompiled self.old.task.program.now }
        requires words { TakesWords self.old.task.program.now (length self.old.task.words.now) }
        requires strands { 0 < self.old.task.limits.strands }
        requires stands { StandsFor self.old (opened (job_of_task self.old.task) turns.old.workers) }
        requires turns { AreAt turns.old 0 }
        ensures { OnOk result (Ends self.new (job_of_task self.old.task) turns.old.workers turns.old.schedule.now) }
    {
        for n in 0..self.task.limits.moves {
            if self.is_over() {
                break;
            }
            let w = turns.worker_at(n);
            self.make_move(w)?;
        }
        Ok(())
    }
}

/// Returns what the moves of `workers` workers leave, in the turns of a schedule, and whether the moves were used up.
pub(crate) fn run_moves(
    alloc: Global,
    task: Task,
    workers: u32,
    schedule: &Schedule,
) -> Result<(Closed, bool), OutOfMemory>
    requires compiled { IsCompiled task.program.now }
    requires words { TakesWords task.program.now (length task.words.now) }
    requires strands { 0 < task.limits.strands }
    requires workers { 0 < workers }
    requires listed { ListsWorkers schedule.now workers }
    ensures closed { IfOk result (λ r. r.0 ≡ closed_of (simulation_of (job_of_task task.entry) workers schedule.now)) }
    ensures spent { IfOk result (λ r. r.1 ≡ not (is_run_over (simulation_of (job_of_task task.entry) workers schedule.now))) }
    ensures few { OnOk result (length (tree (simulation_of (job_of_task task.entry) workers schedule.now)) < 2 ^ 32) }
{
    let mut simulation = Driver::opening(alloc, task, workers)?;
    let mut turns = Turns::new(schedule, workers);
    match simulation.run(&mut turns) {
        Ok(_) => {}
        Err(fault) => {
            drop(simulation);
            return Err(fault);
        }
    }
    let spent = !simulation.is_over();
    simulation.hint();
    drop(simulation.bodies);
    drop(simulation.saved);
    drop(simulation.workers);
    match simulation.core.close() {
        Ok(closed) => Ok((closed, spent)),
        Err(refused) => {
            let (core, error) = refused;
            drop(core);
            Err(error)
        }
    }
}

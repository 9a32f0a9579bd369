ghost use Rattle.std.specs.Prelude.{◌≡◌, ◌≢◌, ◌<◌, true, length, IfOk, IfSome, OnOk, OnErr};
ghost use Rattle.cw_strand.specs.declared.want.Want.TheVariants as Want;
ghost use Rattle.cw_strand.specs.Strands.{is_over};
ghost use Rattle.cw_job.specs.Jobs.{Job, TakesWords};
ghost use Rattle.cw_job.specs.Room.Strands.{strands_of_job};
ghost use Rattle.cw_body.specs.declared.stage.Stage.TheVariants.{Goes, GaveUp, Lost};
ghost use Rattle.cw_body.specs.Bodies.{AnswersAct, HasNoBlock, IsLost, answered, body_in_block, elements_of, body_behind_block, forgot, gave_up, goes_from, joined_body, left_of, right_of, want_of, went_back};

use crate::Stage;
use crate::begin::Begin;
use cw_base::{OutOfMemory, Stack};
use cw_code::{Limits, Program};
use cw_job::{Runner, Standing};
use cw_strand::{Given, Want};
use std::alloc::Global;
use std::marker::Model;
use std::snapshot::Snapshot;

/// A strand at its want, or on its way there: both strands of a fork begin on their way, and so does the strand that forked when
/// they are joined. `run` brings a strand to its want. `level` is the number of forks of which it is the right strand, counted since
/// it began as a left strand or as main. `begins` are those of the pending blocks around it: its own, and those of the strands that
/// it continues as a right one.
#[derive(Drop)]
pub struct Body {
    runner: Runner,
    level: u64,
    begins: Stack<Begin>,
    program: Snapshot<Program>,
    stage: Snapshot<Stage>,
}

impl Model for Body {
    ghost use Rattle.cw_body.specs.Bodies.{InBlocks};

    ghost Value = { InBlocks };

    ghost use Rattle.cw_body.specs.InMemory.{in_blocks, IsInBlocks};

    ghost view = { in_blocks };

    ghost invariant = { IsInBlocks };
}

impl Body {
    /// Starts the strand of main, at its first want.
    pub fn start(
        alloc: Global,
        program: &Program,
        words: &[i64],
        limits: Limits,
    ) -> Result<Body, OutOfMemory>
        requires { TakesWords program.now (length words.now) }
        ensures { IfOk result (λ body. let job : Job = record { program = program.now; words = words.now; limits = limits } in
            body ≡ goes_from program.now (strands_of_job job).start) }
    {
        let standing = Standing::start(alloc, program, words, limits)?;
        Ok(Body {
            runner: Runner::at(standing),
            level: 0,
            begins: Stack::new(alloc),
            program: Snapshot::of(program),
            stage: Snapshot::of(&Stage::Goes),
        })
    }

    /// Runs the strand to its want, if it is not there yet. Returns the want.
    pub fn run(&mut self, program: &Program) -> Result<Want, OutOfMemory>
        requires goes { self.old.stage ≡ Goes }
        requires program { program.now ≡ self.old.program }
        ensures want { IfOk result (λ w. (job : Job) → w ≡ (strands_of_job job).want self.old.state) }
        ensures ok { OnOk result (self.new ≡ self.old) }
        ensures err { OnErr result (IsLost self.old self.new) }
    {
        self.stage = Snapshot::of(&Stage::Lost);
        let want = self.runner.run(program)?;
        self.stage = Snapshot::of(&Stage::Goes);
        Ok(want)
    }

    /// Returns the want of the strand, if it is there already.
    pub fn want(&self) -> Option<Want>
        ensures { IfSome result (λ w. (job : Job) → w ≡ (strands_of_job job).want self.now.state) }
    {
        self.runner.want()
    }

    /// Answers an access, an output or a cancel with `given`, and goes on to the next want.
    pub fn answer(&mut self, given: Given, program: &Program) -> Result<(), OutOfMemory>
        requires goes { self.old.stage ≡ Goes }
        requires program { program.now ≡ self.old.program }
        requires answers { AnswersAct (elements_of self.old) (want_of self.old) given }
        ensures ok { OnOk result ((job : Job) → job.program ≡ program.now → self.new ≡ answered (strands_of_job job) given self.old) }
        ensures err { OnErr result (IsLost self.old self.new) }
    {
        self.stage = Snapshot::of(&Stage::Lost);
        self.runner.answer(given, program)?;
        self.stage = Snapshot::of(&Stage::Goes);
        Ok(())
    }

    /// Enters the block whose begin the strand wants, and keeps what is needed to come back to that begin.
    pub fn begins(&mut self, program: &Program) -> Result<(), OutOfMemory>
        requires goes { self.old.stage ≡ Goes }
        requires program { program.now ≡ self.old.program }
        requires begin { want_of self.old ≡ Want.Begin }
        ensures ok { OnOk result ((job : Job) → job.program ≡ program.now → self.new ≡ body_in_block (strands_of_job job) self.old) }
        ensures err { OnErr result (IsLost self.old self.new) }
    {
        self.stage = Snapshot::of(&Stage::Lost);
        let saved = self.runner.save(program)?;
        let begin = Begin {
            saved,
            level: self.level,
            at: Snapshot::of(&self.runner),
        };
        self.runner.answer(Given::Nothing, program)?;
        self.begins.push(begin)?;
        self.stage = Snapshot::of(&Stage::Goes);
        Ok(())
    }

    /// Leaves the innermost block, whose end the strand wants.
    pub fn ends(&mut self, program: &Program) -> Result<(), OutOfMemory>
        requires goes { self.old.stage ≡ Goes }
        requires program { program.now ≡ self.old.program }
        requires end { want_of self.old ≡ Want.End }
        requires block { 0 < length self.old.begins }
        ensures ok { OnOk result ((job : Job) → job.program ≡ program.now → self.new ≡ body_behind_block (strands_of_job job) self.old) }
        ensures err { OnErr result (IsLost self.old self.new) }
    {
        self.stage = Snapshot::of(&Stage::Lost);
        self.runner.answer(Given::Nothing, program)?;
        let _ended = self.begins.pop();
        self.stage = Snapshot::of(&Stage::Goes);
        Ok(())
    }

    /// Forks: returns the left strand of the fork that this strand wants, and goes on as the right one. Both are on their way to
    /// their first wants then.
    pub fn fork(&mut self, alloc: Global, program: &Program) -> Result<Body, OutOfMemory>
        requires goes { self.old.stage ≡ Goes }
        requires program { program.now ≡ self.old.program }
        requires fork { want_of self.old ≡ Want.Fork }
        ensures left { IfOk result (λ left. (job : Job) → job.program ≡ program.now → left ≡ left_of (strands_of_job job) self.old) }
        ensures right { OnOk result ((job : Job) → job.program ≡ program.now → self.new ≡ right_of (strands_of_job job) self.old) }
        ensures err { OnErr result (IsLost self.old self.new) }
    {
        self.stage = Snapshot::of(&Stage::Lost);
        let Some(level) = self.level.checked_add(1) else {
            return Err(OutOfMemory);
        };
        let runner = self.runner.fork(program)?;
        self.level = level;
        self.stage = Snapshot::of(&Stage::Goes);
        Ok(Body {
            runner,
            level: 0,
            begins: Stack::new(alloc),
            program: Snapshot::of(program),
            stage: Snapshot::of(&Stage::Goes),
        })
    }

    /// Joins a fork: this right strand, at its end, becomes the strand that forked, and is on its way to that one's next want. `left`
    /// is at its end, too. If it never ran to there, this is an error.
    pub fn join(&mut self, left: Body, program: &Program) -> Result<(), OutOfMemory>
        requires goes { self.old.stage ≡ Goes }
        requires program { program.now ≡ self.old.program }
        requires over { is_over (want_of self.old) ≡ true }
        requires blocks { HasNoBlock self.old }
        ensures ok { OnOk result ((job : Job) → job.program ≡ program.now → self.new ≡ joined_body (strands_of_job job) self.old left) }
        ensures err { OnErr result (IsLost self.old self.new) }
    {
        let Body { runner, .. } = left;
        self.stage = Snapshot::of(&Stage::Lost);
        let Some(ended) = runner.standing() else {
            return Err(OutOfMemory);
        };
        self.runner.join(ended, program)?;
        self.level = self.level.saturating_sub(1);
        self.stage = Snapshot::of(&Stage::Goes);
        Ok(())
    }

    /// Gives up: the strand dies or stops, and goes no further from where it stands.
    pub fn gives_up(&mut self)
        requires { self.old.stage ≢ Lost }
        ensures { self.new ≡ gave_up self.old }
    {
        self.stage = Snapshot::of(&Stage::GaveUp);
    }

    /// Forgets the innermost block, which was rolled back, since the strand goes back further than that.
    pub fn forget(&mut self)
        requires stage { self.old.stage ≡ GaveUp }
        requires block { 0 < length self.old.begins }
        ensures { self.new ≡ forgot self.old }
    {
        let _rolled = self.begins.pop();
    }

    /// Goes back to the begin of the innermost block, which was rolled back, to try it again. Takes no memory.
    pub fn back(&mut self)
        requires stage { self.old.stage ≡ GaveUp }
        requires block { 0 < length self.old.begins }
        requires end { want_of self.old ≢ Want.End }
        ensures back { self.new ≡ went_back self.old }
        ensures begin { want_of self.new ≡ Want.Begin }
    {
        let Some(begin) = self.begins.pop() else {
            unreachable!()
        };
        self.runner.back(&begin.saved);
        self.level = begin.level;
        self.stage = Snapshot::of(&Stage::Goes);
    }
}

//! The strands of a run, at their wants, over the code of its program. This file, with `specs/Room` and `proofs/Room`,
//! is the one room that knows what a strand is made of. All other code knows the law of strands alone.
ghost use Rattle.std.specs.Prelude.{◌≡◌, length, IfOk, OnOk};
ghost use Rattle.cw_strand.specs.declared.want.Want.TheVariants as Want;

use cw_base::OutOfMemory;
use cw_code::{Limits, Program};
use cw_strand::{Given, Saved, Strand, Want};
use std::alloc::Global;

/// A strand at its want.
#[derive(Drop)]
pub struct Standing {
    pub(crate) strand: Strand,
    pub(crate) want: Want,
}

#[tactic(auto, unfolding(crate::specs::Room::Strands::strands_of_job, crate::specs::Room::Strands::state_of, crate::specs::Room::Strands::IsOf))]
impl Standing {
    ghost use Rattle.cw_job.specs.Jobs.{Job, TakesWords, bare_job};
    ghost use Rattle.cw_job.specs.Room.Saves.{IsSavedOf, MayRollBack};
    ghost use Rattle.cw_job.specs.Room.Strands.{IsOf, state_of, strands_of_job};

    /// Returns the strand of main, at its first want.
    pub fn start(
        alloc: Global,
        program: &Program,
        words: &[i64],
        limits: Limits,
    ) -> Result<Standing, OutOfMemory>
        requires { TakesWords program.now (length words.now) }
        ensures start { IfOk result (λ x. let job : Job = record { program = program.now; words = words.now; limits = limits } in
            state_of x ≡ (strands_of_job job).start) }
        ensures stands { IfOk result (λ x. IsOf program.now x) }
    {
        let mut strand = Strand::main(alloc, program, words, limits)?;
        let want = strand.next(program, Given::Nothing)?;
        Ok(Standing { strand, want })
    }

    /// The want of the strand.
    pub fn want(&self) -> Want
        ensures { (job : Job) → result ≡ (strands_of_job job).want (state_of self.now) }
    {
        self.want
    }

    /// Answers the want with `given` and goes on to the next want.
    pub fn answer(&mut self, given: Given, program: &Program) -> Result<(), OutOfMemory>
        requires { IsOf program.now self.old }
        ensures answer { OnOk result ((job : Job) → job.program ≡ program.now →
            state_of self.new ≡ (strands_of_job job).answer (state_of self.old) given) }
        ensures stands { OnOk result (IsOf program.now self.new) }
    {
        self.want = self.strand.next(program, given)?;
        Ok(())
    }

    /// Returns the left strand of the fork that this strand wants. This strand goes on as the right one.
    pub fn fork(&mut self, program: &Program) -> Result<Standing, OutOfMemory>
        requires stands { IsOf program.now self.old }
        requires fork { (strands_of_job (bare_job program.now)).want (state_of self.old) ≡ Want.Fork }
        ensures left { IfOk result (λ left. (job : Job) → job.program ≡ program.now →
            state_of left ≡ (strands_of_job job).left (state_of self.old)) }
        ensures right { OnOk result ((job : Job) → job.program ≡ program.now →
            state_of self.new ≡ (strands_of_job job).right (state_of self.old)) }
        ensures left_stands { IfOk result (λ left. IsOf program.now left) }
        ensures right_stands { OnOk result (IsOf program.now self.new) }
    {
        let mut strand = self.strand.fork()?;
        let want = strand.next(program, Given::Nothing)?;
        self.want = self.strand.next(program, Given::Nothing)?;
        Ok(Standing { strand, want })
    }

    /// Joins the left strand to this one, the right strand of its fork. Both are at their ends. This one becomes the
    /// strand that forked, and goes on to the next want.
    pub fn join(&mut self, left: Standing, program: &Program) -> Result<(), OutOfMemory>
        requires { IsOf program.now self.old }
        ensures joined { OnOk result ((job : Job) → job.program ≡ program.now →
            state_of self.new ≡ (strands_of_job job).joined (state_of self.old) (state_of left)) }
        ensures stands { OnOk result (IsOf program.now self.new) }
    {
        self.strand.joined(left.strand);
        self.want = self.strand.next(program, Given::Nothing)?;
        Ok(())
    }

    /// Returns a copy, which is in the same state and wants the same. Costs what all its functions cost, those that wait
    /// too.
    pub fn copied(&self, alloc: Global) -> Result<Standing, OutOfMemory>
        ensures same { IfOk result (λ x. state_of x ≡ state_of self.now) }
        ensures stands { IfOk result (λ x. (program : Program) → IsOf program self.now → IsOf program x) }
    {
        let strand = self.strand.copied(alloc)?;
        Ok(Standing {
            strand,
            want: self.want,
        })
    }

    /// Keeps what the strand needs to be here again, at the begin of a block that it wants.
    pub fn save(&self) -> Result<Saved, OutOfMemory>
        ensures { IfOk result (λ saved. (program : Program) → IsOf program self.now → (strands_of_job (bare_job program)).want (state_of self.now) ≡ Want.Begin →
            IsSavedOf program saved (state_of self.now)) }
    {
        let saved = self.strand.save()?;
        Ok(saved)
    }

    /// Goes back to the begin of a block that the strand is inside: it wants the begin of the block again. Takes no memory.
    pub fn back(&mut self, saved: &Saved)
        requires { MayRollBack saved.now (state_of self.old) }
        ensures back { (m : MayRollBack saved.now (state_of self.old)) → state_of self.new ≡ m.begin }
        ensures stands { (m : MayRollBack saved.now (state_of self.old)) → IsOf m.job.program self.new }
    {
        self.strand.back(saved);
        self.want = Want::Begin;
    }
}

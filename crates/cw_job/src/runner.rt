//! Strands that go on to their next want only when they are run.
ghost use Rattle.std.specs.Prelude.{◌≡◌, IfOk, IfSome, MatchOption, OnOk};
ghost use Rattle.cw_strand.specs.declared.want.Want.TheVariants as Want;
ghost use Rattle.cw_job.specs.Jobs.{Job, bare_job};
ghost use Rattle.cw_job.specs.Room.Strands.{IsOf, state_of, strands_of_job};
ghost use Rattle.cw_job.specs.Room.Saves.{IsSavedOf, MayRollBack, StandsAs};
ghost use Rattle.cw_job.specs.Room.Runners.{IsAt, IsRunner, place_of, state_in};

use crate::Standing;
use cw_base::OutOfMemory;
use cw_code::Program;
use cw_strand::{Given, Saved, Want};

/// A strand at its want, or on its way there: its last want was answered with nothing, and it has not gone on since. The two
/// strands of a fork begin on their way, and so does the strand that forked when they are joined. `run` brings a strand to its
/// want. Each other call does so first.
#[derive(Drop)]
pub struct Runner {
    pub(crate) standing: Standing,
    pub(crate) is_on_way: bool,
}

#[tactic(auto, unfolding(crate::specs::Room::Runners::IsAt, crate::specs::Room::Runners::IsRunner, crate::specs::Room::Runners::place_of, crate::specs::Room::Runners::state_in))]
impl Runner {
    /// Takes a strand at its want.
    pub fn at(standing: Standing) -> Runner
        ensures state { (program : Program) → state_in program result ≡ state_of standing }
        ensures runner { (program : Program) → IsOf program standing → IsRunner program result }
        ensures place { (program : Program) → place_of result ≡ state_in program result }
    {
        Runner {
            standing,
            is_on_way: false,
        }
    }

    /// Runs the strand to its next want, if it is not there yet. Returns the want.
    pub fn run(&mut self, program: &Program) -> Result<Want, OutOfMemory>
        requires { IsRunner program.now self.old }
        ensures want { IfOk result (λ w. (job : Job) → w ≡ (strands_of_job job).want (state_in program.now self.old)) }
        ensures same { OnOk result (state_in program.now self.new ≡ state_in program.now self.old) }
        ensures runner { OnOk result (IsRunner program.now self.new) }
        ensures at { OnOk result (IsAt self.new) }
        ensures place { OnOk result (place_of self.new ≡ state_in program.now self.new) }
    {
        if self.is_on_way {
            self.standing.answer(Given::Nothing, program)?;
            self.is_on_way = false;
        }
        Ok(self.standing.want())
    }

    /// The want of the strand, if it is there already.
    pub fn want(&self) -> Option<Want>
        ensures { MatchOption result (IsAt self.now → ⊥) (λ w. (job : Job) (program : Program) → w ≡ (strands_of_job job).want (state_in program self.now)) }
    {
        if self.is_on_way {
            return None;
        }
        Some(self.standing.want())
    }

    /// Answers the want with `given` and goes on to the next want.
    pub fn answer(&mut self, given: Given, program: &Program) -> Result<(), OutOfMemory>
        requires { IsRunner program.now self.old }
        ensures answer { OnOk result ((job : Job) → job.program ≡ program.now →
            state_in program.now self.new ≡ (strands_of_job job).answer (state_in program.now self.old) given) }
        ensures runner { OnOk result (IsRunner program.now self.new) }
        ensures place { OnOk result (place_of self.new ≡ state_in program.now self.new) }
    {
        self.run(program)?;
        self.standing.answer(given, program)?;
        Ok(())
    }

    /// Returns the left strand of the fork that this strand wants. This strand goes on as the right one. Both are on their way
    /// then.
    pub fn fork(&mut self, program: &Program) -> Result<Runner, OutOfMemory>
        requires runner { IsRunner program.now self.old }
        requires fork { (strands_of_job (bare_job program.now)).want (state_in program.now self.old) ≡ Want.Fork }
        ensures left { IfOk result (λ left. (job : Job) → job.program ≡ program.now →
            state_in program.now left ≡ (strands_of_job job).left (state_in program.now self.old)) }
        ensures right { OnOk result ((job : Job) → job.program ≡ program.now →
            state_in program.now self.new ≡ (strands_of_job job).right (state_in program.now self.old)) }
        ensures left_runner { IfOk result (λ left. IsRunner program.now left) }
        ensures right_runner { OnOk result (IsRunner program.now self.new) }
        ensures place { OnOk result (place_of self.new ≡ state_in program.now self.old) }
    {
        self.run(program)?;
        let strand = self.standing.strand.fork()?;
        self.is_on_way = true;
        Ok(Runner {
            standing: Standing {
                strand,
                want: Want::Sync,
            },
            is_on_way: true,
        })
    }

    /// Returns the strand, if it is at its want.
    pub fn standing(self) -> Option<Standing>
        ensures { IfSome result (λ x. (program : Program) → state_of x ≡ state_in program self) }
    {
        if self.is_on_way {
            return None;
        }
        Some(self.standing)
    }

    /// Joins the left strand to this one, the right strand of its fork. Both are at their ends. This one becomes the strand that
    /// forked, and is on its way to that one's next want.
    pub fn join(&mut self, left: Standing, program: &Program) -> Result<(), OutOfMemory>
        requires { IsRunner program.now self.old }
        ensures joined { OnOk result ((job : Job) → job.program ≡ program.now →
            state_in program.now self.new ≡ (strands_of_job job).joined (state_in program.now self.old) (state_of left)) }
        ensures runner { OnOk result (IsRunner program.now self.new) }
        ensures place { OnOk result (StandsAs (place_of self.new) (state_in program.now self.old)) }
    {
        self.run(program)?;
        self.standing.strand.joined(left.strand);
        self.standing.want = Want::Sync;
        self.is_on_way = true;
        Ok(())
    }

    /// Keeps what the strand needs to be here again, at the begin of a block that it wants.
    pub fn save(&mut self, program: &Program) -> Result<Saved, OutOfMemory>
        requires { IsRunner program.now self.old }
        ensures saved { IfOk result (λ saved. (strands_of_job (bare_job program.now)).want (state_in program.now self.old) ≡ Want.Begin →
            IsSavedOf program.now saved (state_in program.now self.old)) }
        ensures same { OnOk result (state_in program.now self.new ≡ state_in program.now self.old) }
        ensures runner { OnOk result (IsRunner program.now self.new) }
        ensures place { OnOk result (place_of self.new ≡ state_in program.now self.new) }
    {
        self.run(program)?;
        self.standing.save()
    }

    /// Goes back to the begin of a block that the strand is inside, from where it is: it wants the begin of the block again. Takes no
    /// memory.
    pub fn back(&mut self, saved: &Saved)
        requires { MayRollBack saved.now (place_of self.old) }
        ensures back { (m : MayRollBack saved.now (place_of self.old)) (program : Program) → state_in program self.new ≡ m.begin }
        ensures runner { (m : MayRollBack saved.now (place_of self.old)) → IsRunner m.job.program self.new }
        ensures place { (program : Program) → place_of self.new ≡ state_in program self.new }
    {
        self.standing.back(saved);
        self.is_on_way = false;
    }
}

ghost use Rattle.std.specs.Prelude.{◌≡◌, ◌↔◌, ◌<◌, IfOk, IsTrue, OnOk, None, Some, drop, length, slice_get, if◌then◌else◌};
ghost use Rattle.cw_strand.specs.declared.want.Given.TheVariants as Given;
ghost use Rattle.cw_strand.specs.declared.want.Want.TheVariants as Want;
ghost use Rattle.cw_tree.specs.declared.node.Kind.TheVariants as Kind;
ghost use Rattle.cw_code.specs.declared.program.Program.{Program as AProgram};
ghost use Rattle.cw_job.specs.Jobs.{TakesWords, job_of_task};
ghost use Rattle.cw_job.specs.Room.Strands.{strands_of_job};
ghost use Rattle.cw_audit.specs.Settled.{IsSome};
ghost use Rattle.cw_audit.specs.Visits.{MayEnterKind, MayLeaveKind, answer_told, answered, beginning, comes_later, entered_kind, forked, gone_back, joined_from, joined_strand, keeping, left_kind, kept_last, turned};
ghost use Rattle.cw_audit.specs.Walkers.{HasStrandsOf, IsOfIfThere, IsTold, law_of_told, spot_of, state_there};

use crate::strands::told::Told;
use crate::strands::wants::{answer_of, is_over, is_wanted, wants};
use cw_base::{OutOfMemory, Stack};
use cw_job::{Standing, Task};
use cw_strand::{Given, Want};
use cw_tree::{BlockState, Kind, Node};
use std::alloc::Global;

/// The strands that a walk over a tree has in memory.
#[derive(Drop)]
pub(crate) struct Walker {
    /// The strand that the walk is in. `None` where nothing may follow: behind an open fork, or behind a block that was not committed
    /// and has nothing after it.
    pub(crate) strand: Option<Standing>,
    /// The right strand of each fork whose left one is walked, the left strand of each fork whose right one is walked, and the
    /// strand before each block that is tried again.
    pub(crate) kept: Stack<Option<Standing>>,
}

impl Walker {
    /// Returns the walker before the root.
    pub(crate) fn start(alloc: Global, task: &Task) -> Result<Walker, OutOfMemory>
        requires { TakesWords task.now.program.now (length task.now.words.now) }
        ensures spot { IfOk result (λ w. spot_of w ≡ beginning (strands_of_job (job_of_task task.now))) }
        ensures stands { IfOk result (λ w. HasStrandsOf task.now.program.now w) }
    {
        let strand = Standing::start(alloc, task.program, task.words, task.limits)?;
        Ok(Walker {
            strand: Some(strand),
            kept: Stack::new(alloc),
        })
    }

    /// Enters a node. Returns false if the strand does not want what the node tells.
    pub(crate) fn enter(&mut self, told: &Told, n: u32, node: &Node) -> Result<bool, OutOfMemory>
        requires told { IsTold told.now }
        requires node { slice_get told.now.tree.now n ≡ Some node.now }
        requires stands { HasStrandsOf told.now.task.program.now self.old }
        ensures may { IfOk result (λ b. IsTrue b ↔ MayEnterKind (law_of_told told.now) node.now.kind (spot_of self.old)) }
        ensures spot { IfOk result (λ b. IsTrue b → spot_of self.new ≡ entered_kind (law_of_told told.now) told.now.tree.now n node.now.kind node.now.state (spot_of self.old)) }
        ensures stands { OnOk result (HasStrandsOf told.now.task.program.now self.new) }
    {
        if !self.may_enter(told, &node.kind) {
            return Ok(false);
        }
        self.go_in(told, n, node)?;
        Ok(true)
    }

    /// Returns whether the strand is there and wants what a node tells.
    fn may_enter(&self, told: &Told, kind: &Kind) -> bool
        ensures { IsTrue result ↔ MayEnterKind (law_of_told told.now) kind.now (spot_of self.now) }
    {
        match &self.strand {
            Some(strand) => is_wanted(kind, strand.want()),
            None => false,
        }
    }

    /// Goes into a node that the strand wants.
    fn go_in(&mut self, told: &Told, n: u32, node: &Node) -> Result<(), OutOfMemory>
        requires told { IsTold told.now }
        requires node { slice_get told.now.tree.now n ≡ Some node.now }
        requires may { MayEnterKind (law_of_told told.now) node.now.kind (spot_of self.old) }
        requires stands { HasStrandsOf told.now.task.program.now self.old }
        ensures spot { OnOk result (spot_of self.new ≡ entered_kind (law_of_told told.now) told.now.tree.now n node.now.kind node.now.state (spot_of self.old)) }
        ensures stands { OnOk result (HasStrandsOf told.now.task.program.now self.new) }
    {
        match &node.kind {
            Kind::Strand | Kind::Tried { .. } => Ok(()),
            Kind::Fork => self.fork(told),
            Kind::Block => self.begin(told, n, node.state),
            kind => self.do_leaf(told, kind),
        }
    }

    /// Answers the strand, if there is one.
    fn answer(&mut self, told: &Told, given: Given) -> Result<(), OutOfMemory>
        requires { HasStrandsOf told.now.task.program.now self.old }
        ensures spot { OnOk result (spot_of self.new ≡ answered (law_of_told told.now) given (spot_of self.old)) }
        ensures stands { OnOk result (HasStrandsOf told.now.task.program.now self.new) }
    {
        match &mut self.strand {
            Some(strand) => strand.answer(given, told.task.program),
            None => Ok(()),
        }
    }

    /// Goes behind an access, an output or a cancel.
    fn do_leaf(&mut self, told: &Told, kind: &Kind) -> Result<(), OutOfMemory>
        requires { HasStrandsOf told.now.task.program.now self.old }
        ensures spot { OnOk result (spot_of self.new ≡ answered (law_of_told told.now) (answer_told kind.now) (spot_of self.old)) }
        ensures stands { OnOk result (HasStrandsOf told.now.task.program.now self.new) }
    {
        let given = answer_of(told.alloc, kind)?;
        self.answer(told, given)
    }

    /// Goes into the left strand of a fork that the strand wants, and keeps the right one.
    fn fork(&mut self, told: &Told) -> Result<(), OutOfMemory>
        requires stands { HasStrandsOf told.now.task.program.now self.old }
        requires wants { IsSome (λ a. (law_of_told told.now).want a ≡ Want.Fork) (state_there self.old.strand) }
        ensures spot { OnOk result (spot_of self.new ≡ forked (law_of_told told.now) (spot_of self.old)) }
        ensures stands { OnOk result (HasStrandsOf told.now.task.program.now self.new) }
    {
        match &mut self.strand {
            Some(strand) => {
                let left = strand.fork(told.task.program)?;
                let right = std::mem::replace(&mut self.strand, Some(left));
                self.kept.push(right)
            }
            None => Ok(()),
        }
    }

    /// Begins a block. Keeps a copy of the strand before it if the block is tried again.
    fn begin(&mut self, told: &Told, n: u32, state: BlockState) -> Result<(), OutOfMemory>
        requires told { IsTold told.now }
        requires there { n < length told.now.tree.now }
        requires stands { HasStrandsOf told.now.task.program.now self.old }
        ensures spot { OnOk result (spot_of self.new ≡ entered_kind (law_of_told told.now) told.now.tree.now n Kind.Block state (spot_of self.old)) }
        ensures stands { OnOk result (HasStrandsOf told.now.task.program.now self.new) }
    {
        if state != BlockState::Committed && told.has_later(n) {
            self.keep(told.alloc)?;
        }
        self.answer(told, Given::Nothing)
    }

    /// Keeps a copy of the strand.
    fn keep(&mut self, alloc: Global) -> Result<(), OutOfMemory>
        ensures spot { OnOk result (spot_of self.new ≡ keeping (spot_of self.old)) }
        ensures stands { OnOk result ((program : AProgram) → HasStrandsOf program self.old → HasStrandsOf program self.new) }
    {
        let copy = copy_of(alloc, &self.strand)?;
        self.kept.push(copy)
    }

    /// Leaves a node. Returns false if the strand is not where it has to be at its end.
    pub(crate) fn leave(&mut self, told: &Told, n: u32, node: &Node) -> Result<bool, OutOfMemory>
        requires told { IsTold told.now }
        requires node { slice_get told.now.tree.now n ≡ Some node.now }
        requires stands { HasStrandsOf told.now.task.program.now self.old }
        ensures may { IfOk result (λ b. IsTrue b ↔ MayLeaveKind (law_of_told told.now) told.now.tree.now told.now.end.now n node.now.kind node.now.state (spot_of self.old)) }
        ensures spot { IfOk result (λ b. IsTrue b → spot_of self.new ≡ left_kind (law_of_told told.now) told.now.tree.now n node.now.kind node.now.state (spot_of self.old)) }
        ensures stands { OnOk result (HasStrandsOf told.now.task.program.now self.new) }
    {
        if !self.may_leave(told, n, node) {
            return Ok(false);
        }
        self.go_out(told, n, node)?;
        Ok(true)
    }

    /// Returns whether the strand is where it has to be at the end of a node.
    fn may_leave(&self, told: &Told, n: u32, node: &Node) -> bool
        requires told { IsTold told.now }
        requires node { slice_get told.now.tree.now n ≡ Some node.now }
        ensures { IsTrue result ↔ MayLeaveKind (law_of_told told.now) told.now.tree.now told.now.end.now n node.now.kind node.now.state (spot_of self.now) }
    {
        match (&node.kind, node.state) {
            (Kind::Strand, _) => told.may_leave(n, &self.strand),
            (Kind::Block, BlockState::Committed) => wants(&self.strand, Want::End),
            (Kind::Block, _) => told.may_leave(n, &self.strand),
            _ => true,
        }
    }

    /// Goes behind a node.
    fn go_out(&mut self, told: &Told, n: u32, node: &Node) -> Result<(), OutOfMemory>
        requires told { IsTold told.now }
        requires node { slice_get told.now.tree.now n ≡ Some node.now }
        requires stands { HasStrandsOf told.now.task.program.now self.old }
        ensures spot { OnOk result (spot_of self.new ≡ left_kind (law_of_told told.now) told.now.tree.now n node.now.kind node.now.state (spot_of self.old)) }
        ensures stands { OnOk result (HasStrandsOf told.now.task.program.now self.new) }
    {
        match (&node.kind, node.state) {
            (Kind::Strand, _) => self.end_strand(told, n),
            (Kind::Fork, _) => self.join(told),
            (Kind::Block, BlockState::Committed) => self.answer(told, Given::Nothing),
            (Kind::Block, _) => {
                self.roll_back(told, n);
                Ok(())
            }
            _ => Ok(()),
        }
    }

    /// Goes behind a strand: from the left strand of a fork into the right one.
    fn end_strand(&mut self, told: &Told, n: u32) -> Result<(), OutOfMemory>
        requires told { IsTold told.now }
        requires there { n < length told.now.tree.now }
        requires stands { HasStrandsOf told.now.task.program.now self.old }
        ensures spot { OnOk result (spot_of self.new ≡ (if comes_later told.now.tree.now n then turned (spot_of self.old) else spot_of self.old)) }
        ensures stands { OnOk result (HasStrandsOf told.now.task.program.now self.new) }
    {
        if told.has_later(n) {
            self.turn()?;
        }
        Ok(())
    }

    /// Changes places with what was kept last.
    fn turn(&mut self) -> Result<(), OutOfMemory>
        ensures spot { OnOk result (spot_of self.new ≡ turned (spot_of self.old)) }
        ensures stands { OnOk result ((program : AProgram) → HasStrandsOf program self.old → HasStrandsOf program self.new) }
    {
        let right = self.take();
        let left = std::mem::replace(&mut self.strand, right);
        self.kept.push(left)
    }

    /// Goes behind a fork. The strand goes on only if both strands of the fork have ended.
    fn join(&mut self, told: &Told) -> Result<(), OutOfMemory>
        requires { HasStrandsOf told.now.task.program.now self.old }
        ensures spot { OnOk result (spot_of self.new ≡ joined_from (law_of_told told.now) told.now.tree.now (spot_of self.old)) }
        ensures stands { OnOk result (HasStrandsOf told.now.task.program.now self.new) }
    {
        let left = self.take();
        if is_over(&left) && is_over(&self.strand) {
            return self.join_with(told, left);
        }
        drop(left);
        drop(std::mem::replace(&mut self.strand, None));
        Ok(())
    }

    /// Joins the left strand of a fork to the right one.
    fn join_with(&mut self, told: &Told, left: Option<Standing>) -> Result<(), OutOfMemory>
        requires { HasStrandsOf told.now.task.program.now self.old }
        ensures strand { OnOk result (state_there self.new.strand ≡ joined_strand (law_of_told told.now) (state_there self.old.strand) (state_there left)) }
        ensures kept { OnOk result (self.new.kept ≡ self.old.kept) }
        ensures stands { OnOk result (HasStrandsOf told.now.task.program.now self.new) }
    {
        match (left, &mut self.strand) {
            (Some(left), Some(right)) => right.join(left, told.task.program),
            _ => Ok(()),
        }
    }

    /// Goes behind a block that was not committed: to the strand before it, if something comes after it.
    fn roll_back(&mut self, told: &Told, n: u32)
        requires told { IsTold told.now }
        requires there { n < length told.now.tree.now }
        requires stands { HasStrandsOf told.now.task.program.now self.old }
        ensures spot { spot_of self.new ≡ (if comes_later told.now.tree.now n then gone_back (spot_of self.old) else record { now = None; kept = (spot_of self.old).kept }) }
        ensures stands { HasStrandsOf told.now.task.program.now self.new }
    {
        if told.has_later(n) {
            self.go_back();
        } else {
            self.stop();
        }
    }

    /// Goes back to what was kept last.
    #[tactic(auto, using(crate::proofs::Slots::taken_stand))]
    fn go_back(&mut self)
        ensures spot { spot_of self.new ≡ gone_back (spot_of self.old) }
        ensures stands { (program : AProgram) → HasStrandsOf program self.old → HasStrandsOf program self.new }
    {
        let before = self.take();
        drop(std::mem::replace(&mut self.strand, before));
    }

    /// Stops where nothing may follow.
    fn stop(&mut self)
        ensures spot { spot_of self.new ≡ record { now = None; kept = (spot_of self.old).kept } }
        ensures stands { (program : AProgram) → HasStrandsOf program self.old → HasStrandsOf program self.new }
    {
        drop(std::mem::replace(&mut self.strand, None));
    }

    /// Takes what was kept last.
    fn take(&mut self) -> Option<Standing>
        ensures strand { self.new.strand ≡ self.old.strand }
        ensures taken { result ≡ kept_last self.old.kept }
        ensures kept { self.new.kept ≡ drop 1 self.old.kept }
    {
        match self.kept.pop() {
            Some(strand) => strand,
            None => None,
        }
    }
}

/// Returns a copy of a strand, if it is there.
fn copy_of(alloc: Global, strand: &Option<Standing>) -> Result<Option<Standing>, OutOfMemory>
    ensures same { IfOk result (λ o. state_there o ≡ state_there strand.now) }
    ensures stands { IfOk result (λ o. (program : AProgram) → IsOfIfThere program strand.now → IsOfIfThere program o) }
{
    match strand {
        Some(strand) => {
            let copy = strand.copied(alloc)?;
            Ok(Some(copy))
        }
        None => Ok(None),
    }
}

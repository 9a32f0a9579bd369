ghost use Rattle.std.specs.Prelude.{◌≡◌, [], ◌∷◌, IfOk, MatchOption, OnOk, slice_get};
ghost use Rattle.cw_code.specs.Rules.{faults};
ghost use Rattle.cw_strand.specs.Coded.{with_value, step, step_at};

use super::Strand;
use crate::led::Led;
use crate::{Given, Want};
use cw_base::OutOfMemory;
use cw_code::{Back, Code, Effect, FaultKind, Instr, effect_at};

impl Strand {
    ghost use Rattle.cw_strand.specs.Acting.{TakesEffect, Needs, led_to};
    ghost use Rattle.cw_strand.specs.Standing.{StandsIn};

    /// Applies an answer. A value replaces the operand that holds its place. What is to be written back comes before all else.
    pub(crate) fn answer(&mut self, given: Given) -> Result<(), OutOfMemory>
        ensures { OnOk result (self.new ≡ with_value given self.old) }
    {
        match given {
            Given::Nothing => {}
            Given::Value(value) => {
                if self.operands.pop().is_some() {
                    self.operands.push(value)?;
                }
            }
            Given::Back(back) => {
                self.back = back;
                self.written = 0;
            }
        }
        Ok(())
    }

    /// Takes the next value that is to be written back.
    fn next_back(&mut self) -> Option<Back>
        ensures { MatchOption result (self.old.back ≡ [] × (self.new ≡ self.old))
            (λ b. (self.old.back ≡ b ∷ self.new.back) × (self.new ≡ record self.old { back = self.new.back })) }
    {
        if self.written >= self.back.len() {
            return None;
        }
        let back = *self.back.at(self.written);
        self.written += 1;
        Some(back)
    }

    /// Does one step.
    pub(crate) fn step(&mut self, code: &Code) -> Result<Led, OutOfMemory>
        requires sound { faults code.now ≡ [] }
        requires stands { StandsIn code.now self.old }
        ensures { IfOk result (λ l. step code.now self.old ≡ led_to l self.new) }
    {
        if self.size > u64::from(self.limits.size) {
            return Ok(Led::Wants(Want::Fault(FaultKind::Size)));
        }
        match self.next_back() {
            Some(back) => Ok(self.count(Want::Store(back.cell, back.value))),
            None => self.instruction(code),
        }
    }

    /// Does the instruction at the strand's place.
    fn instruction(&mut self, code: &Code) -> Result<Led, OutOfMemory>
        requires sound { faults code.now ≡ [] }
        requires stands { StandsIn code.now self.old }
        ensures { IfOk result (λ l. step_at code.now (slice_get code.now.instrs self.old.current.place) self.old ≡ led_to l self.new) }
    {
        prove!(code.cells <= u32::MAX);
        prove!(self.place < code.instrs.len());
        let instr = *code.instrs.at(self.place);
        let Some(effect) = effect_at(instr.op) else {
            unreachable!()
        };
        self.act(code, effect, instr, self.place + 1)
    }

    /// Does the effect of an instruction. `next` is the place behind it.
    fn act(
        &mut self,
        code: &Code,
        effect: Effect,
        instr: Instr,
        next: usize,
    ) -> Result<Led, OutOfMemory>
        requires { Needs code.now effect instr self.old }
        ensures { IfOk result (λ l. TakesEffect code.now effect instr next self.old l self.new) }
    {
        match effect {
            Effect::Push => self.push(instr, next),
            Effect::Local => self.read_local(instr, next),
            Effect::Set => Ok(self.write_local(instr, next)),
            Effect::Load => self.load(instr, next),
            Effect::LoadAt => self.load_at(instr, next),
            Effect::Store => Ok(self.store(instr, next)),
            Effect::StoreAt => self.store_at(instr, next),
            Effect::Lift(operator) => self.lift(operator, next),
            Effect::Join(operator) => self.join(operator, next),
            Effect::Jump => Ok(self.jump(instr)),
            Effect::JumpZero => Ok(self.jump_zero(instr, next)),
            Effect::Call => self.call(code, instr, next),
            Effect::Ret => self.ret(),
            Effect::Drop => Ok(self.drop_top(next)),
            Effect::Out => Ok(self.out(next)),
            Effect::Begin => self.begin(next),
            Effect::End => Ok(self.end(next)),
            Effect::Fork => self.spawn(instr, next),
            Effect::Sync => self.wait(next),
            Effect::Done => Ok(self.finish()),
            Effect::Tick => Ok(self.tick(next)),
            Effect::Cancel => Ok(self.cancel(next)),
        }
    }
}

ghost use Rattle.std.specs.Prelude.{◌≡◌, ◌+◌, ◌^◌, ◌<◌, ◌≤◌, length, IfOk};
ghost use Rattle.cw_code.specs.declared.instruction.Code.{Code};
ghost use Rattle.cw_code.specs.declared.instruction.Instr.{Instr};
ghost use Rattle.cw_code.specs.declared.effects.Effect.TheVariants.{Load as load, LoadAt as load_at, Store as store, StoreAt as store_at, Out as out};
ghost use Rattle.cw_strand.specs.Coded.{index, counts};

use super::Strand;
use super::operands::index;
use crate::Want;
use crate::led::Led;
use cw_base::OutOfMemory;
use cw_code::{FaultKind, Instr};

impl Strand {
    ghost use Rattle.cw_strand.specs.Acting.{TakesEffect, led_to};

    /// Wants something that counts one, within the limit.
    pub(crate) fn count(&mut self, want: Want) -> Led
        ensures { counts want self.old ≡ led_to result self.new }
    {
        if self.size >= u64::from(self.limits.size) {
            return Led::Wants(Want::Fault(FaultKind::Size));
        }
        self.size += 1;
        Led::Wants(want)
    }

    /// Wants a cell's value. An operand holds its place until it comes.
    pub(crate) fn load(&mut self, instr: Instr, next: usize) -> Result<Led, OutOfMemory>
        requires { index instr.a < 2 ^ 32 }
        ensures { (code : Code) → IfOk result (λ l. TakesEffect code load instr next self.old l self.new) }
    {
        self.operands.push(0)?;
        self.place = next;
        Ok(self.count(Want::Load(index(instr.a) as u32)))
    }

    /// Wants to store an operand's value in a cell.
    pub(crate) fn store(&mut self, instr: Instr, next: usize) -> Led
        requires there { index instr.a < 2 ^ 32 }
        requires room { 0 < length self.old.current.operands }
        ensures { (code : Code) → TakesEffect code store instr next self.old result self.new }
    {
        let Some(value) = self.operands.pop() else {
            unreachable!()
        };
        self.place = next;
        self.count(Want::Store(index(instr.a) as u32, value))
    }

    /// Wants the value of an array element, whose index is an operand.
    pub(crate) fn load_at(&mut self, instr: Instr, next: usize) -> Result<Led, OutOfMemory>
        requires there { index instr.a + instr.b ≤ 2 ^ 32 }
        requires room { 0 < length self.old.current.operands }
        ensures { (code : Code) → IfOk result (λ l. TakesEffect code load_at instr next self.old l self.new) }
    {
        let Some(number) = self.operands.pop() else {
            unreachable!()
        };
        match u32::try_from(number) {
            Ok(place) if place < instr.b => {
                self.operands.push(0)?;
                self.place = next;
                Ok(self.count(Want::Load((index(instr.a) + place as usize) as u32)))
            }
            _ => {
                self.operands.push(number)?;
                Ok(Led::Wants(Want::Fault(FaultKind::Range)))
            }
        }
    }

    /// Wants to store an operand's value in an array element, whose index is another operand.
    pub(crate) fn store_at(&mut self, instr: Instr, next: usize) -> Result<Led, OutOfMemory>
        requires there { index instr.a + instr.b ≤ 2 ^ 32 }
        requires room { 1 < length self.old.current.operands }
        ensures { (code : Code) → IfOk result (λ l. TakesEffect code store_at instr next self.old l self.new) }
    {
        let (Some(value), Some(number)) = (self.operands.pop(), self.operands.pop()) else {
            unreachable!()
        };
        match u32::try_from(number) {
            Ok(element) if element < instr.b => {
                self.place = next;
                Ok(self.count(Want::Store((index(instr.a) + element as usize) as u32, value)))
            }
            _ => {
                self.operands.push(number)?;
                self.operands.push(value)?;
                Ok(Led::Wants(Want::Fault(FaultKind::Range)))
            }
        }
    }

    /// Wants to output an operand.
    pub(crate) fn out(&mut self, next: usize) -> Led
        requires { 0 < length self.old.current.operands }
        ensures { (code : Code) (i : Instr) → TakesEffect code out i next self.old result self.new }
    {
        let Some(value) = self.operands.pop() else {
            unreachable!()
        };
        self.place = next;
        self.count(Want::Out(value))
    }
}

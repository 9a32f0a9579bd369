ghost use Rattle.std.specs.Prelude.{◌≡◌, ◌+◌, ◌<◌, ◌≤◌, ℕ, length, drop, IfOk, OnOk, slice_get, Some};
ghost use Rattle.cw_code.specs.declared.instruction.Code.{Code};
ghost use Rattle.cw_code.specs.declared.instruction.Func.{Func};
ghost use Rattle.cw_code.specs.declared.instruction.Instr.{Instr};
ghost use Rattle.cw_code.specs.declared.effects.Effect.TheVariants.{Call as call, Ret as ret, Tick as tick};
ghost use Rattle.cw_strand.specs.Coded.{index, locals_for};

use super::operands::index;
use super::{Frame, Strand};
use crate::Want;
use crate::led::Led;
use cw_base::{OutOfMemory, Stack};
use cw_code::{Code, FaultKind, Func, Instr};
use std::alloc::Global;
use std::mem;

/// The most functions that may be active at once.
const MOST_FRAMES: usize = 10000;

/// Returns the locals of a function that begins: the arguments, which are taken from the operands, then zeros.
pub fn take_locals(
    alloc: Global,
    operands: &mut Stack<i64>,
    func: &Func,
) -> Result<Vec<i64>, OutOfMemory>
    requires room { func.now.params ≤ length operands.old }
    requires fits { func.now.params ≤ func.now.locals }
    ensures locals { IfOk result (λ ls. ls.items ≡ locals_for func.now operands.old) }
    ensures rest { OnOk result (operands.new ≡ drop func.now.params operands.old) }
{
    let mut locals = vec![in alloc; 0i64; func.locals as usize]?;
    for place in (0..func.params as usize).rev() {
        let Some(value) = operands.pop() else {
            unreachable!()
        };
        locals[place] = value;
    }
    Ok(locals)
}

impl Strand {
    ghost use Rattle.cw_strand.specs.Acting.{TakesEffect, HasArguments, function_entered};

    /// Spends a unit of fuel, within the limit.
    pub(crate) fn tick(&mut self, next: usize) -> Led
        ensures { (code : Code) (i : Instr) → TakesEffect code tick i next self.old result self.new }
    {
        if self.fuel >= self.limits.fuel {
            return Led::Wants(Want::Fault(FaultKind::Fuel));
        }
        self.fuel += 1;
        self.place = next;
        Led::On
    }

    /// Begins a function, within the limits. The caller waits, to go on behind the call.
    pub(crate) fn call(
        &mut self,
        code: &Code,
        instr: Instr,
        next: usize,
    ) -> Result<Led, OutOfMemory>
        requires there { index instr.a < length code.now.funcs }
        requires takes { (f : Func) → slice_get code.now.funcs (index instr.a) ≡ Some f → HasArguments f self.old }
        ensures { IfOk result (λ l. TakesEffect code.now call instr next self.old l self.new) }
    {
        if self.fuel >= self.limits.fuel {
            return Ok(Led::Wants(Want::Fault(FaultKind::Fuel)));
        }
        self.fuel += 1;
        if self.callers.len() >= MOST_FRAMES - 1 {
            return Ok(Led::Wants(Want::Fault(FaultKind::Depth)));
        }
        let Some(func) = code.func(index(instr.a) as u64) else {
            unreachable!()
        };
        self.enter(func, next)?;
        Ok(Led::On)
    }

    /// Enters a function. The caller waits, to go on at `next`.
    fn enter(&mut self, func: Func, next: usize) -> Result<(), OutOfMemory>
        requires { HasArguments func self.old }
        ensures { OnOk result (self.new ≡ function_entered func next self.old) }
    {
        let alloc = *self.locals.allocator();
        let locals = take_locals(alloc, &mut self.operands, &func)?;
        self.callers.push(Frame {
            place: next,
            operands: mem::replace(&mut self.operands, Stack::new(alloc)),
            locals: mem::replace(&mut self.locals, locals),
        })?;
        self.scopes.push(0)?;
        self.place = func.start as usize;
        Ok(())
    }

    /// Returns to the function that waits, which gets the value as an operand. Ends the strand if no function waits.
    pub(crate) fn ret(&mut self) -> Result<Led, OutOfMemory>
        requires { 0 < length self.old.current.operands }
        ensures { (code : Code) (i : Instr) (p : ℕ) → IfOk result (λ l. TakesEffect code ret i p self.old l self.new) }
    {
        let Some(frame) = self.callers.pop() else {
            return Ok(self.finish());
        };
        let Some(value) = self.operands.pop() else {
            unreachable!()
        };
        self.place = frame.place;
        self.operands = frame.operands;
        self.locals = frame.locals;
        self.operands.push(value)?;
        let _ = self.scopes.pop();
        Ok(Led::On)
    }
}

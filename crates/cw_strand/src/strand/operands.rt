ghost use Rattle.std.specs.Prelude.{◌≡◌, ◌<◌, ℕ, length, IfOk};
ghost use Rattle.cw_code.specs.declared.instruction.Code.{Code};
ghost use Rattle.cw_code.specs.declared.instruction.Instr.{Instr};
ghost use Rattle.cw_code.specs.declared.effects.Effect.TheVariants.{Push as push, Drop as drop_top, Lift as lift, Join as join, Jump as jump, JumpZero as jump_zero};
ghost use Rattle.cw_strand.specs.Coded.{index};

use super::Strand;
use crate::Want;
use crate::led::Led;
use crate::operators::{one, two};
use cw_base::OutOfMemory;
use cw_code::{Instr, Operator};

/// The number of the place, local, cell or function that the operand `a` names.
pub fn index(a: i64) -> usize
    ensures { result ≡ index a }
{
    match u64::try_from(a) {
        Ok(number) => number as usize,
        Err(_) => 0,
    }
}

impl Strand {
    ghost use Rattle.cw_strand.specs.Acting.{TakesEffect};

    /// Pushes the instruction's number as an operand.
    pub(crate) fn push(&mut self, instr: Instr, next: usize) -> Result<Led, OutOfMemory>
        ensures { (code : Code) → IfOk result (λ l. TakesEffect code push instr next self.old l self.new) }
    {
        self.operands.push(instr.a)?;
        self.place = next;
        Ok(Led::On)
    }

    /// Pops an operand.
    pub(crate) fn drop_top(&mut self, next: usize) -> Led
        requires { 0 < length self.old.current.operands }
        ensures { (code : Code) (i : Instr) → TakesEffect code drop_top i next self.old result self.new }
    {
        let _ = self.operands.pop();
        self.place = next;
        Led::On
    }

    /// Replaces an operand by the result of a unary operator.
    pub(crate) fn lift(&mut self, operator: Operator, next: usize) -> Result<Led, OutOfMemory>
        requires { 0 < length self.old.current.operands }
        ensures { (code : Code) (i : Instr) → IfOk result (λ l. TakesEffect code (lift operator) i next self.old l self.new) }
    {
        let Some(x) = self.operands.pop() else {
            unreachable!()
        };
        match one(operator, x) {
            Ok(value) => {
                self.operands.push(value)?;
                self.place = next;
                Ok(Led::On)
            }
            Err(fault) => {
                self.operands.push(x)?;
                Ok(Led::Wants(Want::Fault(fault)))
            }
        }
    }

    /// Replaces two operands by the result of a binary operator.
    pub(crate) fn join(&mut self, operator: Operator, next: usize) -> Result<Led, OutOfMemory>
        requires { 1 < length self.old.current.operands }
        ensures { (code : Code) (i : Instr) → IfOk result (λ l. TakesEffect code (join operator) i next self.old l self.new) }
    {
        let (Some(y), Some(x)) = (self.operands.pop(), self.operands.pop()) else {
            unreachable!()
        };
        match two(operator, x, y) {
            Ok(value) => {
                self.operands.push(value)?;
                self.place = next;
                Ok(Led::On)
            }
            Err(fault) => {
                self.operands.push(x)?;
                self.operands.push(y)?;
                Ok(Led::Wants(Want::Fault(fault)))
            }
        }
    }

    /// Jumps to the target.
    pub(crate) fn jump(&mut self, instr: Instr) -> Led
        ensures { (code : Code) (p : ℕ) → TakesEffect code jump instr p self.old result self.new }
    {
        self.place = index(instr.a);
        Led::On
    }

    /// Pops an operand, and jumps to the target if it is 0.
    pub(crate) fn jump_zero(&mut self, instr: Instr, next: usize) -> Led
        requires { 0 < length self.old.current.operands }
        ensures { (code : Code) → TakesEffect code jump_zero instr next self.old result self.new }
    {
        let Some(value) = self.operands.pop() else {
            unreachable!()
        };
        self.place = if value == 0 { index(instr.a) } else { next };
        Led::On
    }
}

ghost use Rattle.std.specs.Prelude.{◌<◌, length};
ghost use Rattle.std.specs.Prelude.{IfOk};
ghost use Rattle.cw_code.specs.declared.instruction.Code.{Code};
ghost use Rattle.cw_code.specs.declared.effects.Effect.TheVariants.{Local as local, Set as set};
ghost use Rattle.cw_strand.specs.Coded.{index};

use super::Strand;
use super::operands::index;
use crate::led::Led;
use cw_base::OutOfMemory;
use cw_code::Instr;

impl Strand {
    ghost use Rattle.cw_strand.specs.Acting.{TakesEffect};

    /// Pushes the value of a local as an operand.
    pub(crate) fn read_local(&mut self, instr: Instr, next: usize) -> Result<Led, OutOfMemory>
        requires { index instr.a < length self.old.current.locals }
        ensures { (code : Code) → IfOk result (λ l. TakesEffect code local instr next self.old l self.new) }
    {
        let value = self.locals[index(instr.a)];
        self.operands.push(value)?;
        self.place = next;
        Ok(Led::On)
    }

    /// Pops an operand into a local.
    pub(crate) fn write_local(&mut self, instr: Instr, next: usize) -> Led
        requires there { index instr.a < length self.old.current.locals }
        requires room { 0 < length self.old.current.operands }
        ensures { (code : Code) → TakesEffect code set instr next self.old result self.new }
    {
        let Some(value) = self.operands.pop() else {
            unreachable!()
        };
        self.locals[index(instr.a)] = value;
        self.place = next;
        Led::On
    }
}

ghost use Rattle.std.specs.Prelude.{◌≡◌, []};
ghost use Rattle.cw_code.specs.Programs.{IsProgramCode, cancels, is_cancel};
ghost use Rattle.cw_code.specs.Rules.{faults, effect_of};

use crate::{CellInfo, Effect, Instr, Verified, table};
use cw_base::Seq;

/// A program: code that breaks no rule, the cells that it names, and the number of the function where it begins.
#[derive(Drop)]
pub struct Program {
    pub code: Verified,
    pub cells: Seq<CellInfo>,
    pub main: u32,
    pub ghost sound: { faults code ≡ [] },
    pub ghost whole: { ∥ IsProgramCode code cells main ∥₁ },
}

/// Whether an instruction is a `cancel`.
fn is_cancel(instr: &Instr) -> bool
    ensures { result ≡ is_cancel (effect_of instr.now) }
{
    match table::effect_at(instr.op) {
        Some(Effect::Cancel) => true,
        _ => false,
    }
}

impl Program {
    /// Whether the code contains a `cancel`, reached or not.
    pub fn cancels(&self) -> bool
        ensures { result ≡ cancels self.now.code }
    {
        let code = self.code.code();
        code.instrs.as_slice().iter().any(|instr| is_cancel(instr))
    }
}

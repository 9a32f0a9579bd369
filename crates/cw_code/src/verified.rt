ghost use Rattle.std.specs.Prelude.{◌≡◌, []};
ghost use Rattle.cw_code.specs.Answers.{Answers};
ghost use Rattle.cw_code.specs.Rules.{faults};

use crate::finding;
use crate::instruction::{Code, CodeFault};
use cw_base::OutOfMemory;
use std::alloc::Global;
use std::marker::Model;

/// Code that breaks no rule.
#[derive(Drop)]
pub struct Verified {
    code: Code,
}

impl Model for Verified {
    ghost use Rattle.std.specs.Prelude.{◌≡◌, []};
    ghost use Rattle.cw_code.specs.declared.instruction.Code.{Code};
    ghost use Rattle.cw_code.specs.Rules.{faults};

    ghost Value = { Code };

    ghost view = { λ v. v.code };

    ghost invariant = { λ v. faults v.code ≡ [] };
}

impl Verified {
    /// Returns the code, which breaks no rule.
    pub fn code(&self) -> &Code
        ensures code { result.now ≡ self.now }
        ensures sound { faults result.now ≡ [] }
    {
        &self.code
    }
}

/// Why code was not accepted.
#[derive(Clone, Copy, PartialEq, Eq, Debug)]
pub enum CodeRefusal {
    Code(CodeFault),
    OutOfMemory,
}

/// Returns the code if it breaks no rule, otherwise the first rule that it breaks: by place, and at one place by kind.
pub fn verify(alloc: Global, code: Code) -> Result<Verified, CodeRefusal>
    ensures { Answers code result }
{
    match finding::first_fault(&code, alloc) {
        Err(OutOfMemory) => Err(CodeRefusal::OutOfMemory),
        Ok(Some(fault)) => Err(CodeRefusal::Code(fault)),
        Ok(None) => Ok(Verified { code }),
    }
}

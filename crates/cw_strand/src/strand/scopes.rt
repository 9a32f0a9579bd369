ghost use Rattle.std.specs.Prelude.{ℕ, IfOk};
ghost use Rattle.cw_code.specs.declared.instruction.Code.{Code};
ghost use Rattle.cw_code.specs.declared.instruction.Instr.{Instr};
ghost use Rattle.cw_code.specs.declared.effects.Effect.TheVariants.{Begin as begin, End as end, Fork as fork, Sync as sync, Done as done, Cancel as cancel};

use super::Strand;
use super::operands::index;
use crate::Want;
use crate::led::Led;
use crate::scopes::Scopes;
use cw_base::{OutOfMemory, Stack};
use cw_code::{FaultKind, Instr};

impl Strand {
    ghost use Rattle.cw_strand.specs.Acting.{TakesEffect};
    ghost use Rattle.cw_strand.specs.Standing.{NoneOver};

    /// Begins a block and opens its scope.
    pub(crate) fn begin(&mut self, next: usize) -> Result<Led, OutOfMemory>
        ensures { (code : Code) (i : Instr) → IfOk result (λ l. TakesEffect code begin i next self.old l self.new) }
    {
        self.scopes.open()?;
        self.place = next;
        Ok(self.count(Want::Begin))
    }

    /// Ends a block and closes its scope.
    pub(crate) fn end(&mut self, next: usize) -> Led
        ensures { (code : Code) (i : Instr) → TakesEffect code end i next self.old result self.new }
    {
        let _ = self.scopes.pop();
        self.place = next;
        Led::Wants(Want::End)
    }

    /// Gives up a block.
    pub(crate) fn cancel(&mut self, next: usize) -> Led
        ensures { (code : Code) (i : Instr) → TakesEffect code cancel i next self.old result self.new }
    {
        self.place = next;
        self.count(Want::Cancel)
    }

    /// Forks. The left strand is to begin at `next`. This one goes on at the fork's target, and the innermost scope
    /// waits for one fork more.
    pub(crate) fn spawn(&mut self, instr: Instr, next: usize) -> Result<Led, OutOfMemory>
        requires { NoneOver self.old.size self.old.scopes }
        ensures { (code : Code) → IfOk result (λ l. TakesEffect code fork instr next self.old l self.new) }
    {
        if self.size >= u64::from(self.limits.size) {
            return Ok(Led::Wants(Want::Fault(FaultKind::Size)));
        }
        self.size += 1;
        let forks = self.scopes.pop().unwrap_or(0);
        self.scopes.push(forks + 1)?;
        self.place = index(instr.a);
        self.beside = next;
        Ok(Led::Wants(Want::Fork))
    }

    /// Ends as the right strand of a fork that the innermost scope waits for. Goes on if it waits for none.
    pub(crate) fn wait(&mut self, next: usize) -> Result<Led, OutOfMemory>
        ensures { (code : Code) (i : Instr) → IfOk result (λ l. TakesEffect code sync i next self.old l self.new) }
    {
        match self.scopes.newest() {
            Some(forks) if forks > 0 => {
                let _ = self.scopes.pop();
                self.scopes.push(forks - 1)?;
                Ok(Led::Wants(Want::Sync))
            }
            _ => {
                self.place = next;
                Ok(Led::On)
            }
        }
    }

    /// Ends the strand. If only its own scope is open, it frees its locals and scopes, since only what an ended strand
    /// spent and counted is read.
    pub(crate) fn finish(&mut self) -> Led
        ensures { (code : Code) (i : Instr) (p : ℕ) → TakesEffect code done i p self.old result self.new }
    {
        if self.scopes.len() == 1 {
            let alloc = *self.locals.allocator();
            self.locals = Vec::new(alloc);
            self.scopes = Scopes::new(alloc);
            if self.operands.len() == 0 {
                self.operands = Stack::new(alloc);
            }
            if self.callers.len() == 0 {
                self.callers = Stack::new(alloc);
            }
        }
        Led::Wants(Want::Done)
    }
}

ghost use Rattle.std.specs.Prelude.{◌≡◌, [], ◌∷◌, ◌++◌, ◌<◌, length, OnOk, slice_set};

use cw_base::{OutOfMemory, Seq};
use cw_code::Instr;
use std::alloc::Global;
use std::marker::Model;

/// Instructions, one behind the other. There are fewer than 2^32: one more counts as out of memory.
#[derive(Drop)]
pub(crate) struct Listing {
    instrs: Vec<Instr>,
}

impl Model for Listing {
    ghost use Rattle.std.specs.Prelude.{List, ◌<◌, ◌^◌, length};
    ghost use Rattle.cw_code.specs.declared.instruction.Instr.{Instr};

    ghost Value = { List Instr };

    ghost view = { λ l. l.instrs.items };

    ghost invariant = { λ l. length l.instrs.items < 2 ^ 32 };
}

impl Listing {
    pub(crate) fn new(alloc: Global) -> Listing
        ensures { result ≡ [] }
    {
        Listing {
            instrs: Vec::new(alloc),
        }
    }

    /// The place behind the last instruction.
    pub(crate) fn place(&self) -> u32
        ensures { result ≡ length self.now }
    {
        self.instrs.len() as u32
    }

    /// Adds an instruction.
    pub(crate) fn push(&mut self, instr: Instr) -> Result<(), OutOfMemory>
        ensures { OnOk result (self.new ≡ self.old ++ instr ∷ []) }
    {
        if self.place() == u32::MAX {
            return Err(OutOfMemory);
        }
        self.instrs.push(instr)?;
        Ok(())
    }

    /// Replaces the instruction at `place`.
    pub(crate) fn put(&mut self, place: u32, instr: Instr)
        requires { place < length self.old }
        ensures { self.new ≡ slice_set self.old place instr }
    {
        self.instrs[place as usize] = instr;
    }

    pub(crate) fn into_seq(self) -> Seq<Instr>
        ensures { result ≡ self }
    {
        Seq::from_vec(self.instrs)
    }
}

ghost use Rattle.std.specs.Prelude.{◌≡◌, drop, IfOk};

use super::{Frame, Strand};
use cw_base::{OutOfMemory, Seq, Stack};
use cw_code::Back;
use std::alloc::Global;

impl Strand {
    /// Returns a copy, which is in the same state. Costs what all its functions cost, with its scopes and what is still to
    /// be written back.
    pub fn copied(&self, alloc: Global) -> Result<Strand, OutOfMemory>
        ensures { IfOk result (λ s. s ≡ self.now) }
    {
        Ok(Strand {
            place: self.place,
            operands: self.operands.copy()?,
            locals: self.locals.clone()?,
            callers: copied_frames(alloc, &self.callers)?,
            scopes: self.scopes.copied()?,
            fuel: self.fuel,
            size: self.size,
            beside: self.beside,
            back: rest_of(alloc, &self.back, self.written)?,
            written: 0,
            limits: self.limits,
        })
    }
}

impl Frame {
    /// Returns a copy.
    fn copied(&self) -> Result<Frame, OutOfMemory>
        ensures { IfOk result (λ f. f ≡ self.now) }
    {
        Ok(Frame {
            place: self.place,
            operands: self.operands.copy()?,
            locals: self.locals.clone()?,
        })
    }
}

/// Returns a copy of the functions that wait.
fn copied_frames(alloc: Global, frames: &Stack<Frame>) -> Result<Stack<Frame>, OutOfMemory>
    ensures { IfOk result (λ copies. copies ≡ frames.now) }
{
    let mut copies = Stack::new(alloc);
    for frame in frames.as_slice() {
        copies.push(frame.copied()?)?;
    }
    Ok(copies)
}

/// Returns what is behind the first `written` of `list`.
fn rest_of(alloc: Global, list: &Seq<Back>, written: usize) -> Result<Seq<Back>, OutOfMemory>
    ensures { IfOk result (λ rest. rest ≡ drop written list.now) }
{
    let items = list.as_slice();
    let rest = items[written.min(items.len())..].to_vec(alloc)?;
    Ok(Seq::from_vec(rest))
}

ghost use Rattle.std.specs.Prelude.{◌≡◌, ◌-◌, [], ◌∷◌, drop, length, IfOk, OnOk};
ghost use Rattle.cw_strand.specs.Compilation.{slot_of};

use crate::locals::Locals;
use cw_base::OutOfMemory;
use std::alloc::Global;
use std::marker::Model;

/// The visible locals. The number of each is how many were visible where it was declared. There are fewer than 2^32:
/// one more counts as out of memory. Contracts see their names, the newest first.
#[derive(Drop)]
pub(crate) struct Slots<'a> {
    numbers: Locals<'a, u32>,
}

impl<'a> Model for Slots<'a> {
    ghost use Rattle.std.specs.Prelude.{map, length, ◌<◌, ◌^◌};
    ghost use Rattle.cw_strand.specs.Compilation.{Slots};
    ghost use Rattle.cw_compile.specs.Numbered.{NamesAreNumbered};

    ghost Value = { Slots };

    ghost view = { λ s. map (λ x. x.0) s.numbers };

    ghost invariant = { λ s. NamesAreNumbered s.numbers × (length s.numbers < 2 ^ 32) };
}

impl<'a> Slots<'a> {
    pub(crate) fn new(alloc: Global) -> Slots<'a>
        ensures { result ≡ [] }
    {
        Slots {
            numbers: Locals::new(alloc),
        }
    }

    /// The number of the local called `name`.
    pub(crate) fn find(&self, name: &str) -> Option<u32>
        ensures { result ≡ slot_of self.now name.now }
    {
        self.numbers.get(name)
    }

    /// How many locals are visible.
    pub(crate) fn count(&self) -> u32
        ensures { result ≡ length self.now }
    {
        self.numbers.count() as u32
    }

    /// Adds a local and returns its number.
    pub(crate) fn add(&mut self, name: &'a str) -> Result<u32, OutOfMemory>
        ensures names { OnOk result (self.new ≡ name.now ∷ self.old) }
        ensures number { IfOk result (λ n. n ≡ length self.old) }
    {
        let number = self.count();
        if number == u32::MAX {
            return Err(OutOfMemory);
        }
        self.numbers.bind(name, number)?;
        Ok(number)
    }

    /// Forgets all but the oldest `count` locals.
    pub(crate) fn forget(&mut self, count: u32) -> Result<(), OutOfMemory>
        ensures { OnOk result (self.new ≡ drop (length self.old - count) self.old) }
    {
        self.numbers.forget(count as usize)
    }
}

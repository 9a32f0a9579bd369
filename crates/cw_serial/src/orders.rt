ghost use Rattle.std.specs.Prelude.{◌≡◌, [], Some, IfOk, slice_get, slice_set};

use crate::Name;
use crate::machine::Machine;
use cw_base::{OutOfMemory, Stack};
use std::alloc::Global;

/// The strands that an order names, by their numbers in the machine, as far as they were asked for.
#[derive(Drop)]
pub struct Known<'n> {
    pub order: &'n [Name],
    pub numbers: Vec<Option<u32>>,
}

impl<'n> Known<'n> {
    ghost use Rattle.std.specs.Prelude.{List, ℕ};
    ghost use Rattle.cw_tree.specs.declared.picks.Name.{Name as Named};
    ghost use Rattle.cw_serial.specs.TableInMemory.{StrandsAreNumbered};
    ghost use Rattle.cw_serial.specs.InMemory.{names_in};
    ghost use Rattle.cw_serial.specs.Orders.{AreKnown, SameStrand, known_number, parent_number, root_number, LeadsUp, LeadDown, Finds};

    /// Returns what is known before anything was asked for: nothing.
    pub fn new(alloc: Global, order: &'n [Name]) -> Result<Known<'n>, OutOfMemory>
        ensures order { IfOk result (λ k. k.order.now ≡ order.now) }
        ensures known { IfOk result (λ k. (names : List Named) → AreKnown order.now k.numbers.items names) }
    {
        let mut numbers = Vec::new(alloc);
        for _name in order {
            numbers.push(None)?;
        }
        Ok(Known { order, numbers })
    }

    /// Returns the number of the strand called `name`, if it was started.
    pub fn number(
        &mut self,
        alloc: Global,
        machine: &Machine,
        name: u32,
    ) -> Result<Option<u32>, OutOfMemory>
        ensures order { IfOk result (λ found. self.new.order.now ≡ self.old.order.now) }
        ensures found { IfOk result (λ found.
            StrandsAreNumbered (names_in machine.now) machine.now.strands.rows.items →
            AreKnown self.old.order.now self.old.numbers.items (names_in machine.now) →
            Finds self.old.order.now name machine.now found
            × AreKnown self.old.order.now self.new.numbers.items (names_in machine.now)) }
    {
        let mut todo = Stack::new(alloc);
        let Some(number) = self.climb(name, &mut todo)? else {
            return Ok(None);
        };
        Ok(self.descend(machine, number, todo))
    }

    /// Returns the number of the nearest strand above `name` that is known. Pushes the names from there down to `name` on `todo`.
    fn climb(&self, name: u32, todo: &mut Stack<u32>) -> Result<Option<u32>, OutOfMemory>
        requires { todo.old ≡ [] }
        ensures { IfOk result (λ found. LeadsUp self.now.order.now self.now.numbers.items name found todo.new) }
    {
        let mut at = name;
        'up: loop {
            if let Some(number) = self.known(at) {
                return Ok(Some(number));
            }
            let Some(parent) = self.parent(at) else {
                return Ok(None);
            };
            todo.push(at)?;
            at = parent;
        }
    }

    /// Returns the number of the strand to which the names of `todo` lead down from `number`, if it was started.
    fn descend(&mut self, machine: &Machine, number: u32, mut todo: Stack<u32>) -> Option<u32>
        ensures order { self.new.order.now ≡ self.old.order.now }
        ensures found { StrandsAreNumbered (names_in machine.now) machine.now.strands.rows.items →
            (from n : ℕ) → LeadDown self.old.order.now from todo n →
            SameStrand self.old.order.now (names_in machine.now) from number →
            AreKnown self.old.order.now self.old.numbers.items (names_in machine.now) →
            Finds self.old.order.now n machine.now result
            × AreKnown self.old.order.now self.new.numbers.items (names_in machine.now) }
    {
        let mut above = number;
        while let Some(at) = todo.pop() {
            let Some(name) = self.name(at) else {
                return None;
            };
            let Some(started) = machine.started(Name {
                parent: above,
                ..name
            }) else {
                return None;
            };
            self.note(at, started);
            above = started;
        }
        Some(above)
    }

    /// Notes the number of the strand called `name`.
    fn note(&mut self, name: u32, number: u32)
        ensures order { self.new.order ≡ self.old.order }
        ensures numbers { self.new.numbers.items ≡ slice_set self.old.numbers.items name (Some number) }
    {
        if let Some(known) = self.numbers.get_mut(name as usize) {
            *known = Some(number);
        }
    }

    /// The number of the strand called `name`, if it is known.
    fn known(&self, name: u32) -> Option<u32>
        ensures { result ≡ known_number self.now.order.now self.now.numbers.items name }
    {
        if name == 0 {
            return self.root();
        }
        *self.numbers.get(name as usize)?
    }

    /// The number of the root, if the order begins with it.
    fn root(&self) -> Option<u32>
        ensures { result ≡ root_number (slice_get self.now.order.now 0) }
    {
        let first = self.order.get(0)?;
        if first.parent == 0 && first.fork == 0 && !first.right {
            Some(0)
        } else {
            None
        }
    }

    fn name(&self, name: u32) -> Option<Name>
        ensures { result ≡ slice_get self.now.order.now name }
    {
        self.order.get(name as usize).copied()
    }

    /// The parent of a name. Its number has to be smaller.
    fn parent(&self, name: u32) -> Option<u32>
        ensures { result ≡ parent_number (slice_get self.now.order.now name) name }
    {
        let parent = self.order.get(name as usize)?.parent;
        if parent < name { Some(parent) } else { None }
    }
}

ghost use Rattle.std.specs.Prelude.{◌≡◌, ℕ, ◌-◌, [], ◌∷◌, OnOk, OnErr, length, drop};
ghost use Rattle.cw_compile.specs.Named.{named};

use crate::names::Names;
use cw_base::{OutOfMemory, Stack};
use std::alloc::Global;
use std::marker::Model;

/// A name that was declared, and what it meant before.
#[derive(Clone, Copy)]
pub struct Hidden<'a, V> {
    pub name: &'a str,
    pub value: Option<V>,
}

/// Names that were declared one after another, each with what it means. Contracts see their list, the newest first.
#[derive(Drop)]
pub struct Locals<'a, V> {
    values: Names<'a, V>,
    declared: Stack<Hidden<'a, V>>,
}

impl<'a, V> Model for Locals<'a, V> {
    ghost use Rattle.std.specs.Prelude.{List, ℕ};
    ghost use Rattle.cw_compile.specs.Named.{list_of, Fits, value_named};

    ghost Value = { List (List ℕ × V) };

    ghost view = { λ l. list_of l.declared (value_named l.values) };

    ghost invariant = { λ l. Fits l.declared (value_named l.values) };
}

impl<'a, V: Copy> Locals<'a, V> {
    pub fn new(alloc: Global) -> Locals<'a, V>
        ensures { result ≡ [] }
    {
        Locals {
            values: Names::new(alloc),
            declared: Stack::new(alloc),
        }
    }

    /// How many names are declared.
    pub fn count(&self) -> usize
        ensures { result ≡ length self.now }
    {
        self.declared.len()
    }

    /// What `name` means now, by its newest declaration.
    pub fn get(&self, name: &str) -> Option<V>
        ensures { result ≡ named self.now name.now }
    {
        self.values.get(name)
    }

    /// Declares `name`.
    pub fn bind(&mut self, name: &'a str, value: V) -> Result<(), OutOfMemory>
        ensures ok { OnOk result (self.new ≡ (name.now, value) ∷ self.old) }
        ensures err { OnErr result (self.new ≡ self.old) }
    {
        self.declared.push(Hidden {
            name,
            value: self.values.get(name),
        })?;
        if let Err(refused) = self.values.set(name, Some(value)) {
            self.declared.pop();
            return Err(refused);
        }
        Ok(())
    }

    /// Forgets all but the oldest `count` names.
    pub fn forget(&mut self, count: usize) -> Result<(), OutOfMemory>
        ensures ok { OnOk result (self.new ≡ drop (length self.old - count) self.old) }
        ensures fewer { (gone : ℕ) × (self.new ≡ drop gone self.old) }
    {
        while self.count() > count {
            self.forget_newest()?;
        }
        Ok(())
    }

    /// Forgets the newest name, which means again what it meant before.
    fn forget_newest(&mut self) -> Result<(), OutOfMemory>
        ensures ok { OnOk result (self.new ≡ drop 1 self.old) }
        ensures err { OnErr result (self.new ≡ self.old) }
    {
        let Some(newest) = self.declared.newest() else {
            return Ok(());
        };
        self.values.set(newest.name, newest.value)?;
        self.declared.pop();
        Ok(())
    }
}

ghost use Rattle.std.specs.Prelude.{◌≡◌, ◌<◌, ◌≤◌, ◌+◌, ◌⊎◌, ℕ, [], length, OnOk, IsSome, is_some, Some, None};
ghost use Rattle.cw_sim.specs.ThingsInMemory.{thing_at, Puts};

use cw_base::OutOfMemory;
use slab::Slab;
use std::alloc::Global;
use std::marker::Model;

/// At most one thing for each node. The things lie in a slab, and each node keeps the key of its own.
#[derive(Drop)]
pub(crate) struct ByNode<T> {
    slab: Slab<T>,
    keys: Vec<Option<usize>>,
}

impl<T> Model for ByNode<T> {
    ghost use Rattle.std.specs.Prelude.{List, Option};

    ghost Value = { List (Option T) };

    ghost use Rattle.cw_sim.specs.ThingsInMemory.{things_of, AreKeys};

    ghost view = { λ b. things_of b.slab b.keys.items };

    ghost invariant = { λ b. AreKeys b.slab b.keys.items };
}

impl<T: Drop> ByNode<T> {
    pub(crate) fn new(alloc: Global) -> ByNode<T>
        ensures { result ≡ [] }
    {
        ByNode {
            slab: Slab::new(alloc),
            keys: Vec::new(alloc),
        }
    }

    /// Returns whether `node` has a thing.
    fn has(&self, node: u32) -> bool
        ensures { result ≡ is_some (thing_at self.now node) }
    {
        matches!(self.keys.get(node as usize), Some(Some(_)))
    }

    /// Returns the thing of a node that has one.
    pub(crate) fn at(&self, node: u32) -> &T
        requires { IsSome (thing_at self.now node) }
        ensures { thing_at self.now node ≡ Some result.now }
    {
        let Some(key) = self.keys[node as usize] else {
            unreachable!()
        };
        &self.slab[key]
    }

    /// Takes the thing of a node that has one.
    pub(crate) fn take(&mut self, node: u32) -> T
        requires { IsSome (thing_at self.old node) }
        ensures thing { thing_at self.old node ≡ Some result }
        ensures takes { Puts self.old node None self.new }
        ensures length { length self.new ≡ length self.old }
    {
        let Some(key) = self.keys[node as usize] else {
            unreachable!()
        };
        self.keys[node as usize] = None;
        self.slab.remove(key)
    }

    /// Makes room for the key of `node`.
    fn grow(&mut self, node: u32) -> Result<(), OutOfMemory>
        ensures there { OnOk result (node < length self.new) }
        ensures same { OnOk result ((m : ℕ) → thing_at self.new m ≡ thing_at self.old m) }
        ensures few { OnOk result ((length self.new ≤ length self.old) ⊎ (length self.new ≤ node + 1)) }
    {
        let count = node as usize + 1;
        if self.keys.len() < count {
            self.keys.resize(count, None)?;
        }
        Ok(())
    }

    /// Gives `thing` to a node that has none.
    fn add(&mut self, node: u32, thing: T) -> Result<(), OutOfMemory>
        requires there { node < length self.old }
        requires none { thing_at self.old node ≡ None }
        ensures { OnOk result (Puts self.old node (Some thing) self.new) }
    {
        let key = self.slab.insert(thing)?;
        self.keys[node as usize] = Some(key);
        Ok(())
    }

    /// Gives `thing` to `node`, in place of what it has.
    pub(crate) fn put(&mut self, node: u32, thing: T) -> Result<(), OutOfMemory>
        ensures { OnOk result (Puts self.old node (Some thing) self.new) }
    {
        self.grow(node)?;
        if self.has(node) {
            let _ = self.take(node);
        }
        self.add(node, thing)
    }
}

ghost use Rattle.std.specs.Prelude.{◌≡◌, ◌∷◌, ◌-◌, drop, length, OnOk, option_map};
ghost use Rattle.cw_strand.specs.Names.{find};

use super::scope::{Scope, Thing};
use crate::locals::Locals;
use cw_base::{OutOfMemory, Text};
use std::alloc::Global;

/// The names that a place in a function may use: those of the items, and the locals that were declared before it.
#[derive(Drop)]
pub(crate) struct Visible<'a> {
    items: &'a Scope,
    locals: Locals<'a, Thing>,
}

impl<'a> Visible<'a> {
    ghost use Rattle.cw_compile.specs.NamingRules.Scopes.{thing_of};
    ghost use Rattle.cw_compile.specs.NamingRules.Visible.{visible_in};

    /// Returns what is visible where a function begins: the items alone.
    pub(crate) fn new(alloc: Global, items: &'a Scope) -> Visible<'a>
        ensures { visible_in result ≡ items.now }
    {
        Visible {
            items,
            locals: Locals::new(alloc),
        }
    }

    /// What `name` means, if it is visible.
    pub(crate) fn find(&self, name: &Text) -> Option<Thing>
        ensures { option_map thing_of result ≡ find name.now (visible_in self.now) }
    {
        match self.locals.get(name.as_str()) {
            Some(thing) => Some(thing),
            None => self.items.find(name),
        }
    }

    /// Makes `name` visible as a local from now on.
    pub(crate) fn add_local(&mut self, name: &'a Text) -> Result<(), OutOfMemory>
        ensures { OnOk result (self.new ≡ record self.old { locals = (name.now, Thing.Local) ∷ self.old.locals }) }
    {
        self.locals.bind(name.as_str(), Thing::Local)
    }

    /// How many locals are visible.
    pub(crate) fn locals(&self) -> usize
        ensures { result ≡ length self.now.locals }
    {
        self.locals.count()
    }

    /// Forgets all but the oldest `count` locals.
    pub(crate) fn forget(&mut self, count: usize) -> Result<(), OutOfMemory>
        ensures { OnOk result (self.new ≡ record self.old {
          locals = drop (length self.old.locals - count) self.old.locals;
        }) }
    {
        self.locals.forget(count)
    }
}

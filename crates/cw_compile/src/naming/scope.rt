ghost use Rattle.std.specs.Prelude.{◌≡◌, [], ◌∷◌, OnOk, option_map};
ghost use Rattle.cw_strand.specs.Names.{find};
ghost use Rattle.cw_compile.specs.NamingRules.Scopes.{thing_of, IsSame};

use cw_base::{OutOfMemory, Text};
use std::alloc::Global;
use std::collections::BTreeMap;
use std::marker::Model;

/// What a name means.
#[derive(Clone, Copy)]
pub(crate) enum Thing {
    Local,
    /// A plain cell.
    Cell,
    /// A cell with elements.
    Array,
    /// A function with this number of parameters.
    Function(usize),
}

/// Names, and what each of them means.
#[derive(Drop)]
pub(crate) struct Scope {
    things: BTreeMap<String, Thing>,
}

impl Model for Scope {
    ghost use Rattle.cw_strand.specs.Names.{Scope};
    ghost use Rattle.cw_compile.specs.NamingRules.Scopes.{scope_of};

    ghost Value = { Scope };

    ghost view = { λ s. scope_of s.things.entries };
}

impl Scope {
    pub(crate) fn new(alloc: Global) -> Scope
        ensures { result ≡ [] }
    {
        Scope {
            things: BTreeMap::new(alloc),
        }
    }

    /// What `name` means, if it is known.
    pub(crate) fn find(&self, name: &Text) -> Option<Thing>
        ensures { option_map thing_of result ≡ find name.now self.now }
    {
        self.things.get(name.as_str()).copied()
    }

    /// Makes `name` mean `thing` from now on.
    pub(crate) fn add(
        &mut self,
        alloc: Global,
        name: &Text,
        thing: Thing,
    ) -> Result<(), OutOfMemory>
        ensures { OnOk result (IsSame self.new ((name.now, thing_of thing) ∷ self.old)) }
    {
        let name = String::from_str(alloc, name.as_str())?;
        self.things.insert(name, thing)?;
        Ok(())
    }
}

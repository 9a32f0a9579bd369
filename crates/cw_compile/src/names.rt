ghost use Rattle.std.specs.Prelude.{◌≡◌, ℕ, List, None, OnOk, OnErr, if◌then◌else◌};
ghost use Rattle.std.specs.Str.{bytes_eq};

use cw_base::OutOfMemory;
use std::alloc::Global;
use std::collections::BTreeMap;

/// What names mean, each name once.
#[derive(Drop)]
pub struct Names<'a, V> {
    map: BTreeMap<&'a str, V>,
}

impl<'a, V: Copy> Names<'a, V> {
    ghost use Rattle.cw_compile.specs.Named.{value_named};

    pub fn new(alloc: Global) -> Names<'a, V>
        ensures { (n : List ℕ) → value_named result n ≡ None }
    {
        Names {
            map: BTreeMap::new(alloc),
        }
    }

    /// What `name` means.
    pub fn get(&self, name: &str) -> Option<V>
        ensures { result ≡ value_named self.now name.now }
    {
        self.map.get(name).copied()
    }

    /// Makes `name` mean `value` from now on, or nothing.
    pub fn set(&mut self, name: &'a str, value: Option<V>) -> Result<(), OutOfMemory>
        ensures ok { OnOk result ((n : List ℕ) → value_named self.new n
            ≡ (if bytes_eq n name.now then value else value_named self.old n)) }
        ensures err { OnErr result ((n : List ℕ) → value_named self.new n ≡ value_named self.old n) }
    {
        match value {
            Some(value) => {
                self.map.insert(name, value)?;
            }
            None => {
                self.map.remove(name);
            }
        }
        Ok(())
    }
}

ghost use Rattle.std.specs.Prelude.{◌≡◌, IfOk, map};
ghost use Rattle.cw_text.specs.Syntax.{declaration_of};
ghost use Rattle.cw_strand.specs.Compilation.{function_names, number_from};

use crate::names::Names;
use cw_base::OutOfMemory;
use cw_text::Item;
use std::alloc::Global;
use std::marker::Model;

/// The functions among items, each with its number by its name. If two functions have one name, the first counts.
/// Contracts see their names, in the order of the text.
#[derive(Drop)]
pub(crate) struct Functions<'a> {
    items: &'a [Item],
    numbers: Names<'a, u32>,
    count: u32,
}

impl<'a> Model for Functions<'a> {
    ghost use Rattle.std.specs.Prelude.{List, ℕ, map};
    ghost use Rattle.cw_text.specs.Syntax.{declaration_of};
    ghost use Rattle.cw_strand.specs.Compilation.{function_names};
    ghost use Rattle.cw_compile.specs.Numbered.{HasNumbers};

    ghost Value = { List (List ℕ) };

    ghost view = { λ f. function_names (map declaration_of f.items.now) };

    ghost invariant = { λ f. HasNumbers f.numbers f.count (function_names (map declaration_of f.items.now)) };
}

impl<'a> Functions<'a> {
    pub(crate) fn of_items(alloc: Global, items: &'a [Item]) -> Result<Functions<'a>, OutOfMemory>
        ensures { IfOk result (λ f. f ≡ function_names (map declaration_of items.now)) }
    {
        let mut numbers = Names::new(alloc);
        let mut count = 0u32;
        for item in items {
            if let Item::Func { name, .. } = item {
                if numbers.get(name.as_str()).is_none() {
                    numbers.set(name.as_str(), Some(count))?;
                }
                count = count.checked_add(1).ok_or(OutOfMemory)?;
            }
        }
        Ok(Functions {
            items,
            numbers,
            count,
        })
    }

    /// The number of the function called `name`, or the number behind the last function if there is none.
    pub(crate) fn number(&self, name: &str) -> u32
        ensures { result ≡ number_from 0 name.now self.now }
    {
        self.numbers.get(name).unwrap_or(self.count)
    }
}

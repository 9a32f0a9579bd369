ghost use Rattle.std.specs.Prelude.{◌≡◌, ◌+◌, ◌<◌, ◌≤◌, ◌++◌, length, reverse, IsTrue, IfOk, OnOk};
ghost use Rattle.cw_tree.specs.Shape.{IsTree};
ghost use Rattle.cw_tree.specs.Series.{parallel};
ghost use Rattle.cw_sp.specs.Orders.{hebrew, is_leaf, mirrored};

use crate::line::Line;
use cw_base::OutOfMemory;
use cw_order::Steps;
use cw_tree::{Family, Tree};
use std::alloc::Global;
use std::marker::Model;
use std::sync::ledger::Ledger;

/// A tree whose leaves are kept in both orders, so that two comparisons tell whether two of them are in parallel.
#[derive(Drop)]
pub struct Pairs<'t> {
    tree: &'t Tree,
    english: Line,
    hebrew: Line,
}

impl<'t> Model for Pairs<'t> {
    ghost use Rattle.std.specs.Prelude.{List};
    ghost use Rattle.cw_tree.specs.declared.node.Node.{Node};
    ghost use Rattle.cw_sp.specs.InMemory.{ArePairs};

    ghost Value = { List Node };

    ghost view = { λ p. p.tree.now };

    ghost invariant = { ArePairs };
}

impl<'t> Pairs<'t> {
    /// Returns the pairs of `tree`. Takes memory and time for each node of the tree, however deep it is.
    pub fn of(tree: &'t Tree) -> Result<Pairs<'t>, OutOfMemory>
        requires { IsTree tree.now }
        ensures { IfOk result (λ p. p ≡ tree.now) }
    {
        let order = tree.depth_first()?;
        let alloc = *order.allocator();
        let mirrored = hebrew_order(alloc, tree)?;
        let english = Line::of_walk(alloc, tree, order.as_slice())?;
        match Line::of_walk(alloc, tree, mirrored.as_slice()) {
            Ok(hebrew) => Ok(Pairs {
                tree,
                english,
                hebrew,
            }),
            Err(error) => {
                drop(english);
                Err(error)
            }
        }
    }

    /// Returns whether the leaves `u` and `v` are in parallel. Either may come first, and they may be one leaf. Takes at
    /// most two steps, and no memory.
    pub fn parallel<L: Ledger>(&self, u: u32, v: u32, steps: &mut Steps<L>) -> bool
        requires first { IsTrue (is_leaf self.now u) }
        requires second { IsTrue (is_leaf self.now v) }
        ensures answer { result ≡ parallel self.now u v }
        ensures cost { steps.new ≤ steps.old + 2 }
    {
        let english = self.english.is_before(u, v, steps);
        let hebrew = self.hebrew.is_before(u, v, steps);
        english != hebrew
    }
}

/// Returns the nodes of a tree in Hebrew order.
fn hebrew_order(alloc: Global, tree: &Tree) -> Result<Vec<u32>, OutOfMemory>
    requires { IsTree tree.now }
    ensures { IfOk result (λ order. order.items ≡ hebrew tree.now) }
{
    let family = Family::of_tree(tree)?;
    let mut order = Vec::new(alloc);
    // the nodes that are still to be visited, the next one last
    let mut stack = Vec::new(alloc);
    stack.push(0)?;
    while let Some(n) = stack.pop() {
        push_mirrored(&family, n, &mut stack)?;
        order.push(n)?;
    }
    Ok(order)
}

/// Pushes a node's children on a stack, so that the one that the Hebrew order visits first is on top.
fn push_mirrored(family: &Family, n: u32, stack: &mut Vec<u32>) -> Result<(), OutOfMemory>
    requires { n < length family.now }
    ensures { OnOk result (stack.new.items ≡ stack.old.items ++ reverse (mirrored family.now n)) }
{
    let bottom = stack.len();
    family.push_children(n, stack)?;
    if family.tree().is_fork(n) {
        stack[bottom..].reverse();
    }
    Ok(())
}

ghost use Rattle.std.specs.Prelude.{◌≡◌, ◌+◌, ◌<◌, ◌≤◌, ◌↔◌, IsTrue, IfOk, All, Contains, filter, length, nat_eq, slice_index};
ghost use Rattle.std.specs.List.{IsDistinct};
ghost use Rattle.std.specs.Option.{ForSome};
ghost use Rattle.cw_order.specs.Order.{position};
ghost use Rattle.cw_sp.specs.Orders.{is_leaf};
ghost use Rattle.cw_sp.specs.Lines.{AreInserted, IsWalk, IsLine};

use cw_base::OutOfMemory;
use cw_order::{OrderList, Steps};
use cw_tree::{Kind, Tree};
use std::alloc::Global;
use std::sync::ledger::Ledger;

/// The leaves of a tree in the order of a walk: a list with an element for each leaf, and the elements by node.
#[derive(Drop)]
pub(crate) struct Line {
    list: OrderList,
    elements: Vec<u32>,
}

impl Line {
    /// Returns the line of the leaves of `tree`, as `order` visits them.
    pub(crate) fn of_walk(alloc: Global, tree: &Tree, order: &[u32]) -> Result<Line, OutOfMemory>
        requires { IsWalk tree.now order.now }
        ensures { IfOk result (IsLine tree.now order.now) }
    {
        let count = tree.nodes().len();
        let leaves = leaves(alloc, tree, order)?;
        let mut elements = vec![in alloc; 0u32; count]?;
        let mut list = OrderList::with_room(alloc, count as u32)?;
        insert_leaves(&mut list, &mut elements, leaves.as_slice(), None);
        Ok(Line { list, elements })
    }

    /// Returns whether the element of node `u` comes before that of `v`.
    pub(crate) fn is_before<L: Ledger>(&self, u: u32, v: u32, steps: &mut Steps<L>) -> bool
        requires first { u < length self.now.elements.items }
        requires second { v < length self.now.elements.items }
        requires first_there { Contains self.now.list.elements (slice_index self.now.elements.items u) }
        requires second_there { Contains self.now.list.elements (slice_index self.now.elements.items v) }
        ensures order { IsTrue result
            ↔ (position self.now.list.elements (slice_index self.now.elements.items u)
            < position self.now.list.elements (slice_index self.now.elements.items v)) }
        ensures cost { steps.new ≡ steps.old + 1 }
    {
        let first = self.elements[u as usize];
        let second = self.elements[v as usize];
        self.list.before(first, second, steps)
    }
}

/// Returns the leaves that `order` visits.
fn leaves(alloc: Global, tree: &Tree, order: &[u32]) -> Result<Vec<u32>, OutOfMemory>
    requires { All (λ n. n < length tree.now) order.now }
    ensures { IfOk result (λ leaves. leaves.items ≡ filter (is_leaf tree.now) order.now) }
{
    let mut leaves = Vec::with_capacity(alloc, order.len())?;
    for n in order {
        if is_leaf(tree, *n) {
            leaves.push(*n)?;
        }
    }
    Ok(leaves)
}

/// Inserts an element for each of `leaves` behind `last`, in their order, and keeps them by node. Each half of the leaves is inserted
/// beside the one in the middle, so labels stay far apart, and the list need not give elements new labels.
fn insert_leaves(list: &mut OrderList, elements: &mut Vec<u32>, leaves: &[u32], last: Option<u32>)
    requires there { All (λ n. n < length elements.old.items) leaves.now }
    requires once { IsDistinct nat_eq leaves.now }
    requires last { ForSome last (Contains list.old.elements) }
    requires distinct { IsDistinct nat_eq list.old.elements }
    requires room { length list.old.elements + length leaves.now ≤ list.old.room }
    ensures filled { AreInserted leaves.now last list.old.elements elements.old.items list.new.elements elements.new.items }
    ensures room { list.new.room ≡ list.old.room }
{
    if leaves.is_empty() {
        return;
    }
    let middle = leaves.len() / 2;
    let node = leaves[middle] as usize;
    let Ok(element) = list.insert_after(last) else {
        unreachable!()
    };
    elements[node] = element;
    let (left, _) = leaves.split_at(middle);
    insert_leaves(list, elements, left, last);
    let (_, right) = leaves.split_at(middle + 1);
    insert_leaves(list, elements, right, Some(element));
}

/// Returns whether node `n` is no strand, fork or block.
fn is_leaf(tree: &Tree, n: u32) -> bool
    requires { n < length tree.now }
    ensures { result ≡ is_leaf tree.now n }
{
    !matches!(tree.node(n).kind, Kind::Strand | Kind::Fork | Kind::Block)
}

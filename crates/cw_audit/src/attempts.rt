ghost use Rattle.std.specs.Prelude.{◌≡◌, ℕ, ◌<◌, ◌≤◌, IfOk, length, slice_index};
ghost use Rattle.cw_tree.specs.Attempts.{tried_cell};
ghost use Rattle.cw_tree.specs.Links.{child_before};
ghost use Rattle.cw_audit.specs.Repeats.{AreAttempts, attempt, repeats};

use cw_base::OutOfMemory;
use cw_tree::{Kind, Tree};
use std::alloc::Global;

/// For each node, returns the number of the attempt that it is. Takes one pass over the nodes.
pub(crate) fn attempts(alloc: Global, tree: &Tree) -> Result<Vec<u32>, OutOfMemory>
    ensures { IfOk result (λ v. AreAttempts tree.now v.items) }
{
    let count = tree.nodes().len();
    let mut attempts = vec![in alloc; 1u32; count]?;
    // the last child of each node so far
    let mut last = vec![in alloc; None; count]?;
    for n in 1..count as u32 {
        let parent = tree.parent(n) as usize;
        attempts[n as usize] = attempt(tree, attempts.as_slice(), last[parent], n);
        last[parent] = Some(n);
    }
    Ok(attempts)
}

/// The same for one node, given the child of its parent before it, and the attempts of the nodes before it.
fn attempt(tree: &Tree, before: &[u32], last: Option<u32>, n: u32) -> u32
    requires there { n < length tree.now }
    requires child { 0 < n }
    requires last { last ≡ child_before tree.now n }
    requires len { n ≤ length before.now }
    requires before { (m : ℕ) → m < n → slice_index before.now m ≡ attempt tree.now m }
    ensures { result ≡ attempt tree.now n }
{
    // a hint to the prover: a tree has fewer than 2 ^ 32 nodes
    let _ = tree.nodes();
    let Some(other) = last else {
        return 1;
    };
    if repeats(tree, other, n) {
        before[other as usize] + 1
    } else {
        1
    }
}

/// Returns whether node `n`, if it comes directly after node `m`, is one more attempt.
fn repeats(tree: &Tree, m: u32, n: u32) -> bool
    requires before { m < length tree.now }
    requires there { n < length tree.now }
    ensures { result ≡ repeats tree.now m n }
{
    match tried_cell(tree, n) {
        Some(cell) => tried_cell(tree, m) == Some(cell),
        None => tree.is_aborted(m),
    }
}

/// Returns the cell of a refused access.
fn tried_cell(tree: &Tree, n: u32) -> Option<u32>
    requires { n < length tree.now }
    ensures { result ≡ tried_cell tree.now n }
{
    match tree.node(n).kind {
        Kind::Tried { cell } => Some(cell),
        _ => None,
    }
}

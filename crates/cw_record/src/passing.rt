ghost use Rattle.std.specs.Prelude.{◌≡◌, ℕ, ◌+◌, ◌-◌, ◌<◌, IfOk, IfSome, IsTrue, OnOk, false, length, map};
ghost use Rattle.cw_tree.specs.Nodes.{all_nodes, is_aborted, is_fork, is_strand, parent_of};
ghost use Rattle.cw_tree.specs.Series.{strand_of};
ghost use Rattle.cw_tree.specs.Walks.{is_ancestor};
ghost use Rattle.cw_record.specs.Listed.{listed_names, strand_number};
ghost use Rattle.cw_record.specs.Plain.{IsPassed, IsPlainAt, UndoneAt};

use crate::listed::Listed;
use crate::strands::hangs;
use cw_base::OutOfMemory;
use cw_tree::{Name, Tree};
use std::alloc::Global;

/// Returns the names and numbers of a tree's strands if the tree is plain, otherwise `None`. In a plain tree nodes are numbered
/// depth first, each fork has at most two strands directly beneath it and nothing else, no strand except the root is anywhere else,
/// and no fork was rolled back. Then no two strands have the same name, and one pass over the nodes is enough.
pub(crate) fn listed_plain(alloc: Global, tree: &Tree) -> Result<Option<Listed>, OutOfMemory>
    ensures names { IfOk result (λ r. IfSome r (λ l. l.names.items ≡ listed_names tree.now)) }
    ensures numbers { IfOk result (λ r. IfSome r (λ l. l.numbers.items ≡ map (λ n. strand_number tree.now (strand_of tree.now n)) (all_nodes tree.now))) }
{
    let count = tree.nodes().len();
    let mut pass = Pass::of_root(alloc, tree)?;
    for n in 1..count as u32 {
        if !pass.add(tree, n)? {
            return Ok(None);
        }
    }
    Ok(Some(Listed {
        names: pass.names,
        numbers: pass.numbers,
    }))
}

/// What a pass over the nodes of a plain tree has found so far.
#[derive(Drop)]
struct Pass {
    names: Vec<Name>,
    // how many forks each of these strands has made
    forks: Vec<u32>,
    // for each node the number of its strand
    numbers: Vec<u32>,
    // the outermost rolled-back attempt around the last node, or the number of the next node if there is none
    undone: u32,
}

impl Pass {
    // Returns a pass that has seen the root only.
    fn of_root(alloc: Global, tree: &Tree) -> Result<Pass, OutOfMemory>
        ensures passed { IfOk result (λ pass. IsPassed tree.now 1 pass.names.items pass.forks.items pass.numbers.items) }
        ensures undone { IfOk result (λ pass. UndoneAt tree.now 0 pass.undone) }
    {
        let mut names = Vec::new(alloc);
        names.push(Name {
            parent: 0,
            fork: 0,
            right: false,
        })?;
        let mut forks = Vec::new(alloc);
        forks.push(0)?;
        let mut numbers = Vec::with_capacity(alloc, tree.nodes().len())?;
        numbers.push(0)?;
        Ok(Pass {
            names,
            forks,
            numbers,
            undone: 1,
        })
    }

    // Adds node `n`. Returns false if the tree is not plain at it.
    fn add(&mut self, tree: &Tree, n: u32) -> Result<bool, OutOfMemory>
        requires there { n < length tree.now }
        requires child { 0 < n }
        requires passed { IsPassed tree.now n self.old.names.items self.old.forks.items self.old.numbers.items }
        requires undone { UndoneAt tree.now (n - 1) self.old.undone }
        ensures passed { IfOk result (λ plain. IsTrue plain
            → IsPassed tree.now (n + 1) self.new.names.items self.new.forks.items self.new.numbers.items) }
        ensures undone { IfOk result (λ plain. IsTrue plain → UndoneAt tree.now n self.new.undone) }
    {
        if !hangs(tree, n) {
            return Ok(false);
        }
        let undone = undone_at(tree, n, self.undone);
        if tree.is_fork(tree.parent(n)) {
            if !is_side(tree, n) {
                return Ok(false);
            }
            self.add_strand(tree, n)?;
        } else {
            if !is_kept(tree, n, undone) {
                return Ok(false);
            }
            self.add_other(tree, n)?;
        }
        self.undone = undone;
        Ok(true)
    }

    fn add_strand(&mut self, tree: &Tree, n: u32) -> Result<(), OutOfMemory>
        requires there { n < length tree.now }
        requires child { 0 < n }
        requires plain { IsPlainAt tree.now n }
        requires strand { IsTrue (is_strand tree.now n) }
        requires passed { IsPassed tree.now n self.old.names.items self.old.forks.items self.old.numbers.items }
        ensures { OnOk result (IsPassed tree.now (n + 1) self.new.names.items self.new.forks.items self.new.numbers.items) }
    {
        let parent = tree.parent(n);
        let above = self.numbers[parent as usize];
        self.numbers.push(self.names.len() as u32)?;
        self.names.push(Name {
            parent: above,
            fork: self.forks[above as usize],
            right: parent + 1 < n,
        })?;
        self.forks.push(0)?;
        Ok(())
    }

    fn add_other(&mut self, tree: &Tree, n: u32) -> Result<(), OutOfMemory>
        requires there { n < length tree.now }
        requires child { 0 < n }
        requires plain { IsPlainAt tree.now n }
        requires other { is_strand tree.now n ≡ false }
        requires passed { IsPassed tree.now n self.old.names.items self.old.forks.items self.old.numbers.items }
        ensures { OnOk result (IsPassed tree.now (n + 1) self.new.names.items self.new.forks.items self.new.numbers.items) }
    {
        let above = self.numbers[tree.parent(n) as usize];
        if tree.is_fork(n) {
            self.forks[above as usize] += 1;
        }
        self.numbers.push(above)?;
        Ok(())
    }
}

// Returns whether node `n`, directly beneath a fork, is a strand, and the first or the second node there.
fn is_side(tree: &Tree, n: u32) -> bool
    requires there { n < length tree.now }
    requires child { 0 < n }
    ensures strand { IsTrue result → IsTrue (is_strand tree.now n) }
    ensures side { IsTrue result → parent_of tree.now n + 1 < n → IsTrue (is_ancestor tree.now (parent_of tree.now n + 1) (n - 1)) }
{
    let first = tree.parent(n) + 1;
    tree.is_strand(n) && (first == n || tree.ancestor(first, n - 1))
}

// Returns whether node `n`, not directly beneath a fork, is neither a strand nor a fork that was rolled back.
fn is_kept(tree: &Tree, n: u32, undone: u32) -> bool
    requires there { n < length tree.now }
    requires undone { UndoneAt tree.now n undone }
    ensures strand { IsTrue result → is_strand tree.now n ≡ false }
    ensures kept { IsTrue result → IsTrue (is_fork tree.now n) → (a : ℕ) → IsTrue (is_ancestor tree.now a n) → is_aborted tree.now a ≡ false }
{
    // a hint to the prover: what is above a node has a smaller number
    let _ = tree.nodes();
    !tree.is_strand(n) && (n < undone || !tree.is_fork(n))
}

// Returns the outermost rolled-back attempt around node `n`, or `n + 1` if there is none. `before` is the same for node `n - 1`.
fn undone_at(tree: &Tree, n: u32, before: u32) -> u32
    requires there { n < length tree.now }
    requires child { 0 < n }
    requires hangs { IsTrue (is_ancestor tree.now (parent_of tree.now n) (n - 1)) }
    requires before { UndoneAt tree.now (n - 1) before }
    ensures { UndoneAt tree.now n result }
{
    if before <= tree.parent(n) {
        before
    } else if tree.is_aborted(n) {
        n
    } else {
        n + 1
    }
}

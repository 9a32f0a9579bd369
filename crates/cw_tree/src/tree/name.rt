ghost use Rattle.std.specs.Prelude.{◌≡◌, ℕ, ◌+◌, ◌^◌, ◌<◌, if◌then◌else◌, length, map, slice_index, IfOk, IsTrue, string_bytes};
ghost use Rattle.cw_tree.specs.Nodes.{parent_of, all_nodes, is_strand, is_fork};
ghost use Rattle.cw_tree.specs.Names.{fork_number, is_right, name_of, name_text};
ghost use Rattle.cw_tree.specs.ForkCounts.{one_if, lets_out, forks_after};

use crate::{Tree, Turn};
use cw_base::OutOfMemory;
use std::fmt::Write;

impl Tree {
    /// Returns the name of a strand: `0` for the root, and `.kl` or `.kr` for each step down to the left or right strand of a k-th fork.
    pub fn name(&self, strand: u32) -> Result<String, OutOfMemory>
        requires there { strand < length self.now }
        requires strand { IsTrue (is_strand self.now strand) }
        ensures { IfOk result (λ text. string_bytes text ≡ name_text (name_of self.now strand)) }
    {
        let mut text = String::from_str(*self.nodes.allocator(), "0")?;
        let turns = self.turns(strand)?;
        for turn in &turns {
            let side = if turn.right { 'r' } else { 'l' };
            write!(text, ".{}{side}", turn.fork)?;
        }
        Ok(text)
    }

    /// Returns the steps from the root down to a strand.
    pub fn turns(&self, strand: u32) -> Result<Vec<Turn>, OutOfMemory>
        requires { strand < length self.now }
        ensures { IfOk result (λ turns. turns.items ≡ name_of self.now strand) }
    {
        let forks = self.fork_numbers()?;
        let sides = self.right_strands()?;
        let mut turns = Vec::new(*self.nodes.allocator());
        let mut at = strand;
        while at > 0 {
            let parent = self.parent(at);
            if self.is_strand(at) {
                turns.push(Turn {
                    fork: forks[parent as usize],
                    right: sides[at as usize],
                })?;
            }
            at = parent;
        }
        turns.reverse();
        Ok(turns)
    }

    /// For each node, returns the number that a fork in its place has in its strand.
    pub fn fork_numbers(&self) -> Result<Vec<u32>, OutOfMemory>
        ensures { IfOk result (λ numbers. numbers.items ≡ map (fork_number self.now) (all_nodes self.now)) }
    {
        let inside = self.forks_inside()?;
        let alloc = *self.nodes.allocator();
        let count = self.nodes().len();
        let mut numbers = vec![in alloc; 1u32; count]?;
        // the forks among a node's children so far
        let mut passed = vec![in alloc; 0u32; count]?;
        for n in 1..count as u32 {
            let parent = self.parent(n) as usize;
            numbers[n as usize] = self.number_at(n, numbers[parent], passed[parent]);
            passed[parent] += inside[n as usize];
        }
        Ok(numbers)
    }

    // The number at a node, from the number at its parent and the number of forks in its earlier siblings.
    fn number_at(&self, n: u32, at_parent: u32, in_siblings: u32) -> u32
        requires there { n < length self.now }
        requires child { 0 < n }
        requires fits { at_parent + in_siblings < 2 ^ 32 }
        ensures { result ≡ (if is_strand self.now n then 1 else if is_fork self.now (parent_of self.now n) then at_parent else at_parent + in_siblings) }
    {
        if self.is_strand(n) {
            1
        } else if self.is_fork(self.parent(n)) {
            at_parent
        } else {
            at_parent + in_siblings
        }
    }

    // For each node except the root, returns how many forks count at what follows it in its strand.
    fn forks_inside(&self) -> Result<Vec<u32>, OutOfMemory>
        ensures len { IfOk result (λ inside. length inside.items ≡ length self.now) }
        ensures forks { IfOk result (λ inside. (c : ℕ) → 0 < c → c < length self.now → slice_index inside.items c ≡ forks_after self.now c) }
    {
        let count = self.nodes().len();
        let mut inside = vec![in *self.nodes.allocator(); 0u32; count]?;
        let mut n = count as u32;
        // children have greater numbers than their parents
        while n > 1 {
            n -= 1;
            let own = self.forks_at(n, inside[n as usize]);
            inside[n as usize] = own;
            inside[self.parent(n) as usize] += own;
        }
        Ok(inside)
    }

    // How many forks count at what follows a node that has `in_children` forks in its children.
    fn forks_at(&self, n: u32, in_children: u32) -> u32
        requires there { n < length self.now }
        requires fits { in_children + 1 < 2 ^ 32 }
        ensures { result ≡ (if lets_out self.now n then in_children + one_if (is_fork self.now n) else 0) }
    {
        if self.is_strand(n) || self.is_aborted(n) {
            0
        } else if self.is_fork(n) {
            in_children + 1
        } else {
            in_children
        }
    }

    /// For each node, returns whether an earlier strand has the same parent.
    pub fn right_strands(&self) -> Result<Vec<bool>, OutOfMemory>
        ensures { IfOk result (λ sides. sides.items ≡ map (is_right self.now) (all_nodes self.now)) }
    {
        let alloc = *self.nodes.allocator();
        let count = self.nodes().len();
        let mut sides = vec![in alloc; false; count]?;
        // whether a strand was met among a node's children
        let mut forked = vec![in alloc; false; count]?;
        for n in 1..count as u32 {
            let parent = self.parent(n) as usize;
            sides[n as usize] = forked[parent];
            forked[parent] |= self.is_strand(n);
        }
        Ok(sides)
    }
}

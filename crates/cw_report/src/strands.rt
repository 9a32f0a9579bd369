ghost use Rattle.std.specs.Prelude.{◌≡◌, ◌++◌, ◌<◌, IfOk, IsTrue, OnOk, length, string_bytes};
ghost use Rattle.std.specs.List.{flat_map};
ghost use Rattle.cw_tree.specs.Nodes.{is_strand};
ghost use Rattle.cw_tree.specs.Names.{name_of, turn_text};
ghost use Rattle.cw_report.specs.Found.{AreStrands};
ghost use Rattle.cw_report.specs.Report.{maker_text, node_there};

use cw_base::OutOfMemory;
use cw_tree::{Tree, Turn};
use std::fmt::Write;

/// What names the strands of a tree. For each node: the number that a fork in its place has, whether the node is a right strand, and
/// its strand.
#[derive(Drop)]
pub(crate) struct Strands {
    forks: Vec<u32>,
    sides: Vec<bool>,
    owners: Vec<u32>,
}

impl Strands {
    pub(crate) fn of_tree(tree: &Tree) -> Result<Strands, OutOfMemory>
        ensures { IfOk result (λ s. AreStrands tree.now s.forks.items s.sides.items s.owners.items) }
    {
        Ok(Strands {
            forks: tree.fork_numbers()?,
            sides: tree.right_strands()?,
            owners: tree.strands()?,
        })
    }

    /// Writes the strand in which `node` stands.
    pub(crate) fn push_strand(
        &self,
        text: &mut String,
        tree: &Tree,
        node: u32,
    ) -> Result<(), OutOfMemory>
        requires { AreStrands tree.now self.now.forks.items self.now.sides.items self.now.owners.items }
        ensures { OnOk result (string_bytes text.new ≡ string_bytes text.old ++ maker_text tree.now (node_there tree.now node)) }
    {
        // A hint to the prover: the root is a strand.
        let _ = tree.nodes();
        if node as usize >= self.owners.len() {
            text.push_str("?")?;
            return Ok(());
        }
        let turns = self.turns(tree, self.owners[node as usize])?;
        text.push_str("0")?;
        push_turns(text, turns.as_slice())?;
        Ok(())
    }

    // Returns the steps from the root down to `strand`.
    fn turns(&self, tree: &Tree, strand: u32) -> Result<Vec<Turn>, OutOfMemory>
        requires names { AreStrands tree.now self.now.forks.items self.now.sides.items self.now.owners.items }
        requires there { strand < length tree.now }
        requires strand { IsTrue (is_strand tree.now strand) }
        ensures { IfOk result (λ turns. turns.items ≡ name_of tree.now strand) }
    {
        let mut turns = Vec::new(*self.forks.allocator());
        let mut at = strand;
        while at > 0 {
            let fork = tree.parent(at);
            turns.push(Turn {
                fork: self.forks[fork as usize],
                right: self.sides[at as usize],
            })?;
            at = self.owners[fork as usize];
        }
        turns.reverse();
        Ok(turns)
    }
}

fn push_turn(text: &mut String, turn: &Turn) -> Result<(), OutOfMemory>
    ensures { OnOk result (string_bytes text.new ≡ string_bytes text.old ++ turn_text turn.now) }
{
    let side = if turn.right { 'r' } else { 'l' };
    write!(text, ".{}{side}", turn.fork)?;
    Ok(())
}

fn push_turns(text: &mut String, turns: &[Turn]) -> Result<(), OutOfMemory>
    ensures { OnOk result (string_bytes text.new ≡ string_bytes text.old ++ flat_map turn_text turns.now) }
{
    for turn in turns {
        push_turn(text, turn)?;
    }
    Ok(())
}

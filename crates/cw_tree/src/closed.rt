ghost use Rattle.std.specs.Prelude.{◌≡◌, map, IfOk, IfErr};
ghost use Rattle.cw_tree.specs.InOrder.{conflict_in_order, conflicts_in_order, halt_in_order, in_order, renamed};
ghost use Rattle.cw_tree.specs.Nodes.{all_nodes};

use crate::{Conflict, Entry, Tree};
use cw_base::{OutOfMemory, Seq};
use cw_code::FaultKind;

/// Why a run stopped before its end. A strand is named by its node.
#[derive(Clone, Copy, PartialEq, Eq, Debug)]
pub enum Halt {
    Fault { strand: u32, kind: FaultKind },
    Budget { strand: u32 },
    Memory,
}

/// What a run leaves: its tree, the live accesses of each cell, its refused accesses, and why it stopped early, if it did.
#[derive(Drop)]
pub struct Closed {
    pub tree: Tree,
    pub journals: Seq<Seq<Entry>>,
    pub conflicts: Seq<Conflict>,
    pub halt: Option<Halt>,
}

/// The parts that name nodes: the tree, the conflicts, and why a run stopped.
#[derive(Drop)]
struct Naming {
    tree: Tree,
    conflicts: Seq<Conflict>,
    halt: Option<Halt>,
}

impl Closed {
    /// Numbers the nodes of the tree depth first, and orders the conflicts as the tree lists their askers. An `Err`
    /// returns all of it unchanged.
    pub fn in_order(self) -> Result<Closed, (Closed, OutOfMemory)>
        ensures tree { IfOk result (λ c. c.tree ≡ in_order self.tree) }
        ensures journals { IfOk result (λ c. c.journals ≡ self.journals) }
        ensures conflicts { IfOk result (λ c. c.conflicts ≡ conflicts_in_order self.tree self.conflicts) }
        ensures halt { IfOk result (λ c. c.halt ≡ halt_in_order self.tree self.halt) }
        ensures err { IfErr result (λ e. e.0 ≡ self) }
    {
        match self.naming() {
            Ok(naming) => Ok(Closed {
                tree: naming.tree,
                journals: self.journals,
                conflicts: naming.conflicts,
                halt: naming.halt,
            }),
            Err(error) => Err((self, error)),
        }
    }

    fn naming(&self) -> Result<Naming, OutOfMemory>
        ensures tree { IfOk result (λ c. c.tree ≡ in_order self.now.tree) }
        ensures conflicts { IfOk result (λ c. c.conflicts ≡ conflicts_in_order self.now.tree self.now.conflicts) }
        ensures halt { IfOk result (λ c. c.halt ≡ halt_in_order self.now.tree self.now.halt) }
    {
        let (tree, numbers) = self.tree.in_order()?;
        let conflicts = conflicts_in_order(&self.tree, &numbers, self.conflicts.as_slice())?;
        let halt = halt_in_order(&self.tree, numbers.as_slice(), self.halt);
        Ok(Naming {
            tree,
            conflicts,
            halt,
        })
    }
}

fn conflicts_in_order(
    tree: &Tree,
    numbers: &Vec<u32>,
    conflicts: &[Conflict],
) -> Result<Seq<Conflict>, OutOfMemory>
    requires { numbers.now.items ≡ map (renamed tree.now) (all_nodes tree.now) }
    ensures { IfOk result (λ cs. cs ≡ conflicts_in_order tree.now conflicts.now) }
{
    let mut sorted = Vec::with_capacity(*numbers.allocator(), conflicts.len())?;
    for conflict in conflicts {
        sorted.push(conflict_in_order(tree, numbers, conflict)?)?;
    }
    sorted.sort_by_key(|conflict| conflict.asker)?;
    Ok(Seq::from_vec(sorted))
}

fn conflict_in_order(
    tree: &Tree,
    numbers: &Vec<u32>,
    conflict: &Conflict,
) -> Result<Conflict, OutOfMemory>
    requires { numbers.now.items ≡ map (renamed tree.now) (all_nodes tree.now) }
    ensures { IfOk result (λ c. c ≡ conflict_in_order tree.now conflict.now) }
{
    let asker = tree.renamed(numbers.as_slice(), conflict.asker);
    let copy = conflict.try_clone(*numbers.allocator())?;
    Ok(Conflict { asker, ..copy })
}

fn halt_in_order(tree: &Tree, numbers: &[u32], halt: Option<Halt>) -> Option<Halt>
    requires { numbers.now ≡ map (renamed tree.now) (all_nodes tree.now) }
    ensures { result ≡ halt_in_order tree.now halt }
{
    match halt {
        Some(Halt::Fault { strand, kind }) => Some(Halt::Fault {
            strand: tree.renamed(numbers, strand),
            kind,
        }),
        Some(Halt::Budget { strand }) => Some(Halt::Budget {
            strand: tree.renamed(numbers, strand),
        }),
        other => other,
    }
}

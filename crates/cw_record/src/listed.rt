ghost use Rattle.std.specs.Prelude.{◌≡◌, ◌<◌, ◌^◌, length, map, slice_index_or, if◌then◌else◌, unwrap_or, Some, None, IfOk, OnOk, IsTrue};
ghost use Rattle.std.specs.Option.{option_or};
ghost use Rattle.std.specs.Ordering.{is_eq};
ghost use Rattle.std.specs.BTreeMap.{get};
ghost use Rattle.cw_tree.specs.Nodes.{all_nodes, is_strand};
ghost use Rattle.cw_tree.specs.Series.{strand_of};
ghost use Rattle.cw_tree.specs.Names.{fork_number, is_right, turn, name_of};
ghost use Rattle.cw_record.specs.Listed.{names, listed_name, listed_names, strand_number};
ghost use Rattle.cw_record.specs.Walked.{NameStep, step_cmp, first_named, AreFirsts};

use crate::passing::listed_plain;
use crate::strands::strands;
use cw_base::OutOfMemory;
use cw_tree::{Name, Tree, Turn};
use std::alloc::Global;
use std::collections::BTreeMap;

/// The names of a run's strands, each once, and for each node the number of its strand among them.
#[derive(Drop)]
pub(crate) struct Listed {
    pub(crate) names: Vec<Name>,
    pub(crate) numbers: Vec<u32>,
}

impl Listed {
    pub(crate) fn of_tree(alloc: Global, tree: &Tree) -> Result<Listed, OutOfMemory>
        ensures names { IfOk result (λ l. l.names.items ≡ listed_names tree.now) }
        ensures numbers { IfOk result (λ l. l.numbers.items ≡ map (λ n. strand_number tree.now (strand_of tree.now n)) (all_nodes tree.now)) }
    {
        match listed_plain(alloc, tree)? {
            Some(listed) => Ok(listed),
            None => Listed::of_any_tree(alloc, tree),
        }
    }

    // Returns the names and numbers, also if strands have the same name.
    fn of_any_tree(alloc: Global, tree: &Tree) -> Result<Listed, OutOfMemory>
        ensures names { IfOk result (λ l. l.names.items ≡ listed_names tree.now) }
        ensures numbers { IfOk result (λ l. l.numbers.items ≡ map (λ n. strand_number tree.now (strand_of tree.now n)) (all_nodes tree.now)) }
    {
        let turns = Turns::of_tree(tree)?;
        let same = turns.same_names(alloc, tree)?;
        let firsts = Firsts::of_tree(alloc, tree, &same)?;
        let mut numbers = Vec::with_capacity(alloc, tree.nodes().len())?;
        for first in &same {
            numbers.push(firsts.number(*first))?;
        }
        let mut names = Vec::with_capacity(alloc, firsts.strands.len())?;
        for strand in &firsts.strands {
            names.push(turns.listed_name(tree, &numbers, *strand))?;
        }
        Ok(Listed { names, numbers })
    }
}

// A name, given by the first node with the name that it extends, and by its last turn.
type NameStep = (u32, u32, bool);

/// The numbers of forks and the sides of strands, by their nodes.
#[derive(Drop)]
struct Turns {
    forks: Vec<u32>,
    sides: Vec<bool>,
}

impl Turns {
    fn of_tree(tree: &Tree) -> Result<Turns, OutOfMemory>
        ensures forks { IfOk result (λ turns. turns.forks.items ≡ map (fork_number tree.now) (all_nodes tree.now)) }
        ensures sides { IfOk result (λ turns. turns.sides.items ≡ map (is_right tree.now) (all_nodes tree.now)) }
    {
        Ok(Turns {
            forks: tree.fork_numbers()?,
            sides: tree.right_strands()?,
        })
    }

    // Returns the step down to `strand`.
    fn at(&self, tree: &Tree, strand: u32) -> Turn
        requires there { strand < length tree.now }
        requires child { 0 < strand }
        requires forks { self.now.forks.items ≡ map (fork_number tree.now) (all_nodes tree.now) }
        requires sides { self.now.sides.items ≡ map (is_right tree.now) (all_nodes tree.now) }
        ensures { result ≡ turn tree.now strand }
    {
        Turn {
            fork: self.forks[tree.parent(strand) as usize],
            right: self.sides[strand as usize],
        }
    }

    // Returns the listed name of `strand`, which has the number of the strand that forked it.
    fn listed_name(&self, tree: &Tree, numbers: &[u32], strand: u32) -> Name
        requires there { strand < length tree.now }
        requires forks { self.now.forks.items ≡ map (fork_number tree.now) (all_nodes tree.now) }
        requires sides { self.now.sides.items ≡ map (is_right tree.now) (all_nodes tree.now) }
        requires strand { IsTrue (is_strand tree.now strand) }
        requires numbers { numbers.now ≡ map (λ n. strand_number tree.now (strand_of tree.now n)) (all_nodes tree.now) }
        ensures { result ≡ listed_name (names tree.now) (name_of tree.now strand) }
    {
        if strand == 0 {
            return Name {
                parent: numbers[0],
                fork: 0,
                right: false,
            };
        }
        let turn = self.at(tree, strand);
        Name {
            parent: numbers[tree.parent(strand) as usize],
            fork: turn.fork,
            right: turn.right,
        }
    }

    // Returns for each node the first node with the same name.
    fn same_names(&self, alloc: Global, tree: &Tree) -> Result<Vec<u32>, OutOfMemory>
        requires forks { self.now.forks.items ≡ map (fork_number tree.now) (all_nodes tree.now) }
        requires sides { self.now.sides.items ≡ map (is_right tree.now) (all_nodes tree.now) }
        ensures { IfOk result (λ same. same.items ≡ map (first_named tree.now) (all_nodes tree.now)) }
    {
        let count = tree.nodes().len();
        let mut same = vec![in alloc; 0u32; count]?;
        let mut strands = BTreeMap::new(alloc);
        for n in 1..count as u32 {
            let mut first = same[tree.parent(n) as usize];
            if tree.is_strand(n) {
                let turn = self.at(tree, n);
                first = first_at(&mut strands, (first, turn.fork, turn.right), n)?;
            }
            same[n as usize] = first;
        }
        Ok(same)
    }
}

// Returns the first strand that was put at `step`, which is `strand` if there was none before.
fn first_at(
    strands: &mut BTreeMap<NameStep, u32>,
    step: NameStep,
    strand: u32,
) -> Result<u32, OutOfMemory>
    ensures found { IfOk result (λ first. Some first ≡ option_or (get step_cmp strands.old step) (Some strand)) }
    ensures kept { OnOk result ((s : NameStep) → get step_cmp strands.new s ≡ option_or (get step_cmp strands.old s) (if is_eq (step_cmp step s) then Some strand else None)) }
{
    if let Some(first) = strands.get(&step) {
        return Ok(*first);
    }
    strands.insert(step, strand)?;
    Ok(strand)
}

/// The strands whose names no earlier strand has. Also, for each node that is the first with its name, the position of that name
/// among them.
#[derive(Drop)]
struct Firsts {
    strands: Vec<u32>,
    places: Vec<Option<u32>>,
    ghost few: { length strands.items < 2 ^ 32 },
}

impl Firsts {
    fn of_tree(alloc: Global, tree: &Tree, same: &[u32]) -> Result<Firsts, OutOfMemory>
        requires { same.now ≡ map (first_named tree.now) (all_nodes tree.now) }
        ensures { IfOk result (λ firsts. AreFirsts tree.now firsts.strands.items firsts.places.items) }
    {
        let order = strands(alloc, tree)?;
        let mut found = Vec::new(alloc);
        let mut places = vec![in alloc; None; tree.nodes().len()]?;
        for strand in &order {
            let first = same[*strand as usize] as usize;
            if places[first].is_none() {
                places[first] = Some(found.len() as u32);
                found.push(*strand)?;
            }
        }
        Ok(Firsts {
            strands: found,
            places,
        })
    }

    // Returns the number of a name, by the first node that has it.
    fn number(&self, first: u32) -> u32
        requires { first < length self.now.places.items }
        ensures { result ≡ unwrap_or (slice_index_or self.now.places.items first None) (length self.now.strands.items) }
    {
        self.places[first as usize].unwrap_or(self.strands.len() as u32)
    }
}

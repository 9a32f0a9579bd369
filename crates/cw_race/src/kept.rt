ghost use Rattle.std.specs.Prelude.{◌≡◌, ◌+◌, ◌≤◌, None, IfSome, IsTrue};
ghost use Rattle.cw_sp.specs.Orders.{is_leaf};
ghost use Rattle.cw_race.specs.InMemory.{AreLeaves, is_beside, kept_after, rival_of};

use cw_order::Steps;
use cw_sp::Pairs;
use std::sync::ledger::Ledger;

/// What is kept of the accesses of one cell that have the same innermost block, or none: the last writer, and one reader.
#[derive(Clone, Copy)]
pub(crate) struct Kept {
    pub(crate) writer: Option<u32>,
    pub(crate) reader: Option<u32>,
}

impl Kept {
    /// Takes the next access, `node`. If it races with a kept one, returns that, and keeps what was kept. Otherwise a
    /// write is kept, and a read replaces the reader if it comes after it in series.
    pub(crate) fn take<L: Ledger>(
        &mut self,
        pairs: &Pairs<'_>,
        node: u32,
        writes: bool,
        steps: &mut Steps<L>,
    ) -> Option<u32>
        requires leaf { IsTrue (is_leaf pairs.now node) }
        requires kept { AreLeaves pairs.now self.old }
        ensures rival { result ≡ rival_of pairs.now self.old node writes }
        ensures kept { result ≡ None → self.new ≡ kept_after pairs.now self.old node writes }
        ensures cost { steps.new ≤ steps.old + 4 }
    {
        if is_beside(pairs, self.writer, node, steps) {
            return self.writer;
        }
        let beside_reader = is_beside(pairs, self.reader, node, steps);
        if writes {
            if beside_reader {
                return self.reader;
            }
            self.writer = Some(node);
        } else if !beside_reader {
            self.reader = Some(node);
        }
        None
    }
}

/// Returns whether `node` is parallel to a kept access, if there is one.
fn is_beside<L: Ledger>(
    pairs: &Pairs<'_>,
    kept: Option<u32>,
    node: u32,
    steps: &mut Steps<L>,
) -> bool
    requires leaf { IsTrue (is_leaf pairs.now node) }
    requires kept { IfSome kept (λ u. IsTrue (is_leaf pairs.now u)) }
    ensures answer { result ≡ is_beside pairs.now kept node }
    ensures cost { steps.new ≤ steps.old + 2 }
{
    match kept {
        Some(access) => pairs.parallel(access, node, steps),
        None => false,
    }
}

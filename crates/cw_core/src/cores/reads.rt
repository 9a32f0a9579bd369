ghost use Rattle.std.specs.Prelude.{◌≡◌, ◌<◌, length, IsTrue};
ghost use Rattle.cw_tree.specs.Nodes.{is_strand, is_fork};
ghost use Rattle.cw_tree.specs.Series.{place, strand_of};
ghost use Rattle.cw_open.specs.Machine.{has_finished, is_running, is_dying, in_block};
ghost use Rattle.cw_core.specs.State.{is_split, spent};

use crate::cores::Core;

// Each call looks at one row, or at one field beside the rows, however large the tree is.
impl Core {
    /// Returns the strand that `node` belongs to.
    pub fn strand_of(&self, node: u32) -> u32
        requires { node < length self.now.machine.tree }
        ensures { result ≡ strand_of self.now.machine.tree node }
    {
        self.row(node).made.strand
    }

    /// Returns the node beneath which the next node of `strand` goes: the innermost pending block begun in it, or otherwise the
    /// strand itself.
    pub fn place(&self, strand: u32) -> u32
        requires { IsTrue (is_strand self.now.machine.tree strand) }
        ensures { result ≡ place self.now.machine.tree strand }
    {
        self.row(strand).now.place
    }

    /// Returns whether the innermost pending block around `strand` was begun in it.
    pub fn in_block(&self, strand: u32) -> bool
        requires { IsTrue (is_strand self.now.machine.tree strand) }
        ensures { result ≡ in_block self.now.machine strand }
    {
        self.row(strand).now.place != strand
    }

    /// Returns whether a running strand has to go back: an access refused beneath it has a victim that is still pending.
    pub fn is_dying(&self, strand: u32) -> bool
        requires { IsTrue (is_running self.now.machine strand) }
        ensures { result ≡ is_dying self.now.machine strand }
    {
        self.hint();
        self.row(strand).now.victim.is_some()
    }

    /// Returns whether a strand has finished.
    pub fn has_finished(&self, node: u32) -> bool
        requires { node < length self.now.machine.tree }
        ensures { result ≡ has_finished self.now.machine node }
    {
        self.row(node).now.finished
    }

    /// Returns whether `fork` is split.
    pub fn is_split(&self, fork: u32) -> bool
        requires { IsTrue (is_fork self.now.machine.tree fork) }
        ensures { result ≡ is_split self.now fork }
    {
        self.row(fork).now.split
    }

    /// Returns the strand that has spent its budget, if one has: the strand of the block or access whose last attempt was refused.
    pub fn spent(&self) -> Option<u32>
        ensures { result ≡ spent self.now }
    {
        self.spent
    }
}

//! Closes a table with the root's token: returns the tree of the token's logs, their conflicts and halt, and the cells' entries. No
//! test in here fails on a sound run. If one does fail, the call returns `OutOfMemory`, as if memory had run out. The tests are
//! needed because the rule cannot say yet that no two logs have the same column, that the fork from which a log hangs exists, that
//! nodes have parents before them, and that each cell lies in its slot.
ghost use Rattle.std.specs.Prelude.{◌≡◌, IfOk, IfErr};
ghost use Rattle.cw_log.specs.Tokens.{logs};
ghost use Rattle.cw_course.specs.Closings.{conflicts_of, halt_in, tree_of, AreApart, IsPutTogether};
ghost use Rattle.cw_tree.specs.InOrder.{conflicts_in_order, halt_in_order, in_order};
ghost use Rattle.cw_tree.specs.Walks.{IsNumbered};
ghost use Rattle.cw_steps.specs.Leaving.{logs_of_track, AreFoundJournals, HasReturned};
ghost use Rattle.cw_steps.specs.Stands.{token_of};
ghost use Rattle.cw_steps.specs.Views.{key_of, view_of, IsQuiet, IsTokenOf};

mod bases;
mod conflicts;
mod halts;
mod journals;
mod trees;

use crate::{Shared, StrandToken, Track};
use bases::bases_of;
use conflicts::conflicts_of;
use cw_base::{OutOfMemory, Seq};
use cw_log::Stop;
use cw_tree::{Closed, Conflict, Entry, Halt, Tree};
use halts::halt_in;
use std::alloc::Global;
use trees::tree_of;

/// What the logs of a token become when they are put together.
#[derive(Drop)]
struct Together {
    tree: Tree,
    conflicts: Seq<Conflict>,
    halt: Option<Halt>,
}

fn put_together(alloc: Global, track: &Track, stop: Option<Stop>) -> Result<Together, OutOfMemory>
    ensures apart { IfOk result (λ r. AreApart (logs_of_track track.now)) }
    ensures tree { IfOk result (λ r. r.tree ≡ tree_of (logs_of_track track.now)) }
    ensures conflicts { IfOk result (λ r. r.conflicts ≡ conflicts_of (logs_of_track track.now) (logs_of_track track.now)) }
    ensures halt { IfOk result (λ r. r.halt ≡ halt_in (logs_of_track track.now) stop) }
{
    let bases = bases_of(alloc, track)?;
    let tree = tree_of(alloc, track, &bases)?;
    let conflicts = conflicts_of(alloc, track, &bases);
    let halt = halt_in(track, &bases, &tree, stop);
    match (conflicts, halt) {
        (Ok(conflicts), Ok(halt)) => Ok(Together {
            tree,
            conflicts,
            halt,
        }),
        (conflicts, _) => {
            drop(conflicts);
            drop(tree);
            Err(OutOfMemory)
        }
    }
}

impl Shared {
    /// Closes the table: returns the tree of the logs in depth-first order, their conflicts and halt with the tree's numbers, and
    /// each cell's entries. If memory runs out or a test fails, it gives back table and token.
    pub fn close(self, token: StrandToken) -> Result<Closed, (Shared, StrandToken, OutOfMemory)>
        requires table { IsTokenOf self token }
        requires quiet { IsQuiet (view_of token) }
        ensures together { IfOk result (λ c. IsPutTogether (logs (token_of token)) (token_of token).stop c) }
        ensures journals { IfOk result (λ c. AreFoundJournals (key_of self) token.seat.me c.journals) }
        ensures table { IfErr result (λ e. (e.0 ≡ self) × IsTokenOf e.0 e.1) }
        ensures looked { IfErr result (λ e. HasReturned token.seat.me e.1.seat.me) }
        ensures kept { IfErr result (λ e. (e.1.track.room ≡ token.track.room) × (token_of e.1 ≡ token_of token)) }
    {
        let mut token = token;
        match self.collect(&mut token) {
            Ok(closed) => Ok(closed),
            Err(error) => Err((self, token, error)),
        }
    }

    fn collect(&self, token: &mut StrandToken) -> Result<Closed, OutOfMemory>
        requires table { IsTokenOf self.now token.old }
        requires quiet { IsQuiet (view_of token.old) }
        ensures together { IfOk result (λ c. IsPutTogether (logs (token_of token.old)) (token_of token.old).stop c) }
        ensures journals { IfOk result (λ c. AreFoundJournals (key_of self.now) token.old.seat.me c.journals) }
        ensures table { IsTokenOf self.now token.new }
        ensures looked { HasReturned token.old.seat.me token.new.seat.me }
        ensures room { token.new.track.room ≡ token.old.track.room }
        ensures token { token_of token.new ≡ token_of token.old }
    {
        let alloc = *token.track.nodes.allocator();
        let together = put_together(alloc, &token.track, token.stop)?;
        let journals = self.journals(alloc, token)?;
        in_order(together, journals)
    }
}

/// Brings what was put together into depth-first order.
fn in_order(together: Together, journals: Seq<Seq<Entry>>) -> Result<Closed, OutOfMemory>
    ensures tree { IfOk result (λ c. c.tree ≡ in_order together.tree) }
    ensures numbered { IfOk result (λ c. IsNumbered together.tree) }
    ensures conflicts { IfOk result (λ c. c.conflicts ≡ conflicts_in_order together.tree together.conflicts) }
    ensures halt { IfOk result (λ c. c.halt ≡ halt_in_order together.tree together.halt) }
    ensures journals { IfOk result (λ c. c.journals ≡ journals) }
{
    let Together {
        tree,
        conflicts,
        halt,
    } = together;
    // A hint to the prover, without effect: each parent has a smaller number.
    let _ = tree.nodes();
    let closed = Closed {
        tree,
        journals,
        conflicts,
        halt,
    };
    match closed.in_order() {
        Ok(closed) => Ok(closed),
        Err((_, error)) => Err(error),
    }
}

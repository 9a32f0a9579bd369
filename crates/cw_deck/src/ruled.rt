//! A pop and a steal under any rule: `None` implies what the rule lets an end conclude from a look.
ghost use Rattle.std.specs.Prelude.{◌≡◌, ◌≤◌, [], ◌∷◌, MatchOption, min};
ghost use Rattle.crossbeam_deque.specs.Handles.{IsPassOf, SamePass, SameWorker, stealer_deque, stealer_flavor, view, worker_flavor, worker_index, worker_port, worker_view};
ghost use Rattle.crossbeam_deque.specs.Tasks.{Finds, FindsFew, Pops, Takes};

use crossbeam_deque::protocol::{Outcome, Protocol};
use crossbeam_deque::{Pass, Steal, Stealer, Worker};
use std::alloc::Global;
use std::sync::Wait;

/// Removes and returns the task at the back of a LIFO deque. If it returns `None`, `M.empty` holds: what is known if the deque was
/// empty at one moment of the call.
pub fn pop_by<T, V, P: Protocol<T, V>, M: Outcome<T, V>>(
    worker: &mut Worker<T, Global, V, P>,
) -> Option<T>
    requires lifo { worker_flavor worker.old ≡ 1 }
    requires pops { Pops P.holds (worker_port worker.old) (worker_view worker.old) (M.then (worker_view worker.old)) }
    requires empty { Finds P.holds (worker_port worker.old) (worker_view worker.old) (M.empty (worker_view worker.old)) }
    ensures same { SameWorker worker.old worker.new × (worker_index worker.new ≤ worker_index worker.old) }
    ensures rule { MatchOption result
        ((worker_view worker.new ≡ worker_view worker.old) × M.empty (worker_view worker.old))
        (λ x. M.then (worker_view worker.old) (x ∷ []) (worker_view worker.new)) }
{
    worker.pop_as::<M>()
}

/// Removes and returns the task at the front, and retries if another thread was faster. If it returns `None`, `M.empty` holds: what
/// is known if the deque held few tasks at one moment of the call, none for FIFO and at most one for LIFO.
pub fn steal_by<T, V, P: Protocol<T, V>, M: Outcome<T, V>, R: Wait>(
    rt: &R,
    from: &Stealer<T, Global, V, P>,
    pass: &mut Pass<T, V>,
) -> Option<T>
    requires table { IsPassOf (stealer_deque from.now) pass.old }
    requires takes { Takes P.holds pass.old.id (view pass.old) 1 (M.then (view pass.old)) }
    requires few { FindsFew P.holds (min (stealer_flavor from.now) 1) pass.old.id (view pass.old) (M.empty (view pass.old)) }
    ensures same { SamePass pass.old pass.new }
    ensures rule { MatchOption result
        ((view pass.new ≡ view pass.old) × M.empty (view pass.old))
        (λ x. M.then (view pass.old) (x ∷ []) (view pass.new)) }
{
    for _ in rt.forever() {
        match from.steal_as::<M>(pass) {
            Steal::Success(task) => return Some(task),
            Steal::Empty => return None,
            Steal::Retry => {}
        }
    }
    unreachable!()
}

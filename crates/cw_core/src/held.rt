ghost use Rattle.std.specs.Prelude.{◌≡◌, ◌<◌, IfSome, OnOk, length, map, vec_len, slice_get, unwrap_or};
ghost use Rattle.cw_core.specs.Kept as kept;
ghost use Rattle.cw_stack.specs.Cells as stack;
ghost use Rattle.cw_tree.specs.AccessStacks as stacks;

use cw_base::{OutOfMemory, Seq};
use cw_stack::Cell;
use cw_tree::{Conflict, Kind, Mark};

/// What bars an access: the newest access of its cell, and the stamp of a pending block above that access.
#[derive(Clone, Copy, Drop)]
pub(crate) struct Barrier {
    pub(crate) last: Mark,
    pub(crate) block: u64,
}

/// What is refused with an access: the block that has to be rolled back, by its begin stamp, or the access itself if `victim` is 0.
/// Also the number of its attempt, and its strand.
#[derive(Clone, Copy, Drop)]
pub(crate) struct Refused {
    pub(crate) victim: u64,
    pub(crate) attempt: u32,
    pub(crate) strand: u32,
}

/// Returns the conflict of a refused access.
pub(crate) fn conflict_with(
    barrier: Barrier,
    cell: u32,
    asker: u32,
    refused: Refused,
    chain: Vec<u64>,
) -> Conflict
    ensures { result ≡ kept.conflict_with barrier cell asker refused chain.items }
{
    Conflict {
        cell,
        last: barrier.last.stamp,
        asker,
        block: barrier.block,
        victim: refused.victim,
        attempt: refused.attempt,
        chain: Seq::from_vec(chain),
    }
}

/// Returns the kind of the node for an access that finds `value`.
pub(crate) fn access_kind(cell: u32, write: Option<i64>, value: i64) -> Kind
    ensures { result ≡ stacks.access_kind cell write value }
{
    match write {
        None => Kind::Read { cell, value },
        Some(value) => Kind::Write { cell, value },
    }
}

/// Makes room for one more entry of `cell`.
pub(crate) fn reserve_entry(cells: &mut Vec<Cell>, cell: u32) -> Result<(), OutOfMemory>
    requires { cell < vec_len cells.old }
    ensures room { OnOk result (IfSome (slice_get cells.new.items cell) (λ c. 0 < c.room)) }
    ensures kept { map kept.without_room cells.new.items ≡ map kept.without_room cells.old.items }
{
    cells[cell as usize].reserve()
}

/// Makes an access of `cell`, and returns the cell's value after it.
pub(crate) fn put_entry(
    cells: &mut Vec<Cell>,
    cell: u32,
    column: u32,
    stamp: u64,
    write: Option<i64>,
) -> i64
    requires there { cell < vec_len cells.old }
    requires room { IfSome (slice_get cells.old.items cell) (λ c. 0 < c.room) }
    requires later { IfSome (slice_get cells.old.items cell) (λ c. IfSome (stack.newest_entry c.entries) (λ e. e.mark.stamp < stamp)) }
    ensures answer { IfSome (slice_get cells.old.items cell) (λ c. result ≡ unwrap_or write (stack.entries_value c)) }
    ensures entries { cells.new.items ≡ kept.cell_changed (kept.with_entry column stamp write) cell cells.old.items }
{
    let mark = Mark {
        strand: column,
        stamp,
    };
    cells[cell as usize].access(mark, write)
}

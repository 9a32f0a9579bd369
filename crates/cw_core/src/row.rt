ghost use Rattle.std.specs.Prelude.{◌≡◌, ◌∷◌, ◌++◌, [], ◌<◌, ◌≤◌, ◌+◌, ◌^◌, Some, None, vec_len, vec_capacity};
ghost use Rattle.cw_core.specs.Kept as rows;

/// What is fixed when a node is made.
#[derive(Clone, Copy, Drop)]
pub(crate) struct Made {
    /// The strand that the node belongs to.
    pub(crate) strand: u32,
    /// For a strand: its column. For a fork: the column of its left strand.
    pub(crate) column: u32,
    /// For a right strand: the left one.
    pub(crate) elder: Option<u32>,
    /// For a fork: its strands, and whether they have columns.
    pub(crate) left: u32,
    pub(crate) right: u32,
    pub(crate) has_columns: bool,
    /// For a block: the number of its attempt.
    pub(crate) attempt: u32,
}

/// How the children of a node end: with `aborted` blocks that were rolled back, or with `tried` refused accesses of `cell`.
#[derive(Clone, Copy, Drop)]
pub(crate) struct Tail {
    pub(crate) started: bool,
    pub(crate) aborted: u32,
    pub(crate) tried: u32,
    pub(crate) cell: u32,
}

/// The children end with a node that is neither rolled back nor refused.
pub(crate) const PLAIN: Tail = Tail {
    started: true,
    aborted: 0,
    tried: 0,
    cell: 0,
};

/// What has become of a node.
#[derive(Clone, Copy, Drop)]
pub(crate) struct Now {
    /// For a strand: the place of its next node.
    pub(crate) place: u32,
    /// Whether a fork that the strand made is not joined.
    pub(crate) waits: bool,
    pub(crate) finished: bool,
    pub(crate) dead: bool,
    /// For a strand: the outermost pending block that has to be rolled back for an access refused beneath it.
    pub(crate) victim: Option<u32>,
    /// For a fork: whether it was split, and whether it was joined.
    pub(crate) split: bool,
    pub(crate) joined: bool,
}

/// What the core keeps for a node.
#[derive(Clone, Copy, Drop)]
pub(crate) struct Row {
    pub(crate) made: Made,
    pub(crate) tail: Tail,
    pub(crate) now: Now,
}

/// Returns the row of a new node of `strand` that is neither a strand nor a fork. For a block, `attempt` is the number of its
/// attempt.
pub(crate) fn leaf_row(strand: u32, attempt: u32) -> Row
    ensures { result ≡ rows.leaf_row strand attempt }
{
    Row {
        made: Made {
            strand,
            column: 0,
            elder: None,
            left: 0,
            right: 0,
            has_columns: false,
            attempt,
        },
        tail: Tail {
            started: false,
            aborted: 0,
            tried: 0,
            cell: 0,
        },
        now: Now {
            place: 0,
            waits: false,
            finished: false,
            dead: false,
            victim: None,
            split: false,
            joined: false,
        },
    }
}

/// Adds a node as the last child of `place`. Its strand goes on at `next`.
pub(crate) fn put_leaf(
    table: &mut Vec<Row>,
    strand: u32,
    attempt: u32,
    place: u32,
    tail: Tail,
    next: u32,
)
    requires strand { strand < vec_len table.old }
    requires place { place < vec_len table.old }
    requires room { vec_len table.old < vec_capacity table.old }
    ensures { table.new.items ≡ rows.with_row_changed (rows.with_place next) strand (rows.with_row_changed (rows.with_tail tail) place table.old.items ++ rows.leaf_row strand attempt ∷ []) }
{
    let parent = &mut table[place as usize];
    parent.tail = tail;
    table.push_reserved(leaf_row(strand, attempt));
    let own = &mut table[strand as usize];
    own.now.place = next;
}

/// Returns the tail after one more refused access of `cell`.
pub(crate) fn tried_tail(cell: u32, tail: Tail) -> Tail
    requires { tail.tried + 1 < 2 ^ 32 }
    ensures { result ≡ rows.tried_tail cell tail }
{
    let before = if tail.cell == cell { tail.tried } else { 0 };
    Tail {
        started: true,
        aborted: 0,
        tried: before + 1,
        cell,
    }
}

/// Adds a refused access as the last child of `place`. `victim` is the block that may have to be rolled back for it.
pub(crate) fn put_tried(
    table: &mut Vec<Row>,
    strand: u32,
    place: u32,
    tail: Tail,
    victim: Option<u32>,
)
    requires strand { strand < vec_len table.old }
    requires place { place < vec_len table.old }
    requires room { vec_len table.old < vec_capacity table.old }
    ensures { table.new.items ≡ rows.with_row_changed (rows.with_victim victim) strand (rows.with_row_changed (rows.with_tail tail) place table.old.items ++ rows.leaf_row strand 0 ∷ []) }
{
    let parent = &mut table[place as usize];
    parent.tail = tail;
    table.push_reserved(leaf_row(strand, 0));
    let own = &mut table[strand as usize];
    own.now.victim = victim;
}

/// Marks a strand as finished.
pub(crate) fn finish_row(table: &mut Vec<Row>, strand: u32, dead: bool)
    requires { strand < vec_len table.old }
    ensures { table.new.items ≡ rows.with_row_changed (rows.with_finished dead) strand table.old.items }
{
    let own = &mut table[strand as usize];
    own.now.finished = true;
    own.now.dead = dead;
}

/// Marks a fork as split.
pub(crate) fn split_row(table: &mut Vec<Row>, fork: u32)
    requires { fork < vec_len table.old }
    ensures { table.new.items ≡ rows.with_row_changed rows.with_split fork table.old.items }
{
    let row = &mut table[fork as usize];
    row.now.split = true;
}

/// Returns the smaller of two numbers, or the only one.
pub(crate) fn least(a: Option<u32>, b: Option<u32>) -> Option<u32>
    ensures { result ≡ rows.least a b }
{
    match (a, b) {
        (None, _) => b,
        (Some(_), None) => a,
        (Some(x), Some(y)) => Some(x.min(y)),
    }
}

/// Marks a fork as joined. The strand that forked goes on.
pub(crate) fn join_rows(table: &mut Vec<Row>, fork: u32, strand: u32, victim: Option<u32>)
    requires fork { fork < vec_len table.old }
    requires strand { strand < vec_len table.old }
    ensures { table.new.items ≡ rows.with_row_changed rows.with_joined fork (rows.with_row_changed (rows.with_back victim) strand table.old.items) }
{
    let own = &mut table[strand as usize];
    own.now.waits = false;
    own.now.victim = victim;
    let row = &mut table[fork as usize];
    row.now.joined = true;
}

/// Records that the block at the place of `strand` was closed. It is now the last child of `parent`, and the strand goes on there.
pub(crate) fn close_row(table: &mut Vec<Row>, strand: u32, parent: u32, tail: Tail)
    requires strand { strand < vec_len table.old }
    requires parent { parent < vec_len table.old }
    ensures { table.new.items ≡ rows.with_row_changed (rows.with_place parent) strand (rows.with_row_changed (rows.with_tail tail) parent table.old.items) }
{
    let row = &mut table[parent as usize];
    row.tail = tail;
    let own = &mut table[strand as usize];
    own.now.place = parent;
}

/// Returns the row of a new fork of `strand`.
fn fork_row(strand: u32, column: u32, left: u32, right: u32, has_columns: bool) -> Row
    ensures { result ≡ rows.fork_row strand column left right has_columns }
{
    let mut row = leaf_row(strand, 0);
    row.made.column = column;
    row.made.left = left;
    row.made.right = right;
    row.made.has_columns = has_columns;
    row.tail.started = true;
    row
}

/// Returns the row of a new strand.
fn strand_row(strand: u32, column: u32, elder: Option<u32>) -> Row
    ensures { result ≡ rows.strand_row strand column elder }
{
    let mut row = leaf_row(strand, 0);
    row.made.column = column;
    row.made.elder = elder;
    row.now.place = strand;
    row
}

/// Adds the rows of a fork and its strands.
fn push_fork(table: &mut Vec<Row>, strand: u32, fork: u32, columns: (u32, u32), has_columns: bool)
    requires room { vec_len table.old + 3 ≤ vec_capacity table.old }
    requires few { fork + 3 < 2 ^ 32 }
    ensures { table.new.items ≡ table.old.items ++ rows.fork_rows strand columns.0 columns.1 fork has_columns }
{
    let (left, right) = (fork + 1, fork + 2);
    table.push_reserved(fork_row(strand, columns.0, left, right, has_columns));
    table.push_reserved(strand_row(left, columns.0, None));
    table.push_reserved(strand_row(right, columns.1, Some(left)));
}

/// Adds a fork at `place`. Its strand waits.
pub(crate) fn put_fork(
    table: &mut Vec<Row>,
    strand: u32,
    place: u32,
    fork: u32,
    columns: (u32, u32),
    has_columns: bool,
)
    requires strand { strand < vec_len table.old }
    requires place { place < vec_len table.old }
    requires room { vec_len table.old + 3 ≤ vec_capacity table.old }
    requires few { fork + 3 < 2 ^ 32 }
    ensures { table.new.items ≡ rows.with_row_changed rows.with_wait strand (rows.with_row_changed (rows.with_tail rows.plain_tail) place table.old.items ++ rows.fork_rows strand columns.0 columns.1 fork has_columns) }
{
    let parent = &mut table[place as usize];
    parent.tail = PLAIN;
    push_fork(table, strand, fork, columns, has_columns);
    let own = &mut table[strand as usize];
    own.now.waits = true;
}

/// Returns `number`, unless it is `block`.
fn without(block: u32, number: Option<u32>) -> Option<u32>
    ensures { result ≡ rows.without_number block number }
{
    match number {
        Some(other) if other != block => Some(other),
        _ => None,
    }
}

/// Records that `block`, at the place of `strand`, was rolled back in attempt `attempt`. It is now the last child of `parent`, and
/// the strand goes on there. It no longer has to be rolled back.
pub(crate) fn roll_row(table: &mut Vec<Row>, strand: u32, block: u32, parent: u32, attempt: u32)
    requires strand { strand < vec_len table.old }
    requires parent { parent < vec_len table.old }
    ensures { table.new.items ≡ rows.with_row_changed (rows.with_rolled parent block) strand (rows.with_row_changed (rows.with_tail (rows.aborted_tail attempt)) parent table.old.items) }
{
    let row = &mut table[parent as usize];
    row.tail = Tail {
        started: true,
        aborted: attempt,
        tried: 0,
        cell: 0,
    };
    let own = &mut table[strand as usize];
    own.now.place = parent;
    own.now.victim = without(block, own.now.victim);
}

ghost use Rattle.std.specs.Prelude.{◌≡◌, ◌↔◌, ◌&&◌, ◌<◌, All, IfOk, IsTrue, Some, is_some, length, map, nat_lt, option_map, pos, slice_get, slice_index_or, unwrap_or};
ghost use Rattle.cw_code.specs.declared.Back.{Back};
ghost use Rattle.cw_tree.specs.Accesses.{cell_value, is_live, live_accesses, written};
ghost use Rattle.cw_tree.specs.Cancels.{AreCancels, before_block, put_back, wrote_in};
ghost use Rattle.cw_tree.specs.Journals.{FitsCells};
ghost use Rattle.cw_tree.specs.Nodes.{all_nodes, below, stamp_of};
ghost use Rattle.cw_tree.specs.Walks.{is_above};
ghost use Rattle.cw_audit.specs.Backs.{CancelHolds, list_told, value_back};
ghost use Rattle.cw_audit.specs.LiveAccesses.{all_live_accesses};
ghost use Rattle.cw_audit.specs.Naming.{HoldSoFar};
ghost use Rattle.cw_audit.specs.Spans.{AreSpans};

use crate::accesses::written;
use crate::entries::Survey;
use crate::spans::Spans;
use crate::surely::are_surely_cancels;
use cw_base::{OutOfMemory, Seq};
use cw_code::Back;
use cw_tree::{Kind, Tree};
use std::alloc::Global;

/// Decides part 7, once parts 1 to 3 hold, given the live accesses, oldest first, and the first values: whether each live cancel tells
/// what its block puts back. Where the quick way says so, that takes a few passes over the nodes. Otherwise it takes one pass over the
/// journals for each live cancel.
pub(crate) fn cancels_hold(
    alloc: Global,
    tree: &Tree,
    lives: &[bool],
    accesses: &[u32],
    first: &[i64],
) -> Result<bool, OutOfMemory>
    requires lives { lives.now ≡ map (is_live tree.now) (all_nodes tree.now) }
    requires accesses { accesses.now ≡ all_live_accesses tree.now }
    requires cells { FitsCells tree.now (length first.now) }
    requires before { HoldSoFar tree.now first.now }
    ensures { IfOk result (λ b. IsTrue b ↔ AreCancels tree.now first.now) }
{
    let survey = Survey::of_tree(alloc, tree, accesses, first.len())?;
    if are_surely_cancels(alloc, tree, lives, &survey, first)? {
        return Ok(true);
    }
    let journals = survey.journals.as_slice();
    Ok(all_hold(tree, &survey.spans, lives, journals, first))
}

/// The same, given the journals.
fn all_hold(
    tree: &Tree,
    spans: &Spans,
    lives: &[bool],
    journals: &[Seq<u32>],
    first: &[i64],
) -> bool
    requires spans { AreSpans tree.now spans.now.first.items spans.now.last.items }
    requires lives { lives.now ≡ map (is_live tree.now) (all_nodes tree.now) }
    requires len { length journals.now ≡ length first.now }
    requires journals { journals.now ≡ map (live_accesses tree.now) (below (length first.now)) }
    ensures { IsTrue result ↔ AreCancels tree.now first.now }
{
    for n in 0..tree.nodes().len() as u32 {
        if !live_cancel_holds(tree, spans, lives, journals, first, n) {
            return false;
        }
    }
    true
}

/// Returns whether node `n`, if it is a live cancel, is directly in a block and tells what the block puts back.
fn live_cancel_holds(
    tree: &Tree,
    spans: &Spans,
    lives: &[bool],
    journals: &[Seq<u32>],
    first: &[i64],
    n: u32,
) -> bool
    requires there { n < length tree.now }
    requires spans { AreSpans tree.now spans.now.first.items spans.now.last.items }
    requires lives { lives.now ≡ map (is_live tree.now) (all_nodes tree.now) }
    requires len { length journals.now ≡ length first.now }
    requires journals { journals.now ≡ map (live_accesses tree.now) (below (length first.now)) }
    ensures { IsTrue result ↔ (IsTrue (is_live tree.now n) → CancelHolds tree.now first.now n) }
{
    if !lives[n as usize] {
        return true;
    }
    cancel_holds(tree, spans, journals, first, n)
}

/// The same, whether it is live or not.
fn cancel_holds(tree: &Tree, spans: &Spans, journals: &[Seq<u32>], first: &[i64], n: u32) -> bool
    requires there { n < length tree.now }
    requires spans { AreSpans tree.now spans.now.first.items spans.now.last.items }
    requires len { length journals.now ≡ length first.now }
    requires journals { journals.now ≡ map (live_accesses tree.now) (below (length first.now)) }
    ensures { IsTrue result ↔ CancelHolds tree.now first.now n }
{
    // a hint to the prover: each node but the root has a smaller parent
    let _ = tree.nodes();
    let Some(back) = list_told(tree, n) else {
        return true;
    };
    let block = tree.parent(n);
    if !tree.is_block(block) {
        return false;
    }
    let stamp = tree.node(n).stamp;
    is_put_back(tree, spans, journals, first, block, stamp, back)
}

/// Returns what a node tells that its block puts back, if it is a cancel.
pub(crate) fn list_told(tree: &Tree, n: u32) -> Option<&[Back]>
    requires { n < length tree.now }
    ensures { option_map (λ back. back.now) result ≡ list_told tree.now n }
{
    match &tree.node(n).kind {
        Kind::Cancel { back } => Some(back.as_slice()),
        _ => None,
    }
}

/// Returns whether a list is what a block puts back if it is given up at a stamp.
fn is_put_back(
    tree: &Tree,
    spans: &Spans,
    journals: &[Seq<u32>],
    first: &[i64],
    block: u32,
    stamp: u64,
    back: &[Back],
) -> bool
    requires block { block < length tree.now }
    requires spans { AreSpans tree.now spans.now.first.items spans.now.last.items }
    requires len { length journals.now ≡ length first.now }
    requires journals { journals.now ≡ map (live_accesses tree.now) (below (length first.now)) }
    ensures { IsTrue result ↔ (back.now ≡ put_back tree.now first.now (live_accesses tree.now) block stamp) }
{
    let mut place = 0;
    for cell in 0..first.len() {
        let Some(value) = value_back(tree, spans, journals, first, cell, block, stamp) else {
            continue;
        };
        if !has_at(back, place, cell, value) {
            return false;
        }
        place += 1;
    }
    place == back.len()
}

/// Returns whether a list puts this value back into this cell at a place.
fn has_at(back: &[Back], place: usize, cell: usize, value: i64) -> bool
    ensures { IsTrue result ↔ (slice_get back.now place ≡ Some (record { cell = cell; value = value })) }
{
    if place >= back.len() {
        return false;
    }
    back[place].cell as usize == cell && back[place].value == value
}

/// Returns the value that a block puts back into a cell if it is given up at a stamp.
fn value_back(
    tree: &Tree,
    spans: &Spans,
    journals: &[Seq<u32>],
    first: &[i64],
    cell: usize,
    block: u32,
    stamp: u64,
) -> Option<i64>
    requires cell { cell < length first.now }
    requires block { block < length tree.now }
    requires spans { AreSpans tree.now spans.now.first.items spans.now.last.items }
    requires len { length journals.now ≡ length first.now }
    requires journals { journals.now ≡ map (live_accesses tree.now) (below (length first.now)) }
    ensures { result ≡ value_back tree.now block stamp (slice_index_or first.now cell (pos 0)) (live_accesses tree.now cell) }
{
    let journal = journal_of(journals, cell);
    if wrote_in(tree, spans, journal, block, stamp) {
        Some(value_before(tree, spans, journal, first, cell, block))
    } else {
        None
    }
}

/// Returns the journal of a cell.
pub(crate) fn journal_of(journals: &[Seq<u32>], cell: usize) -> &[u32]
    requires { cell < length journals.now }
    ensures { slice_get journals.now cell ≡ Some result.now }
{
    journals[cell].as_slice()
}

/// Returns whether one of some accesses is a write beneath a block with a smaller stamp.
fn wrote_in(tree: &Tree, spans: &Spans, journal: &[u32], block: u32, stamp: u64) -> bool
    requires block { block < length tree.now }
    requires spans { AreSpans tree.now spans.now.first.items spans.now.last.items }
    requires there { All (λ u. u < length tree.now) journal.now }
    ensures { result ≡ wrote_in tree.now block stamp journal.now }
{
    for i in 0..journal.len() {
        if has_written(tree, spans, journal[i], block, stamp) {
            return true;
        }
    }
    false
}

/// The same for one access.
pub(crate) fn has_written(tree: &Tree, spans: &Spans, access: u32, block: u32, stamp: u64) -> bool
    requires access { access < length tree.now }
    requires block { block < length tree.now }
    requires spans { AreSpans tree.now spans.now.first.items spans.now.last.items }
    ensures { result ≡ (is_above tree.now block access && nat_lt (stamp_of tree.now access) stamp && is_some (written tree.now access)) }
{
    spans.is_above(tree, block, access)
        && tree.node(access).stamp < stamp
        && written(tree, access).is_some()
}

/// Returns the value of a cell before the first of its accesses that is beneath a block.
fn value_before(
    tree: &Tree,
    spans: &Spans,
    journal: &[u32],
    first: &[i64],
    cell: usize,
    block: u32,
) -> i64
    requires cell { cell < length first.now }
    requires block { block < length tree.now }
    requires spans { AreSpans tree.now spans.now.first.items spans.now.last.items }
    requires there { All (λ u. u < length tree.now) journal.now }
    ensures { result ≡ cell_value (slice_index_or first.now cell (pos 0)) (map (written tree.now) (before_block tree.now block journal.now)) }
{
    let mut value = first[cell];
    for i in 0..journal.len() {
        if spans.is_above(tree, block, journal[i]) {
            return value;
        }
        value = value_after(tree, journal[i], value);
    }
    value
}

/// Returns the value of a cell after an access that met `value`.
fn value_after(tree: &Tree, access: u32, value: i64) -> i64
    requires { access < length tree.now }
    ensures { result ≡ unwrap_or (written tree.now access) value }
{
    match written(tree, access) {
        Some(after) => after,
        None => value,
    }
}

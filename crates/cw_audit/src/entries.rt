ghost use Rattle.std.specs.Prelude.{◌≡◌, ◌≤◌, ◌<◌, true, All, IfOk, IfSome, IsTrue, is_some, length, map};
ghost use Rattle.cw_tree.specs.Accesses.{cell_value, is_live, live_accesses, written};
ghost use Rattle.cw_tree.specs.Cancels.{before_block, wrote_in};
ghost use Rattle.cw_tree.specs.Journals.{FitsCells};
ghost use Rattle.cw_tree.specs.Nodes.{all_nodes, is_block};
ghost use Rattle.cw_tree.specs.Walks.{is_above};
ghost use Rattle.cw_audit.specs.Journals.{ReadWhatWasLeft};
ghost use Rattle.cw_audit.specs.LiveAccesses.{all_live_accesses, cell_accessed};
ghost use Rattle.cw_audit.specs.Naming.{HoldSoFar, IsPutBack, IsSurvey, value_told};
ghost use Rattle.cw_audit.specs.Spans.{AreSpans};
ghost use Rattle.cw_audit.specs.Together.{AreTogether};

use crate::accesses::{cell_accessed, written};
use crate::by_cell::journals;
use crate::cancels::{has_written, journal_of};
use crate::spans::Spans;
use cw_base::{OutOfMemory, Seq};
use cw_code::Back;
use cw_tree::{Kind, Tree};
use std::alloc::Global;

/// What entries of cancels are held against.
#[derive(Drop)]
pub(crate) struct Survey {
    pub(crate) spans: Spans,
    /// The live accesses of each cell, oldest first.
    pub(crate) journals: Vec<Seq<u32>>,
    /// For each live access the last live write of its cell, up to it. Nothing is proved of these: they tell where to look.
    latest: Vec<u32>,
}

impl Survey {
    pub(crate) fn of_tree(
        alloc: Global,
        tree: &Tree,
        accesses: &[u32],
        cells: usize,
    ) -> Result<Survey, OutOfMemory>
        requires accesses { accesses.now ≡ all_live_accesses tree.now }
        requires cells { FitsCells tree.now cells }
        ensures { IfOk result (IsSurvey tree.now cells) }
    {
        let spans = Spans::of_tree(alloc, tree)?;
        let journals = journals(alloc, tree, accesses, cells)?;
        let latest = latest_writes(alloc, tree, accesses, cells)?;
        Ok(Survey {
            spans,
            journals,
            latest,
        })
    }
}

/// For each live access, returns the last live write of its cell, up to it. Takes one pass over the live accesses.
fn latest_writes(
    alloc: Global,
    tree: &Tree,
    accesses: &[u32],
    cells: usize,
) -> Result<Vec<u32>, OutOfMemory>
    requires accesses { accesses.now ≡ all_live_accesses tree.now }
    requires cells { FitsCells tree.now cells }
    ensures { IfOk result (λ v. length v.items ≡ length tree.now) }
{
    let mut last: Vec<u32> = vec![in alloc; 0; cells]?;
    let mut latest: Vec<u32> = vec![in alloc; 0; tree.nodes().len()]?;
    for i in 0..accesses.len() {
        let access = accesses[i];
        let Some(cell) = cell_accessed(tree, access) else {
            continue;
        };
        let write = later_write(tree, access, last[cell as usize]);
        last[cell as usize] = write;
        latest[access as usize] = write;
    }
    Ok(latest)
}

/// Returns the later of a write and the access that comes after it, if that is a write.
fn later_write(tree: &Tree, access: u32, write: u32) -> u32
    requires { access < length tree.now }
{
    match written(tree, access) {
        Some(_) => access,
        None => write,
    }
}

/// Returns true only if a block that is given up at a stamp puts this entry back. Takes a few steps. They look where the entry shows if
/// the stamp is that of a cancel in the block; nothing is proved of that.
pub(crate) fn is_put_back(
    tree: &Tree,
    lives: &[bool],
    survey: &Survey,
    first: &[i64],
    block: u32,
    stamp: u64,
    entry: Back,
) -> bool
    requires there { IsTrue (is_block tree.now block) }
    requires lives { lives.now ≡ map (is_live tree.now) (all_nodes tree.now) }
    requires survey { IsSurvey tree.now (length first.now) survey.now }
    requires before { HoldSoFar tree.now first.now }
    requires cell { entry.cell < length first.now }
    ensures { IsTrue result → IsPutBack tree.now first.now block stamp entry }
{
    let journal = journal_of(survey.journals.as_slice(), entry.cell as usize);
    let end = count_before(tree, journal, stamp);
    if end == 0 {
        return false;
    }
    let write = survey.latest[journal[end - 1] as usize];
    if write as usize >= tree.nodes().len() {
        return false;
    }
    if !was_written(tree, &survey.spans, lives, write, entry.cell, block, stamp) {
        return false;
    }
    let value = first[entry.cell as usize];
    match value_before(tree, &survey.spans, journal, end, value, block) {
        Some(before) => before == entry.value,
        None => false,
    }
}

/// Returns true only if a node shows that a cell was written beneath a block with a smaller stamp.
fn was_written(
    tree: &Tree,
    spans: &Spans,
    lives: &[bool],
    write: u32,
    cell: u32,
    block: u32,
    stamp: u64,
) -> bool
    requires write { write < length tree.now }
    requires block { block < length tree.now }
    requires spans { AreSpans tree.now spans.now.first.items spans.now.last.items }
    requires lives { lives.now ≡ map (is_live tree.now) (all_nodes tree.now) }
    ensures { IsTrue result → wrote_in tree.now block stamp (live_accesses tree.now cell) ≡ true }
{
    let Some(accessed) = cell_accessed(tree, write) else {
        return false;
    };
    if accessed != cell || !lives[write as usize] {
        return false;
    }
    has_written(tree, spans, write, block, stamp)
}

/// Returns how many accesses of a journal have a smaller stamp. Halves the journal, step by step.
fn count_before(tree: &Tree, journal: &[u32], stamp: u64) -> usize
    requires { All (λ u. u < length tree.now) journal.now }
    ensures { result ≤ length journal.now }
{
    let mut low = 0;
    let mut high = journal.len();
    while low < high {
        let middle = low + (high - low) / 2;
        if tree.node(journal[middle]).stamp < stamp {
            low = middle + 1;
        } else {
            high = middle;
        }
    }
    low
}

/// Returns where the accesses beneath a block begin in a journal, of which the one before place `end` is beneath it.
fn first_beneath(tree: &Tree, spans: &Spans, journal: &[u32], end: usize, block: u32) -> usize
    requires block { block < length tree.now }
    requires spans { AreSpans tree.now spans.now.first.items spans.now.last.items }
    requires there { All (λ u. u < length tree.now) journal.now }
    requires end { end ≤ length journal.now }
    ensures { result ≤ end }
{
    let mut low = 0;
    let mut high = end;
    while low < high {
        let middle = low + (high - low) / 2;
        if spans.is_above(tree, block, journal[middle]) {
            high = middle;
        } else {
            low = middle + 1;
        }
    }
    low
}

/// Returns the value of a cell before the first of its accesses that is beneath a block, if the one before place `end` is. The cell had
/// this value at first.
fn value_before(
    tree: &Tree,
    spans: &Spans,
    journal: &[u32],
    end: usize,
    value: i64,
    block: u32,
) -> Option<i64>
    requires block { block < length tree.now }
    requires spans { AreSpans tree.now spans.now.first.items spans.now.last.items }
    requires there { All (λ u. u < length tree.now) journal.now }
    requires accesses { All (λ u. IsTrue (is_some (cell_accessed tree.now u))) journal.now }
    requires together { AreTogether (is_above tree.now block) journal.now }
    requires reads { ReadWhatWasLeft tree.now value journal.now }
    requires end { end ≤ length journal.now }
    ensures { IfSome result (λ v. v ≡ cell_value value (map (written tree.now) (before_block tree.now block journal.now))) }
{
    let begin = first_beneath(tree, spans, journal, end, block);
    if begin >= journal.len() || !spans.is_above(tree, block, journal[begin]) {
        return None;
    }
    if begin == 0 {
        return Some(value);
    }
    if spans.is_above(tree, block, journal[begin - 1]) {
        return None;
    }
    Some(value_told(tree, journal[begin - 1]))
}

/// Returns the value that a node read or wrote; 0 if it did neither.
fn value_told(tree: &Tree, n: u32) -> i64
    requires { n < length tree.now }
    ensures { result ≡ value_told tree.now n }
{
    match tree.node(n).kind {
        Kind::Read { value, .. } => value,
        Kind::Write { value, .. } => value,
        _ => 0,
    }
}

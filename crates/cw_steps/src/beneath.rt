//! What is beneath a token's place in its logs. Each call walks the logs once, and takes no memory. `writes` says that only writes count,
//! and not all accesses.
ghost use Rattle.std.specs.Prelude.{◌≡◌, ◌==◌, ◌&&◌, ◌||◌, ◌≤◌, ◌∷◌, [], drop, false, filter, length, nat_le, nat_lt, IfSome, None};
ghost use Rattle.std.specs.List.Sorted.{IsStrictlyIncreasing};
ghost use Rattle.cw_tree.specs.AccessStacks.{stamps};
ghost use Rattle.cw_tree.specs.Walks.{has};
ghost use Rattle.cw_steps.specs.Beneath.{cell_reached, cells_beneath, cells_reached, least_with, logs_beneath, nodes_beneath, reaches_in, touched_beneath};
ghost use Rattle.cw_steps.specs.Stands.{token_of};

use crate::{StrandToken, Track};
use cw_log::Log;
use cw_tree::{Entry, Kind, Node};

/// Returns the cell of an access.
fn cell_of(node: &Node, writes: bool) -> Option<u32>
    ensures { result ≡ cell_reached writes node.now.kind }
{
    match node.kind {
        Kind::Write { cell, .. } => Some(cell),
        Kind::Read { cell, .. } => { if writes { None } else { Some(cell) } }
        _ => None,
    }
}

/// Returns whether one of the entries, whose stamps rise, has this stamp.
pub(crate) fn has_stamp(entries: &[Entry], stamp: u64) -> bool
    requires { IsStrictlyIncreasing (stamps entries.now) }
    ensures { result ≡ has (stamps entries.now) stamp }
{
    entries
        .binary_search_by_key(&stamp, |entry| entry.mark.stamp)
        .is_ok()
}

/// Returns the nodes from `place` on.
pub(crate) fn since(nodes: &[Node], place: u32) -> &[Node]
    ensures { result.now ≡ drop place nodes.now }
{
    let place = place as usize;
    if place < nodes.len() {
        &nodes[place..]
    } else {
        &[]
    }
}

/// Returns whether a log lies beneath the track's place: a log before it in the track does, or it hangs from a fork there.
pub(crate) fn lies_beneath(before: bool, track: &Track, log: &Log) -> bool
    ensures { result ≡ (before || ((log.now.from == track.now.first) && nat_lt track.now.place log.now.fork)) }
{
    before || (log.from == track.first && log.fork > track.place)
}

// ## Cells

fn with_cell(least: Option<u32>, from: u32, node: &Node, writes: bool) -> Option<u32>
    ensures { result ≡ least_with least (filter (nat_le from) (cells_reached writes (node.now ∷ []))) }
{
    let Some(cell) = cell_of(node, writes) else {
        return least;
    };
    if cell < from {
        return least;
    }
    match least {
        Some(old) => Some(old.min(cell)),
        None => Some(cell),
    }
}

fn with_cells(found: Option<u32>, from: u32, nodes: &[Node], writes: bool) -> Option<u32>
    ensures { result ≡ least_with found (filter (nat_le from) (cells_reached writes nodes.now)) }
{
    let mut least = found;
    for node in nodes {
        least = with_cell(least, from, node, writes);
    }
    least
}

// ## Entries

fn with_entry(
    least: Option<u64>,
    number: u32,
    entries: &[Entry],
    node: &Node,
    writes: bool,
) -> Option<u64>
    requires { IsStrictlyIncreasing (stamps entries.now) }
    ensures { result ≡ least_with least (filter (has (stamps entries.now)) (reaches_in writes number (node.now ∷ []))) }
{
    let Some(cell) = cell_of(node, writes) else {
        return least;
    };
    if cell != number {
        return least;
    }
    if !has_stamp(entries, node.stamp) {
        return least;
    }
    match least {
        Some(old) => Some(old.min(node.stamp)),
        None => Some(node.stamp),
    }
}

fn with_entries(
    found: Option<u64>,
    number: u32,
    entries: &[Entry],
    nodes: &[Node],
    writes: bool,
) -> Option<u64>
    requires { IsStrictlyIncreasing (stamps entries.now) }
    ensures { result ≡ least_with found (filter (has (stamps entries.now)) (reaches_in writes number nodes.now)) }
{
    let mut least = found;
    for node in nodes {
        least = with_entry(least, number, entries, node, writes);
    }
    least
}

// ## Beneath a token's place

impl StrandToken {
    /// Returns whether a log that was joined lies beneath the token's place.
    pub fn has_logs_beneath(&self) -> bool
        ensures { result ≡ nat_lt 0 (length (logs_beneath (token_of self.now).own.column (token_of self.now).place (token_of self.now).joined)) }
    {
        let track = &self.track;
        for log in track.joined.iter() {
            if lies_beneath(false, track, log) {
                return true;
            }
        }
        false
    }

    /// Returns the smallest number of a cell, from `from` on, that was reached beneath the token's place.
    pub(crate) fn least_cell(&self, from: u32, writes: bool) -> Option<u32>
        ensures least { result ≡ least_with None (filter (nat_le from) (cells_reached writes (nodes_beneath (token_of self.now)))) }
        ensures from { IfSome result (λ c. from ≤ c) }
    {
        let track = &self.track;
        let mut least = with_cells(
            None,
            from,
            since(track.nodes.as_slice(), track.place),
            writes,
        );
        let mut beneath = false;
        for log in track.joined.iter() {
            beneath = lies_beneath(beneath, track, log);
            if beneath {
                least = with_cells(least, from, log.nodes.as_slice(), writes);
            }
        }
        least
    }

    /// Returns the smallest stamp that one of `entries` and an access of cell `number` beneath the token's place have in common.
    pub(crate) fn least_entry(&self, number: u32, entries: &[Entry], writes: bool) -> Option<u64>
        requires { IsStrictlyIncreasing (stamps entries.now) }
        ensures { result ≡ least_with None (filter (has (stamps entries.now)) (reaches_in writes number (nodes_beneath (token_of self.now)))) }
    {
        let track = &self.track;
        let own = since(track.nodes.as_slice(), track.place);
        let mut least = with_entries(None, number, entries, own, writes);
        let mut beneath = false;
        for log in track.joined.iter() {
            beneath = lies_beneath(beneath, track, log);
            if beneath {
                least = with_entries(least, number, entries, log.nodes.as_slice(), writes);
            }
        }
        least
    }

    /// Returns the smallest number of a cell, from `from` on, that an access beneath the token's place touched.
    pub fn next_touched(&self, from: u32) -> Option<u32>
        ensures least { result ≡ least_with None (filter (nat_le from) (cells_beneath (token_of self.now))) }
        ensures from { IfSome result (λ c. from ≤ c) }
    {
        self.least_cell(from, false)
    }

    /// Returns the smallest stamp of an access of cell `number` beneath the token's place that has an entry among `entries`.
    pub fn first_entry(&self, number: u32, entries: &[Entry]) -> Option<u64>
        requires { IsStrictlyIncreasing (stamps entries.now) }
        ensures { result ≡ least_with None (filter (has (stamps entries.now)) (touched_beneath (token_of self.now) number)) }
    {
        self.least_entry(number, entries, false)
    }
}

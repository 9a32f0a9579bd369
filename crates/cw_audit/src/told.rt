ghost use Rattle.std.specs.Prelude.{◌≡◌, ◌↔◌, ◌<◌, ◌&&◌, All, IfOk, IfSome, IsTrue, length, not, option_map};
ghost use Rattle.cw_tree.specs.Accesses.{HasAccess};
ghost use Rattle.cw_tree.specs.Attempts.{attempt_of};
ghost use Rattle.cw_tree.specs.Nodes.{is_block, is_tried, stamp_of};
ghost use Rattle.cw_tree.specs.Refusals.{victim_of};
ghost use Rattle.cw_tree.specs.Shape.{AreStamps};
ghost use Rattle.cw_tree.specs.Walks.{is_above};
ghost use Rattle.cw_audit.specs.Repeats.{AreAttempts};
ghost use Rattle.cw_audit.specs.Spans.{AreSpans};
ghost use Rattle.cw_audit.specs.Stamped.{AreByStamp, IsNodeAt};
ghost use Rattle.cw_audit.specs.Told.{AreMet, AreTables, IsBlockTold, IsChainTold, IsLastTold, TellsRightly, IsVictimTold};

use crate::apart::{outermost_apart, parallel, touches, tries};
use crate::attempts::attempts;
use crate::spans::Spans;
use crate::stamped::{Stamped, node_at, nodes_by_stamp};
use crate::stamps::rises;
use cw_base::OutOfMemory;
use cw_tree::{Conflict, Tree};
use std::alloc::Global;

/// What is looked up for each conflict: which nodes are above which, nodes by their stamps, and which attempts they are.
#[derive(Drop)]
pub(crate) struct Tables {
    spans: Spans,
    stamped: Vec<Stamped>,
    attempts: Vec<u32>,
}

impl Tables {
    pub(crate) fn of_tree(alloc: Global, tree: &Tree) -> Result<Tables, OutOfMemory>
        ensures { IfOk result (λ tables. AreTables tree.now tables) }
    {
        let spans = Spans::of_tree(alloc, tree)?;
        let stamped = nodes_by_stamp(alloc, tree)?;
        let attempts = attempts(alloc, tree)?;
        Ok(Tables {
            spans,
            stamped,
            attempts,
        })
    }

    /// Returns the node that has a stamp, if there is one.
    pub(crate) fn node_at(&self, tree: &Tree, stamp: u64) -> Option<u32>
        requires { AreTables tree.now self.now }
        ensures { IsNodeAt tree.now stamp result }
    {
        node_at(tree, self.stamped.as_slice(), stamp)
    }
}

/// Returns whether all that a conflict tells is right, given its last access and its block as nodes. Its moment is left to `has_moment`.
pub(crate) fn is_told(
    tree: &Tree,
    tables: &Tables,
    conflict: &Conflict,
    access: u32,
    block: u32,
) -> bool
    requires access { access < length tree.now }
    requires block { block < length tree.now }
    requires tables { AreTables tree.now tables.now }
    requires stamps { AreStamps tree.now }
    ensures { IsTrue result ↔ TellsRightly tree.now conflict.now access block }
{
    if !are_met(tree, &tables.spans, conflict, access, block) {
        return false;
    }
    if !is_victim_told(tree, tables, conflict, access) {
        return false;
    }
    is_chain_told(tree, tables.stamped.as_slice(), conflict)
}

/// Returns whether a conflict is right about who met.
fn are_met(tree: &Tree, spans: &Spans, conflict: &Conflict, access: u32, block: u32) -> bool
    requires access { access < length tree.now }
    requires block { block < length tree.now }
    requires spans { AreSpans tree.now spans.now.first.items spans.now.last.items }
    ensures { IsTrue result ↔ AreMet tree.now conflict.now access block }
{
    if !is_last_told(tree, conflict, access) {
        return false;
    }
    if !tries(tree, conflict.cell, conflict.asker) {
        return false;
    }
    if !parallel(tree, spans, access, conflict.asker) {
        return false;
    }
    is_block_told(tree, spans, conflict, access, block)
}

/// Returns whether an access is the last one that a conflict tells.
fn is_last_told(tree: &Tree, conflict: &Conflict, access: u32) -> bool
    requires { access < length tree.now }
    ensures { IsTrue result ↔ IsLastTold tree.now conflict.now access }
{
    touches(tree, conflict.cell, access) && tree.node(access).stamp == conflict.last
}

/// Returns whether a block is the one that a conflict tells.
fn is_block_told(tree: &Tree, spans: &Spans, conflict: &Conflict, access: u32, block: u32) -> bool
    requires access { access < length tree.now }
    requires block { block < length tree.now }
    requires asker { conflict.now.asker < length tree.now }
    requires spans { AreSpans tree.now spans.now.first.items spans.now.last.items }
    ensures { IsTrue result ↔ IsBlockTold tree.now conflict.now access block }
{
    if !is_between(tree, spans, block, access, conflict.asker) {
        return false;
    }
    tree.node(block).stamp == conflict.block
}

/// Returns whether a node is a block above `u` and not above `v`.
fn is_between(tree: &Tree, spans: &Spans, n: u32, u: u32, v: u32) -> bool
    requires n { n < length tree.now }
    requires u { u < length tree.now }
    requires v { v < length tree.now }
    requires spans { AreSpans tree.now spans.now.first.items spans.now.last.items }
    ensures { result ≡ (is_block tree.now n && is_above tree.now n u && not (is_above tree.now n v)) }
{
    tree.is_block(n) && spans.is_above(tree, n, u) && !spans.is_above(tree, n, v)
}

/// Returns whether a conflict is right about what has to roll back.
fn is_victim_told(tree: &Tree, tables: &Tables, conflict: &Conflict, access: u32) -> bool
    requires access { access < length tree.now }
    requires asker { IsTrue (is_tried tree.now conflict.now.asker) }
    requires tables { AreTables tree.now tables.now }
    requires stamps { AreStamps tree.now }
    ensures { IsTrue result ↔ IsVictimTold tree.now conflict.now access }
{
    let victim = outermost_apart(tree, &tables.spans, access, conflict.asker);
    if !has_victim(tree, conflict, victim) {
        return false;
    }
    let attempts = tables.attempts.as_slice();
    conflict.attempt == attempt_of(tree, attempts, conflict.asker, victim)
}

/// Returns whether this block is the victim of a conflict, or it has none and there is none.
fn has_victim(tree: &Tree, conflict: &Conflict, victim: Option<u32>) -> bool
    requires block { IfSome victim (λ b. IsTrue (is_block tree.now b)) }
    requires stamps { AreStamps tree.now }
    ensures { IsTrue result ↔ (victim_of conflict.now ≡ option_map (stamp_of tree.now) victim) }
{
    match victim {
        Some(block) => conflict.victim == tree.node(block).stamp,
        None => conflict.victim == 0,
    }
}

/// Returns which attempt was refused with an access, given all attempts.
fn attempt_of(tree: &Tree, attempts: &[u32], asker: u32, victim: Option<u32>) -> u32
    requires asker { IsTrue (is_tried tree.now asker) }
    requires block { IfSome victim (λ b. IsTrue (is_block tree.now b)) }
    requires attempts { AreAttempts tree.now attempts.now }
    ensures { result ≡ attempt_of tree.now asker victim }
{
    match victim {
        Some(block) => attempts[block as usize],
        None => attempts[asker as usize],
    }
}

/// Returns whether a conflict tells a chain of accesses of its cell, up to the last.
fn is_chain_told(tree: &Tree, stamped: &[Stamped], conflict: &Conflict) -> bool
    requires stamped { AreByStamp tree.now stamped.now }
    requires stamps { AreStamps tree.now }
    ensures { IsTrue result ↔ IsChainTold tree.now conflict.now }
{
    let chain = conflict.chain.as_slice();
    if chain.is_empty() || chain.len() > 8 {
        return false;
    }
    if !rises(chain) {
        return false;
    }
    if !are_accesses(tree, stamped, conflict.cell, chain) {
        return false;
    }
    chain[chain.len() - 1] == conflict.last
}

/// Returns whether each of these stamps is that of an access of this cell.
fn are_accesses(tree: &Tree, stamped: &[Stamped], cell: u32, chain: &[u64]) -> bool
    requires stamped { AreByStamp tree.now stamped.now }
    requires stamps { AreStamps tree.now }
    ensures { IsTrue result ↔ All (HasAccess tree.now cell) chain.now }
{
    for i in 0..chain.len() {
        if !is_access(tree, stamped, cell, chain[i]) {
            return false;
        }
    }
    true
}

/// Returns whether a stamp is that of an access of this cell.
fn is_access(tree: &Tree, stamped: &[Stamped], cell: u32, stamp: u64) -> bool
    requires stamped { AreByStamp tree.now stamped.now }
    requires stamps { AreStamps tree.now }
    ensures { IsTrue result ↔ HasAccess tree.now cell stamp }
{
    match node_at(tree, stamped, stamp) {
        Some(node) => touches(tree, cell, node),
        None => false,
    }
}

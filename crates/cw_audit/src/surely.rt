ghost use Rattle.std.specs.Prelude.{◌≡◌, ℕ, ◌<◌, IfOk, IfSome, IsTrue, Some, length, map, slice_get};
ghost use Rattle.cw_code.specs.declared.Back.{Back};
ghost use Rattle.cw_tree.specs.Accesses.{is_live};
ghost use Rattle.cw_tree.specs.Cancels.{AreCancels};
ghost use Rattle.cw_tree.specs.Nodes.{all_nodes, is_block};
ghost use Rattle.cw_audit.specs.Naming.{AreAround, AreLiveCancels, BlockFits, HoldSoFar, IsPutBack, IsSurvey, NamesIn, RisesBelow};

use crate::cancels::list_told;
use crate::entries::{Survey, is_put_back};
use crate::naming::{around, live_cancels, names_in, rises_below, writes_are_named};
use cw_base::OutOfMemory;
use cw_code::Back;
use cw_tree::Tree;
use std::alloc::Global;

/// Returns true only if each live cancel tells what its block puts back. Takes a few passes over the nodes, and a few steps for each
/// entry of a cancel. It should be true of each sheet that is sound, but nothing is proved of when it is false.
pub(crate) fn are_surely_cancels(
    alloc: Global,
    tree: &Tree,
    lives: &[bool],
    survey: &Survey,
    first: &[i64],
) -> Result<bool, OutOfMemory>
    requires lives { lives.now ≡ map (is_live tree.now) (all_nodes tree.now) }
    requires survey { IsSurvey tree.now (length first.now) survey.now }
    requires before { HoldSoFar tree.now first.now }
    ensures { IfOk result (λ b. IsTrue b → AreCancels tree.now first.now) }
{
    let Some(cancels) = live_cancels(alloc, tree, lives)? else {
        return Ok(false);
    };
    let around = around(alloc, tree, cancels.as_slice())?;
    let (cancels, around) = (cancels.as_slice(), around.as_slice());
    Ok(all_fit(tree, lives, survey, first, cancels, around))
}

/// The same, given for each node its live cancel and the nearest block above it that was given up.
fn all_fit(
    tree: &Tree,
    lives: &[bool],
    survey: &Survey,
    first: &[i64],
    cancels: &[Option<u32>],
    around: &[Option<u32>],
) -> bool
    requires lives { lives.now ≡ map (is_live tree.now) (all_nodes tree.now) }
    requires survey { IsSurvey tree.now (length first.now) survey.now }
    requires before { HoldSoFar tree.now first.now }
    requires cancels { AreLiveCancels tree.now cancels.now }
    requires around { AreAround tree.now cancels.now around.now }
    ensures { IsTrue result → AreCancels tree.now first.now }
{
    // a hint to the prover: each node but the root has a smaller parent
    let _ = tree.nodes();
    if !writes_are_named(tree, lives, cancels, around) {
        return false;
    }
    blocks_fit(tree, lives, survey, first, cancels, around)
}

/// Returns true only if the cancel in each node, if there is one, fits.
fn blocks_fit(
    tree: &Tree,
    lives: &[bool],
    survey: &Survey,
    first: &[i64],
    cancels: &[Option<u32>],
    around: &[Option<u32>],
) -> bool
    requires lives { lives.now ≡ map (is_live tree.now) (all_nodes tree.now) }
    requires survey { IsSurvey tree.now (length first.now) survey.now }
    requires before { HoldSoFar tree.now first.now }
    requires cancels { AreLiveCancels tree.now cancels.now }
    requires around { AreAround tree.now cancels.now around.now }
    ensures { IsTrue result → (b : ℕ) → b < length tree.now → BlockFits tree.now first.now cancels.now around.now b }
{
    for block in 0..tree.nodes().len() as u32 {
        if !block_fits(tree, lives, survey, first, cancels, around, block) {
            return false;
        }
    }
    true
}

/// The same for one node.
fn block_fits(
    tree: &Tree,
    lives: &[bool],
    survey: &Survey,
    first: &[i64],
    cancels: &[Option<u32>],
    around: &[Option<u32>],
    block: u32,
) -> bool
    requires there { block < length tree.now }
    requires lives { lives.now ≡ map (is_live tree.now) (all_nodes tree.now) }
    requires survey { IsSurvey tree.now (length first.now) survey.now }
    requires before { HoldSoFar tree.now first.now }
    requires cancels { AreLiveCancels tree.now cancels.now }
    requires around { AreAround tree.now cancels.now around.now }
    ensures { IsTrue result → BlockFits tree.now first.now cancels.now around.now block }
{
    let Some(cancel) = cancels[block as usize] else {
        return true;
    };
    if !tree.is_block(block) {
        return false;
    }
    let Some(back) = list_told(tree, cancel) else {
        return false;
    };
    let stamp = tree.node(cancel).stamp;
    if !rises_below(back, first.len()) {
        return false;
    }
    if !are_put_back(tree, lives, survey, first, block, stamp, back) {
        return false;
    }
    are_named_in(tree, cancels, around[block as usize], back)
}

/// Returns true only if a block that is given up at a stamp puts back each entry of a list.
fn are_put_back(
    tree: &Tree,
    lives: &[bool],
    survey: &Survey,
    first: &[i64],
    block: u32,
    stamp: u64,
    back: &[Back],
) -> bool
    requires block { IsTrue (is_block tree.now block) }
    requires lives { lives.now ≡ map (is_live tree.now) (all_nodes tree.now) }
    requires survey { IsSurvey tree.now (length first.now) survey.now }
    requires before { HoldSoFar tree.now first.now }
    requires rises { RisesBelow (length first.now) back.now }
    ensures { IsTrue result → (i : ℕ) (e : Back) → slice_get back.now i ≡ Some e → IsPutBack tree.now first.now block stamp e }
{
    for i in 0..back.len() {
        if !is_put_back(tree, lives, survey, first, block, stamp, back[i]) {
            return false;
        }
    }
    true
}

/// Returns true only if the cancel of a block, if there is one, names the cell of each entry of a list.
fn are_named_in(tree: &Tree, cancels: &[Option<u32>], block: Option<u32>, back: &[Back]) -> bool
    requires cancels { AreLiveCancels tree.now cancels.now }
    requires block { IfSome block (λ b. b < length tree.now) }
    ensures { IsTrue result → (i : ℕ) (e : Back) → slice_get back.now i ≡ Some e → NamesIn tree.now cancels.now block e.cell }
{
    for i in 0..back.len() {
        if !names_in(tree, cancels, block, back[i].cell) {
            return false;
        }
    }
    true
}

ghost use Rattle.std.specs.Prelude.{◌≡◌, ◌↔◌, ◌<◌, IfOk, IsSomeAnd, IsTrue, List, Some, length};
ghost use Rattle.cw_tree.specs.Nodes.{is_strand};
ghost use Rattle.cw_strand.specs.declared.want.Want.TheVariants.{Cancel};
ghost use Rattle.cw_tree.specs.declared.picks.Name.{Name};
ghost use Rattle.cw_job.specs.Jobs.{Job, TakesWords};
ghost use Rattle.cw_serial.specs.Machine.{Machine};
ghost use Rattle.cw_serial.specs.Orders.{IsPlay};
ghost use Rattle.cw_serial.specs.Wants.{Since, given_up};
ghost use Rattle.cw_job.specs.Room.Strands.{StrandState};
ghost use Rattle.cw_record.specs.Order.{ending_strand, node_of, order_of};
ghost use Rattle.cw_record.specs.Replay.{IsAct, IsItemDone, WantsAgain};
ghost use Rattle.cw_record.specs.Replaying.{ItemsAreDone, WantsRefused};

use crate::items::{OrderItem, items};
use crate::place::telling;
use crate::{Record, RecordEnd};
use cw_base::{OutOfMemory, Seq};
use cw_code::Back;
use cw_job::value_at;
use cw_serial::Play;
use cw_strand::Want;
use cw_tree::{Conflict, Kind, Tree};
use std::alloc::Global;

/// Returns whether the machine does at each pick what the tree has there, and whether a strand that spent its budget then is at
/// what was refused.
pub(crate) fn is_followed(alloc: Global, kept: &Record) -> Result<bool, OutOfMemory>
    requires words { TakesWords kept.now.program (length kept.now.words) }
    requires strand { IsTrue (is_strand kept.now.tree (ending_strand kept.now.end)) }
    requires order { kept.now.order ≡ order_of kept.now.tree kept.now.conflicts kept.now.limits.aborts kept.now.end }
    ensures { IfOk result (λ b. IsTrue b ↔ ItemsAreDone kept.now) }
{
    let tree = &kept.tree;
    // a hint to the prover: the root is a strand, and each other node has a smaller parent
    let _ = tree.nodes();
    let budget = kept.limits.aborts;
    let items = Seq::from_vec(items(alloc, tree, kept.conflicts.as_slice(), budget, &kept.end)?);
    let names = kept.order.names.as_slice();
    let mut play = Play::new(
        alloc,
        &kept.program,
        kept.words.as_slice(),
        kept.limits,
        names,
    )?;
    for place in 0..items.len() {
        let name = *kept.order.list.at(place);
        let want = match play.at(name) {
            Ok(want) => want,
            Err(fault) => {
                drop(play);
                return Err(fault);
            }
        };
        let back = match put_back(alloc, &play, want) {
            Ok(back) => back,
            Err(fault) => {
                drop(play);
                return Err(fault);
            }
        };
        if !is_item(tree, play.memory(), &back, want, *items.at(place)) {
            drop(play);
            return Ok(false);
        }
        let picks = match play.pick(&kept.program, name) {
            Ok(picks) => picks,
            Err(fault) => {
                drop(play);
                return Err(fault);
            }
        };
        if !picks {
            drop(play);
            return Ok(false);
        }
    }
    let want = play.at(kept.order.last);
    drop(play);
    is_spent(kept, want?)
}

/// Returns what the machine puts back if `want` gives up a block, otherwise nothing.
fn put_back(alloc: Global, play: &Play, want: Option<Want>) -> Result<Seq<Back>, OutOfMemory>
    ensures { IfOk result (λ list. (job : Job) (names : List Name) (m : Machine StrandState) → IsPlay job names play.now m →
        want ≡ Some Cancel → given_up m.since ≡ list) }
{
    match want {
        Some(Want::Cancel) => play.given_up(),
        _ => Ok(Seq::new(alloc)),
    }
}

/// Returns whether `want` is what the tree has at `item`, if the machine has this memory, and if `back` is what a block that is
/// given up puts back.
fn is_item(
    tree: &Tree,
    memory: &[i64],
    back: &Seq<Back>,
    want: Option<Want>,
    item: OrderItem,
) -> bool
    requires { node_of item < length tree.now }
    ensures { (m : Machine StrandState) → m.memory ≡ memory.now → (want ≡ Some Cancel → given_up m.since ≡ back.now) →
        IsTrue result ↔ IsSomeAnd want (λ w. IsItemDone tree.now m w item) }
{
    match item {
        OrderItem::Begins(_) => want == Some(Want::Begin),
        OrderItem::Ends(_) => want == Some(Want::End),
        OrderItem::Does(node) => is_act(memory, back, want, &tree.node(node).kind),
    }
}

/// Returns whether `want`, answered from this memory or by the list `back`, is a node of this kind.
fn is_act(memory: &[i64], back: &Seq<Back>, want: Option<Want>, kind: &Kind) -> bool
    ensures { (since : List Since) → (want ≡ Some Cancel → given_up since ≡ back.now) →
        IsTrue result ↔ IsSomeAnd want (λ w. IsAct memory.now since w kind.now) }
{
    match (want, kind) {
        (Some(Want::Load(element)), Kind::Read { cell, value }) => {
            element == *cell && value_at(memory, element as usize) == *value
        }
        (Some(Want::Store(element, stored)), Kind::Write { cell, value }) => {
            element == *cell && stored == *value
        }
        (Some(Want::Out(shown)), Kind::Out { value }) => shown == *value,
        (Some(Want::Cancel), Kind::Cancel { back: kept }) => same_backs(
            back.as_slice(),
            kept.as_slice(),
        ),
        _ => false,
    }
}

fn same_backs(a: &[Back], b: &[Back]) -> bool
    ensures { IsTrue result ↔ (a.now ≡ b.now) }
{
    a == b
}

/// Returns whether the last strand, which wants `want`, is at what was refused, if it spent its budget. Otherwise returns true.
fn is_spent(kept: &Record, want: Option<Want>) -> Result<bool, OutOfMemory>
    ensures { IfOk result (λ b. IsTrue b ↔ WantsRefused kept.now kept.now.end want) }
{
    let RecordEnd::Budget { strand } = &kept.end else {
        return Ok(true);
    };
    let conflicts = kept.conflicts.as_slice();
    let told = telling(&kept.tree, conflicts, kept.limits.aborts, *strand)?;
    match told {
        Some(conflict) => Ok(is_refused(conflict, want)),
        None => Ok(false),
    }
}

/// Returns whether `want` is what a conflict refused.
fn is_refused(conflict: &Conflict, want: Option<Want>) -> bool
    ensures { IsTrue result ↔ IsSomeAnd want (WantsAgain conflict.now) }
{
    match want {
        Some(Want::Begin) => conflict.victim != 0,
        Some(Want::Load(cell) | Want::Store(cell, _)) => conflict.victim == 0
            && cell == conflict.cell,
        _ => false,
    }
}

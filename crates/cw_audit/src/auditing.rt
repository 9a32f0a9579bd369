ghost use Rattle.std.specs.Prelude.{◌≡◌, ◌↔◌, ◌≤◌, IfOk, IsTrue};
ghost use Rattle.cw_sheet.specs.Contents.{HasText, contents_of};
ghost use Rattle.cw_audit.specs.Audits.{HoldBefore, IsAudit, Part, PartHolds, part_number};
ghost use Rattle.cw_audit.specs.Groundwork.{IsGroundwork};

use crate::accesses::{accesses_hold, live_accesses, lives};
use crate::blocks::blocks_hold;
use crate::cancels::cancels_hold;
use crate::findings::Audit;
use crate::parts::{end_holds, order_holds, strands_hold};
use crate::program::{first_values, program_of};
use crate::refusals::refusals_hold;
use crate::stamps::stamps_hold;
use cw_base::OutOfMemory;
use cw_code::Program;
use cw_sheet::Sheet;
use std::alloc::Global;

/// What several parts take from a sheet.
#[derive(Drop)]
struct Groundwork {
    program: Program,
    /// What the memory holds at first.
    first: Vec<i64>,
    /// For each node, whether no block above it was rolled back.
    lives: Vec<bool>,
    /// The live accesses, oldest first.
    accesses: Vec<u32>,
    /// Whether part 2 holds.
    fit: bool,
    /// The memory that the live accesses leave, if part 2 holds.
    left: Vec<i64>,
}

impl Groundwork {
    fn of_sheet(alloc: Global, sheet: &Sheet) -> Result<Groundwork, OutOfMemory>
        requires { HasText (contents_of sheet.now) }
        ensures { IfOk result (IsGroundwork (contents_of sheet.now)) }
    {
        let program = program_of(alloc, sheet)?;
        let first = first_values(alloc, sheet, &program)?;
        let lives = lives(alloc, &sheet.tree)?;
        let accesses = live_accesses(alloc, &sheet.tree)?;
        let mut left = Vec::from_slice(alloc, first.as_slice())?;
        let fit = accesses_hold(&sheet.tree, accesses.as_slice(), &mut left);
        Ok(Groundwork {
            program,
            first,
            lives,
            accesses,
            fit,
            left,
        })
    }
}

/// Audits a sheet that has a text: returns whether all that it says fits together, otherwise the number of the first part that does
/// not hold.
pub fn audit(alloc: Global, sheet: &Sheet) -> Result<Audit, OutOfMemory>
    requires { HasText (contents_of sheet.now) }
    ensures { IfOk result (IsAudit (contents_of sheet.now)) }
{
    let work = Groundwork::of_sheet(alloc, sheet)?;
    for part in 1..9 {
        if !part_holds(alloc, sheet, &work, part)? {
            return Ok(Audit::Broken { part });
        }
    }
    Ok(Audit::Sound)
}

/// Returns whether the part with this number holds, given that those before it do.
fn part_holds(
    alloc: Global,
    sheet: &Sheet,
    work: &Groundwork,
    part: u8,
) -> Result<bool, OutOfMemory>
    requires text { HasText (contents_of sheet.now) }
    requires work { IsGroundwork (contents_of sheet.now) work.now }
    requires first { 1 ≤ part }
    requires last { part ≤ 8 }
    requires before { HoldBefore (contents_of sheet.now) part }
    ensures { IfOk result (λ b. (p : Part) → part_number p ≡ part → IsTrue b ↔ PartHolds (contents_of sheet.now) p) }
{
    let tree = &sheet.tree;
    let lives = work.lives.as_slice();
    let accesses = work.accesses.as_slice();
    let first = work.first.as_slice();
    match part {
        1 => stamps_hold(alloc, tree),
        2 => Ok(work.fit),
        3 => blocks_hold(alloc, tree, accesses, first.len()),
        4 => refusals_hold(alloc, sheet, lives),
        5 => strands_hold(alloc, sheet, &work.program, lives),
        6 => end_holds(alloc, sheet, &work.program, lives, work.left.as_slice()),
        7 => cancels_hold(alloc, tree, lives, accesses, first),
        _ => order_holds(alloc, sheet),
    }
}

ghost use Rattle.std.specs.Prelude.{◌≡◌, ◌↔◌, ◌<◌, ◌++◌, ◌∷◌, [], IfOk, IsTrue, OnOk, length, map, reverse};
ghost use Rattle.cw_tree.specs.Series.{children};
ghost use Rattle.cw_audit.specs.Settled.{CanDo};
ghost use Rattle.cw_audit.specs.Visits.{beginning};
ghost use Rattle.cw_audit.specs.Visiting.{IsThere, MayVisit, steps_after, visited};
ghost use Rattle.cw_audit.specs.Walkers.{HasStrandsOf, IsTold, law_of_told, spot_of};
ghost use Rattle.cw_audit.specs.declared.strands.walk.Visit.TheVariants as Visit;

use crate::strands::told::Told;
use crate::strands::walker::Walker;
use cw_base::OutOfMemory;
use cw_tree::Family;

/// A step of a walk over a tree.
#[derive(Clone, Copy)]
pub(crate) enum Visit {
    Enter(u32),
    Leave(u32),
}

/// Walks over the tree, depth first. Returns whether the strand of main can have done what the nodes tell. Goes past each node once.
pub(crate) fn walk(told: &Told, family: &Family, walker: &mut Walker) -> Result<bool, OutOfMemory>
    requires told { IsTold told.now }
    requires family { family.now ≡ told.now.tree.now }
    requires spot { spot_of walker.old ≡ beginning (law_of_told told.now) }
    requires stands { HasStrandsOf told.now.task.program.now walker.old }
    ensures { IfOk result (λ b. IsTrue b ↔ CanDo (law_of_told told.now) told.now.tree.now told.now.end.now (length told.now.tree.now) 0 (law_of_told told.now).start) }
{
    // the visits that are still to come, the next one last
    let mut visits = Vec::new(told.alloc);
    visits.push(Visit::Enter(0))?;
    while let Some(visit) = visits.pop() {
        if !walker.visit(told, visit)? {
            return Ok(false);
        }
        push_after(told, family, visit, &mut visits)?;
    }
    Ok(true)
}

/// Pushes the visits that come next once this one is done, the first one last.
fn push_after(
    told: &Told,
    family: &Family,
    visit: Visit,
    visits: &mut Vec<Visit>,
) -> Result<(), OutOfMemory>
    requires { IsThere family.now visit }
    ensures { OnOk result (visits.new.items ≡ visits.old.items ++ steps_after family.now visit) }
{
    match visit {
        Visit::Enter(n) => push_inside(told, family, n, visits),
        Visit::Leave(_) => Ok(()),
    }
}

/// Pushes the visits that follow when node `n` was entered: those of its children, the first one last, and before them the one that
/// leaves it.
fn push_inside(
    told: &Told,
    family: &Family,
    n: u32,
    visits: &mut Vec<Visit>,
) -> Result<(), OutOfMemory>
    requires { n < length family.now }
    ensures { OnOk result (visits.new.items ≡ visits.old.items ++ Visit.Leave n ∷ map Visit.Enter (reverse (children family.now n))) }
{
    let mut children = Vec::new(told.alloc);
    family.push_children(n, &mut children)?;
    visits.push(Visit::Leave(n))?;
    for child in &children {
        visits.push(Visit::Enter(*child))?;
    }
    Ok(())
}

impl Walker {
    /// Enters or leaves a node. Returns false if the strand cannot have done so.
    fn visit(&mut self, told: &Told, visit: Visit) -> Result<bool, OutOfMemory>
        requires told { IsTold told.now }
        requires there { IsThere told.now.tree.now visit }
        requires stands { HasStrandsOf told.now.task.program.now self.old }
        ensures may { IfOk result (λ b. IsTrue b ↔ MayVisit (law_of_told told.now) told.now.tree.now told.now.end.now visit (spot_of self.old)) }
        ensures spot { IfOk result (λ b. IsTrue b → spot_of self.new ≡ visited (law_of_told told.now) told.now.tree.now visit (spot_of self.old)) }
        ensures stands { OnOk result (HasStrandsOf told.now.task.program.now self.new) }
    {
        match visit {
            Visit::Enter(n) => self.enter(told, n, told.tree.node(n)),
            Visit::Leave(n) => self.leave(told, n, told.tree.node(n)),
        }
    }
}

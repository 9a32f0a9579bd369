ghost use Rattle.std.specs.Prelude.{◌≡◌, ℕ, ◌+◌, ◌-◌, ◌<◌, ◌≤◌, true, [], ◌∷◌, length, slice_get, Some, IfOk, IfSome};
ghost use Rattle.cw_code.specs.Rules.{pops, operand_faults, faults_here, onwards, effect_of, place_faults, places, size_of};
ghost use Rattle.cw_code.specs.Nested.{situation_at, IsGrown};
ghost use Rattle.cw_code.specs.Walked.{left_by, walked, BreaksNothing, level_noted, level_jumped, IsWalked, LeadsWell, AllLead};

use crate::effects::Effect;
use crate::instruction::{Code, Func, Instr};
use crate::nestings::Nestings;
use crate::situation::Level;
use crate::{judging, table};
use cw_base::OutOfMemory;
use std::alloc::Global;

/// Whether an instruction that pops `count` numbers breaks no rule at `place`, whatever its ways lead to.
#[tactic(auto, using(crate::proofs::Walked::nothing_here))]
fn stands_well(
    nestings: &Nestings,
    code: &Code,
    func: &Func,
    place: u32,
    instr: Instr,
    effect: Option<Effect>,
    count: u32,
    level: &Level,
) -> bool
    requires inside { (place < func.now.end) × (level.now.nesting < length nestings.now) }
    requires count { count ≡ pops code.now instr effect }
    ensures operands { result ≡ true → operand_faults code.now func.now place instr effect ≡ [] }
    ensures here { result ≡ true → faults_here code.now func.now place instr effect (situation_at nestings.now level.now) ≡ [] }
{
    let few = level.height < count as u64;
    let border = judging::borders(effect) && level.height != 0;
    let torn = judging::tears(nestings, effect, level);
    let last = !judging::is_left(effect) && judging::is_last(func, place);
    if few || border || torn || last {
        return false;
    }
    judging::names_well(code, func, place, instr, effect)
}

/// The level behind an instruction that pops `count` numbers.
fn level_behind(
    nestings: &mut Nestings,
    code: &Code,
    instr: Instr,
    effect: Option<Effect>,
    count: u32,
    level: &Level,
) -> Result<Level, OutOfMemory>
    requires inside { level.now.nesting < length nestings.old }
    requires count { count ≡ pops code.now instr effect }
    ensures grown { IsGrown nestings.old nestings.new }
    ensures made { IfOk result (λ t. t.nesting < length nestings.new) }
    ensures leaves { IfOk result (λ t. situation_at nestings.new t ≡ onwards code.now instr effect (situation_at nestings.old level.now)) }
{
    match effect {
        Some(Effect::Begin) | Some(Effect::End) | Some(Effect::Fork) | Some(Effect::Done) =>
            judging::ahead(nestings, code, instr, effect, level),
        _ => {
            let height = judging::height_after(effect, count, level.height)?;
            Ok(Level {
                height,
                nesting: level.nesting,
            })
        }
    }
}

/// Returns the level behind the instruction at `place`, or `None` if no instruction stands there well.
fn step(
    nestings: &mut Nestings,
    code: &Code,
    func: &Func,
    place: u32,
    level: &Level,
) -> Result<Option<Level>, OutOfMemory>
    requires { (place < func.now.end) × (level.now.nesting < length nestings.old) }
    ensures grown { IsGrown nestings.old nestings.new }
    ensures made { IfOk result (λ r. IfSome r (λ t. t.nesting < length nestings.new)) }
    ensures leaves { IfOk result (λ r. IfSome r (λ t. situation_at nestings.new t ≡ left_by code.now (slice_get code.now.instrs place) (situation_at nestings.old level.now))) }
    ensures stands { IfOk result (λ r. IfSome r (λ _. BreaksNothing code.now func.now place (situation_at nestings.old level.now))) }
{
    let instr = match code.instr(place) {
        None => return Ok(None),
        Some(instr) => instr,
    };
    let effect = table::effect_at(instr.op);
    let count = judging::popped(code, instr, effect);
    if !stands_well(nestings, code, func, place, instr, effect, count, level) {
        return Ok(None);
    }
    let next = level_behind(nestings, code, instr, effect, count, level)?;
    Ok(Some(next))
}

/// Walks over the function once. Returns the levels that are expected at its places, or `None` if an instruction does
/// not stand well there.
fn walk(
    nestings: &mut Nestings,
    code: &Code,
    func: &Func,
    alloc: Global,
) -> Result<Option<Vec<Level>>, OutOfMemory>
    requires inside { func.now.start ≤ func.now.end }
    requires nothing { nestings.old ≡ [] ∷ [] }
    ensures { IfOk result (λ r. IfSome r (λ t. IsWalked code.now func.now nestings.new t.items (size_of func.now))) }
{
    let mut levels = Vec::with_capacity(alloc, (func.end - func.start) as usize)?;
    let mut level = Level {
        height: 0,
        nesting: 0,
    };
    for n in 0..(func.end - func.start) {
        levels.push(level)?;
        level = match step(nestings, code, func, func.start + n, &level)? {
            None => return Ok(None),
            Some(next) => next,
        };
    }
    Ok(Some(levels))
}

/// The level at the target of a jump, from the level at the jump.
fn jumped(effect: Option<Effect>, level: Level) -> Level
    ensures { result ≡ level_jumped effect level }
{
    match effect {
        Some(Effect::JumpZero) => Level {
            height: level.height.saturating_sub(1),
            nesting: level.nesting,
        },
        _ => level,
    }
}

/// Whether two levels are the same.
fn is_same(a: Level, b: Level) -> bool
    ensures { result ≡ true → a ≡ b }
{
    a.height == b.height && a.nesting == b.nesting
}

/// Whether the target of an instruction has the level that a jump from `level` brings there.
#[tactic(auto, using(crate::proofs::Fold::target_inside))]
fn leads(func: &Func, levels: &[Level], instr: Instr, level: Level) -> bool
    requires { length levels.now ≡ size_of func.now }
    ensures { result ≡ true → LeadsWell func.now levels.now instr level }
{
    let effect = table::effect_at(instr.op);
    match judging::target(func, instr, effect) {
        None => true,
        Some(target) => is_same(
            levels[(target - func.start) as usize],
            jumped(effect, level),
        ),
    }
}

/// Whether each target of the function has the level that is expected there.
fn all_lead(code: &Code, func: &Func, levels: &[Level]) -> bool
    requires { (func.now.start ≤ func.now.end) × (length levels.now ≡ size_of func.now) }
    ensures { result ≡ true → AllLead code.now func.now levels.now (size_of func.now) }
{
    for n in 0..(func.end - func.start) {
        if let Some(instr) = code.instr(func.start + n) {
            if !leads(func, levels, instr, levels[n as usize]) {
                return false;
            }
        }
    }
    true
}

/// Whether a walk over the function finds no fault at its places. Where it finds one, there may be none.
pub fn is_walked(code: &Code, func: &Func, alloc: Global) -> Result<bool, OutOfMemory>
    requires { func.now.start ≤ func.now.end }
    ensures { IfOk result (λ b. b ≡ true → place_faults code.now func.now (places code.now func.now) (size_of func.now) ≡ []) }
{
    let mut nestings = Nestings::new(alloc)?;
    match walk(&mut nestings, code, func, alloc)? {
        None => Ok(false),
        Some(levels) => Ok(all_lead(code, func, &levels)),
    }
}

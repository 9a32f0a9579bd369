ghost use Rattle.std.specs.Prelude.{◌≡◌, ◌+◌, ◌==◌, true, [], ◌-◌, ◌<◌, ◌^◌, length, slice_get, Some, IfOk};
ghost use Rattle.cw_code.specs.Rules.{earlier, earliest, when, kind_number, is_number_below, cells_below, inside, is_target, is_tick, operand_faults, effect_of, called, pops, pushes, parts_after, passed, onwards, never_passed, jumps, is_border, is_torn, next_of, target_of, if_inside, natural, faults_here};
ghost use Rattle.cw_code.specs.Nested.{parts_at, situation_at, IsGrown};
ghost use Rattle.cw_code.specs.Table.{effect_at, taken, left_there};

use crate::effects::Effect;
use crate::instruction::{Code, CodeFault, CodeKind, Func, Instr};
use crate::nestings::Nestings;
use crate::situation::{Level, Part};
use crate::table;
use cw_base::OutOfMemory;

/// The number of a kind. Kinds at one place are ordered by it.
fn number(kind: CodeKind) -> u8
    ensures { result ≡ kind_number kind }
{
    kind as u8
}

/// Returns the first of two faults.
fn first_of(best: Option<CodeFault>, fault: CodeFault) -> Option<CodeFault>
    ensures { result ≡ earlier best fault }
{
    match best {
        None => Some(fault),
        Some(b) => {
            if b.at < fault.at || b.at == fault.at && number(b.kind) <= number(fault.kind) {
                Some(b)
            } else {
                Some(fault)
            }
        }
    }
}

/// Returns the first of `best` and, if `broken`, the fault of this kind at `at`.
pub fn note(best: Option<CodeFault>, broken: bool, kind: CodeKind, at: u32) -> Option<CodeFault>
    ensures { result ≡ earliest best (when broken kind at) }
{
    if broken {
        first_of(best, CodeFault { kind, at })
    } else {
        best
    }
}

/// Whether `a` is the number of one of `count` things.
pub fn is_below(a: i64, count: usize) -> bool
    ensures { result ≡ is_number_below a count }
{
    match u64::try_from(a) {
        Ok(n) => n < count as u64,
        Err(_) => false,
    }
}

/// Whether the `len` cells from number `a` on are among `count` cells.
pub fn are_below(a: i64, len: u32, count: u32) -> bool
    ensures { result ≡ cells_below a len count }
{
    match u64::try_from(a) {
        Ok(n) => n < count as u64 && n + len as u64 <= count as u64,
        Err(_) => false,
    }
}

/// Whether `place` lies in the function.
pub fn lies_inside(func: &Func, place: u32) -> bool
    ensures { result ≡ inside func.now place }
{
    func.start <= place && place < func.end
}

/// Whether the instruction is a `tick`.
fn stands_tick(instr: Option<Instr>) -> bool
    ensures { result ≡ is_tick instr }
{
    match instr {
        None => false,
        Some(instr) => match table::effect_at(instr.op) {
            Some(Effect::Tick) => true,
            _ => false,
        },
    }
}

/// Whether `a` is a target that `place` may have: a later place of the function, or a `tick` of it.
pub fn has_target(code: &Code, func: &Func, place: u32, a: i64) -> bool
    ensures { result ≡ is_target code.now func.now place a }
{
    match u64::try_from(a) {
        Ok(n) => {
            if n < func.end as u64 {
                let target = n as u32;
                lies_inside(func, target) && (place < target || stands_tick(code.instr(target)))
            } else {
                false
            }
        }
        Err(_) => false,
    }
}

/// Whether the operands of an instruction name what there is.
pub fn names_well(
    code: &Code,
    func: &Func,
    place: u32,
    instr: Instr,
    effect: Option<Effect>,
) -> bool
    ensures { result ≡ true → operand_faults code.now func.now place instr effect ≡ [] }
{
    let effect = match effect {
        None => return false,
        Some(effect) => effect,
    };
    match effect {
        Effect::Local | Effect::Set => is_below(instr.a, func.locals as usize),
        Effect::Load | Effect::Store => is_below(instr.a, code.cells as usize),
        Effect::LoadAt | Effect::StoreAt => are_below(instr.a, instr.b, code.cells),
        Effect::Jump | Effect::JumpZero | Effect::Fork => { has_target(code, func, place, instr.a) }
        Effect::Call => is_below(instr.a, code.funcs.len()),
        _ => true,
    }
}

/// Notes in `best` what is broken of the operands of an instruction.
pub fn operand(
    best: Option<CodeFault>,
    code: &Code,
    func: &Func,
    place: u32,
    instr: Instr,
    effect: Option<Effect>,
) -> Option<CodeFault>
    ensures { result ≡ earliest best (operand_faults code.now func.now place instr effect) }
{
    let effect = match effect {
        None => return note(best, true, CodeKind::Underflow, place),
        Some(effect) => effect,
    };
    match effect {
        Effect::Local | Effect::Set => note(
            best,
            !is_below(instr.a, func.locals as usize),
            CodeKind::Underflow,
            place,
        ),
        Effect::Load | Effect::Store => note(
            best,
            !is_below(instr.a, code.cells as usize),
            CodeKind::JumpOut,
            place,
        ),
        Effect::LoadAt | Effect::StoreAt => note(
            best,
            !are_below(instr.a, instr.b, code.cells),
            CodeKind::JumpOut,
            place,
        ),
        Effect::Jump | Effect::JumpZero | Effect::Fork => note(
            best,
            !has_target(code, func, place, instr.a),
            CodeKind::JumpOut,
            place,
        ),
        Effect::Call => note(
            best,
            !is_below(instr.a, code.funcs.len()),
            CodeKind::JumpOut,
            place,
        ),
        _ => best,
    }
}

/// How many parameters the function with the number `a` has, or 0 if there is none.
fn params(code: &Code, a: i64) -> u32
    ensures { result ≡ called code.now a }
{
    match u64::try_from(a) {
        Ok(n) => match code.func(n) {
            Some(func) => func.params,
            None => 0,
        },
        Err(_) => 0,
    }
}

/// How many numbers the effect of an instruction takes from the stack.
fn takes(code: &Code, instr: Instr, effect: Effect) -> u32
    ensures { result ≡ taken effect (called code.now instr.a) }
{
    match effect {
        Effect::Set
        | Effect::LoadAt
        | Effect::Store
        | Effect::Lift(_)
        | Effect::JumpZero
        | Effect::Ret
        | Effect::Drop
        | Effect::Out => 1,
        Effect::StoreAt | Effect::Join(_) => 2,
        Effect::Call => params(code, instr.a),
        _ => 0,
    }
}

/// How many numbers an effect leaves on the stack.
fn leaves(effect: Effect) -> u32
    ensures { result ≡ left_there effect }
{
    match effect {
        Effect::Push
        | Effect::Local
        | Effect::Load
        | Effect::LoadAt
        | Effect::Lift(_)
        | Effect::Join(_)
        | Effect::Call => 1,
        _ => 0,
    }
}

/// How many numbers an instruction pops.
pub fn popped(code: &Code, instr: Instr, effect: Option<Effect>) -> u32
    ensures { result ≡ pops code.now instr effect }
{
    match effect {
        None => 0,
        Some(e) => takes(code, instr, e),
    }
}

/// The height of the stack after an instruction that pops `count` numbers, from its height before. A height over the
/// greatest `u64` is reported as out of memory.
pub fn height_after(effect: Option<Effect>, count: u32, height: u64) -> Result<u64, OutOfMemory>
    ensures { IfOk result (λ n. n ≡ height - count + pushes effect) }
{
    let pushed = match effect {
        None => 0,
        Some(e) => leaves(e),
    };
    height
        .saturating_sub(count as u64)
        .checked_add(pushed as u64)
        .ok_or(OutOfMemory)
}

/// The nesting of the parts that are open after an instruction.
fn nesting_after(
    nestings: &mut Nestings,
    effect: Option<Effect>,
    nesting: u32,
) -> Result<u32, OutOfMemory>
    requires { nesting < length nestings.old }
    ensures grown { IsGrown nestings.old nestings.new }
    ensures made { IfOk result (λ n. n < length nestings.new) }
    ensures parts { IfOk result (λ n. parts_at nestings.new n ≡ parts_after effect (parts_at nestings.old nesting)) }
{
    match effect {
        Some(Effect::Begin) => nestings.within(nesting, Part::Block),
        Some(Effect::End) => nestings.without(nesting, Part::Block),
        Some(Effect::Done) => nestings.without(nesting, Part::Fork),
        _ => Ok(nesting),
    }
}

/// The level after an instruction, from the level at it.
pub fn after(
    nestings: &mut Nestings,
    code: &Code,
    instr: Instr,
    effect: Option<Effect>,
    level: &Level,
) -> Result<Level, OutOfMemory>
    requires { level.now.nesting < length nestings.old }
    ensures grown { IsGrown nestings.old nestings.new }
    ensures made { IfOk result (λ t. t.nesting < length nestings.new) }
    ensures leaves { IfOk result (λ t. situation_at nestings.new t ≡ passed code.now instr effect (situation_at nestings.old level.now)) }
{
    let height = height_after(effect, popped(code, instr, effect), level.height)?;
    let nesting = nesting_after(nestings, effect, level.nesting)?;
    Ok(Level { height, nesting })
}

/// The level at the place behind an instruction. Behind a fork the forked part is open.
pub fn ahead(
    nestings: &mut Nestings,
    code: &Code,
    instr: Instr,
    effect: Option<Effect>,
    level: &Level,
) -> Result<Level, OutOfMemory>
    requires { level.now.nesting < length nestings.old }
    ensures grown { IsGrown nestings.old nestings.new }
    ensures made { IfOk result (λ t. t.nesting < length nestings.new) }
    ensures leaves { IfOk result (λ t. situation_at nestings.new t ≡ onwards code.now instr effect (situation_at nestings.old level.now)) }
{
    match effect {
        Some(Effect::Fork) => {
            let nesting = nestings.within(level.nesting, Part::Fork)?;
            Ok(Level {
                height: level.height,
                nesting,
            })
        }
        _ => after(nestings, code, instr, effect, level),
    }
}

/// Whether execution never goes on at the place behind the instruction.
pub fn is_left(effect: Option<Effect>) -> bool
    ensures { result ≡ never_passed effect }
{
    match effect {
        Some(Effect::Jump) | Some(Effect::Ret) | Some(Effect::Done) => true,
        _ => false,
    }
}

/// Whether an instruction has a target.
pub fn is_jump(effect: Option<Effect>) -> bool
    ensures { result ≡ jumps effect }
{
    match effect {
        Some(Effect::Jump) | Some(Effect::JumpZero) | Some(Effect::Fork) => true,
        _ => false,
    }
}

/// Whether an instruction needs an empty stack.
pub fn borders(effect: Option<Effect>) -> bool
    ensures { result ≡ is_border effect }
{
    match effect {
        Some(Effect::Begin)
        | Some(Effect::End)
        | Some(Effect::Fork)
        | Some(Effect::Done)
        | Some(Effect::Cancel) => true,
        _ => false,
    }
}

/// Whether the instruction is inside a part where it is not allowed, or outside one that it needs.
pub fn tears(nestings: &Nestings, effect: Option<Effect>, level: &Level) -> bool
    requires { level.now.nesting < length nestings.now }
    ensures { result ≡ is_torn effect (situation_at nestings.now level.now) }
{
    let open = level.nesting;
    match effect {
        Some(Effect::Ret) => nestings.holds(open, Part::Block) || nestings.holds(open, Part::Fork),
        Some(Effect::End) => !nestings.holds(open, Part::Block),
        Some(Effect::Done) => !nestings.holds(open, Part::Fork),
        Some(Effect::Cancel) => !nestings.is_in_block(open),
        _ => false,
    }
}

/// The place behind an instruction, if execution can go on there and it lies in the function.
pub fn next(func: &Func, place: u32, effect: Option<Effect>) -> Option<u32>
    requires { place < func.now.end }
    ensures { result ≡ next_of func.now place effect }
{
    if !is_left(effect) && place + 1 < func.end && func.start <= place + 1 {
        Some(place + 1)
    } else {
        None
    }
}

/// The target of an instruction, if it has one that lies in the function.
pub fn target(func: &Func, instr: Instr, effect: Option<Effect>) -> Option<u32>
    ensures { result ≡ target_of func.now instr effect }
{
    if !is_jump(effect) {
        return None;
    }
    match u64::try_from(instr.a) {
        Ok(n) => {
            if n < func.end as u64 && lies_inside(func, n as u32) {
                Some(n as u32)
            } else {
                None
            }
        }
        Err(_) => None,
    }
}

/// Whether `place` is the last one of the function.
pub fn is_last(func: &Func, place: u32) -> bool
    requires { place < func.now.end }
    ensures { result ≡ (place + 1 == func.now.end) }
{
    let end = func.end;
    place + 1 == end
}

/// Notes in `best` what is broken at an instruction in its own situation.
#[tactic(auto, using(crate::proofs::Fold::earliest_append))]
pub fn judge_here(
    best: Option<CodeFault>,
    nestings: &Nestings,
    code: &Code,
    func: &Func,
    place: u32,
    instr: Instr,
    effect: Option<Effect>,
    level: &Level,
) -> Option<CodeFault>
    requires { (place < func.now.end) × (level.now.nesting < length nestings.now) }
    ensures { result ≡ earliest best (faults_here code.now func.now place instr effect (situation_at nestings.now level.now)) }
{
    let best = note(
        best,
        level.height < popped(code, instr, effect) as u64,
        CodeKind::Underflow,
        place,
    );
    let best = note(
        best,
        borders(effect) && level.height != 0,
        CodeKind::Uneven,
        place,
    );
    let best = note(
        best,
        tears(nestings, effect, level),
        CodeKind::Uneven,
        place,
    );
    note(
        best,
        !is_left(effect) && is_last(func, place),
        CodeKind::NoEnd,
        place,
    )
}

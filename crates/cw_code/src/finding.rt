ghost use Rattle.std.specs.Prelude.{◌≡◌, ℕ, ◌+◌, ◌-◌, ◌<◌, ◌≤◌, Bool, List, Option, length, slice_get, slice_index_or, Some, None, IfOk, IfSome, ◌==◌, nat_lt, nat_le, ◌&&◌, [], ◌∷◌, replicate, ◌*◌, true, ◌++◌, if◌then◌else◌};
ghost use Rattle.cw_code.specs.Nested.{Nested, IsGrown, parts_at, situation_at, level_at, level_on_arrival, seen, IsBelow, AreBelow, give_level, none_yet};
ghost use Rattle.cw_code.specs.Rules.{earliest, effect_of, situation_faults, uneven_faults, same, known_at, faults_at, place_faults, offered, visit, pass, places_after_passes, begun, places, size_of, head_faults, is_laid, faults_from, faults, inside};

use crate::effects::Effect;
use crate::instruction::{Code, CodeFault, CodeKind, Func, Instr};
use crate::nestings::Nestings;
use crate::situation::{Arrival, Level};
use crate::{judging, table, walking};
use cw_base::OutOfMemory;
use std::alloc::Global;

/// Whether `known` and `level` are the same situation.
fn is_same(nestings: &Nestings, known: Option<Level>, level: &Level) -> bool
    requires known { IsBelow (length nestings.now) known }
    requires level { level.now.nesting < length nestings.now }
    ensures { result ≡ same (level_at nestings.now known) (situation_at nestings.now level.now) }
{
    match known {
        None => false,
        Some(k) => k.height == level.height && nestings.are_same(k.nesting, level.nesting),
    }
}

/// The level that is kept for `place` of the function.
fn kept(func: &Func, places: &[Option<Arrival>], place: u32) -> Option<Level>
    requires { (func.now.start ≤ place) × (place < func.now.end) × (length places.now ≡ size_of func.now) }
    ensures { result ≡ level_on_arrival (slice_index_or places.now (place - func.now.start) None) }
{
    match places[(place - func.start) as usize] {
        None => None,
        Some(arrival) => Some(arrival.level),
    }
}

/// Notes in `best` a fault if `level`, which comes into the place `to`, differs from what is kept there.
fn judge_way(
    best: Option<CodeFault>,
    nestings: &Nestings,
    func: &Func,
    places: &[Option<Arrival>],
    to: Option<u32>,
    level: &Level,
) -> Option<CodeFault>
    requires inside { (length places.now ≡ size_of func.now) × ((target : ℕ) → to ≡ Some target → (func.now.start ≤ target) × (target < func.now.end)) }
    requires places { AreBelow (length nestings.now) places.now }
    requires level { level.now.nesting < length nestings.now }
    ensures { result ≡ earliest best (uneven_faults func.now (seen nestings.now places.now) to (situation_at nestings.now level.now)) }
{
    match to {
        None => best,
        Some(target) => judging::note(
            best,
            !is_same(nestings, kept(func, places, target), level),
            CodeKind::Uneven,
            target,
        ),
    }
}

/// Notes in `best` what is broken at an instruction in its situation, and at the places that it leads to.
#[tactic(auto, using(crate::proofs::Fold::earliest_append, crate::proofs::Fold::next_inside, crate::proofs::Fold::target_inside))]
fn judge_level(
    best: Option<CodeFault>,
    nestings: &mut Nestings,
    code: &Code,
    func: &Func,
    places: &[Option<Arrival>],
    place: u32,
    instr: Instr,
    effect: Option<Effect>,
    level: &Level,
) -> Result<Option<CodeFault>, OutOfMemory>
    requires inside { (place < func.now.end) × (length places.now ≡ size_of func.now) }
    requires places { AreBelow (length nestings.old) places.now }
    requires level { level.now.nesting < length nestings.old }
    ensures grown { IsGrown nestings.old nestings.new }
    ensures first { IfOk result (λ r. r ≡ earliest best (situation_faults code.now func.now (seen nestings.old places.now) place instr effect (situation_at nestings.old level.now))) }
{
    let ahead = judging::ahead(nestings, code, instr, effect, level)?;
    let away = judging::after(nestings, code, instr, effect, level)?;
    let best = judging::judge_here(best, nestings, code, func, place, instr, effect, level);
    let behind = judging::next(func, place, effect);
    let best = judge_way(best, nestings, func, places, behind, &ahead);
    let target = judging::target(func, instr, effect);
    Ok(judge_way(best, nestings, func, places, target, &away))
}

/// Notes in `best` all that is broken at `place`.
#[tactic(auto, using(crate::proofs::Fold::earliest_append))]
fn judge_place(
    best: Option<CodeFault>,
    nestings: &mut Nestings,
    code: &Code,
    func: &Func,
    places: &[Option<Arrival>],
    place: u32,
) -> Result<Option<CodeFault>, OutOfMemory>
    requires inside { (func.now.start ≤ place) × (place < func.now.end) × (length places.now ≡ size_of func.now) }
    requires places { AreBelow (length nestings.old) places.now }
    ensures grown { IsGrown nestings.old nestings.new }
    ensures first { IfOk result (λ r. r ≡ earliest best (faults_at code.now func.now (seen nestings.old places.now) place (slice_get code.now.instrs place) (known_at func.now (seen nestings.old places.now) place))) }
{
    match code.instr(place) {
        None => Ok(best),
        Some(instr) => {
            let effect = table::effect_at(instr.op);
            let best = judging::operand(best, code, func, place, instr, effect);
            match kept(func, places, place) {
                None => Ok(best),
                Some(level) => judge_level(
                    best, nestings, code, func, places, place, instr, effect, &level,
                ),
            }
        }
    }
}

/// Notes in `best` all that is broken at the places of a function.
#[tactic(auto, using(crate::proofs::Fold::earliest_append))]
fn judge_places(
    best: Option<CodeFault>,
    nestings: &mut Nestings,
    code: &Code,
    func: &Func,
    places: &[Option<Arrival>],
) -> Result<Option<CodeFault>, OutOfMemory>
    requires inside { (func.now.start ≤ func.now.end) × (length places.now ≡ size_of func.now) }
    requires places { AreBelow (length nestings.old) places.now }
    ensures { IfOk result (λ r. r ≡ earliest best (place_faults code.now func.now (seen nestings.old places.now) (size_of func.now))) }
{
    let mut first = best;
    for n in 0..(func.end - func.start) {
        first = judge_place(first, nestings, code, func, places, func.start + n)?;
    }
    Ok(first)
}

/// Offers `level`, which comes from `place`, to the place `to`. That keeps what a smaller place gave.
fn offer(func: &Func, to: Option<u32>, place: u32, level: Level, places: &mut [Option<Arrival>])
    requires { (length places.old ≡ size_of func.now) × ((target : ℕ) → to ≡ Some target → (func.now.start ≤ target) × (target < func.now.end)) }
    ensures { places.new ≡ give_level func.now to place level places.old }
{
    match to {
        None => {}
        Some(target) => {
            if target > func.start {
                let at = (target - func.start) as usize;
                match places[at] {
                    None => places[at] = Some(Arrival { from: place, level }),
                    Some(arrival) => {
                        if place <= arrival.from {
                            places[at] = Some(Arrival { from: place, level });
                        }
                    }
                }
            }
        }
    }
}

/// Gives what the instruction at the function's place `n` leaves to the places that it leads to.
#[tactic(auto, using(crate::proofs::Fold::next_inside, crate::proofs::Fold::target_inside))]
fn visit_place(
    nestings: &mut Nestings,
    code: &Code,
    func: &Func,
    n: u32,
    places: &mut [Option<Arrival>],
) -> Result<(), OutOfMemory>
    requires inside { (func.now.start + n < func.now.end) × (length places.old ≡ size_of func.now) }
    requires places { AreBelow (length nestings.old) places.old }
    ensures length { length places.new ≡ length places.old }
    ensures grown { IsGrown nestings.old nestings.new }
    ensures below { AreBelow (length nestings.new) places.new }
    ensures visited { IfOk result (λ _. seen nestings.new places.new ≡ visit code.now func.now (func.now.start + n) (slice_get code.now.instrs (func.now.start + n)) (slice_index_or (seen nestings.old places.old) n None) (seen nestings.old places.old)) }
{
    let place = func.start + n;
    let instr = match code.instr(place) {
        None => return Ok(()),
        Some(instr) => instr,
    };
    match places[n as usize] {
        None => Ok(()),
        Some(arrival) => {
            let effect = table::effect_at(instr.op);
            let ahead = judging::ahead(nestings, code, instr, effect, &arrival.level)?;
            let away = judging::after(nestings, code, instr, effect, &arrival.level)?;
            offer(
                func,
                judging::next(func, place, effect),
                place,
                ahead,
                places,
            );
            offer(
                func,
                judging::target(func, instr, effect),
                place,
                away,
                places,
            );
            Ok(())
        }
    }
}

/// Visits each place of the function once.
#[tactic(auto, using(crate::proofs::Seen::below_grown))]
fn pass_places(
    nestings: &mut Nestings,
    code: &Code,
    func: &Func,
    places: &mut [Option<Arrival>],
) -> Result<(), OutOfMemory>
    requires inside { (func.now.start ≤ func.now.end) × (length places.old ≡ size_of func.now) }
    requires places { AreBelow (length nestings.old) places.old }
    ensures length { length places.new ≡ length places.old }
    ensures grown { IsGrown nestings.old nestings.new }
    ensures below { AreBelow (length nestings.new) places.new }
    ensures passed { IfOk result (λ _. seen nestings.new places.new ≡ pass code.now func.now (size_of func.now) (seen nestings.old places.old)) }
{
    for n in 0..(func.end - func.start) {
        visit_place(nestings, code, func, n, places)?;
    }
    Ok(())
}

/// Whether two places have the same level, from the same place.
fn is_like(a: Option<Arrival>, b: Option<Arrival>) -> bool
    ensures same { result ≡ true → a ≡ b }
    ensures told { a ≡ b → result ≡ true }
{
    match a {
        None => b.is_none(),
        Some(x) => match b {
            None => false,
            Some(y) => x.from == y.from
                && x.level.height == y.level.height
                && x.level.nesting == y.level.nesting,
        },
    }
}

/// Whether all places of `a` and `b` are alike.
#[tactic(auto, using(crate::proofs::Seen::same_elements))]
fn are_equal(a: &[Option<Arrival>], b: &[Option<Arrival>]) -> bool
    ensures same { result ≡ true → a.now ≡ b.now }
    ensures told { a.now ≡ b.now → result ≡ true }
{
    if a.len() != b.len() {
        return false;
    }
    for index in 0..a.len() {
        if !is_like(a[index], b[index]) {
            return false;
        }
    }
    true
}

/// Returns the places of a function before the first pass: only its start has a level.
#[tactic(auto, using(crate::proofs::Seen::more_none))]
fn begin(func: &Func, size: u32, alloc: Global) -> Result<Vec<Option<Arrival>>, OutOfMemory>
    ensures { IfOk result (λ t. t.items ≡ none_yet func.now size) }
{
    let mut places = Vec::new(alloc);
    for n in 0..size {
        let arrival = if n == 0 {
            Some(Arrival {
                from: func.start,
                level: Level {
                    height: 0,
                    nesting: 0,
                },
            })
        } else {
            None
        };
        places.push(arrival)?;
    }
    Ok(places)
}

/// Visits each place once. Returns whether that changed nothing.
fn turn(
    nestings: &mut Nestings,
    code: &Code,
    func: &Func,
    places: &mut [Option<Arrival>],
    alloc: Global,
) -> Result<bool, OutOfMemory>
    requires inside { (func.now.start ≤ func.now.end) × (length places.old ≡ size_of func.now) }
    requires places { AreBelow (length nestings.old) places.old }
    ensures length { length places.new ≡ length places.old }
    ensures grown { IsGrown nestings.old nestings.new }
    ensures below { AreBelow (length nestings.new) places.new }
    ensures passed { IfOk result (λ _. seen nestings.new places.new ≡ pass code.now func.now (size_of func.now) (seen nestings.old places.old)) }
    ensures same { IfOk result (λ b. b ≡ true → places.new ≡ places.old) }
    ensures told { IfOk result (λ b. places.new ≡ places.old → b ≡ true) }
{
    let before = places.to_vec(alloc)?;
    pass_places(nestings, code, func, places)?;
    Ok(are_equal(places, &before))
}

/// Returns the situations at the places of a function.
fn situations(
    nestings: &mut Nestings,
    code: &Code,
    func: &Func,
    alloc: Global,
) -> Result<Vec<Option<Arrival>>, OutOfMemory>
    requires inside { func.now.start ≤ func.now.end }
    requires nothing { nestings.old ≡ [] ∷ [] }
    ensures known { IfOk result (λ t. seen nestings.new t.items ≡ places code.now func.now) }
    ensures length { IfOk result (λ t. length t.items ≡ size_of func.now) }
    ensures below { IfOk result (λ t. AreBelow (length nestings.new) t.items) }
{
    let size = func.end - func.start;
    let mut places = begin(func, size, alloc)?;
    for _ in 0..(size as u64 + size as u64) {
        if turn(nestings, code, func, &mut places, alloc)? {
            return Ok(places);
        }
    }
    Ok(places)
}

/// Whether the function begins at `at`, where the one before it ended, and lies within the code.
fn lies_well(code: &Code, at: u32, func: &Func) -> bool
    ensures { result ≡ is_laid code.now at func.now }
{
    func.start == at && func.start <= func.end && func.end as usize <= code.instrs.len()
}

/// Notes in `best` what is broken of a function as a whole.
#[tactic(auto, using(crate::proofs::Fold::earliest_append))]
fn judge_head(best: Option<CodeFault>, code: &Code, at: u32, func: &Func) -> Option<CodeFault>
    ensures { result ≡ earliest best (head_faults code.now at func.now) }
{
    let best = judging::note(
        best,
        func.locals < func.params,
        CodeKind::Underflow,
        func.start,
    );
    let best = judging::note(
        best,
        !lies_well(code, at, func),
        CodeKind::JumpOut,
        func.start,
    );
    judging::note(best, func.end <= func.start, CodeKind::NoEnd, func.start)
}

/// Notes in `best` what is broken at the places of a function.
fn judge_body(
    best: Option<CodeFault>,
    code: &Code,
    func: &Func,
    alloc: Global,
) -> Result<Option<CodeFault>, OutOfMemory>
    requires { func.now.start ≤ func.now.end }
    ensures { IfOk result (λ r. r ≡ earliest best (place_faults code.now func.now (places code.now func.now) (size_of func.now))) }
{
    if walking::is_walked(code, func, alloc)? {
        return Ok(best);
    }
    let mut nestings = Nestings::new(alloc)?;
    let places = situations(&mut nestings, code, func, alloc)?;
    judge_places(best, &mut nestings, code, func, &places)
}

/// Notes in `best` what is broken of a function, and at its places if it and all before it lie well.
#[tactic(auto, using(crate::proofs::Fold::earliest_append))]
fn judge_function(
    best: Option<CodeFault>,
    code: &Code,
    well: bool,
    at: u32,
    func: &Func,
    alloc: Global,
) -> Result<Option<CodeFault>, OutOfMemory>
    requires { well ≡ true → func.now.start ≤ func.now.end }
    ensures { IfOk result (λ r. r ≡ earliest best (head_faults code.now at func.now ++ (if well then place_faults code.now func.now (places code.now func.now) (size_of func.now) else []))) }
{
    let best = judge_head(best, code, at, func);
    if well {
        judge_body(best, code, func, alloc)
    } else {
        Ok(best)
    }
}

/// Whether the function and all before it lie well. `laid` says it of those before it.
fn is_well(laid: bool, code: &Code, at: u32, func: &Func) -> bool
    ensures value { result ≡ (laid && is_laid code.now at func.now) }
    ensures range { result ≡ true → func.now.start ≤ func.now.end }
{
    laid && lies_well(code, at, func)
}

/// Returns the first fault of the code, or `None` if it breaks no rule.
#[tactic(auto, using(crate::proofs::Fold::next_function))]
pub fn first_fault(code: &Code, alloc: Global) -> Result<Option<CodeFault>, OutOfMemory>
    ensures { IfOk result (λ r. r ≡ earliest None (faults code.now)) }
{
    let mut best = None;
    let mut laid = true;
    let mut at: u32 = 0;
    for n in 0..code.funcs.len() {
        let func = match code.func(n as u64) {
            Some(func) => func,
            None => unreachable!(),
        };
        laid = is_well(laid, code, at, &func);
        best = judge_function(best, code, laid, at, &func, alloc)?;
        at = func.end;
    }
    Ok(judging::note(
        best,
        (at as usize) < code.instrs.len(),
        CodeKind::JumpOut,
        at,
    ))
}

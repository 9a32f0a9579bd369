//! A strand that is walked: it goes where a log tells.
ghost use Rattle.std.specs.Prelude.{◌≡◌, ℕ, IfOk, IfSome, IsTrue, length, true};
ghost use Rattle.cw_body.specs.declared.stage.Stage.TheVariants.{Goes, GaveUp};
ghost use Rattle.cw_body.specs.Bodies.{AnswersAct, want_of};
ghost use Rattle.cw_strand.specs.Strands.{AreElements, is_over};
ghost use Rattle.cw_job.specs.Jobs.{TakesWords};
ghost use Rattle.tests_pool.specs.Levels.{AreUnder, levels_at};

use crate::walk::Why;
use cw_base::{Seq, Stack};
use cw_body::Body;
use cw_code::{Back, Limits, Program};
use cw_strand::{Given, Want};
use cw_tree::Kind;
use std::alloc::Global;

/// A strand that goes on: its body, the number of forks of which it is the right strand, and that number at the begin of each
/// pending block around it, innermost first.
#[derive(Drop)]
pub(crate) struct Walker<'a> {
    program: &'a Program,
    body: Body,
    level: u64,
    levels: Stack<u64>,
    ghost goes: { body.stage ≡ Goes },
    ghost of: { body.program ≡ program.now },
    ghost around: { levels ≡ levels_at level body.begins },
}

/// A strand that goes no further from where it stands, but may go back.
#[derive(Drop)]
pub(crate) struct Fallen<'a> {
    program: &'a Program,
    body: Body,
    level: u64,
    levels: Stack<u64>,
    ghost gave_up: { body.stage ≡ GaveUp },
    ghost of: { body.program ≡ program.now },
    ghost around: { levels ≡ levels_at level body.begins },
}

/// Whether all levels are below `level`.
fn are_below(levels: &Stack<u64>, level: u64) -> Result<bool, Why>
    ensures { IfOk result (λ b. IsTrue b → AreUnder level levels.now) }
{
    let mut left = levels.copy()?;
    for _ in 0..u64::MAX {
        match left.pop() {
            None => return Ok(true),
            Some(one) => {
                if one >= level {
                    return Ok(false);
                }
            }
        }
    }
    Err(Why::Memory)
}

/// Returns the value that was read, if this is a read of the cell `wanted`.
fn read_of(kind: &Kind, wanted: u32) -> Option<i64> {
    match kind {
        Kind::Read { cell, value } => { if *cell == wanted { Some(*value) } else { None } }
        _ => None,
    }
}

fn is_write(kind: &Kind, wanted: u32, new: i64) -> bool {
    match kind {
        Kind::Write { cell, value } => *cell == wanted && *value == new,
        _ => false,
    }
}

fn is_out(kind: &Kind, wanted: i64) -> bool {
    match kind {
        Kind::Out { value } => *value == wanted,
        _ => false,
    }
}

/// Returns the answer that this node gives, if the strand wants the act that made it.
fn given(want: Want, kind: &Kind) -> Option<Given>
    ensures { IfSome result (λ given. (elements : ℕ) → AnswersAct elements want given) }
{
    match want {
        Want::Load(cell) => {
            let value = read_of(kind, cell)?;
            Some(Given::Value(value))
        }
        Want::Store(cell, value) => {
            if is_write(kind, cell, value) {
                Some(Given::Nothing)
            } else {
                None
            }
        }
        Want::Out(value) => {
            if is_out(kind, value) {
                Some(Given::Nothing)
            } else {
                None
            }
        }
        _ => None,
    }
}

/// Whether each value goes back to one of so many elements.
fn are_elements(elements: u32, back: &[Back]) -> bool
    ensures { IsTrue result → AreElements elements back.now }
{
    for one in back {
        if one.cell >= elements {
            return false;
        }
    }
    true
}

/// What is answered where a strand is walked no further.
fn lost(body: Body, levels: Stack<u64>, why: Why) -> Why {
    drop(body);
    drop(levels);
    why
}

impl<'a> Walker<'a> {
    /// Starts the strand of main.
    pub(crate) fn main(
        alloc: Global,
        program: &'a Program,
        words: &[i64],
        limits: Limits,
    ) -> Result<Walker<'a>, Why>
        requires { TakesWords program.now (length words.now) }
    {
        let body = Body::start(alloc, program, words, limits)?;
        Ok(Walker {
            program,
            body,
            level: 0,
            levels: Stack::new(alloc),
        })
    }

    pub(crate) fn want(&self) -> Option<Want> {
        self.body.want()
    }

    /// Whether the strand wants to read or write `cell`.
    pub(crate) fn is_at(&self, cell: u32) -> bool {
        match self.body.want() {
            Some(Want::Load(wanted)) => wanted == cell,
            Some(Want::Store(wanted, _)) => wanted == cell,
            _ => false,
        }
    }

    /// Whether the strand has come to its end.
    pub(crate) fn is_over(&self) -> bool
        ensures { IsTrue result → is_over (want_of self.now.body) ≡ true }
    {
        matches!(self.body.want(), Some(Want::Sync | Want::Done))
    }

    /// Goes to the next want.
    fn runs(self) -> Result<Walker<'a>, Why> {
        let mut walker = self;
        let program = walker.program;
        match walker.body.run(program) {
            Ok(_) => {}
            Err(_) => return Err(lost(walker.body, walker.levels, Why::Memory)),
        }
        Ok(walker)
    }

    /// Goes on behind an access or an output.
    pub(crate) fn acts(self, kind: &Kind) -> Result<Walker<'a>, Why> {
        let mut walker = self;
        let Some(want) = walker.body.want() else {
            return Err(lost(walker.body, walker.levels, Why::Want));
        };
        let Some(given) = given(want, kind) else {
            return Err(lost(walker.body, walker.levels, Why::Want));
        };
        let program = walker.program;
        match walker.body.answer(given, program) {
            Ok(()) => {}
            Err(_) => return Err(lost(walker.body, walker.levels, Why::Memory)),
        }
        Ok(walker)
    }

    /// Goes on to put back what the list of a cancel tells.
    pub(crate) fn cancels(self, alloc: Global, back: &[Back]) -> Result<Walker<'a>, Why> {
        let mut walker = self;
        let Some(Want::Cancel) = walker.body.want() else {
            return Err(lost(walker.body, walker.levels, Why::Want));
        };
        let program = walker.program;
        if !are_elements(program.code.code().cells, back) {
            return Err(lost(walker.body, walker.levels, Why::Want));
        }
        let list = match Vec::from_slice(alloc, back) {
            Ok(list) => Seq::from_vec(list),
            Err(_) => return Err(lost(walker.body, walker.levels, Why::Memory)),
        };
        match walker.body.answer(Given::Back(list), program) {
            Ok(()) => {}
            Err(_) => return Err(lost(walker.body, walker.levels, Why::Memory)),
        }
        Ok(walker)
    }

    /// Goes on in a block.
    pub(crate) fn begins(self) -> Result<Walker<'a>, Why> {
        let mut walker = self;
        let Some(Want::Begin) = walker.body.want() else {
            return Err(lost(walker.body, walker.levels, Why::Want));
        };
        let program = walker.program;
        match walker.body.begins(program) {
            Ok(()) => {}
            Err(_) => return Err(lost(walker.body, walker.levels, Why::Memory)),
        }
        let level = walker.level;
        match walker.levels.push(level) {
            Ok(()) => {}
            Err(_) => return Err(lost(walker.body, walker.levels, Why::Memory)),
        }
        Ok(walker)
    }

    /// Goes on behind the innermost block.
    pub(crate) fn ends(self) -> Result<Walker<'a>, Why> {
        let Walker {
            program,
            mut body,
            level,
            mut levels,
        } = self;
        let Some(Want::End) = body.want() else {
            return Err(lost(body, levels, Why::Want));
        };
        let Some(_) = levels.pop() else {
            return Err(lost(body, levels, Why::Want));
        };
        match body.ends(program) {
            Ok(()) => {}
            Err(_) => return Err(lost(body, levels, Why::Memory)),
        }
        Ok(Walker {
            program,
            body,
            level,
            levels,
        })
    }

    /// Returns the left and the right strand of a fork.
    pub(crate) fn forks(self, alloc: Global) -> Result<(Walker<'a>, Walker<'a>), Why> {
        let mut right = self;
        let Some(Want::Fork) = right.body.want() else {
            return Err(lost(right.body, right.levels, Why::Want));
        };
        let Some(level) = right.level.checked_add(1) else {
            return Err(lost(right.body, right.levels, Why::Memory));
        };
        let program = right.program;
        let body = match right.body.fork(alloc, program) {
            Ok(body) => body,
            Err(_) => return Err(lost(right.body, right.levels, Why::Memory)),
        };
        right.level = level;
        let left = Walker {
            program,
            body,
            level: 0,
            levels: Stack::new(alloc),
        };
        let left = match left.runs() {
            Ok(left) => left,
            Err(why) => {
                drop(right);
                return Err(why);
            }
        };
        Ok((left, right.runs()?))
    }

    /// Joins a fork: this right strand becomes the strand that forked.
    pub(crate) fn joins(self, left: Walker<'a>) -> Result<Walker<'a>, Why> {
        let mut right = self;
        let Walker { body, levels, .. } = left;
        drop(levels);
        if !right.is_over() {
            drop(body);
            return Err(lost(right.body, right.levels, Why::Want));
        }
        let below = match are_below(&right.levels, right.level) {
            Ok(below) => below,
            Err(why) => {
                drop(body);
                return Err(lost(right.body, right.levels, why));
            }
        };
        if !below {
            drop(body);
            return Err(lost(right.body, right.levels, Why::Want));
        }
        let program = right.program;
        match right.body.join(body, program) {
            Ok(()) => {}
            Err(_) => return Err(lost(right.body, right.levels, Why::Memory)),
        }
        right.level = right.level.saturating_sub(1);
        right.runs()
    }

    /// Gives up: goes no further.
    pub(crate) fn falls(self) -> Fallen<'a> {
        let Walker {
            program,
            mut body,
            level,
            levels,
        } = self;
        body.gives_up();
        Fallen {
            program,
            body,
            level,
            levels,
        }
    }
}

impl<'a> Fallen<'a> {
    pub(crate) fn want(&self) -> Option<Want> {
        self.body.want()
    }

    /// Leaves the innermost block around it pending.
    pub(crate) fn leaves(self) -> Result<Fallen<'a>, Why> {
        let Fallen {
            program,
            mut body,
            level,
            mut levels,
        } = self;
        let Some(_) = levels.pop() else {
            return Err(lost(body, levels, Why::Want));
        };
        body.forget();
        Ok(Fallen {
            program,
            body,
            level,
            levels,
        })
    }

    /// Goes on from the begin of the innermost block around it, which was rolled back.
    pub(crate) fn back(self) -> Result<Walker<'a>, Why> {
        let Fallen {
            program,
            mut body,
            level: _,
            mut levels,
        } = self;
        let Some(level) = levels.pop() else {
            return Err(lost(body, levels, Why::Want));
        };
        let Some(above) = level.checked_add(1) else {
            return Err(lost(body, levels, Why::Memory));
        };
        let Some(want) = body.want() else {
            return Err(lost(body, levels, Why::Want));
        };
        if matches!(want, Want::End) {
            return Err(lost(body, levels, Why::Want));
        }
        let below = match are_below(&levels, above) {
            Ok(below) => below,
            Err(why) => return Err(lost(body, levels, why)),
        };
        if !below {
            return Err(lost(body, levels, Why::Want));
        }
        body.back();
        Ok(Walker {
            program,
            body,
            level,
            levels,
        })
    }
}

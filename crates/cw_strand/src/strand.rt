ghost use Rattle.std.specs.Prelude.{◌≡◌, length, IfOk};

mod acting;
mod calls;
mod cells;
mod copying;
mod locals;
mod operands;
mod saving;
mod scopes;

use crate::led::Led;
use crate::scopes::Scopes;
use crate::{Given, Want};
use calls::take_locals;
use cw_base::{OutOfMemory, Seq, Stack};
use cw_code::{Back, Limits, Program};
pub use saving::Saved;
use std::alloc::Global;
use std::marker::Model;

/// A function that waits for a return.
#[derive(Drop)]
struct Frame {
    /// Where it goes on.
    place: usize,
    operands: Stack<i64>,
    locals: Vec<i64>,
}

impl Model for Frame {
    ghost use Rattle.cw_strand.specs.Coded.{Frame as Standing};

    ghost Value = { Standing };

    ghost view = { λ f. record { place = f.place; operands = f.operands; locals = f.locals.items } };
}

/// A strand of code: its current function, the functions that wait for it, and what was counted.
#[derive(Drop)]
pub struct Strand {
    place: usize,
    operands: Stack<i64>,
    locals: Vec<i64>,
    callers: Stack<Frame>,
    /// For each scope that waits at its end, how many forks it waits for.
    scopes: Scopes,
    fuel: u64,
    /// Past the limit only if two strands were joined.
    size: u64,
    /// Where the left strand of the newest fork begins.
    beside: usize,
    /// What the strand has to write back, and how much of it is written.
    back: Seq<Back>,
    written: usize,
    limits: Limits,
}

impl Model for Strand {
    ghost use Rattle.std.specs.Prelude.{drop};
    ghost use Rattle.cw_strand.specs.Coded.{State};

    ghost Value = { State };

    ghost view = { λ s. record {
      current = record { place = s.place; operands = s.operands; locals = s.locals.items };
      callers = s.callers;
      scopes = s.scopes;
      fuel = s.fuel;
      size = s.size;
      beside = s.beside;
      back = drop s.written s.back;
      limits = s.limits;
    } };
}

impl Strand {
    ghost use Rattle.cw_code.specs.declared.instruction.Code.{Code};
    ghost use Rattle.cw_strand.specs.declared.want.Want.TheVariants.{Fork};
    ghost use Rattle.cw_strand.specs.Coded.{MainTakes, runs, left as left_of, joined as joined_of};
    ghost use Rattle.cw_strand.specs.Standing.{StandsIn, StandsWanting, NextFrom};

    /// Returns the strand of a program's main, with the words of the command, before its first step.
    pub fn main(
        alloc: Global,
        program: &Program,
        words: &[i64],
        limits: Limits,
    ) -> Result<Strand, OutOfMemory>
        requires { MainTakes program.now.code program.now.main (length words.now) }
        ensures first { IfOk result (λ s. s ≡ (runs program.now.code program.now.main words.now limits).first) }
        ensures stands { IfOk result (λ s. StandsIn program.now.code s) }
    {
        let Some(func) = program.code.code().func(u64::from(program.main)) else {
            unreachable!()
        };
        let mut arguments = Stack::new(alloc);
        for word in words {
            arguments.push(*word)?;
        }
        let mut scopes = Scopes::new(alloc);
        scopes.push(0)?;
        Ok(Strand {
            place: func.start as usize,
            operands: Stack::new(alloc),
            locals: take_locals(alloc, &mut arguments, &func)?,
            callers: Stack::new(alloc),
            scopes,
            fuel: 0,
            size: 0,
            beside: 0,
            back: Seq::new(alloc),
            written: 0,
            limits,
        })
    }

    /// Answers the want with `given` and goes on to the next want.
    pub fn next(&mut self, program: &Program, given: Given) -> Result<Want, OutOfMemory>
        requires { StandsIn program.now.code self.old }
        ensures next { IfOk result (λ w. NextFrom program.now.code self.old given w self.new) }
        ensures stands { IfOk result (λ w. StandsWanting program.now.code w self.new) }
    {
        let code = program.code.code();
        self.answer(given)?;
        'steps: loop {
            match self.step(code)? {
                Led::On => {}
                Led::Wants(want) => return Ok(want),
            }
        }
    }

    /// Returns the left strand of the newest fork, before its first step. This strand goes on as the right one.
    pub fn fork(&mut self) -> Result<Strand, OutOfMemory>
        ensures left { IfOk result (λ s. s ≡ left_of self.old) }
        ensures right { self.new ≡ self.old }
        ensures stands { (code : Code) → StandsWanting code Fork self.old → IfOk result (λ s. StandsIn code s) }
    {
        let alloc = *self.locals.allocator();
        let mut scopes = Scopes::new(alloc);
        scopes.push(0)?;
        Ok(Strand {
            place: self.beside,
            operands: Stack::new(alloc),
            locals: self.locals.clone()?,
            callers: Stack::new(alloc),
            scopes,
            fuel: self.fuel,
            size: 0, // what it counts is added where it is joined
            beside: self.beside,
            back: Seq::new(alloc),
            written: 0,
            limits: self.limits,
        })
    }

    /// Joins the left strand to this one, the right strand, which has ended and goes on as the strand that forked. If
    /// one of the two was given up before its end, this strand stays at its place, as the strand that forked. Takes no
    /// memory.
    pub fn joined(&mut self, left: Strand)
        ensures joined { self.new ≡ joined_of self.old left }
        ensures stands { (code : Code) → StandsIn code self.old → StandsIn code self.new }
    {
        self.fuel = self.fuel.max(left.fuel);
        let past = u64::from(self.limits.size) + 1;
        self.size = self.size.max(left.size.saturating_add(self.size).min(past));
    }
}

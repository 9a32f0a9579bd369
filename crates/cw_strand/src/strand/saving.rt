ghost use Rattle.std.specs.Prelude.{◌≡◌, ◌<◌, [], ◌∷◌, length, IfOk};
ghost use Rattle.cw_strand.specs.Saving.{kept_of, lowest, MayGoBack};

use super::Strand;
use cw_base::{OutOfMemory, Seq, Stack};
use std::marker::Model;

/// What is kept of the begin of a block: what a strand needs to be there again, and no more.
#[derive(Drop)]
pub struct Saved {
    place: usize,
    locals: Vec<i64>,
    /// How many functions wait, and how many scopes are open around the block. Neither changes while the block lasts.
    callers: usize,
    scopes: usize,
    fuel: u64,
    size: u64,
    beside: usize,
}

impl Model for Saved {
    ghost use Rattle.cw_strand.specs.Saving.{Kept};

    ghost Value = { Kept };

    ghost view = { λ s. record {
      place = s.place;
      locals = s.locals.items;
      callers = s.callers;
      scopes = s.scopes;
      fuel = s.fuel;
      size = s.size;
      beside = s.beside;
    } };
}

impl Strand {
    /// Keeps the state at the begin of a block that was just wanted. Costs what the one current function costs.
    pub fn save(&self) -> Result<Saved, OutOfMemory>
        ensures { IfOk result (λ s. s ≡ kept_of self.now) }
    {
        Ok(Saved {
            place: self.place,
            locals: self.locals.clone()?,
            callers: self.callers.len(),
            scopes: self.scopes.len().saturating_sub(1),
            fuel: self.fuel,
            size: self.size,
            beside: self.beside,
        })
    }

    /// Goes back to the begin of a block that the strand is inside: to exactly the state of that begin, whose want is
    /// not answered. Takes no memory.
    pub fn back(&mut self, saved: &Saved)
        requires { MayGoBack saved.now self.old }
        ensures { (m : MayGoBack saved.now self.old) → self.new ≡ m.begin.state }
    {
        while self.callers.len() > saved.callers {
            self.leave();
        }
        self.stand_again(saved);
    }

    /// Replaces the current function by the nearest one that waits.
    fn leave(&mut self)
        requires { 0 < length self.old.callers }
        ensures functions { self.old.callers ≡ self.new.current ∷ self.new.callers }
        ensures rest { self.new ≡ record self.old { current = self.new.current; callers = self.new.callers } }
    {
        let Some(frame) = self.callers.pop() else {
            unreachable!()
        };
        self.place = frame.place;
        self.operands = frame.operands;
        self.locals = frame.locals;
    }

    /// Puts the function that began the block back to the begin, and takes back what was spent and counted since.
    fn stand_again(&mut self, saved: &Saved)
        requires locals { length self.old.current.locals ≡ length saved.now.locals }
        requires scopes { saved.now.scopes < length self.old.scopes }
        ensures { self.new ≡ record {
          current = record { place = saved.now.place; operands = []; locals = saved.now.locals };
          callers = self.old.callers;
          scopes = 0 ∷ lowest saved.now.scopes self.old.scopes;
          fuel = saved.now.fuel;
          size = saved.now.size;
          beside = saved.now.beside;
          back = [];
          limits = self.old.limits;
        } }
    {
        let alloc = *self.locals.allocator();
        self.operands = Stack::new(alloc);
        self.locals.copy_from_slice(&saved.locals);
        self.scopes.reopen(saved.scopes);
        self.place = saved.place;
        self.fuel = saved.fuel;
        self.size = saved.size;
        self.beside = saved.beside;
        self.back = Seq::new(alloc);
        self.written = 0;
    }
}

ghost use Rattle.std.specs.Prelude.{◌≡◌, ◌<◌, [], ◌∷◌, length, drop, MatchOption, IfOk, OnOk, OnErr};
ghost use Rattle.cw_strand.specs.Meaning.{one_inside};
ghost use Rattle.cw_strand.specs.Saving.{lowest};

use cw_base::OutOfMemory;
use std::alloc::Global;
use std::marker::Model;

/// The open scopes, each with how many forks it waits for at its end. Contracts see the innermost first.
#[derive(Drop)]
pub struct Scopes {
    forks: Vec<u32>,
}

impl Model for Scopes {
    ghost use Rattle.std.specs.Prelude.{ℕ, List, reverse};

    ghost Value = { List ℕ };

    ghost view = { λ s. reverse s.forks.items };
}

impl Scopes {
    pub fn new(alloc: Global) -> Scopes
        ensures { result ≡ [] }
    {
        Scopes {
            forks: Vec::new(alloc),
        }
    }

    pub fn len(&self) -> usize
        ensures { result ≡ length self.now }
    {
        self.forks.len()
    }

    pub fn push(&mut self, forks: u32) -> Result<(), OutOfMemory>
        ensures ok { OnOk result (self.new ≡ forks ∷ self.old) }
        ensures err { OnErr result (self.new ≡ self.old) }
    {
        self.forks.push(forks)?;
        Ok(())
    }

    /// Opens the scope of a block.
    pub fn open(&mut self) -> Result<(), OutOfMemory>
        ensures { OnOk result (self.new ≡ one_inside self.old) }
    {
        if self.newest().is_none() {
            self.push(0)?;
        }
        self.push(0)
    }

    pub fn pop(&mut self) -> Option<u32>
        ensures { MatchOption result
            ((self.old ≡ []) × (self.new ≡ [])) (λ x. self.old ≡ x ∷ self.new) }
    {
        self.forks.pop()
    }

    /// How many forks the innermost scope waits for.
    pub fn newest(&self) -> Option<u32>
        ensures { MatchOption result (self.now ≡ []) (λ x. self.now ≡ x ∷ drop 1 self.now) }
    {
        self.forks.last().copied()
    }

    /// Returns a copy.
    pub fn copied(&self) -> Result<Scopes, OutOfMemory>
        ensures { IfOk result (λ s. s ≡ self.now) }
    {
        Ok(Scopes {
            forks: self.forks.clone()?,
        })
    }

    /// Keeps the outermost `below` scopes, and opens one on them that waits for nothing. Takes no memory.
    pub fn reopen(&mut self, below: usize)
        requires { below < length self.old }
        ensures { self.new ≡ 0 ∷ lowest below self.old }
    {
        self.forks[below] = 0;
        self.forks.truncate(below + 1);
    }
}

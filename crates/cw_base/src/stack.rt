ghost use Rattle.std.specs.Prelude.{◌≡◌, [], ◌∷◌, length, drop, reverse, MatchOption, IfOk, OnOk, OnErr};

use crate::OutOfMemory;
use std::alloc::Global;
use std::marker::Model;

/// A stack. Contracts see it as the list of its elements, the newest first.
#[derive(Drop)]
pub struct Stack<T> {
    items: Vec<T>,
}

impl<T> Model for Stack<T> {
    ghost use Rattle.std.specs.Prelude.{List, reverse};

    ghost Value = { List T };

    ghost view = { λ s. reverse s.items.items };
}

impl<T: Drop> Stack<T> {
    pub fn new(alloc: Global) -> Stack<T>
        ensures { result ≡ [] }
    {
        Stack {
            items: Vec::new(alloc),
        }
    }

    pub fn len(&self) -> usize
        ensures { result ≡ length self.now }
    {
        self.items.len()
    }

    /// Returns the elements, the oldest first.
    pub fn as_slice(&self) -> &[T]
        ensures { self.now ≡ reverse result.now }
    {
        self.items.as_slice()
    }

    pub fn push(&mut self, item: T) -> Result<(), OutOfMemory>
        ensures ok { OnOk result (self.new ≡ item ∷ self.old) }
        ensures err { OnErr result (self.new ≡ self.old) }
    {
        self.items.push(item)?;
        Ok(())
    }

    pub fn pop(&mut self) -> Option<T>
        ensures { MatchOption result
            ((self.old ≡ []) × (self.new ≡ [])) (λ x. self.old ≡ x ∷ self.new) }
    {
        self.items.pop()
    }

    /// Returns the newest element, or `None` if the stack is empty.
    pub fn newest(&self) -> Option<T>
    where
        T: Copy,
        ensures { MatchOption result (self.now ≡ []) (λ x. self.now ≡ x ∷ drop 1 self.now) }
    {
        self.items.last().copied()
    }

    /// Returns a copy of the stack.
    pub fn copy(&self) -> Result<Stack<T>, OutOfMemory>
    where
        T: Copy,
        ensures { IfOk result (λ s. s ≡ self.now) }
    {
        let mut items = Vec::new(*self.items.allocator());
        for item in &self.items {
            items.push(*item)?;
        }
        Ok(Stack { items })
    }
}

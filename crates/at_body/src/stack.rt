//! A stack.

ghost use Rattle.std.specs.Prelude.{◌≡◌, List, [], ◌∷◌, IfOk, OnOk, length};
ghost use Rattle.std.specs.Prelude.{reverse};
ghost use Rattle.std.specs.Option.{MatchOption};
ghost use Rattle.at_body.specs.Stacked.{below};
ghost use Rattle.std.specs.List.{slice_get};

use std::alloc::{AllocError, Global};
use std::marker::Model;

/// Values, the newest on top.
#[derive(Drop)]
pub struct Stack<T> {
    items: Vec<T>,
}

impl<T> Model for Stack<T> {
    ghost Value = { List T };

    ghost view = { λ s. reverse s.items.items };
}

impl<T> Stack<T> {
    /// An empty stack.
    pub fn new(alloc: Global) -> Self
        ensures { result ≡ [] }
    {
        Stack {
            items: Vec::new(alloc),
        }
    }

    /// How many there are.
    pub fn len(&self) -> usize
        ensures { result ≡ length self.now }
    {
        self.items.len()
    }
}

impl<T: Drop> Stack<T> {
    /// Takes all out; their memory stays with the stack.
    pub fn clear(&mut self)
        ensures { self.new ≡ [] }
    {
        self.items.clear();
    }

    /// Puts a value on top.
    pub fn push(&mut self, value: T) -> Result<(), AllocError>
        ensures { OnOk result (self.new ≡ value ∷ self.old) }
    {
        self.items.push(value)?;
        Ok(())
    }

    /// Takes the value on top.
    pub fn pop(&mut self) -> Option<T>
        ensures taken { MatchOption result (self.old ≡ []) (λ top. self.old ≡ top ∷ self.new) }
        ensures left { self.new ≡ below self.old }
    {
        self.items.pop()
    }
}

impl<T: Copy> Stack<T> {
    /// The same values once more. An error where memory is wanting.
    pub fn copy(&self) -> Result<Self, AllocError>
        ensures { IfOk result (λ s. s ≡ self.now) }
    {
        let mut items = Vec::new(*self.items.allocator());
        items.extend_from_slice(self.items.as_slice())?;
        Ok(Stack { items })
    }

    /// Becomes a copy of another one. An error where memory is wanting.
    pub fn copy_from(&mut self, other: &Stack<T>) -> Result<(), AllocError>
        ensures { OnOk result (self.new ≡ other.now) }
    {
        self.items.clear();
        self.items.extend_from_slice(other.items.as_slice())?;
        Ok(())
    }

    /// The value at a position from the top.
    pub fn get(&self, position: usize) -> Option<T>
        ensures { result ≡ slice_get self.now position }
    {
        self.items.iter().rev().nth(position).copied()
    }
}

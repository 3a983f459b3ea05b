//! Stacks whose items are also read by how many stand below them.

ghost use Rattle.std.specs.Prelude.{◌≡◌, ◌<◌, [], ◌∷◌, length, reverse, slice_get, Some, OnOk, MatchOption};

use gsl_base::{List, Memory};
use std::alloc::Global;
use std::marker::Model;

/// Items, of which contracts see the last that was put there first.
#[derive(Drop)]
pub(crate) struct Stack<T> {
    items: List<T>,
}

impl<T> Model for Stack<T> {
    ghost use Rattle.std.specs.Prelude.{List as Plain, reverse};
    ghost use Rattle.std.specs.Coded.{coded_list};

    ghost Value = { Plain T };

    ghost coded = { coded_list T.code };

    ghost view = { λ s. reverse s.items };
}

impl<T> Stack<T> {
    /// No item.
    pub fn new(alloc: Global) -> Stack<T>
        ensures { result ≡ [] }
    {
        Stack {
            items: List::new(alloc),
        }
    }

    /// How many items there are.
    pub fn len(&self) -> usize
        ensures { result ≡ length self.now }
    {
        self.items.len()
    }

    /// The item above so many others.
    pub fn above(&self, below: usize) -> &T
        requires { below < length self.now }
        ensures { slice_get (reverse self.now) below ≡ Some result.now }
    {
        &self.items[below]
    }

    /// Takes the top off.
    pub fn pop(&mut self) -> Option<T>
        ensures { MatchOption result ((self.old ≡ []) × (self.new ≡ [])) (λ top. self.old ≡ top ∷ self.new) }
    {
        self.items.pop()
    }
}

impl<T: Drop> Stack<T> {
    /// Puts an item on top.
    pub fn push(&mut self, item: T) -> Result<(), Memory>
        ensures { OnOk result (self.new ≡ item ∷ self.old) }
    {
        self.items.push(item)
    }
}

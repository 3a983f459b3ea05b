//! The runs that are due.

ghost use Rattle.std.specs.Prelude.{◌≡◌, [], ◌∷◌, ◌↔◌, IsTrue, OnOk, MatchOption};

use crate::around::Due;
use gsl_base::{List, Memory};
use std::alloc::Global;
use std::marker::Model;

/// Runs, of which contracts see the next first.
#[derive(Drop)]
pub(crate) struct Stack {
    items: List<Due>,
}

impl Model for Stack {
    ghost use Rattle.std.specs.Prelude.{List as Plain, reverse};
    ghost use Rattle.gsl_blocks.specs.declared.around.Due.{Due};

    ghost Value = { Plain Due };

    ghost view = { λ s. reverse s.items };
}

impl Stack {
    /// No run.
    pub fn new(alloc: Global) -> Stack
        ensures { result ≡ [] }
    {
        Stack {
            items: List::new(alloc),
        }
    }

    /// Puts a run on top.
    pub fn push(&mut self, due: Due) -> Result<(), Memory>
        ensures { OnOk result (self.new ≡ due ∷ self.old) }
    {
        self.items.push(due)
    }

    /// Takes the top off.
    pub fn pop(&mut self) -> Option<Due>
        ensures { MatchOption result ((self.old ≡ []) × (self.new ≡ [])) (λ top. self.old ≡ top ∷ self.new) }
    {
        self.items.pop()
    }

    /// Whether there is no run.
    pub fn is_empty(&self) -> bool
        ensures { IsTrue result ↔ (self.now ≡ []) }
    {
        self.items.is_empty()
    }
}

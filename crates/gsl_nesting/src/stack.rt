//! Counters of the brackets that are open.

ghost use Rattle.std.specs.Prelude.{◌≡◌, [], ◌∷◌, ◌↔◌, IsTrue, OnOk, OnErr, MatchOption};

use gsl_base::{List, Memory};
use gsl_syntax::Counter;
use std::alloc::Global;
use std::marker::Model;

/// Counters, of which contracts see the last that was put there first.
#[derive(Drop)]
pub(crate) struct Stack {
    items: List<Counter>,
}

impl Model for Stack {
    ghost use Rattle.std.specs.Prelude.{List as Plain, reverse};
    ghost use Rattle.gsl_syntax.specs.declared.nesting.Counter.{Counter};

    ghost Value = { Plain Counter };

    ghost view = { λ s. reverse s.items };
}

impl Stack {
    /// No counter.
    pub fn new(alloc: Global) -> Stack
        ensures { result ≡ [] }
    {
        Stack {
            items: List::new(alloc),
        }
    }

    /// Puts a counter on top.
    pub fn push(&mut self, counter: Counter) -> Result<(), Memory>
        ensures ok { OnOk result (self.new ≡ counter ∷ self.old) }
        ensures memory { OnErr result (self.new ≡ self.old) }
    {
        self.items.push(counter)
    }

    /// Takes the top off.
    pub fn pop(&mut self) -> Option<Counter>
        ensures { MatchOption result ((self.old ≡ []) × (self.new ≡ [])) (λ top. self.old ≡ top ∷ self.new) }
    {
        self.items.pop()
    }

    /// Whether there is no counter.
    pub fn is_empty(&self) -> bool
        ensures { IsTrue result ↔ (self.now ≡ []) }
    {
        self.items.is_empty()
    }
}

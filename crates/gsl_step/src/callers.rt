//! Functions that wait.

ghost use Rattle.std.specs.Prelude.{◌≡◌, [], ◌∷◌, OnOk, OnErr, MatchOption};

use crate::standing::Standing;
use gsl_base::{List, Memory};
use std::alloc::Global;
use std::marker::Model;

/// Functions that wait for the end of one that they called. Contracts see the last that waits first.
#[derive(Drop)]
pub struct Callers {
    items: List<Standing>,
}

impl Model for Callers {
    ghost use Rattle.std.specs.Prelude.{List as Plain, reverse};
    ghost use Rattle.gsl_step.specs.declared.standing.Standing.{Standing};

    ghost Value = { Plain Standing };

    ghost view = { λ callers. reverse callers.items };
}

impl Callers {
    /// No function waits.
    pub fn new(alloc: Global) -> Callers
        ensures { result ≡ [] }
    {
        Callers {
            items: List::new(alloc),
        }
    }

    /// One function more waits.
    pub fn push(&mut self, standing: Standing) -> Result<(), Memory>
        ensures ok { OnOk result (self.new ≡ standing ∷ self.old) }
        ensures memory { OnErr result (self.new ≡ self.old) }
    {
        self.items.push(standing)
    }

    /// The last function that waits goes on.
    pub fn pop(&mut self) -> Option<Standing>
        ensures { MatchOption result ((self.old ≡ []) × (self.new ≡ [])) (λ last. self.old ≡ last ∷ self.new) }
    {
        self.items.pop()
    }
}

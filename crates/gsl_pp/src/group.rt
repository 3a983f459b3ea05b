//! The groups of conditions that are open.

ghost use Rattle.std.specs.Prelude.{◌≡◌, [], ◌∷◌, OnOk, OnErr, MatchOption, reverse};
ghost use Rattle.gsl_pp.specs.Directives as spec;

use gsl_base::{List, Memory, Place};
use std::alloc::Global;
use std::marker::Model;

/// A condition with its groups.
#[derive(Clone, Copy, Debug, PartialEq, Eq)]
pub struct Group {
    /// Of its `#if`.
    pub place: Place,
    /// Whether its text is live.
    pub live: bool,
    /// Whether one of its groups was taken.
    pub taken: bool,
    /// Whether `#else` was met.
    pub last: bool,
}

/// Contracts see the innermost first.
#[derive(Drop)]
pub struct Groups {
    items: List<Group>,
}

impl Model for Groups {
    ghost use Rattle.std.specs.Prelude.{List as Plain, reverse};
    ghost use Rattle.gsl_pp.specs.declared.group.Group.{Group as OneGroup};

    ghost Value = { Plain OneGroup };

    ghost view = { λ g. reverse g.items };
}

impl Groups {
    pub fn new(alloc: Global) -> Groups
        ensures { result ≡ [] }
    {
        Groups {
            items: List::new(alloc),
        }
    }

    pub fn push(&mut self, group: Group) -> Result<(), Memory>
        ensures ok { OnOk result (self.new ≡ group ∷ self.old) }
        ensures memory { OnErr result (self.new ≡ self.old) }
    {
        self.items.push(group)
    }

    pub fn pop(&mut self) -> Option<Group>
        ensures { MatchOption result ((self.old ≡ []) × (self.new ≡ [])) (λ top. self.old ≡ top ∷ self.new) }
    {
        self.items.pop()
    }

    /// Whether text is live.
    pub fn is_live(&self) -> bool
        ensures { result ≡ spec.is_live self.now }
    {
        match self.items.as_slice() {
            [.., group] => group.live,
            [] => true,
        }
    }

    /// The group that was opened first.
    #[tactic(auto, using(crate::proofs::Outermost::outermost_last))]
    pub fn outermost(&self) -> Option<Group>
        ensures { result ≡ spec.outermost self.now }
    {
        match self.items.as_slice() {
            [group, ..] => Some(*group),
            [] => None,
        }
    }
}

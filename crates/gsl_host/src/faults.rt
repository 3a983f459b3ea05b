ghost use Rattle.std.specs.Prelude.{◌≡◌, [], ◌∷◌, ◌++◌, length, OnOk, OnErr};
ghost use Rattle.gsl_host.specs.Faults.{front};

use crate::target::Target;
use gsl_base::{List, Memory};
use std::alloc::Global;
use std::marker::Model;

/// The targets of a host's failed calls. Contracts see their list.
#[derive(Debug, Drop)]
pub(crate) struct Faults {
    targets: List<Target>,
}

impl Model for Faults {
    ghost use Rattle.std.specs.Prelude.{List};
    ghost use Rattle.gsl_host.specs.declared.target.Target.{Target};

    ghost Value = { List Target };

    ghost view = { λ f. f.targets };
}

impl Faults {
    /// No fault, which takes no memory.
    pub(crate) fn new(alloc: Global) -> Faults
        ensures { result ≡ [] }
    {
        Faults {
            targets: List::new(alloc),
        }
    }

    /// Adds a fault before its call is tried, so that the call cannot fail with no memory to say so.
    pub(crate) fn expect(&mut self, target: Target) -> Result<(), Memory>
        ensures ok { OnOk result (self.new ≡ self.old ++ target ∷ []) }
        ensures memory { OnErr result (self.new ≡ self.old) }
    {
        self.targets.push(target)
    }

    /// Takes the last fault back, since its call did not fail.
    pub(crate) fn withdraw(&mut self)
        ensures { self.new ≡ front self.old }
    {
        self.targets.pop();
    }

    /// How many calls failed.
    pub(crate) fn count(&self) -> u64
        ensures { result ≡ length self.now }
    {
        self.targets.len() as u64
    }
}

//! The types that were declared so far.

ghost use Rattle.std.specs.Prelude.{◌≡◌, [], ◌∷◌, ◌++◌, not, cond, IfOk};
ghost use Rattle.std.specs.List.{list_any};
ghost use Rattle.gsl_valid_types.specs.TypeKeys as spec;

use gsl_base::Memory;
use indexmap::IndexSet;
use std::alloc::Global;
use std::marker::Model;

/// The types that were declared so far, by their opcodes and the operands behind their ids. Contracts see the list of
/// those that differ.
#[derive(Drop)]
pub(crate) struct Known<'a> {
    keys: IndexSet<(u16, &'a [u32])>,
}

impl<'a> Model for Known<'a> {
    ghost use Rattle.std.specs.Prelude.{List, map};
    ghost use Rattle.gsl_valid_types.specs.TypeKeys.{Key, key_seen};

    ghost Value = { List Key };

    ghost view = { λ known. map key_seen known.keys.keys };
}

impl<'a> Known<'a> {
    ghost use Rattle.gsl_valid_types.specs.TypeKeys as spec;

    /// None.
    pub(crate) fn new(alloc: Global) -> Known<'a>
        ensures { result ≡ [] }
    {
        Known {
            keys: IndexSet::new(alloc),
        }
    }

    /// Adds a type of an opcode and the operands behind its id, and tells whether it is the first of them.
    pub(crate) fn add(&mut self, op: u16, operands: &'a [u32]) -> Result<bool, Memory>
        ensures first { IfOk result (λ first. first ≡ not (list_any (spec.is_key op operands.now) self.old)) }
        ensures kept { IfOk result (λ first. self.new ≡ cond first (self.old ++ record { op = op; operands = operands.now } ∷ []) self.old) }
    {
        let (_, added) = self.keys.insert_full((op, operands))?;
        Ok(added)
    }
}

//! Whether ids are defined before they are used.

ghost use Rattle.std.specs.Prelude.{◌≡◌, ◌^◌, ◌<◌, length};
ghost use Rattle.gsl_words.specs.Instructions.{HasFile};
ghost use Rattle.gsl_valid.specs.Placed.{count_of_words};
ghost use Rattle.gsl_valid.specs.DefinedBeforeUse as spec;

use crate::operands::{UseTest, all_used};
use crate::pass::{Test, first_failed};
use crate::table::Definitions;

/// The place of the first instruction that uses an id which is not defined, or not before it where it must be.
pub fn defined_before_use(definitions: &Definitions<'_>) -> Option<u32>
    requires length { length definitions.now.instrs < 2 ^ 32 }
    requires words { count_of_words definitions.now < 2 ^ 32 }
    requires file { HasFile definitions.now }
    ensures { result ≡ spec.defined_before_use definitions.now }
{
    first_failed(&mut Uses { definitions }, definitions.module())
}

/// The test of V3.
#[derive(Drop)]
pub(crate) struct Uses<'a> {
    definitions: &'a Definitions<'a>,
}

impl<'a> Test for Uses<'a> {
    ghost use Rattle.gsl_ids.specs.Uses as using;

    ghost passes = { λ uses at i. using.uses_numbered uses.definitions.now at i };

    ghost behind = { λ uses at i. uses };

    fn test(&mut self, at: u32, op: u16, args: &[u32]) -> bool {
        let before = Before {
            definitions: self.definitions,
            at,
        };
        all_used(&before, op, args)
    }
}

/// What is defined where an instruction of a number stands.
#[derive(Drop)]
struct Before<'a> {
    definitions: &'a Definitions<'a>,
    at: u32,
}

impl<'a> UseTest for Before<'a> {
    ghost use Rattle.std.specs.Prelude.{nat_lt};
    ghost use Rattle.gsl_ids.specs.Table.{number_of, is_defined_in as is_defined_before};

    ghost needed = { λ before id. is_defined_before before.definitions.now before.at id };

    ghost mentioned = { λ before id. nat_lt 0 (number_of before.definitions.now id) };

    fn may_need(&self, id: u32) -> bool {
        self.definitions.is_defined_in(self.at, id)
    }

    fn may_mention(&self, id: u32) -> bool {
        0 < self.definitions.number(id)
    }
}

//! Constants.

ghost use Rattle.std.specs.Prelude.{◌≡◌, ◌^◌, ◌<◌, length};
ghost use Rattle.gsl_kinds.specs.Seen as seen;
ghost use Rattle.gsl_valid.specs.Kinds as kinds;
ghost use Rattle.gsl_valid.specs.Placed.{count_of_words};
ghost use Rattle.gsl_valid.specs.ConstantRules as spec;

use gsl_ids::{Test, first_failed};
use gsl_kinds::{Kind, Parts, Runtimes, Value, are_parts, is_bool, is_int, kind_at, shape_of};

/// The place of the first constant of a type that its opcode cannot give it, which breaks V5.
pub fn constants(runtimes: &Runtimes<'_>) -> Option<u32>
    requires length { length runtimes.now.instrs < 2 ^ 32 }
    requires words { count_of_words runtimes.now < 2 ^ 32 }
    ensures { result ≡ spec.constants runtimes.now }
{
    first_failed(
        &mut ConstantTest { runtimes },
        runtimes.definitions().module(),
    )
}

/// The test of V5.
#[derive(Drop)]
pub(crate) struct ConstantTest<'a> {
    runtimes: &'a Runtimes<'a>,
}

impl<'a> Test for ConstantTest<'a> {
    ghost use Rattle.std.specs.Prelude.{[]};
    ghost use Rattle.gsl_valid.specs.ConstantRules.{constant_typed};

    ghost passes = { λ s at i. constant_typed s.runtimes.now [] i };

    ghost behind = { λ s at i. s };

    fn test(&mut self, _at: u32, op: u16, args: &[u32]) -> bool {
        is_constant(self.runtimes, kind_at(op, args))
    }
}

/// Whether an instruction, if it is a constant, has a type that its opcode may give it.
fn is_constant(runtimes: &Runtimes<'_>, kind: Kind<'_>) -> bool
    ensures { result ≡ spec.is_constant runtimes.now (kinds.constant_in (seen.kind_seen kind.entry)) }
{
    match kind {
        Kind::Fixes { type_, value } => is_fixed(runtimes, type_, value),
        _ => true,
    }
}

/// Whether a constant of a type may have a value.
fn is_fixed(runtimes: &Runtimes<'_>, type_: u32, value: Value<'_>) -> bool
    ensures { result ≡ spec.is_fixed runtimes.now type_ (seen.value_seen value.entry) }
{
    let definitions = runtimes.definitions();
    match value {
        Value::Truth => is_bool(definitions, type_),
        Value::Word(_) => is_int(definitions, type_),
        Value::Parts(parts) => are_parts(
            definitions,
            Parts::Constants,
            parts,
            shape_of(definitions, type_),
        ),
        Value::Zeros => runtimes.is_whole(type_),
    }
}

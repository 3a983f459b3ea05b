//! Global variables.

ghost use Rattle.std.specs.Prelude.{◌≡◌, ◌^◌, ◌<◌, ◌&&◌, length};
ghost use Rattle.gsl_kinds.specs.Seen as seen;
ghost use Rattle.gsl_valid.specs.Kinds as kinds;
ghost use Rattle.gsl_valid.specs.Placed.{count_of_words};
ghost use Rattle.gsl_valid.specs.GlobalRules as spec;
ghost use Rattle.gsl_valid.specs.Types as types;

use gsl_ids::{Test, first_failed};
use gsl_instr::enumerant::storage_class;
use gsl_kinds::{
    Kind, Runtimes, Shape, Variable, initialises, inside_after, is_ints, is_struct, kind_at,
    shape_of,
};

/// The place of the first global variable whose class, type or initialiser breaks V6.
pub fn globals(runtimes: &Runtimes<'_>) -> Option<u32>
    requires length { length runtimes.now.instrs < 2 ^ 32 }
    requires words { count_of_words runtimes.now < 2 ^ 32 }
    ensures { result ≡ spec.globals runtimes.now }
{
    let mut test = GlobalTest {
        runtimes,
        inside: false,
    };
    first_failed(&mut test, runtimes.definitions().module())
}

/// The test of V6, which knows whether it stands in a function.
#[derive(Drop)]
pub(crate) struct GlobalTest<'a> {
    runtimes: &'a Runtimes<'a>,
    inside: bool,
}

impl<'a> Test for GlobalTest<'a> {
    ghost use Rattle.std.specs.Prelude.{◌||◌};
    ghost use Rattle.gsl_valid.specs.Instruction.{read};
    ghost use Rattle.gsl_valid.specs.Kinds.{variable_is};
    ghost use Rattle.gsl_valid.specs.Where.{in_function_after};
    ghost use Rattle.gsl_valid.specs.GlobalRules.{is_global};

    ghost passes = { λ s at i. s.inside || is_global s.runtimes.now (variable_is (read i)) };

    ghost behind = { λ s at i. record { runtimes = s.runtimes; inside = in_function_after s.inside (read i) } };

    fn test(&mut self, _at: u32, op: u16, args: &[u32]) -> bool {
        let kind = kind_at(op, args);
        let passed = self.inside || is_global(self.runtimes, kind);
        self.inside = inside_after(self.inside, kind);
        passed
    }
}

/// Whether an instruction, if it is a variable, may be a global one.
fn is_global(runtimes: &Runtimes<'_>, kind: Kind<'_>) -> bool
    ensures { result ≡ spec.is_global runtimes.now (kinds.variable_in (seen.kind_seen kind.entry)) }
{
    match kind {
        Kind::Holds(variable) => is_global_of(runtimes, variable),
        _ => true,
    }
}

/// Whether a variable may be a global one.
fn is_global_of(runtimes: &Runtimes<'_>, variable: Variable<'_>) -> bool
    ensures { result ≡ spec.is_global_of runtimes.now variable.entry.class variable.entry.initialiser.now (types.target_of (types.defined_as runtimes.now variable.entry.type_)) }
{
    match shape_of(runtimes.definitions(), variable.type_) {
        Shape::Pointer { class, pointee } => {
            class == variable.class
                && holds(runtimes, variable.class, pointee)
                && begins_with(runtimes, variable.class, pointee, variable.initialiser)
        }
        _ => false,
    }
}

/// Whether a global variable of a class may hold values of a type.
fn holds(runtimes: &Runtimes<'_>, class: u32, type_: u32) -> bool
    ensures { result ≡ spec.holds runtimes.now class type_ }
{
    let definitions = runtimes.definitions();
    if class == storage_class::INPUT || class == storage_class::OUTPUT {
        is_ints(definitions, type_)
    } else if class == storage_class::PRIVATE {
        runtimes.is_whole(type_)
    } else {
        is_block_class(class) && is_struct(definitions, type_)
    }
}

/// Whether a class is that of a block's variable.
fn is_block_class(class: u32) -> bool
    ensures { result ≡ types.is_block_class class }
{
    class == storage_class::UNIFORM
        || class == storage_class::STORAGE_BUFFER
        || class == storage_class::PUSH_CONSTANT
}

/// Whether a variable has the initialiser that its class needs, or none.
fn begins_with(runtimes: &Runtimes<'_>, class: u32, type_: u32, initialiser: &[u32]) -> bool
    ensures { result ≡ spec.begins_with runtimes.now class type_ initialiser.now }
{
    if class == storage_class::PRIVATE || class == storage_class::OUTPUT {
        initialises(runtimes.definitions(), type_, initialiser)
    } else {
        initialiser.is_empty()
    }
}

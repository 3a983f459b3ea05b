//! Variables, and what they are found by.

ghost use Rattle.std.specs.Prelude.{◌≡◌};
ghost use Rattle.gsl_kinds.specs.Seen.{kind_seen};
ghost use Rattle.gsl_valid.specs.DecorationRules as spec;
ghost use Rattle.gsl_valid.specs.Kinds as kinds;
ghost use Rattle.gsl_valid_blocks.specs.Variables as variables;

use gsl_decorations::{Decorations, Keyed};
use gsl_instr::enumerant::{decoration, storage_class};
use gsl_kinds::{Kind, Variable, kind_at};

/// Variables by their classes.
#[derive(Clone, Copy)]
pub(crate) struct Classes;

impl Keyed<u32> for Classes {
    ghost use Rattle.gsl_valid.specs.Instruction.{read};
    ghost use Rattle.gsl_valid.specs.Types.{variable_of};

    ghost has = { λ classes class i. variable_of class (read i) };

    fn key(&self, op: u16, args: &[u32]) -> Option<u32> {
        match kind_at(op, args) {
            Kind::Holds(variable) => Some(variable.class),
            _ => None,
        }
    }
}

/// Variables by their sets and bindings, those of the classes that have them.
#[derive(Clone, Copy)]
pub(crate) struct Bindings<'a> {
    pub(crate) decorations: &'a Decorations<'a>,
}

impl<'a> Keyed<(u32, u32)> for Bindings<'a> {
    ghost use Rattle.std.specs.Prelude.{Some};
    ghost use Rattle.gsl_valid.specs.Instruction.{read};
    ghost use Rattle.gsl_valid.specs.DecorationRules.{is_bound_to};

    ghost has = { λ bindings binding i. is_bound_to bindings.decorations.now (Some binding.0) (Some binding.1) (read i) };

    fn key(&self, op: u16, args: &[u32]) -> Option<(u32, u32)> {
        binding_in(self.decorations, kind_at(op, args))
    }
}

/// The set and the binding of a variable of a class that has them.
fn binding_in(decorations: &Decorations<'_>, kind: Kind<'_>) -> Option<(u32, u32)>
    ensures { result ≡ variables.binding_in decorations.now (kinds.variable_in (kind_seen kind.entry)) }
{
    match kind {
        Kind::Holds(variable) => binding_of(decorations, variable),
        _ => None,
    }
}

/// The same of a variable.
fn binding_of(decorations: &Decorations<'_>, variable: Variable<'_>) -> Option<(u32, u32)>
    ensures { result ≡ variables.binding_of decorations.now variable.entry.class variable.entry.id }
{
    if !is_bound_class(variable.class) {
        return None;
    }
    let set = decorations.number_on(decoration::DESCRIPTOR_SET, variable.id)?;
    let binding = decorations.number_on(decoration::BINDING, variable.id)?;
    Some((set, binding))
}

/// Whether a class is one whose variables have a set and a binding.
pub(crate) fn is_bound_class(class: u32) -> bool
    ensures { result ≡ spec.is_bound_class class }
{
    class == storage_class::UNIFORM || class == storage_class::STORAGE_BUFFER
}

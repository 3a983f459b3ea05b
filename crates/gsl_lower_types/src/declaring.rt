//! Variables.

ghost use Rattle.gsl_lower_values.specs.Building as steps;
ghost use Rattle.gsl_lower_types.specs.Declaring as spec;

use gsl_spv::{BuildRefusal, Builder, PlainType};

/// A new variable of a storage class, by the type of what it holds and the constant that it begins with, if it has one.
pub(crate) fn variable_in(
    b: &mut Builder,
    class: u32,
    type_id: u32,
    init: Option<u32>,
) -> Result<u32, BuildRefusal>
    ensures { steps.Does result b.new (spec.variable_in class type_id init b.old) }
{
    let pointer = b.plain_type(PlainType::Pointer(class, type_id))?;
    b.global(pointer, class, init)
}

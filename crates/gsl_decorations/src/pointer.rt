//! What variables point to, which is what their blocks' decorations stand on.

ghost use Rattle.std.specs.Prelude.{◌≡◌};
ghost use Rattle.gsl_valid.specs.DecorationRules as spec;

use gsl_ids::Definitions;
use gsl_kinds::{Shape, shape_of};

/// The type that a pointer type points to, 0 for any other.
pub fn pointee(definitions: &Definitions<'_>, type_: u32) -> u32
    ensures { result ≡ spec.pointee definitions.now type_ }
{
    match shape_of(definitions, type_) {
        Shape::Pointer { pointee, .. } => pointee,
        _ => 0,
    }
}

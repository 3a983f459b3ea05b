//! The function of the entry point.

ghost use Rattle.std.specs.Prelude.{◌≡◌};
ghost use Rattle.std.specs.Str.{bytes_eq};
ghost use Rattle.gsl_kinds.specs.Seen.{kind_seen, shape_seen};
ghost use Rattle.gsl_valid.specs.EntryRules as spec;
ghost use Rattle.gsl_valid.specs.Types as types;

use gsl_ids::Definitions;
use gsl_kinds::{Kind, Shape, is_void, kind_if, shape_of};

/// The words of the name `main`.
static MAIN: [u32; 2] = [0x6e69_616d, 0];

/// Whether the words of a name are those of `main`.
pub(crate) fn is_main_name(name: &[u32]) -> bool
    ensures { result ≡ bytes_eq name.now spec.main_words }
{
    name == MAIN.as_slice()
}

/// Whether an id stands for a function of no parameters and result Void.
pub(crate) fn is_main(definitions: &Definitions<'_>, id: u32) -> bool
    ensures { result ≡ spec.is_main definitions.now (types.defined_as definitions.now id) }
{
    begins_main(definitions, kind_if(definitions.get(id)))
}

/// Whether an instruction begins such a function.
fn begins_main(definitions: &Definitions<'_>, kind: Kind<'_>) -> bool
    ensures { result ≡ spec.begins_main definitions.now (kind_seen kind.entry) }
{
    match kind {
        Kind::Begins { function_type, .. } => is_main_shape(
            definitions,
            shape_of(definitions, function_type),
        ),
        _ => false,
    }
}

/// Whether a type is that of such functions.
fn is_main_shape(definitions: &Definitions<'_>, shape: Shape<'_>) -> bool
    ensures { result ≡ spec.is_main_shape definitions.now (shape_seen shape.entry) }
{
    match shape {
        Shape::Function {
            returned,
            parameters,
        } => parameters.is_empty() && is_void(definitions, returned),
        _ => false,
    }
}

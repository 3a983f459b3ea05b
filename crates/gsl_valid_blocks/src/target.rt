//! What pointers point to.

ghost use Rattle.std.specs.Prelude.{◌≡◌};
ghost use Rattle.gsl_kinds.specs.Seen.{shape_seen};
ghost use Rattle.gsl_valid.specs.CallRules as calls;
ghost use Rattle.gsl_valid.specs.Types as spec;
ghost use Rattle.gsl_valid_blocks.specs.Seen.{target_if_seen};

use gsl_ids::Definitions;
use gsl_kinds::{Shape, shape_of, type_of};

/// What a pointer type points to, and its class.
#[derive(Clone, Copy)]
pub(crate) struct Target {
    pub(crate) class: u32,
    pub(crate) pointee: u32,
}

/// What an id points to, if it stands for a pointer.
pub(crate) fn target_at(definitions: &Definitions<'_>, id: u32) -> Option<Target>
    ensures { target_if_seen result ≡ calls.target definitions.now id }
{
    match type_of(definitions, id) {
        Some(type_) => target_in(shape_of(definitions, type_)),
        None => None,
    }
}

/// What a pointer type points to.
pub(crate) fn target_in(shape: Shape<'_>) -> Option<Target>
    ensures { target_if_seen result ≡ spec.target_in (shape_seen shape.entry) }
{
    match shape {
        Shape::Pointer { class, pointee } => Some(Target { class, pointee }),
        _ => None,
    }
}

//! The leaves of types.

ghost use Rattle.std.specs.Prelude.{◌≡◌};
ghost use Rattle.gsl_tree.specs.Paths as paths;
ghost use Rattle.gsl_types.specs.Known.{AreStructs};
ghost use Rattle.gsl_types.specs.Leaves.{told_leaves};
ghost use Rattle.gsl_types.specs.declared.ty.Ty.TheVariants as ty;
ghost use Rattle.gsl_weights.specs.Telling.{up_to};

use crate::telling::told;
use gsl_types::{MOST_LEAVES, Structs, Ty};

/// The count of leaves, at most 2^40; a struct that is not there has none.
fn leaves(structs: &Structs, ty: &Ty) -> u64
    requires known { AreStructs structs.now }
    ensures { result ≡ told_leaves structs.now ty.now }
{
    match ty {
        Ty::Void | Ty::Runtime(_) => 0,
        Ty::One(_) => 1,
        Ty::Vector(_, count) => *count as u64,
        Ty::Array(element, count) => {
            let each = leaves(structs, element.get());
            each.saturating_mul(*count as u64).min(MOST_LEAVES)
        }
        Ty::Struct(number) => struct_leaves(structs, *number),
    }
}

/// The count of leaves of a struct, by its number.
fn struct_leaves(structs: &Structs, number: u32) -> u64
    requires known { AreStructs structs.now }
    ensures { result ≡ told_leaves structs.now (ty.Struct number) }
{
    let at = number as usize;
    if at < structs.len() {
        structs[at].leaves
    } else {
        0
    }
}

/// The count of leaves of a type, up to the ceiling.
pub fn few_leaves(structs: &Structs, ty: &Ty) -> u32
    requires known { AreStructs structs.now }
    ensures { result ≡ up_to (told_leaves structs.now ty.now) }
{
    told(leaves(structs, ty))
}

/// Whether a type is an array or a struct.
pub(crate) fn is_aggregate(ty: &Ty) -> bool
    ensures { result ≡ paths.is_aggregate ty.now }
{
    match ty {
        Ty::Array(_, _) | Ty::Struct(_) => true,
        _ => false,
    }
}

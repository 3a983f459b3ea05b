//! Sizes of arrays, which are constant expressions.

ghost use Rattle.std.specs.Prelude.{◌≡◌};
ghost use Rattle.gsl_base.specs.Checked.{Gives};
ghost use Rattle.gsl_types.specs.declared.ty.Ty.TheViews.{out-Ty};
ghost use Rattle.gsl_check_expr.specs.Sizes as spec;

use gsl_base::{Code, Place, Refusal};
use gsl_compute::word_in;
use gsl_fold::constant;
use gsl_tree::Folded;
use gsl_types::{Scalar, Ty};
use gsl_typing::{Part, Scene, is_unread, refuse};
use std::alloc::Global;

/// Whether a word of a type is an integer scalar of at least 1.
fn is_size(ty: &Ty, word: u32) -> bool
    ensures { result ≡ spec.is_size_kind (out-Ty ty.now) word }
{
    match ty {
        Ty::One(Scalar::Int) => word >= 1 && word < 0x8000_0000,
        Ty::One(Scalar::Uint) => word >= 1,
        _ => false,
    }
}

/// The size that an expression in brackets states; its faults stand at the bracket.
#[tactic(auto, unfolding(crate::specs::Sizes::size_in))]
pub fn size_in(alloc: Global, scene: &Scene, place: Place, e: &Part) -> Result<u32, Refusal>
    ensures { Gives result (spec.size_in scene.now place e.now) }
{
    if is_unread(scene, e) {
        return Err(refuse(place, Code::E0507));
    }
    let word = match constant(alloc, &scene.structs, &scene.consts, &e.expr)? {
        Folded::Known(value) => word_in(&value),
        Folded::NotConstant => return Err(refuse(place, Code::E0601)),
        Folded::Free => return Err(refuse(place, Code::E0602)),
    };
    if !is_size(&e.expr.ty, word) {
        return Err(refuse(place, Code::E0603));
    }
    Ok(word)
}

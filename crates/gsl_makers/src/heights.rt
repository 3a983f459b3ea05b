//! How high types are.

ghost use Rattle.std.specs.Prelude.{◌≡◌, nat_le, slice_index_or};
ghost use Rattle.gsl_tree.specs.Weights.{height_of};
ghost use Rattle.gsl_makers.specs.Heights.{AreHeights};

use gsl_base::List;
use gsl_types::{Structs, Ty};

/// The heights of structs, by their numbers.
pub type Heights = List<u32>;

/// Whether a type is at most so high. No struct is walked: its height is looked up.
#[tactic(auto, using(crate::proofs::Layers::layers))]
pub fn is_low(structs: &Structs, heights: &Heights, ty: &Ty, most: u32) -> bool
    requires heights { AreHeights structs.now heights.now }
    ensures { result ≡ nat_le (height_of structs.now ty.now) most }
{
    match ty {
        Ty::Void | Ty::One(_) | Ty::Vector(_, _) => most > 0,
        Ty::Array(element, _) | Ty::Runtime(element) => {
            most > 0 && is_low(structs, heights, element.get(), most - 1)
        }
        Ty::Struct(number) => height_at(heights, *number) <= most,
    }
}

/// The height that stands at a number, or 0.
fn height_at(heights: &Heights, number: u32) -> u32
    ensures { result ≡ slice_index_or heights.now number 0 }
{
    if number as usize >= heights.len() {
        return 0;
    }
    heights[number as usize]
}

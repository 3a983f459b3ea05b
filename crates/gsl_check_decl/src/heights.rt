//! How high types are, as far as they may be.

ghost use Rattle.std.specs.Prelude.{◌≡◌, ◌≤◌, ◌<◌, slice_index_or, MatchOption};
ghost use Rattle.gsl_types.specs.Structs.{members_meaning};
ghost use Rattle.gsl_tree.specs.Weights.{height_meaning, height_of, highest as highest_of};
ghost use Rattle.gsl_makers.specs.Heights.{AreHeights};

use gsl_check_expr::Env;
use gsl_makers::Heights;
use gsl_types::{Member, Ty};

/// The height that stands at a number, or 0.
fn height_at(heights: &Heights, number: u32) -> u32
    ensures { result ≡ slice_index_or heights.now number 0 }
{
    if number as usize >= heights.len() {
        return 0;
    }
    heights[number as usize]
}

/// A number, where it is at most so high.
fn capped(height: u32, most: u32) -> Option<u32>
    ensures { MatchOption result (most < height) (λ h. (h ≡ height) × (h ≤ most)) }
{
    if height > most { None } else { Some(height) }
}

/// How high a type is, where it is at most so high.
#[tactic(auto, using(gsl_makers::proofs::Layers::layers))]
fn height(env: &Env, ty: &Ty, most: u32) -> Option<u32>
    requires heights { AreHeights env.now.scene.structs env.now.heights }
    ensures { MatchOption result (most < height_of env.now.scene.structs ty.now) (λ h. (h ≡ height_of env.now.scene.structs ty.now) × (h ≤ most)) }
{
    match ty {
        Ty::Void | Ty::One(_) | Ty::Vector(_, _) => capped(1, most),
        Ty::Array(element, _) | Ty::Runtime(element) => {
            if most == 0 {
                return None;
            }
            match height(env, element.get(), most - 1) {
                Some(inner) => Some(inner + 1),
                None => None,
            }
        }
        Ty::Struct(number) => capped(height_at(&env.heights, *number), most),
    }
}

/// How high the highest of some members is, where it is at most so high.
pub fn highest(env: &Env, members: &[Member], most: u32) -> Option<u32>
    requires heights { AreHeights env.now.scene.structs env.now.heights }
    ensures { MatchOption result (most < highest_of (members_meaning height_meaning env.now.scene.structs members.now)) (λ h. (h ≡ highest_of (members_meaning height_meaning env.now.scene.structs members.now)) × (h ≤ most)) }
{
    let mut top = 0;
    for k in 0..members.len() {
        match height(env, &members[k].ty, most) {
            Some(inner) => top = top.max(inner),
            None => return None,
        }
    }
    Some(top)
}

//! Steps on a builder and a place.

ghost use Rattle.std.specs.Prelude.{◌≡◌, ◌<◌, Some, length, slice_get};
ghost use Rattle.gsl_overload.specs.Identity as same;
ghost use Rattle.gsl_lower_holders.specs.Flow as spec;
ghost use Rattle.gsl_lower_holders.specs.Flow.{Does, flow_of};

use crate::place::FlowPlace;
use gsl_instr::op;
use gsl_lower_values::{give, type_of};
use gsl_overload::identical;
use gsl_spv::{BuildRefusal, Builder};
use gsl_types::Ty;
use gsl_typing::shape_of;
use std::alloc::Global;

/// An id of some, by its number.
pub fn id_in(ids: &[u32], number: u32) -> Option<u32>
    ensures { result ≡ slice_get ids.now number }
{
    if number as usize >= ids.len() {
        return None;
    }
    Some(ids[number as usize])
}

/// A type with its id, by its place.
fn entry_at(composites: &[(Ty, u32)], k: usize) -> &(Ty, u32)
    requires { k < length composites.now }
    ensures { slice_get composites.now k ≡ Some result.now }
{
    &composites[k]
}

/// Whether an entry is of a type.
fn is_of(ty: &Ty, entry: &(Ty, u32)) -> bool
    ensures { result ≡ same.identical ty.now entry.now.0 }
{
    identical(ty, &entry.0)
}

/// The id of an array or struct, if it is among those.
pub fn find_type(composites: &[(Ty, u32)], ty: &Ty) -> Option<u32>
    ensures { result ≡ spec.find_type ty.now composites.now }
{
    for k in 0..composites.len() {
        let entry = entry_at(composites, k);
        if is_of(ty, entry) {
            return Some(entry.1);
        }
    }
    None
}

/// The type that stands for one of the program outside blocks.
#[tactic(auto, unfolding(crate::specs::Flow::type_id))]
pub fn type_id(b: &mut Builder, p: &FlowPlace, ty: &Ty) -> Result<u32, BuildRefusal>
    ensures { Does result b.new p.now (spec.type_id ty.now (flow_of b.old p.now)) }
{
    if let Some(shape) = shape_of(ty) {
        return type_of(b, shape);
    }
    match find_type(p.composites.as_slice(), ty) {
        Some(id) => Ok(id),
        None => Err(BuildRefusal::Memory),
    }
}

/// A block begins.
#[tactic(auto, unfolding(crate::specs::Flow::opening))]
pub fn opening(b: &mut Builder, p: &mut FlowPlace, label: u32) -> Result<(), BuildRefusal>
    ensures { Does result b.new p.new (spec.opening label (flow_of b.old p.old)) }
{
    b.put(op::LABEL, &[label])?;
    p.label = label;
    Ok(())
}

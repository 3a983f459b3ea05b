//! One pointer for what is read and then stored.

ghost use Rattle.std.specs.Prelude.{◌≡◌};
ghost use Rattle.gsl_lower_values.specs.Building.{Does};
ghost use Rattle.gsl_lower_places.specs.Pointed as spec;

use crate::pointers::pointer;
use crate::reached::{Base, Part, Picked, Reached, stored_shape};
use crate::reading::with_part;
use gsl_base::List;
use gsl_lower_values::{Shape, type_of};
use gsl_spv::{BuildRefusal, Builder};
use std::alloc::Global;

fn pointed_to(
    alloc: Global,
    b: &mut Builder,
    id: u32,
    class: u32,
    shape: Shape,
    parts: &[Part],
    picked: Option<Picked>,
) -> Result<Reached, BuildRefusal>
    ensures { Does result b.new (spec.pointed_to id class shape parts.now picked b.old) }
{
    let ty = type_of(b, stored_shape(class, shape))?;
    let to = pointer(alloc, b, id, class, ty, parts)?;
    Ok(Reached {
        base: Base::Variable(to, class),
        path: List::new(alloc),
        picked,
    })
}

/// One component alone is what the pointer leads to.
fn pointed_at(
    alloc: Global,
    b: &mut Builder,
    id: u32,
    class: u32,
    parts: &[Part],
    p: Picked,
) -> Result<Reached, BuildRefusal>
    ensures { Does result b.new (spec.pointed_at id class parts.now p p.positions b.old) }
{
    match p.positions.as_slice() {
        [position] => {
            let all = with_part(alloc, parts, Part::Fixed(*position))?;
            pointed_to(alloc, b, id, class, (p.shape.0, 1), all.as_slice(), None)
        }
        _ => pointed_to(alloc, b, id, class, p.shape, parts, Some(p)),
    }
}

/// What is picked of a scalar is that scalar.
fn pointed_picked(
    alloc: Global,
    b: &mut Builder,
    id: u32,
    class: u32,
    parts: &[Part],
    p: Picked,
) -> Result<Reached, BuildRefusal>
    ensures { Does result b.new (spec.pointed_picked id class parts.now p b.old) }
{
    if p.shape.1 == 1 {
        return pointed_to(alloc, b, id, class, p.shape, parts, None);
    }
    match p.by {
        None => pointed_at(alloc, b, id, class, parts, p),
        Some(by) => {
            let all = with_part(alloc, parts, by)?;
            pointed_to(alloc, b, id, class, (p.shape.0, 1), all.as_slice(), None)
        }
    }
}

fn pointed_if(
    alloc: Global,
    b: &mut Builder,
    id: u32,
    class: u32,
    parts: &[Part],
    shape: Shape,
    picked: Option<Picked>,
) -> Result<Reached, BuildRefusal>
    ensures { Does result b.new (spec.pointed_if id class parts.now shape picked b.old) }
{
    match picked {
        None => pointed_to(alloc, b, id, class, shape, parts, None),
        Some(p) => pointed_picked(alloc, b, id, class, parts, p),
    }
}

/// What an expression leads to, of a scalar or vector of a shape, by one pointer to it: a component of a vector by a pointer to that
/// component, several components by one to their vector.
#[tactic(auto, unfolding(crate::specs::Pointed::pointed))]
pub fn pointed(
    alloc: Global,
    b: &mut Builder,
    shape: Shape,
    reached: Reached,
) -> Result<Reached, BuildRefusal>
    ensures { Does result b.new (spec.pointed shape reached b.old) }
{
    let Reached { base, path, picked } = reached;
    match base {
        Base::Variable(id, class) => {
            pointed_if(alloc, b, id, class, path.as_slice(), shape, picked)
        }
        Base::Value(_, _) => Ok(Reached { base, path, picked }),
    }
}

fn several_by(by: Option<Part>, positions: &[u32]) -> bool
    ensures { result ≡ spec.several_by by positions.now }
{
    match by {
        None => positions.len() != 1,
        Some(_) => false,
    }
}

/// Whether several components of a vector are picked, or none.
fn picks_several(picked: &Option<Picked>) -> bool
    ensures { result ≡ spec.picks_several picked.now }
{
    match picked {
        None => false,
        Some(p) => {
            if p.shape.1 == 1 {
                return false;
            }
            several_by(p.by, p.positions.as_slice())
        }
    }
}

/// What an expression leads to, of a scalar or vector of a shape, to be read and then stored to: by one pointer, but for several
/// components, which stay as they are, since each is stored by a pointer of its own and a chain begins at no chain.
#[tactic(auto, unfolding(crate::specs::Pointed::to_renew))]
pub fn to_renew(
    alloc: Global,
    b: &mut Builder,
    shape: Shape,
    reached: Reached,
) -> Result<Reached, BuildRefusal>
    ensures { Does result b.new (spec.to_renew shape reached b.old) }
{
    if picks_several(&reached.picked) {
        return Ok(reached);
    }
    pointed(alloc, b, shape, reached)
}

//! What is asked for where something waits.

ghost use Rattle.std.specs.Prelude.{◌≡◌, ◌<◌, Some, length, slice_get, IfOk};
ghost use Rattle.gsl_tree.specs.Shapes as shapes;
ghost use Rattle.gsl_lower_needs.specs.Asking.{Does};
ghost use Rattle.gsl_lower_needs.specs.Needs as spec;

use crate::lead::Lead;
use crate::need::{Need, Needs};
use gsl_base::{List, Memory};
use gsl_lower_traits::{Traits, is_plain};
use gsl_types::{Scalar, Ty, Types};
use gsl_typing::{copy, shape_of};
use std::alloc::Global;

/// The whole of a variable.
pub(crate) fn own(alloc: Global, in_block: bool) -> Lead
    ensures { result ≡ spec.own in_block }
{
    Lead {
        in_block,
        waiting: List::new(alloc),
        picked: false,
        by: None,
    }
}

fn one_type(alloc: Global, ty: &Ty) -> Result<Types, Memory>
    ensures { IfOk result (λ l. l ≡ ty.now ∷ []) }
{
    let same = copy(alloc, ty)?;
    let mut all = List::new(alloc);
    all.push(same)?;
    Ok(all)
}

ghost use Rattle.std.specs.Prelude.{◌∷◌, [], ◌++◌};

/// A value of a type that is in no variable.
pub(crate) fn loose(alloc: Global, ty: &Ty) -> Result<Lead, Memory>
    ensures { IfOk result (λ l. l ≡ spec.loose ty.now) }
{
    let waiting = one_type(alloc, ty)?;
    Ok(Lead {
        in_block: false,
        waiting,
        picked: false,
        by: None,
    })
}

fn picked_by(picked: bool, by: Option<Scalar>, i: Option<Scalar>) -> Option<Scalar>
    ensures { result ≡ spec.picked_by picked by i }
{
    if !picked {
        return i;
    }
    match (by, i) {
        (by, None) => by,
        (None, Some(_)) => Some(Scalar::Uint),
        (Some(one), Some(_)) => Some(one),
    }
}

fn with_index(waiting: Types, i: Option<Scalar>) -> Result<Types, Memory>
    ensures { IfOk result (λ l. l ≡ waiting ++ spec.index_types i) }
{
    let mut waiting = waiting;
    match i {
        None => Ok(waiting),
        Some(s) => {
            waiting.push(Ty::One(s))?;
            Ok(waiting)
        }
    }
}

/// The part at an index that is known, or is a value of a scalar type.
pub(crate) fn part_at(ty: &Ty, i: Option<Scalar>, lead: Lead) -> Result<Lead, Memory>
    ensures { IfOk result (λ l. l ≡ spec.part_at (shapes.shape_of ty.now) i lead) }
{
    let Lead {
        in_block,
        waiting,
        picked,
        by,
    } = lead;
    match shape_of(ty) {
        Some(_) => Ok(Lead {
            in_block,
            waiting,
            picked: true,
            by: picked_by(picked, by, i),
        }),
        None => {
            let waiting = with_index(waiting, i)?;
            Ok(Lead {
                in_block,
                waiting,
                picked,
                by,
            })
        }
    }
}

pub(crate) fn swizzled(lead: Lead) -> Lead
    ensures { result ≡ spec.swizzled lead }
{
    let Lead {
        in_block,
        waiting,
        picked: _,
        by,
    } = lead;
    Lead {
        in_block,
        waiting,
        picked: true,
        by,
    }
}

/// A holder for a value of a type.
pub(crate) fn in_holder(alloc: Global, needs: &mut Needs, ty: &Ty) -> Result<(), Memory>
    ensures { Does result needs.new (spec.in_holder ty.now needs.old) }
{
    let same = copy(alloc, ty)?;
    needs.push(Need::Holder(same))
}

/// A holder where a value waits.
#[tactic(auto, unfolding(crate::specs::Needs::hold))]
pub(crate) fn hold(alloc: Global, needs: &mut Needs, waits: bool, ty: &Ty) -> Result<(), Memory>
    ensures { Does result needs.new (spec.hold waits ty.now needs.old) }
{
    if !waits {
        return Ok(());
    }
    in_holder(alloc, needs, ty)
}

fn type_at(types: &Types, k: usize) -> &Ty
    requires { k < length types.now }
    ensures { slice_get types.now k ≡ Some result.now }
{
    &types[k]
}

fn holders(alloc: Global, needs: &mut Needs, types: &Types) -> Result<(), Memory>
    ensures { Does result needs.new (spec.holders types.now needs.old) }
{
    for k in 0..types.len() {
        in_holder(alloc, needs, type_at(types, k))?;
    }
    Ok(())
}

fn by_holder(needs: &mut Needs, by: Option<Scalar>) -> Result<(), Memory>
    ensures { Does result needs.new (spec.by_holder by needs.old) }
{
    match by {
        None => Ok(()),
        Some(s) => needs.push(Need::Holder(Ty::One(s))),
    }
}

/// Holders where what an expression leads to waits.
#[tactic(auto, unfolding(crate::specs::Needs::hold_lead))]
pub(crate) fn hold_lead(
    alloc: Global,
    needs: &mut Needs,
    waits: bool,
    lead: &Lead,
) -> Result<(), Memory>
    ensures { Does result needs.new (spec.hold_lead waits lead.now needs.old) }
{
    if !waits {
        return Ok(());
    }
    holders(alloc, needs, &lead.waiting)?;
    by_holder(needs, lead.by)
}

/// A holder where what is read is in a block and is no scalar and no vector.
#[tactic(auto, unfolding(crate::specs::Needs::reads))]
pub(crate) fn reads(alloc: Global, needs: &mut Needs, ty: &Ty, lead: &Lead) -> Result<(), Memory>
    ensures { Does result needs.new (spec.reads ty.now lead.now needs.old) }
{
    hold(alloc, needs, lead.in_block && !is_plain(ty), ty)
}

/// What is put into a holder where it is indexed.
#[tactic(auto, unfolding(crate::specs::Needs::spilled))]
pub(crate) fn spilled(
    alloc: Global,
    needs: &mut Needs,
    spills: bool,
    ty: &Ty,
    lead: Lead,
) -> Result<Lead, Memory>
    ensures { Does result needs.new (spec.spilled spills ty.now lead needs.old) }
{
    if !spills {
        return Ok(lead);
    }
    reads(alloc, needs, ty, &lead)?;
    in_holder(alloc, needs, ty)?;
    Ok(own(alloc, false))
}

/// `op=`, before the right side.
#[tactic(auto, unfolding(crate::specs::Needs::updated_at))]
pub(crate) fn updated_at(
    alloc: Global,
    needs: &mut Needs,
    ty: &Ty,
    right: Traits,
    lead: &Lead,
) -> Result<(), Memory>
    ensures { Does result needs.new (spec.updated_at ty.now right lead.now needs.old) }
{
    reads(alloc, needs, ty, lead)?;
    hold(alloc, needs, right.splits, ty)?;
    hold_lead(alloc, needs, right.splits, lead)
}

/// A type whose values are built.
#[tactic(auto, unfolding(crate::specs::Needs::built_of))]
pub(crate) fn built_of(alloc: Global, needs: &mut Needs, ty: &Ty) -> Result<(), Memory>
    ensures { Does result needs.new (spec.built_of ty.now needs.old) }
{
    if is_plain(ty) {
        return Ok(());
    }
    let same = copy(alloc, ty)?;
    needs.push(Need::Built(same))
}

/// An `out` argument.
#[tactic(auto, unfolding(crate::specs::Needs::passed_out))]
pub(crate) fn passed_out(
    alloc: Global,
    needs: &mut Needs,
    waits: bool,
    ty: &Ty,
    lead: &Lead,
) -> Result<(), Memory>
    ensures { Does result needs.new (spec.passed_out waits ty.now lead.now needs.old) }
{
    hold_lead(alloc, needs, waits, lead)?;
    in_holder(alloc, needs, ty)
}

/// An `inout` argument.
#[tactic(auto, unfolding(crate::specs::Needs::passed_both))]
pub(crate) fn passed_both(
    alloc: Global,
    needs: &mut Needs,
    waits: bool,
    ty: &Ty,
    arg: &Ty,
    lead: &Lead,
) -> Result<(), Memory>
    ensures { Does result needs.new (spec.passed_both waits ty.now arg.now lead.now needs.old) }
{
    reads(alloc, needs, arg, lead)?;
    passed_out(alloc, needs, waits, ty, lead)
}

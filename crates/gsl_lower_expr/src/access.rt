//! What is read and stored of any type, and what is known of indexes.

ghost use Rattle.std.specs.Prelude.{◌≡◌, IfOk};
ghost use Rattle.gsl_lower_leaves.specs.Leaves as leaves;
ghost use Rattle.gsl_lower_values.specs.Constructors.{operand as operand_of};
ghost use Rattle.gsl_lower_values.specs.Building as steps;
ghost use Rattle.gsl_tree.specs.Shapes as shapes;
ghost use Rattle.gsl_lower_expr.specs.Coming as coming;
ghost use Rattle.gsl_lower_holders.specs.Flow.{Does, flow_of};
ghost use Rattle.gsl_lower_expr.specs.Parts as spec;

use crate::found::Found;
use crate::lowerer::Lowerer;
use gsl_base::{List, Memory};
use gsl_instr::enumerant::storage_class;
use gsl_instr::op;
use gsl_lower_holders::{FlowPlace, holder, keep, type_id};
use gsl_lower_leaves::{Leaf, Leaves, leaves_of, read_whole, store_whole};
use gsl_lower_places::{
    Base, Part, Picked, Reached, extracted, is_block_class, pointed, pointer, read, stored,
    to_renew,
};
use gsl_lower_values::{Operand, Shape, give};
use gsl_spv::{BuildRefusal, Builder};
use gsl_types::{Scalar, Ty};
use gsl_typing::shape_of;
use std::alloc::Global;

/// The shape of a scalar or vector; of any other type that of `int`.
pub fn shape_or(ty: &Ty) -> Shape
    ensures { result ≡ spec.shape_or ty.now }
{
    match shape_of(ty) {
        Some(shape) => shape,
        None => (Scalar::Int, 1),
    }
}

/// A scalar or vector of a type, by its id.
pub(crate) fn operand(ty: &Ty, id: u32) -> Operand
    ensures { result ≡ operand_of (spec.shape_or ty.now) id }
{
    Operand {
        shape: shape_or(ty),
        id,
    }
}

fn copied_picked(alloc: Global, one: &Picked) -> Result<Picked, Memory>
    ensures { IfOk result (λ x. x ≡ one.now) }
{
    let positions = List::from_slice(alloc, one.positions.as_slice())?;
    Ok(Picked {
        shape: one.shape,
        by: one.by,
        positions,
    })
}

fn copied_if(alloc: Global, picked: &Option<Picked>) -> Result<Option<Picked>, Memory>
    ensures { IfOk result (λ x. x ≡ picked.now) }
{
    match picked {
        None => Ok(None),
        Some(one) => {
            let same = copied_picked(alloc, one)?;
            Ok(Some(same))
        }
    }
}

/// The same once more.
pub(crate) fn copied(alloc: Global, r: &Reached) -> Result<Reached, Memory>
    ensures { IfOk result (λ x. x ≡ r.now) }
{
    let path = List::from_slice(alloc, r.path.as_slice())?;
    let picked = copied_if(alloc, &r.picked)?;
    Ok(Reached {
        base: r.base,
        path,
        picked,
    })
}

impl<'a> Lowerer<'a> {
    /// The scalars and vectors of a type.
    pub(crate) fn leaves(&self, ty: &Ty) -> Result<Leaves, Memory>
        ensures { IfOk result (λ l. l ≡ leaves.leaves_of self.now.shapes.now ty.now) }
    {
        leaves_of(self.alloc, self.shapes, ty)
    }

    /// What is in a block and is no scalar and no vector.
    fn read_block(
        &self,
        b: &mut Builder,
        p: &mut FlowPlace,
        ty: &Ty,
        id: u32,
        class: u32,
        parts: &[Part],
    ) -> Result<u32, BuildRefusal>
        ensures { Does result b.new p.new (spec.read_block self.now.shapes.now ty.now id class parts.now (flow_of b.old p.old)) }
    {
        let h = holder(b, p)?;
        let t = type_id(b, p, ty)?;
        let all = self.leaves(ty)?;
        read_whole(self.alloc, b, id, class, parts, h, t, all.as_slice())
    }

    /// What is in a variable that is no block.
    fn read_own(
        &self,
        b: &mut Builder,
        p: &FlowPlace,
        ty: &Ty,
        id: u32,
        class: u32,
        parts: &[Part],
    ) -> Result<u32, BuildRefusal>
        ensures { Does result b.new p.now (spec.read_own ty.now id class parts.now (flow_of b.old p.now)) }
    {
        let t = type_id(b, p, ty)?;
        let from = pointer(self.alloc, b, id, class, t, parts)?;
        give(self.alloc, b, op::LOAD, &[from], t)
    }

    fn read_loose(
        &self,
        b: &mut Builder,
        p: &FlowPlace,
        ty: &Ty,
        id: u32,
        parts: &[Part],
    ) -> Result<u32, BuildRefusal>
        ensures { Does result b.new p.now (spec.read_loose ty.now id parts.now (flow_of b.old p.now)) }
    {
        let t = type_id(b, p, ty)?;
        extracted(self.alloc, b, id, t, parts)
    }

    /// What is no scalar and no vector.
    fn read_composite(
        &self,
        b: &mut Builder,
        p: &mut FlowPlace,
        ty: &Ty,
        base: Base,
        parts: &[Part],
    ) -> Result<u32, BuildRefusal>
        ensures { Does result b.new p.new (spec.read_composite self.now.shapes.now ty.now base parts.now (flow_of b.old p.old)) }
    {
        match base {
            Base::Variable(id, class) => {
                if is_block_class(class) {
                    self.read_block(b, p, ty, id, class, parts)
                } else {
                    self.read_own(b, p, ty, id, class, parts)
                }
            }
            Base::Value(id, _) => self.read_loose(b, p, ty, id, parts),
        }
    }

    /// The value of a type that is read.
    #[tactic(auto, unfolding(crate::specs::Parts::reads))]
    pub(crate) fn reads(
        &self,
        b: &mut Builder,
        p: &mut FlowPlace,
        ty: &Ty,
        r: &Reached,
    ) -> Result<u32, BuildRefusal>
        ensures { Does result b.new p.new (spec.reads self.now.shapes.now ty.now r.now (flow_of b.old p.old)) }
    {
        match shape_of(ty) {
            Some(shape) => read(self.alloc, b, shape, r),
            None => self.read_composite(b, p, ty, r.base, r.path.as_slice()),
        }
    }

    fn store_block(
        &self,
        b: &mut Builder,
        ty: &Ty,
        id: u32,
        class: u32,
        parts: &[Part],
        v: u32,
    ) -> Result<(), BuildRefusal>
        ensures { steps.Does result b.new (spec.store_block self.now.shapes.now ty.now id class parts.now v b.old) }
    {
        let all = self.leaves(ty)?;
        store_whole(self.alloc, b, id, class, parts, v, all.as_slice())
    }

    fn store_own(
        &self,
        b: &mut Builder,
        p: &FlowPlace,
        ty: &Ty,
        id: u32,
        class: u32,
        parts: &[Part],
        v: u32,
    ) -> Result<(), BuildRefusal>
        ensures { Does result b.new p.now (spec.store_own ty.now id class parts.now v (flow_of b.old p.now)) }
    {
        let t = type_id(b, p, ty)?;
        let to = pointer(self.alloc, b, id, class, t, parts)?;
        b.put(op::STORE, &[to, v])
    }

    fn store_composite(
        &self,
        b: &mut Builder,
        p: &FlowPlace,
        ty: &Ty,
        base: Base,
        parts: &[Part],
        v: u32,
    ) -> Result<(), BuildRefusal>
        ensures { Does result b.new p.now (spec.store_composite self.now.shapes.now ty.now base parts.now v (flow_of b.old p.now)) }
    {
        match base {
            Base::Variable(id, class) => {
                if is_block_class(class) {
                    self.store_block(b, ty, id, class, parts, v)
                } else {
                    self.store_own(b, p, ty, id, class, parts, v)
                }
            }
            Base::Value(_, _) => Ok(()),
        }
    }

    /// A value of a type is stored.
    #[tactic(auto, unfolding(crate::specs::Parts::stores))]
    pub(crate) fn stores(
        &self,
        b: &mut Builder,
        p: &FlowPlace,
        ty: &Ty,
        r: &Reached,
        v: u32,
    ) -> Result<(), BuildRefusal>
        ensures { Does result b.new p.now (spec.stores self.now.shapes.now ty.now r.now v (flow_of b.old p.now)) }
    {
        match shape_of(ty) {
            Some(shape) => stored(self.alloc, b, shape, r, v),
            None => self.store_composite(b, p, ty, r.base, r.path.as_slice(), v),
        }
    }

    /// What an expression leads to, down to a leaf.
    fn leaf_of(&self, r: &Reached, one: &Leaf) -> Result<Reached, Memory>
        ensures { IfOk result (λ l. l ≡ spec.leaf_of r.now one.now) }
    {
        let mut path = List::from_slice(self.alloc, r.path.as_slice())?;
        path.extend_from_slice(one.path.as_slice())?;
        Ok(Reached {
            base: r.base,
            path,
            picked: None,
        })
    }

    /// Whether an index is out of bounds, on the way to a scalar or vector.
    fn tested(
        &self,
        b: &mut Builder,
        base: Base,
        shape: Shape,
        r: Reached,
    ) -> Result<(), BuildRefusal>
        ensures { steps.Does result b.new (spec.tested base shape r b.old) }
    {
        match base {
            Base::Variable(_, _) => {
                pointed(self.alloc, b, shape, r)?;
                Ok(())
            }
            Base::Value(_, _) => {
                read(self.alloc, b, shape, &r)?;
                Ok(())
            }
        }
    }

    fn first_leaf(&self, b: &mut Builder, r: &Reached, leaves: &[Leaf]) -> Result<(), BuildRefusal>
        ensures { steps.Does result b.new (spec.first_leaf r.now leaves.now b.old) }
    {
        if leaves.is_empty() {
            return Ok(());
        }
        let first = self.leaf_of(r, &leaves[0])?;
        self.tested(b, r.base, leaves[0].shape, first)
    }

    /// A leaf is reached where what follows has calls, so that an index that is out of bounds strays there.
    #[tactic(auto, unfolding(crate::specs::Parts::probe))]
    pub(crate) fn probe(
        &self,
        b: &mut Builder,
        calls: bool,
        ty: &Ty,
        r: &Reached,
    ) -> Result<(), BuildRefusal>
        ensures { steps.Does result b.new (spec.probe self.now.shapes.now calls ty.now r.now b.old) }
    {
        if !calls {
            return Ok(());
        }
        match shape_of(ty) {
            Some(shape) => {
                let same = copied(self.alloc, r)?;
                self.tested(b, r.base, shape, same)
            }
            None => {
                let all = self.leaves(ty)?;
                self.first_leaf(b, r, all.as_slice())
            }
        }
    }

    /// An array that is a value and in no variable is put into a holder.
    pub(crate) fn spilled(
        &self,
        b: &mut Builder,
        p: &mut FlowPlace,
        spills: bool,
        ty: &Ty,
        r: Reached,
    ) -> Result<Reached, BuildRefusal>
        ensures { Does result b.new p.new (spec.spilled self.now.shapes.now spills ty.now r (flow_of b.old p.old)) }
    {
        if !spills {
            return Ok(r);
        }
        let v = self.reads(b, p, ty, &r)?;
        let h = keep(b, p, v)?;
        Ok(Reached::whole(self.alloc, Base::Variable(h, storage_class::FUNCTION)))
    }

    /// Where an index stands for a part.
    pub(crate) fn step_into(
        &self,
        b: &mut Builder,
        ty: &Ty,
        part: Part,
        r: Reached,
    ) -> Result<Reached, BuildRefusal>
        ensures { steps.Does result b.new (spec.step_into (shapes.shape_of ty.now) part r b.old) }
    {
        match shape_of(ty) {
            Some(shape) => r.component_at(self.alloc, b, shape, part),
            None => Ok(r.part_of(part)?),
        }
    }

    /// Where nothing has to wait, one pointer serves to read and to store, but for several components.
    pub(crate) fn pointed_if(
        &self,
        b: &mut Builder,
        points: bool,
        shape: Shape,
        r: Reached,
    ) -> Result<Reached, BuildRefusal>
        ensures { steps.Does result b.new (spec.pointed_if points shape r b.old) }
    {
        if !points {
            return Ok(r);
        }
        to_renew(self.alloc, b, shape, r)
    }

    /// The value of what was found.
    pub(crate) fn value_from(
        &self,
        b: &mut Builder,
        p: &mut FlowPlace,
        ty: &Ty,
        found: Found,
    ) -> Result<u32, BuildRefusal>
        ensures { Does result b.new p.new (coming.valued_from self.now.shapes.now ty.now found (flow_of b.old p.old)) }
    {
        match found {
            Found::Place(r) => self.reads(b, p, ty, &r),
            Found::Value(v) => Ok(v),
        }
    }

    /// What was found, as something that is read or stored.
    pub(crate) fn reached_from(
        &self,
        b: &mut Builder,
        p: &FlowPlace,
        ty: &Ty,
        found: Found,
    ) -> Result<Reached, BuildRefusal>
        ensures { Does result b.new p.now (coming.reached_from ty.now found (flow_of b.old p.now)) }
    {
        match found {
            Found::Place(r) => Ok(r),
            Found::Value(v) => {
                let t = type_id(b, p, ty)?;
                Ok(Reached::whole(self.alloc, Base::Value(v, t)))
            }
        }
    }
}

//! Names, constants and counts.

ghost use Rattle.std.specs.Prelude.{◌≡◌, IfOk, map, slice_get};
ghost use Rattle.gsl_tree.specs.Values.{components_in, word_in as word_of};
ghost use Rattle.gsl_instr.specs.declared.enumerant.storage_class.TheConstants as class;
ghost use Rattle.gsl_tree.specs.declared.expr.ExprKind.{out-ExprKind};
ghost use Rattle.gsl_lower_values.specs.Building as steps;
ghost use Rattle.gsl_lower_expr.specs.Coming as coming;
ghost use Rattle.gsl_lower_holders.specs.Flow.{Does, flow_of};
ghost use Rattle.gsl_lower_expr.specs.Parts as spec;
ghost use Rattle.gsl_lower_expr.specs.declared.found.Found.TheVariants as place;
ghost use Rattle.gsl_lower_places.specs.Reached as reached;
ghost use Rattle.gsl_lower_places.specs.declared.reached.Base.TheVariants as base;
ghost use Rattle.gsl_lower_places.specs.declared.reached.Part.TheVariants as part;

use crate::access::shape_or;
use crate::found::Found;
use crate::lowerer::Lowerer;
use gsl_base::{List, Memory};
use gsl_compute::{has_fixed_length, length_of, word_in};
use gsl_instr::enumerant::storage_class;
use gsl_instr::op;
use gsl_lower_holders::{FlowPlace, id_in};
use gsl_lower_places::{Base, Part, Reached, read};
use gsl_lower_values::{Operand, converted, give, scalar_constant, type_of, vector_constant};
use gsl_spv::{BuildRefusal, Builder};
use gsl_tree::{ExprKind, StageVar};
use gsl_types::{Scalar, Ty};
use gsl_values::Value;
use std::alloc::Global;

/// The words of some values.
fn words_in(alloc: Global, values: &[Value]) -> Result<List<u32>, Memory>
    ensures { IfOk result (λ l. l ≡ map word_of values.now) }
{
    let mut words = List::new(alloc);
    for k in 0..values.len() {
        words.push(word_in(&values[k]))?;
    }
    Ok(words)
}

/// The words of a scalar or vector, the lowest component first.
fn words_of(alloc: Global, v: &Value) -> Result<List<u32>, Memory>
    ensures { IfOk result (λ l. l ≡ components_in v.now) }
{
    match v {
        Value::Word(word) => List::from_slice(alloc, &[*word]),
        Value::Many(parts) => words_in(alloc, parts.as_slice()),
    }
}

impl<'a> Lowerer<'a> {
    /// The whole of a variable.
    fn variable(&self, id: u32, class: u32) -> Found
        ensures { result ≡ place.Place (reached.whole (base.Variable id class)) }
    {
        Found::Place(Reached::whole(self.alloc, Base::Variable(id, class)))
    }

    pub(crate) fn local(
        &self,
        b: &mut Builder,
        p: &FlowPlace,
        number: u32,
    ) -> Result<Found, BuildRefusal>
        ensures { Does result b.new p.now (coming.led (spec.named (λ place. place.locals) class.FUNCTION number) (flow_of b.old p.now)) }
    {
        match id_in(p.locals.as_slice(), number) {
            Some(id) => Ok(self.variable(id, storage_class::FUNCTION)),
            None => Err(BuildRefusal::Memory),
        }
    }

    pub(crate) fn param(
        &self,
        b: &mut Builder,
        p: &FlowPlace,
        number: u32,
    ) -> Result<Found, BuildRefusal>
        ensures { Does result b.new p.now (coming.led (spec.named (λ place. place.params) class.FUNCTION number) (flow_of b.old p.now)) }
    {
        match id_in(p.params.as_slice(), number) {
            Some(id) => Ok(self.variable(id, storage_class::FUNCTION)),
            None => Err(BuildRefusal::Memory),
        }
    }

    pub(crate) fn global(
        &self,
        b: &mut Builder,
        p: &FlowPlace,
        number: u32,
    ) -> Result<Found, BuildRefusal>
        ensures { Does result b.new p.now (coming.led (spec.named (λ place. place.globals) class.PRIVATE number) (flow_of b.old p.now)) }
    {
        match id_in(p.globals.as_slice(), number) {
            Some(id) => Ok(self.variable(id, storage_class::PRIVATE)),
            None => Err(BuildRefusal::Memory),
        }
    }

    /// The storage class of an input or output.
    fn interface_class(&self, number: u32) -> u32
        ensures { result ≡ spec.interface_class (slice_get self.now.interfaces.now number) }
    {
        let all = self.interfaces;
        if (number as usize) < all.len() && all[number as usize].output {
            storage_class::OUTPUT
        } else {
            storage_class::INPUT
        }
    }

    pub(crate) fn interface(
        &self,
        b: &mut Builder,
        p: &FlowPlace,
        number: u32,
    ) -> Result<Found, BuildRefusal>
        ensures { Does result b.new p.now (coming.led (spec.named (λ place. place.interfaces) (spec.interface_class (slice_get self.now.interfaces.now number)) number) (flow_of b.old p.now)) }
    {
        let class = self.interface_class(number);
        match id_in(p.interfaces.as_slice(), number) {
            Some(id) => Ok(self.variable(id, class)),
            None => Err(BuildRefusal::Memory),
        }
    }

    /// A member of what an id stands for.
    fn member_in(&self, id: u32, class: u32, number: u32) -> Result<Reached, Memory>
        ensures { IfOk result (λ r. r ≡ reached.part_of (reached.whole (base.Variable id class)) (part.Fixed number)) }
    {
        Reached::whole(self.alloc, Base::Variable(id, class)).part_of(Part::Fixed(number))
    }

    pub(crate) fn in_block(
        &self,
        b: &mut Builder,
        p: &FlowPlace,
        block: u32,
        number: u32,
    ) -> Result<Found, BuildRefusal>
        ensures { Does result b.new p.now (coming.led (spec.in_block block number) (flow_of b.old p.now)) }
    {
        let Some(id) = id_in(p.blocks.as_slice(), block) else {
            return Err(BuildRefusal::Memory);
        };
        let Some(class) = id_in(p.classes.as_slice(), block) else {
            return Err(BuildRefusal::Memory);
        };
        Ok(Found::Place(self.member_in(id, class, number)?))
    }

    fn counted_in(&self, b: &mut Builder, id: u32, number: u32) -> Result<u32, BuildRefusal>
        ensures { steps.Does result b.new (spec.counted_in id number b.old) }
    {
        let ty = type_of(b, (Scalar::Uint, 1))?;
        let count = give(self.alloc, b, op::ARRAY_LENGTH, &[id, number], ty)?;
        let words = Operand {
            shape: (Scalar::Uint, 1),
            id: count,
        };
        converted(self.alloc, b, Scalar::Int, words)
    }

    fn block_length(
        &self,
        b: &mut Builder,
        p: &FlowPlace,
        block: u32,
        number: u32,
    ) -> Result<u32, BuildRefusal>
        ensures { Does result b.new p.now (spec.block_length block number (flow_of b.old p.now)) }
    {
        match id_in(p.blocks.as_slice(), block) {
            Some(id) => self.counted_in(b, id, number),
            None => Err(BuildRefusal::Memory),
        }
    }

    /// The count of a runtime array, which is a member of a block.
    fn length_from(
        &self,
        b: &mut Builder,
        p: &FlowPlace,
        kind: &ExprKind,
    ) -> Result<u32, BuildRefusal>
        ensures { Does result b.new p.now (coming.length_from (out-ExprKind kind.now) (flow_of b.old p.now)) }
    {
        match kind {
            ExprKind::BlockMember(block, number) => self.block_length(b, p, *block, *number),
            _ => Err(BuildRefusal::Memory),
        }
    }

    /// What `.length()` counts.
    pub(crate) fn counted(
        &self,
        b: &mut Builder,
        p: &FlowPlace,
        kind: &ExprKind,
        ty: &Ty,
    ) -> Result<u32, BuildRefusal>
        ensures { Does result b.new p.now (coming.counted_from (out-ExprKind kind.now) ty.now (flow_of b.old p.now)) }
    {
        if has_fixed_length(ty) {
            return scalar_constant(b, Scalar::Int, length_of(ty));
        }
        self.length_from(b, p, kind)
    }

    /// A literal, or a constant vector.
    pub(crate) fn constant(&self, b: &mut Builder, ty: &Ty, v: &Value) -> Result<u32, BuildRefusal>
        ensures { steps.Does result b.new (spec.constant_by (spec.shape_or ty.now) v.now b.old) }
    {
        let shape = shape_or(ty);
        if shape.1 == 1 {
            return scalar_constant(b, shape.0, word_in(v));
        }
        let words = words_of(self.alloc, v)?;
        vector_constant(self.alloc, b, shape, words.as_slice())
    }

    /// The value of a built-in variable.
    pub(crate) fn stage(
        &self,
        b: &mut Builder,
        p: &FlowPlace,
        var: StageVar,
        ty: &Ty,
    ) -> Result<u32, BuildRefusal>
        ensures { Does result b.new p.now (spec.stage_value var ty.now (flow_of b.old p.now)) }
    {
        let Some(id) = id_in(p.stage_vars.as_slice(), stage_number(var)) else {
            return Err(BuildRefusal::Memory);
        };
        let variable = Reached::whole(self.alloc, Base::Variable(id, storage_class::INPUT));
        read(self.alloc, b, shape_or(ty), &variable)
    }
}

/// The number of a built-in variable among the ids of a place.
pub fn stage_number(var: StageVar) -> u32
    ensures { result ≡ spec.stage_number var }
{
    match var {
        StageVar::NumWorkGroups => 0,
        StageVar::WorkGroupId => 1,
        StageVar::LocalInvocationId => 2,
        StageVar::GlobalInvocationId => 3,
        StageVar::LocalInvocationIndex => 4,
        StageVar::VertexIndex => 5,
        StageVar::InstanceIndex => 6,
    }
}

//! Parts that are taken out of values, and put into them.

ghost use Rattle.gsl_instr.specs.declared.instruction.Instruction.TheVariants as instruction;
ghost use Rattle.gsl_step.specs.Machine.{Does};
ghost use Rattle.gsl_step_values.specs.Parts as spec;

use crate::lanes::put_same;
use crate::parts::{offset, words_of};
use gsl_kinds::type_of;
use gsl_operands::Operands;
use gsl_step::{Machine, pass};

/// Puts the words of a part to the place of an id.
fn take_part(
    operands: &Operands<'_>,
    machine: &mut Machine,
    type_: u32,
    result_id: u32,
    composite: u32,
    indexes: &[u32],
)
    ensures { spec.PutsPart operands.now type_ result_id composite indexes.now machine.old machine.new }
{
    let slots = machine.standing.slots;
    let leaves = operands.frames().leaves();
    let count = leaves.leaves(type_);
    let at = operands.place(slots, result_id);
    let from = operands.stands(slots, composite);
    let skipped = offset(leaves, type_of(leaves.definitions(), composite), indexes);
    put_same(&mut machine.slots, from.saturating_add(skipped), at, count);
    pass(&mut machine.standing);
}

/// CompositeExtract.
pub fn extract(
    operands: &Operands<'_>,
    machine: &mut Machine,
    type_: u32,
    result_id: u32,
    composite: u32,
    indexes: &[u32],
)
    ensures { Does operands.now (instruction.CompositeExtract type_ result_id composite indexes.now) machine.old machine.new }
{
    take_part(operands, machine, type_, result_id, composite, indexes);
}

/// Puts the words of a value with another part to the place of an id.
fn put_part(
    operands: &Operands<'_>,
    machine: &mut Machine,
    type_: u32,
    result_id: u32,
    part: u32,
    composite: u32,
    indexes: &[u32],
)
    ensures { spec.PutsInside operands.now type_ result_id part composite indexes.now machine.old machine.new }
{
    let slots = machine.standing.slots;
    let leaves = operands.frames().leaves();
    let count = leaves.leaves(type_);
    let at = operands.place(slots, result_id);
    let from = operands.stands(slots, composite);
    put_same(&mut machine.slots, from, at, count);
    let inner = words_of(operands, part);
    let from_part = operands.stands(slots, part);
    let skipped = offset(leaves, Some(type_), indexes);
    put_same(
        &mut machine.slots,
        from_part,
        at.saturating_add(skipped),
        inner,
    );
    pass(&mut machine.standing);
}

/// CompositeInsert.
pub fn insert(
    operands: &Operands<'_>,
    machine: &mut Machine,
    type_: u32,
    result_id: u32,
    part: u32,
    composite: u32,
    indexes: &[u32],
)
    ensures { Does operands.now (instruction.CompositeInsert type_ result_id part composite indexes.now) machine.old machine.new }
{
    put_part(
        operands, machine, type_, result_id, part, composite, indexes,
    );
}

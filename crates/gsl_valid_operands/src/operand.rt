//! Operands by their instructions.

ghost use Rattle.std.specs.Prelude.{◌≡◌, ◌^◌, ◌<◌, ◌&&◌, length};
ghost use Rattle.gsl_valid.specs.Placed.{count_of_words};
ghost use Rattle.gsl_valid.specs.OperandRules as spec;
ghost use Rattle.gsl_valid.specs.Types as types;

use crate::composite::{is_built, is_part, is_picked, is_shuffled, is_type_of, part_within};
use crate::scalar::{are_compared, is_bool_value, is_ints_sized, is_truth_sized, is_unary};
use crate::sign::{is_signed, sign_of};
use gsl_ids::{Definitions, Test, first_failed};
use gsl_instr::{Instruction, read};
use gsl_kinds::{has_type, is_int_value, is_ints, is_truth, shape_of, type_of};

/// The place of the first instruction whose operands are not of the types that it needs, which breaks V14.
pub fn operand_types(definitions: &Definitions<'_>) -> Option<u32>
    requires length { length definitions.now.instrs < 2 ^ 32 }
    requires words { count_of_words definitions.now < 2 ^ 32 }
    ensures { result ≡ spec.operand_types definitions.now }
{
    first_failed(&mut OperandTest { definitions }, definitions.module())
}

/// The test of V14.
#[derive(Drop)]
pub(crate) struct OperandTest<'a> {
    definitions: &'a Definitions<'a>,
}

impl<'a> Test for OperandTest<'a> {
    ghost use Rattle.std.specs.Prelude.{[]};
    ghost use Rattle.gsl_valid.specs.OperandRules.{typed};

    ghost passes = { λ s at i. typed s.definitions.now [] i };

    ghost behind = { λ s at i. s };

    fn test(&mut self, _at: u32, op: u16, args: &[u32]) -> bool {
        match read(op, args) {
            Some(instruction) => operands_typed(self.definitions, instruction),
            None => true,
        }
    }
}

/// Whether the operands of an instruction have the types that it needs.
fn operands_typed(definitions: &Definitions<'_>, instruction: Instruction<'_>) -> bool
    ensures { result ≡ spec.operands_typed definitions.now instruction.entry }
{
    match instruction {
        Instruction::CompositeConstruct { type_, parts, .. } => {
            is_built(definitions, parts.as_slice(), shape_of(definitions, type_))
        }
        Instruction::VectorExtractDynamic {
            type_,
            vector,
            index,
            ..
        } => { is_picked(definitions, type_, vector) && is_int_value(definitions, index) }
        Instruction::VectorShuffle {
            type_,
            first,
            second,
            components,
            ..
        } => { is_shuffled(definitions, type_, components.as_slice(), first, second) }
        Instruction::CompositeExtract {
            type_,
            composite,
            indexes,
            ..
        } => {
            is_part(
                type_,
                part_within(
                    definitions,
                    type_of(definitions, composite),
                    indexes.as_slice(),
                ),
            )
        }
        Instruction::CompositeInsert {
            type_,
            part,
            composite,
            indexes,
            ..
        } => {
            has_type(definitions, type_, composite)
                && is_type_of(
                    definitions,
                    part,
                    part_within(definitions, Some(type_), indexes.as_slice()),
                )
        }
        Instruction::Unary { op, type_, a, .. } => is_unary(definitions, op, type_, a),
        Instruction::Arithmetic {
            op,
            type_,
            a,
            b,
            ..
        } => is_arithmetic(definitions, op, type_, a, b),
        Instruction::Shift {
            type_,
            base,
            shift,
            ..
        } => {
            is_ints(definitions, type_)
                && has_type(definitions, type_, base)
                && is_ints_sized(definitions, type_, shift)
        }
        Instruction::Logical { type_, a, b, .. } => {
            is_truth(definitions, type_)
                && has_type(definitions, type_, a)
                && has_type(definitions, type_, b)
        }
        Instruction::Comparison {
            op,
            type_,
            a,
            b,
            ..
        } => { is_truth(definitions, type_) && are_compared(definitions, sign_of(op), type_, a, b) }
        Instruction::Select {
            type_,
            condition,
            a,
            b,
            ..
        } => {
            has_type(definitions, type_, a)
                && has_type(definitions, type_, b)
                && is_truth_sized(definitions, type_, condition)
        }
        Instruction::BitFieldInsert {
            type_,
            base,
            insert,
            offset,
            count,
            ..
        } => { is_inserted(definitions, type_, base, insert, offset, count) }
        Instruction::BitFieldExtract {
            op,
            type_,
            base,
            offset,
            count,
            ..
        } => { is_extracted(definitions, op, type_, base, offset, count) }
        Instruction::BranchConditional { condition, .. } => is_bool_value(definitions, condition),
        Instruction::Switch { selector, .. } => is_int_value(definitions, selector),
        _ => true,
    }
}

/// Whether an operator on integers gives a type from values of it.
fn is_arithmetic(definitions: &Definitions<'_>, op: u16, type_: u32, a: u32, b: u32) -> bool
    ensures { result ≡ (types.is_ints definitions.now type_ && spec.is_signed definitions.now (spec.sign_of op) type_ && types.has_type definitions.now type_ a && types.has_type definitions.now type_ b) }
{
    is_ints(definitions, type_)
        && is_signed(definitions, sign_of(op), type_)
        && has_type(definitions, type_, a)
        && has_type(definitions, type_, b)
}

/// Whether bits of a value are put into one of its type.
fn is_inserted(
    definitions: &Definitions<'_>,
    type_: u32,
    base: u32,
    insert: u32,
    offset: u32,
    count: u32,
) -> bool
    ensures { result ≡ (types.is_ints definitions.now type_ && types.has_type definitions.now type_ base && types.has_type definitions.now type_ insert && types.is_int_value definitions.now offset && types.is_int_value definitions.now count) }
{
    is_ints(definitions, type_)
        && has_type(definitions, type_, base)
        && has_type(definitions, type_, insert)
        && is_int_value(definitions, offset)
        && is_int_value(definitions, count)
}

/// Whether bits of a value are taken out of it.
fn is_extracted(
    definitions: &Definitions<'_>,
    op: u16,
    type_: u32,
    base: u32,
    offset: u32,
    count: u32,
) -> bool
    ensures { result ≡ (types.is_ints definitions.now type_ && spec.is_signed definitions.now (spec.sign_of op) type_ && types.has_type definitions.now type_ base && types.is_int_value definitions.now offset && types.is_int_value definitions.now count) }
{
    is_ints(definitions, type_)
        && is_signed(definitions, sign_of(op), type_)
        && has_type(definitions, type_, base)
        && is_int_value(definitions, offset)
        && is_int_value(definitions, count)
}

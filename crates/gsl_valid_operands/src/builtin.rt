//! Extended instructions (GLSL.std.450).

ghost use Rattle.std.specs.Prelude.{◌≡◌, ◌^◌, ◌<◌, ◌==◌, Some, length, find};
ghost use Rattle.std.specs.List.{list_all};
ghost use Rattle.std.specs.Option.{option_map};
ghost use Rattle.gsl_valid.specs.Placed.{count_of_words};
ghost use Rattle.gsl_valid.specs.ExtendedRules as spec;
ghost use Rattle.gsl_valid.specs.Kinds as kinds;
ghost use Rattle.gsl_valid.specs.Types as types;
ghost use Rattle.gsl_valid_operands.specs.Seen as seen;

use crate::sign::{Sign, is_signed};
use gsl_ids::{Definitions, Test, first_failed};
use gsl_instr::enumerant::glsl_std_450 as extended_op;
use gsl_instr::{Instruction, read};
use gsl_kinds::{Kind, has_type, is_ints, kind_if, same_size, type_of};

/// The place of the first extended instruction whose set, number or operands are not of the table, which breaks V17.
pub fn extended(definitions: &Definitions<'_>) -> Option<u32>
    requires length { length definitions.now.instrs < 2 ^ 32 }
    requires words { count_of_words definitions.now < 2 ^ 32 }
    ensures { result ≡ spec.extended definitions.now }
{
    first_failed(&mut ExtendedTest { definitions }, definitions.module())
}

/// The test of V17.
#[derive(Drop)]
pub(crate) struct ExtendedTest<'a> {
    definitions: &'a Definitions<'a>,
}

impl<'a> Test for ExtendedTest<'a> {
    ghost use Rattle.std.specs.Prelude.{[]};
    ghost use Rattle.gsl_valid.specs.ExtendedRules.{extended_kept};

    ghost passes = { λ s at i. extended_kept s.definitions.now [] i };

    ghost behind = { λ s at i. s };

    fn test(&mut self, _at: u32, op: u16, args: &[u32]) -> bool {
        match read(op, args) {
            Some(instruction) => is_extended(self.definitions, instruction),
            None => true,
        }
    }
}

/// Whether an instruction, if it is an extended one, is of the table.
fn is_extended(definitions: &Definitions<'_>, instruction: Instruction<'_>) -> bool
    ensures { result ≡ spec.extended_of definitions.now instruction.entry }
{
    match instruction {
        Instruction::ExtInst {
            type_,
            set,
            number,
            operands,
            ..
        } => {
            is_import(definitions, set)
                && fits_row(definitions, type_, operands.as_slice(), row_of(number))
        }
        _ => true,
    }
}

/// Whether an id stands for the import.
fn is_import(definitions: &Definitions<'_>, set: u32) -> bool
    ensures { result ≡ spec.imports (kinds.kind (types.defined_as definitions.now set)) }
{
    matches!(kind_if(definitions.get(set)), Kind::Imports)
}

/// An extended instruction: how many operands it has and of which sign, and whether it gives the place of a bit.
#[derive(Clone, Copy)]
pub(crate) struct Row {
    number: u32,
    count: u32,
    sign: Sign,
    finds: bool,
}

/// The extended instruction of a number, if the table has it.
fn row_of(number: u32) -> Option<Row>
    ensures { option_map seen.row_seen result ≡ find (λ row. row.number == number) spec.rows }
{
    match number {
        extended_op::S_ABS => made(number, 1, SIGNED, false),
        extended_op::S_SIGN => made(number, 1, SIGNED, false),
        extended_op::U_MIN => made(number, 2, UNSIGNED, false),
        extended_op::S_MIN => made(number, 2, SIGNED, false),
        extended_op::U_MAX => made(number, 2, UNSIGNED, false),
        extended_op::S_MAX => made(number, 2, SIGNED, false),
        extended_op::U_CLAMP => made(number, 3, UNSIGNED, false),
        extended_op::S_CLAMP => made(number, 3, SIGNED, false),
        extended_op::FIND_I_LSB => made(number, 1, Sign::Either, true),
        extended_op::FIND_S_MSB => made(number, 1, SIGNED, true),
        extended_op::FIND_U_MSB => made(number, 1, UNSIGNED, true),
        _ => None,
    }
}

const SIGNED: Sign = Sign::Only { signedness: 1 };

const UNSIGNED: Sign = Sign::Only { signedness: 0 };

/// A row of the table.
fn made(number: u32, count: u32, sign: Sign, finds: bool) -> Option<Row>
    ensures { option_map seen.row_seen result ≡ Some (spec.row number count (seen.sign_seen sign) finds) }
{
    Some(Row {
        number,
        count,
        sign,
        finds,
    })
}

/// Whether operands and a result are those of an extended instruction, if there is one.
fn fits_row(definitions: &Definitions<'_>, type_: u32, operands: &[u32], row: Option<Row>) -> bool
    ensures { result ≡ spec.fits_row definitions.now type_ operands.now (option_map seen.row_seen row) }
{
    match row {
        Some(row) => operands.len() == row.count as usize
            && fits(definitions, row, type_, operands),
        None => false,
    }
}

/// Whether the operands are all of the first one's type, and that and the result's are those of the instruction.
fn fits(definitions: &Definitions<'_>, row: Row, type_: u32, operands: &[u32]) -> bool
    ensures { result ≡ spec.fit_with definitions.now (seen.row_seen row) type_ operands.now (spec.first_type definitions.now operands.now) }
{
    match operands {
        [first, ..] => fit_first(definitions, row, type_, operands, *first),
        [] => false,
    }
}

/// The same, by the first operand.
fn fit_first(
    definitions: &Definitions<'_>,
    row: Row,
    type_: u32,
    operands: &[u32],
    first: u32,
) -> bool
    ensures { result ≡ spec.fit_with definitions.now (seen.row_seen row) type_ operands.now (kinds.type_of (types.defined_as definitions.now first)) }
{
    match type_of(definitions, first) {
        Some(other) => {
            is_ints(definitions, other)
                && is_signed(definitions, row.sign, other)
                && all_have(definitions, other, operands)
                && is_result(definitions, row.finds, type_, other)
        }
        None => false,
    }
}

/// Whether values are all of a type.
fn all_have(definitions: &Definitions<'_>, type_: u32, values: &[u32]) -> bool
    ensures { result ≡ list_all (types.has_type definitions.now type_) values.now }
{
    values
        .iter()
        .all(|value| has_type(definitions, type_, *value))
}

/// Whether a result of a type is one of operands of another: the same, or signed of that size where it is the place of a bit.
fn is_result(definitions: &Definitions<'_>, finds: bool, type_: u32, operands: u32) -> bool
    ensures { result ≡ spec.is_result definitions.now finds type_ operands }
{
    if finds {
        is_signed(definitions, SIGNED, type_) && same_size(definitions, type_, operands)
    } else {
        type_ == operands
    }
}

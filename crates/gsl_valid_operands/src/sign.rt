//! The signedness that opcodes name.

ghost use Rattle.std.specs.Prelude.{◌≡◌};
ghost use Rattle.gsl_valid.specs.OperandRules as spec;
ghost use Rattle.gsl_valid_operands.specs.Seen as seen;

use gsl_ids::Definitions;
use gsl_instr::op;
use gsl_kinds::is_ints_of;

/// The signedness that an opcode names.
#[derive(Clone, Copy)]
pub(crate) enum Sign {
    Either,
    Only { signedness: u32 },
}

/// The signedness that the opcode of an operator names.
pub(crate) fn sign_of(op: u16) -> Sign
    ensures { seen.sign_seen result ≡ spec.sign_of op }
{
    if names_signed(op) {
        Sign::Only { signedness: 1 }
    } else if names_unsigned(op) {
        Sign::Only { signedness: 0 }
    } else {
        Sign::Either
    }
}

/// Whether an opcode names signed integers.
fn names_signed(op: u16) -> bool
    ensures { result ≡ spec.is_op spec.signed_codes op }
{
    op == op::S_DIV
        || op == op::S_MOD
        || op == op::S_GREATER_THAN
        || op == op::S_GREATER_THAN_EQUAL
        || op == op::S_LESS_THAN
        || op == op::S_LESS_THAN_EQUAL
        || op == op::BIT_FIELD_S_EXTRACT
}

/// Whether an opcode names unsigned integers.
fn names_unsigned(op: u16) -> bool
    ensures { result ≡ spec.is_op spec.unsigned_codes op }
{
    op == op::U_DIV
        || op == op::U_MOD
        || op == op::U_GREATER_THAN
        || op == op::U_GREATER_THAN_EQUAL
        || op == op::U_LESS_THAN
        || op == op::U_LESS_THAN_EQUAL
        || op == op::BIT_FIELD_U_EXTRACT
}

/// Whether a type is of integers of a signedness.
pub(crate) fn is_signed(definitions: &Definitions<'_>, sign: Sign, type_: u32) -> bool
    ensures { result ≡ spec.is_signed definitions.now (seen.sign_seen sign) type_ }
{
    match sign {
        Sign::Either => true,
        Sign::Only { signedness } => is_ints_of(definitions, signedness, type_),
    }
}

//! Operators on two values.

ghost use Rattle.gsl_instr.specs.declared.instruction.Instruction.TheVariants as instruction;
ghost use Rattle.gsl_machine.specs.Operations as machine;
ghost use Rattle.gsl_step.specs.Machine.{Does};
ghost use Rattle.gsl_step_values.specs.Values as spec;

use crate::lanes::put_two;
use gsl_enact_values as enact;
use gsl_operands::Operands;
use gsl_step::{Machine, pass};
use gsl_values::BinaryOp;

/// An operator on the components of two values.
fn two(
    operands: &Operands<'_>,
    machine: &mut Machine,
    operator: (BinaryOp, bool),
    type_: u32,
    result_id: u32,
    a: u32,
    b: u32,
)
    ensures { spec.PutsTwo operands.now operator type_ result_id a b machine.old machine.new }
{
    let slots = machine.standing.slots;
    let count = operands.frames().leaves().leaves(type_);
    let at = operands.place(slots, result_id);
    let x = operands.stands(slots, a);
    let y = operands.stands(slots, b);
    put_two(
        &mut machine.slots,
        operator,
        x,
        y,
        at,
        count,
        &mut machine.choices,
    );
    pass(&mut machine.standing);
}

/// IAdd, ISub, IMul, UDiv, SDiv, UMod, SMod, BitwiseOr, BitwiseXor and BitwiseAnd.
pub fn arithmetic(
    operands: &Operands<'_>,
    machine: &mut Machine,
    op: u16,
    type_: u32,
    result_id: u32,
    a: u32,
    b: u32,
)
    ensures { Does operands.now (instruction.Arithmetic op type_ result_id a b) machine.old machine.new }
{
    two(
        operands,
        machine,
        enact::arithmetic(op),
        type_,
        result_id,
        a,
        b,
    );
}

/// ShiftRightLogical, ShiftRightArithmetic and ShiftLeftLogical.
pub fn shift(
    operands: &Operands<'_>,
    machine: &mut Machine,
    op: u16,
    type_: u32,
    result_id: u32,
    base: u32,
    amount: u32,
)
    ensures { Does operands.now (instruction.Shift op type_ result_id base amount) machine.old machine.new }
{
    two(
        operands,
        machine,
        enact::shift(op),
        type_,
        result_id,
        base,
        amount,
    );
}

/// LogicalEqual, LogicalNotEqual, LogicalOr and LogicalAnd.
pub fn logical(
    operands: &Operands<'_>,
    machine: &mut Machine,
    op: u16,
    type_: u32,
    result_id: u32,
    a: u32,
    b: u32,
)
    ensures { Does operands.now (instruction.Logical op type_ result_id a b) machine.old machine.new }
{
    two(
        operands,
        machine,
        enact::logical(op),
        type_,
        result_id,
        a,
        b,
    );
}

/// IEqual, INotEqual, and the comparisons of words with and without their sign.
pub fn comparison(
    operands: &Operands<'_>,
    machine: &mut Machine,
    op: u16,
    type_: u32,
    result_id: u32,
    a: u32,
    b: u32,
)
    ensures { Does operands.now (instruction.Comparison op type_ result_id a b) machine.old machine.new }
{
    two(
        operands,
        machine,
        enact::comparison(op),
        type_,
        result_id,
        a,
        b,
    );
}

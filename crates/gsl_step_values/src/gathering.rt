//! Values that are put together.

ghost use Rattle.std.specs.Prelude.{◌≡◌};
ghost use Rattle.gsl_instr.specs.declared.instruction.Instruction.TheVariants as instruction;
ghost use Rattle.gsl_region.specs.Showing.{with_words};
ghost use Rattle.gsl_step.specs.Machine.{Does};
ghost use Rattle.gsl_step_values.specs.Parts as spec;

use crate::lanes::put_same;
use crate::parts::words_of;
use gsl_operands::Operands;
use gsl_slots::Slots;
use gsl_step::{Machine, pass};

/// Puts the words of operands to a place behind them, in their order.
fn gather(operands: &Operands<'_>, slots: &mut Slots, base: u64, parts: &[u32], at: u64)
    ensures { spec.HasRoomToGather operands.now base at slots.old parts.now → slots.new ≡ with_words slots.old at (spec.gathered operands.now base slots.old parts.now) }
{
    let mut end = at;
    for k in 0..parts.len() {
        let count = words_of(operands, parts[k]);
        let from = operands.stands(base, parts[k]);
        put_same(slots, from, end, count);
        end = end.saturating_add(count);
    }
}

/// Puts the words of all parts to the place of an id.
fn put_all(operands: &Operands<'_>, machine: &mut Machine, result_id: u32, parts: &[u32])
    ensures { spec.PutsAll operands.now result_id parts.now machine.old machine.new }
{
    let base = machine.standing.slots;
    let at = operands.place(base, result_id);
    gather(operands, &mut machine.slots, base, parts, at);
    pass(&mut machine.standing);
}

/// CompositeConstruct.
pub fn construct(
    operands: &Operands<'_>,
    machine: &mut Machine,
    type_: u32,
    result_id: u32,
    parts: &[u32],
)
    ensures { Does operands.now (instruction.CompositeConstruct type_ result_id parts.now) machine.old machine.new }
{
    let _type = type_;
    put_all(operands, machine, result_id, parts);
}

//! Loads.

ghost use Rattle.std.specs.Prelude.{◌≡◌, false};
ghost use Rattle.gsl_instr.specs.declared.instruction.Instruction.TheVariants as instruction;
ghost use Rattle.gsl_step.specs.Machine.{Does};
ghost use Rattle.gsl_step_memory.specs.Moved as spec;
ghost use Rattle.gsl_step_memory.specs.Pointers.{into_block};

use crate::moving::copy_out;
use crate::pointing::place_of;
use gsl_operands::Operands;
use gsl_step::{Machine, pass};

/// Puts the words of variables from a place on, as many as a type has, to the place of an id.
fn put_loaded(operands: &Operands<'_>, machine: &mut Machine, type_: u32, result_id: u32, from: u64)
    ensures { spec.PutsLoaded operands.now type_ result_id from machine.old machine.new }
{
    let count = operands.frames().leaves().leaves(type_);
    let at = operands.place(machine.standing.slots, result_id);
    copy_out(&machine.words, from, &mut machine.slots, at, count);
    pass(&mut machine.standing);
}

/// Load, through a pointer that leads into no block.
pub fn load(
    operands: &Operands<'_>,
    machine: &mut Machine,
    type_: u32,
    result_id: u32,
    pointer: u32,
)
    ensures { into_block operands.now pointer ≡ false → Does operands.now (instruction.Load type_ result_id pointer) machine.old machine.new }
{
    let from = place_of(operands, machine, pointer);
    put_loaded(operands, machine, type_, result_id, from);
}

//! Stores, and variables that have their initialisers again.

ghost use Rattle.std.specs.Prelude.{◌≡◌, false};
ghost use Rattle.gsl_instr.specs.declared.instruction.Instruction.TheVariants as instruction;
ghost use Rattle.gsl_step.specs.Machine.{Does};
ghost use Rattle.gsl_step_memory.specs.Moved as spec;
ghost use Rattle.gsl_step_memory.specs.Pointers.{into_block};

use crate::moving::copy_in;
use crate::pointing::place_of;
use gsl_operands::Operands;
use gsl_step::{Machine, pass};
use gsl_step_values::words_of;

/// Puts the words of an operand to a place among those of variables.
fn put_stored(operands: &Operands<'_>, machine: &mut Machine, value: u32, at: u64)
    ensures { spec.PutsStored operands.now value at machine.old machine.new }
{
    let count = words_of(operands, value);
    let from = operands.stands(machine.standing.slots, value);
    copy_in(&machine.slots, from, &mut machine.words, at, count);
    pass(&mut machine.standing);
}

/// Store, through a pointer that leads into no block.
pub fn store(operands: &Operands<'_>, machine: &mut Machine, pointer: u32, value: u32)
    ensures { into_block operands.now pointer ≡ false → Does operands.now (instruction.Store pointer value) machine.old machine.new }
{
    let at = place_of(operands, machine, pointer);
    put_stored(operands, machine, value, at);
}

/// A variable of a function, which has its initialiser again.
pub fn declare(
    operands: &Operands<'_>,
    machine: &mut Machine,
    type_: u32,
    result_id: u32,
    class: u32,
    initialiser: &[u32],
)
    ensures { Does operands.now (instruction.Variable type_ result_id class initialiser.now) machine.old machine.new }
{
    let _variable = (type_, class);
    let at = place_of(operands, machine, result_id);
    put_stored(operands, machine, first_of(initialiser), at);
}

/// The first of some ids, or 0.
pub fn first_of(ids: &[u32]) -> u32
    ensures { result ≡ spec.first_of ids.now }
{
    match ids.first() {
        Some(id) => *id,
        None => 0,
    }
}

//! Where pointers lead.

ghost use Rattle.std.specs.Prelude.{◌≡◌, ◌+◌, ◌<◌, ◌≤◌, length};
ghost use Rattle.gsl_frames.specs.Frames.{place};
ghost use Rattle.gsl_kinds.specs.Seen.{kind_seen, shape_seen};
ghost use Rattle.gsl_leaves.specs.Table.{most};
ghost use Rattle.gsl_step_memory.specs.Pointers as spec;
ghost use Rattle.gsl_valid.specs.Kinds as kinds;
ghost use Rattle.gsl_valid.specs.Types as types;

use gsl_ids::Definitions;
use gsl_instr::enumerant::storage_class;
use gsl_kinds::{Kind, Shape, kind_if, shape_of, type_of};
use gsl_operands::Operands;
use gsl_slots::Slots;
use gsl_step::{Machine, word_at};

/// Whether an id is a pointer into a block, by its type.
pub fn leads_into_block(definitions: &Definitions<'_>, id: u32) -> bool
    ensures { result ≡ spec.into_block definitions.now id }
{
    match type_of(definitions, id) {
        None => false,
        Some(type_) => is_into_block(shape_of(definitions, type_)),
    }
}

/// Whether a type is one of pointers into blocks.
fn is_into_block(shape: Shape<'_>) -> bool
    ensures { result ≡ spec.is_block_target (types.target_in (shape_seen shape.entry)) }
{
    match shape {
        Shape::Pointer { class, .. } => is_block_class(class),
        _ => false,
    }
}

/// Whether a class is that of a block's variable.
fn is_block_class(class: u32) -> bool
    ensures { result ≡ types.is_block_class class }
{
    class == storage_class::UNIFORM
        || class == storage_class::STORAGE_BUFFER
        || class == storage_class::PUSH_CONSTANT
}

/// Where the place begins, among the words of all variables, to which a pointer leads that leads into no block.
pub fn place_of(operands: &Operands<'_>, machine: &Machine, id: u32) -> u64
    ensures { spec.IsTold operands.now machine.now id → result ≡ spec.led_to operands.now machine.now id }
{
    let definitions = operands.frames().leaves().definitions();
    place_as(operands, machine, id, kind_if(definitions.get(id)))
}

/// The same, by what the id is.
fn place_as(operands: &Operands<'_>, machine: &Machine, id: u32, kind: Kind<'_>) -> u64
    ensures { spec.IsToldAs operands.now machine.now id (kinds.variable_in (kind_seen kind.entry)) → result ≡ spec.led_as operands.now machine.now id (kinds.variable_in (kind_seen kind.entry)) }
{
    match kind {
        Kind::Holds(variable) => {
            let begin = begin_of(variable.class, machine.standing.variables);
            operands.place(begin, id)
        }
        _ => {
            let at = operands.stands(machine.standing.slots, id);
            long_at(&machine.slots, at.saturating_add(1))
        }
    }
}

/// Where the variables of a class begin.
fn begin_of(class: u32, variables: u64) -> u64
    ensures { result ≡ spec.begin_of class variables }
{
    if class == storage_class::FUNCTION {
        variables
    } else {
        0
    }
}

/// A count of up to 64 bits among the slots, whose lower word stands first.
fn long_at(slots: &Slots, at: u64) -> u64
    ensures { at + 1 < length slots.now → result ≡ spec.long_at slots.now at }
{
    let _room = slots.len();
    let low = word_at(slots, at);
    let high = word_at(slots, at.saturating_add(1));
    u64::from(low) + 4_294_967_296 * u64::from(high)
}

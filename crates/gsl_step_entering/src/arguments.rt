//! What functions are given.

ghost use Rattle.std.specs.Prelude.{◌≡◌, ◌≤◌, is_some};
ghost use Rattle.gsl_frames.specs.Frames as frames;
ghost use Rattle.gsl_kinds.specs.Seen.{kind_seen};
ghost use Rattle.gsl_leaves.specs.Table.{most, told};
ghost use Rattle.gsl_step_entering.specs.Passed as spec;
ghost use Rattle.gsl_valid.specs.Kinds as kinds;
ghost use Rattle.gsl_valid.specs.Types.{defined_as};

use gsl_ids::Definitions;
use gsl_kinds::{Kind, Shape, kind_if, shape_of, type_of};
use gsl_leaves::Leaves;
use gsl_operands::Operands;
use gsl_step::Machine;
use gsl_step_indexes::put_pointer;
use gsl_step_memory::place_of;
use gsl_step_values::put_same;

/// How many words what is of a type has, told like the words of types.
#[tactic(auto, unfolding(gsl_leaves::specs::Table::told))]
fn held_words(leaves: &Leaves<'_>, type_: u32) -> u64
    ensures { result ≡ told (frames.held_words leaves.now type_) }
{
    match shape_of(leaves.definitions(), type_) {
        Shape::Pointer { .. } => 3,
        _ => leaves.leaves(type_),
    }
}

/// How many words what an id stands for has, by its type.
fn count_of(operands: &Operands<'_>, id: u32) -> u64
    ensures { spec.count_of operands.now id ≤ most → result ≡ spec.count_of operands.now id }
{
    let leaves = operands.frames().leaves();
    match type_of(leaves.definitions(), id) {
        Some(type_) => held_words(leaves, type_),
        None => 0,
    }
}

/// Whether an id is a variable.
fn is_variable(definitions: &Definitions<'_>, id: u32) -> bool
    ensures { result ≡ is_some (kinds.variable_is (defined_as definitions.now id)) }
{
    holds(kind_if(definitions.get(id)))
}

fn holds(kind: Kind<'_>) -> bool
    ensures { result ≡ is_some (kinds.variable_in (kind_seen kind.entry)) }
{
    matches!(kind, Kind::Holds(_))
}

/// Puts the words of an argument to a place behind them; and where they end.
fn put_argument(operands: &Operands<'_>, machine: &mut Machine, id: u32, at: u64) -> u64
    ensures { spec.Passes operands.now id at machine.old machine.new result }
{
    let definitions = operands.frames().leaves().definitions();
    let variable = is_variable(definitions, id);
    if variable {
        let place = place_of(operands, machine, id);
        put_pointer(&mut machine.slots, at, place);
        return at.saturating_add(3);
    }
    let count = count_of(operands, id);
    let from = operands.stands(machine.standing.slots, id);
    put_same(&mut machine.slots, from, at, count);
    at.saturating_add(count)
}

/// Puts the words of all arguments to a place behind them, in their order.
pub(crate) fn put_arguments(
    operands: &Operands<'_>,
    machine: &mut Machine,
    arguments: &[u32],
    base: u64,
)
    ensures { spec.PassesAll operands.now arguments.now base machine.old machine.new }
{
    let mut end = base;
    for k in 0..arguments.len() {
        end = put_argument(operands, machine, arguments[k], end);
    }
}

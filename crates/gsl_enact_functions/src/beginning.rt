//! How functions begin.

ghost use Rattle.std.specs.Prelude.{◌≡◌, ◌++◌, ℕ, IfOk, OnOk, map};
ghost use Rattle.gsl_enact_state.specs.Seen as seen;
ghost use Rattle.gsl_kinds.specs.Seen.{variable_seen};
ghost use Rattle.gsl_machine.specs.Functions as machine;
ghost use Rattle.gsl_machine.specs.Interfaces.{globals as globals_of};
ghost use Rattle.gsl_machine.specs.State.{Ids};
ghost use Rattle.gsl_words.specs.declared.module.Module.{Module};

use crate::bodies::{parameters_of, variables_of};
use crate::labels::first_label;
use gsl_base::{List, Memory};
use gsl_decorations::pointee;
use gsl_enact_state::{Code, Given, Globals, Held, State, copy_held, point_to_values, push_row};
use gsl_enact_values::{constant, zeros};
use gsl_ids::Definitions;
use gsl_kinds::Variable;
use gsl_values::{Value, Values};
use std::alloc::Global;

/// What a variable begins as: its initialiser, which is a constant, or else zeros.
pub fn begins_as(
    alloc: Global,
    definitions: &Definitions<'_>,
    v: &Variable<'_>,
) -> Result<Value, Memory>
    ensures { IfOk result (λ value. value ≡ machine.begins_as definitions.now (variable_seen v.now)) }
{
    match v.initialiser.get(0) {
        None => zeros(alloc, definitions, pointee(definitions, v.type_)),
        Some(id) => constant(alloc, definitions, *id),
    }
}

/// Variables begin, behind those that are there.
fn begin_each(
    alloc: Global,
    definitions: &Definitions<'_>,
    variables: &mut Values,
    holders: &[Variable<'_>],
) -> Result<(), Memory>
    ensures { OnOk result (variables.new ≡ variables.old ++ map (machine.begins_as definitions.now) (map variable_seen holders.now)) }
{
    let mut rest = holders;
    while let [v, more @ ..] = rest {
        let value = begins_as(alloc, definitions, v)?;
        variables.push(value)?;
        rest = more;
    }
    Ok(())
}

/// Rows of ids that stand for what is given, in their order.
fn give_each(
    alloc: Global,
    rows: &mut List<Given>,
    ids: &[u32],
    arguments: &[Held],
) -> Result<(), Memory>
    ensures { OnOk result ((all : Ids) → seen.given all rows.new ≡ machine.give_each (seen.given all rows.old) ids.now (map seen.held_seen arguments.now)) }
{
    let mut ids = ids;
    let mut arguments = arguments;
    while let [id, more @ ..] = ids {
        match arguments {
            [] => return Ok(()),
            [held, others @ ..] => {
                let held = copy_held(alloc, held)?;
                push_row(rows, *id, held)?;
                ids = more;
                arguments = others;
            }
        }
    }
    Ok(())
}

/// What ids stand for in a function, beside constants and the module's variables.
#[tactic(auto, using(crate::proofs::Cut::own_is))]
fn own_rows(
    alloc: Global,
    parameters: &[u32],
    holders: &[Variable<'_>],
    arguments: &[Held],
    count: usize,
) -> Result<List<Given>, Memory>
    ensures { IfOk result (λ rows. (m : Module) → seen.own_seen m rows ≡ machine.point_each (machine.give_each (globals_of m) parameters.now (map seen.held_seen arguments.now)) count (map variable_seen holders.now)) }
{
    let mut rows = List::new(alloc);
    give_each(alloc, &mut rows, parameters, arguments)?;
    point_to_values(alloc, &mut rows, count, holders)?;
    Ok(rows)
}

/// A function begins at its first label, with these arguments; its variables begin as their initialisers.
pub fn enter<'a>(
    alloc: Global,
    globals: &Globals<'a>,
    state: &mut State<'a>,
    body: &Code<'a>,
    arguments: &[Held],
) -> Result<(), Memory>
    ensures { OnOk result (seen.state_seen globals.now state.new ≡ machine.entered globals.now (globals_of globals.now) (machine.up_to_end body.now) (map seen.held_seen arguments.now) (seen.state_seen globals.now state.old).waiting (seen.state_seen globals.now state.old)) }
{
    let parameters = parameters_of(alloc, body)?;
    let holders = variables_of(alloc, body)?;
    let count = state.variables.len();
    let own = own_rows(
        alloc,
        parameters.as_slice(),
        holders.as_slice(),
        arguments,
        count,
    )?;
    let definitions = globals.decorations().definitions();
    begin_each(alloc, definitions, &mut state.variables, holders.as_slice())?;
    state.rest = first_label(body);
    state.body = body.copied();
    state.own = own;
    state.rows = List::new(alloc);
    Ok(())
}

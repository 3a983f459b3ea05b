//! What variables outside functions begin as.

ghost use Rattle.std.specs.Prelude.{◌≡◌, IfOk, map, take, unwrap_or, []};
ghost use Rattle.std.specs.Option.{option_map};
ghost use Rattle.gsl_inputs.specs.Given.{words_at as words_given};
ghost use Rattle.gsl_instr.specs.declared.enumerant.decoration.TheConstants as decorated;
ghost use Rattle.gsl_kinds.specs.Seen.{variable_seen};
ghost use Rattle.gsl_machine.specs.Interfaces as spec;
ghost use Rattle.gsl_valid.specs.Decorations.{number_on};

use crate::built_ins::built_in_value;
use gsl_base::{Comps, Input, List, Memory};
use gsl_decorations::{Decorations, pointee};
use gsl_enact_fits::{lanes_size, words_at};
use gsl_enact_functions::begins_as;
use gsl_enact_state::variables_outside;
use gsl_enact_values::of_components;
use gsl_instr::enumerant::{decoration, storage_class};
use gsl_kinds::Variable;
use gsl_values::{Value, Values};
use std::alloc::Global;

/// The words that are given at a location.
fn words_or_none(words: Option<&Comps>) -> &[u32]
    ensures { result.now ≡ unwrap_or (option_map (λ w. w.now) words.entry) [] }
{
    match words {
        None => &[],
        Some(words) => words.as_slice(),
    }
}

/// The first words, as many as there are.
fn first(alloc: Global, all: &[u32], count: u32) -> Result<Comps, Memory>
    ensures { IfOk result (λ words. words ≡ take count all.now) }
{
    if count as usize >= all.len() {
        return Ok(List::from_slice(alloc, all)?);
    }
    Ok(List::from_slice(alloc, &all[..count as usize])?)
}

/// An input at a location begins as the words that are given there, and one without as nothing.
fn located(
    alloc: Global,
    decorations: &Decorations<'_>,
    input: &Input,
    v: &Variable<'_>,
    location: Option<u32>,
) -> Result<Value, Memory>
    ensures { IfOk result (λ value. value ≡ spec.located decorations.now input.now (variable_seen v.now) location) }
{
    match location {
        None => Ok(Value::Many(List::new(alloc))),
        Some(location) => {
            let definitions = decorations.definitions();
            let count = lanes_size(definitions, pointee(definitions, v.type_));
            let words = words_or_none(words_at(&input.ins, location));
            let words = first(alloc, words, count)?;
            of_components(alloc, &words)
        }
    }
}

/// An input begins as what is given.
fn given(
    alloc: Global,
    decorations: &Decorations<'_>,
    input: &Input,
    v: &Variable<'_>,
) -> Result<Value, Memory>
    ensures { IfOk result (λ value. value ≡ spec.given decorations.now input.now (variable_seen v.now) (number_on decorations.now decorated.BUILT_IN v.now.id)) }
{
    match decorations.number_on(decoration::BUILT_IN, v.id) {
        None => located(
            alloc,
            decorations,
            input,
            v,
            decorations.number_on(decoration::LOCATION, v.id),
        ),
        Some(number) => built_in_value(alloc, decorations.definitions(), input, number),
    }
}

/// An input begins as what is given, any other variable as its initialiser.
pub fn variable_begins(
    alloc: Global,
    decorations: &Decorations<'_>,
    input: &Input,
    v: &Variable<'_>,
) -> Result<Value, Memory>
    ensures { IfOk result (λ value. value ≡ spec.variable_begins decorations.now input.now (variable_seen v.now)) }
{
    if v.class == storage_class::INPUT {
        given(alloc, decorations, input, v)
    } else {
        begins_as(alloc, decorations.definitions(), v)
    }
}

/// The variables that hold values begin.
fn begin_each(
    alloc: Global,
    decorations: &Decorations<'_>,
    input: &Input,
    holders: &[Variable<'_>],
) -> Result<Values, Memory>
    ensures { IfOk result (λ values. values ≡ map (spec.variable_begins decorations.now input.now) (map variable_seen holders.now)) }
{
    let mut values = List::new(alloc);
    let mut rest = holders;
    while let [v, more @ ..] = rest {
        let value = variable_begins(alloc, decorations, input, v)?;
        values.push(value)?;
        rest = more;
    }
    Ok(values)
}

/// What the variables of a module begin as that hold values.
pub fn variables_begin(
    alloc: Global,
    decorations: &Decorations<'_>,
    input: &Input,
) -> Result<Values, Memory>
    ensures { IfOk result (λ values. values ≡ map (spec.variable_begins decorations.now input.now) (spec.value_variables decorations.now)) }
{
    let holders = variables_outside(alloc, decorations.definitions(), false)?;
    let values = begin_each(alloc, decorations, input, holders.as_slice())?;
    Ok(values)
}

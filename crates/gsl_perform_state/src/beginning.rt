//! What a shader begins with.

ghost use Rattle.std.specs.Prelude.{◌≡◌, IfOk, MatchOption, map, take};
ghost use Rattle.std.specs.List.{AllByRecursion};
ghost use Rattle.std.specs.Option.{option_map};
ghost use Rattle.gsl_types.specs.Known.{AreStructs};
ghost use Rattle.gsl_layout.specs.Extents.{ArePlain};
ghost use Rattle.gsl_tree.specs.Values.{of_components};
ghost use Rattle.gsl_tree.specs.WellTyped.{IsBlock};
ghost use Rattle.gsl_inputs.specs.Given as given;
ghost use Rattle.gsl_meaning.specs.Shader as spec;
ghost use Rattle.gsl_meaning.specs.Stages as stages;
ghost use Rattle.gsl_perform_state.specs.Beginning as words;

use gsl_base::{Comps, Input, Ins, List, Located, Memory};
use gsl_block_words::begun;
use gsl_compute::copy_value;
use gsl_shapes::Shapes;
use gsl_store::Store;
use gsl_tree::{GlobalVar, Globals, Interface, Interfaces, Program};
use gsl_types::components;
use gsl_values::{Choices, Value, Values};
use std::alloc::Global;

/// The value with which a global variable begins.
fn global_begins(alloc: Global, shapes: &Shapes<'_>, g: &GlobalVar) -> Result<Value, Memory>
    ensures { IfOk result (λ v. v ≡ words.global_begun shapes.now g.now) }
{
    match &g.value {
        None => {
            let zero = shapes.zero(alloc, &g.ty)?;
            Ok(zero)
        }
        Some(v) => {
            let v = copy_value(alloc, v)?;
            Ok(v)
        }
    }
}

/// The values with which global variables begin.
fn globals_begin(alloc: Global, shapes: &Shapes<'_>, globals: &Globals) -> Result<Values, Memory>
    ensures { IfOk result (λ vs. vs ≡ map (words.global_begun shapes.now) globals.now) }
{
    let mut all = List::new(alloc);
    for k in 0..globals.len() {
        let v = global_begins(alloc, shapes, &globals[k])?;
        all.push(v)?;
    }
    Ok(all)
}

/// Whether a value is the one at a location.
fn is_there(location: u32, value: &Located) -> bool
    ensures { result ≡ given.is_there location value.now }
{
    value.location == location
}

/// The words that are given at a location.
#[tactic(auto, using(gsl_compute::proofs::Loops::opened))]
fn words_at<'a>(ins: &'a Ins, location: u32) -> Option<&'a Comps>
    ensures { option_map (λ w. w.now) result ≡ given.words_at ins.now location }
{
    for k in 0..ins.len() {
        if is_there(location, &ins[k]) {
            return Some(&ins[k].words);
        }
    }
    None
}

/// The same, and none where there are none.
fn given_words<'a>(ins: &'a Ins, location: u32) -> &'a [u32]
    ensures { result.now ≡ words.given_words ins.now location }
{
    match words_at(ins, location) {
        None => &[],
        Some(words) => words.as_slice(),
    }
}

/// The first words, as many as there are.
fn first(all: &[u32], count: u32) -> &[u32]
    ensures { result.now ≡ take count all.now }
{
    if count as usize >= all.len() {
        return all;
    }
    &all[..count as usize]
}

/// The vector of some words.
fn many(alloc: Global, words: &[u32]) -> Result<Values, Memory>
    ensures { IfOk result (λ vs. vs ≡ map Value.Word words.now) }
{
    let mut parts = List::new(alloc);
    for k in 0..words.len() {
        parts.push(Value::Word(words[k]))?;
    }
    Ok(parts)
}

/// The scalar of one word, or the vector of several.
fn of_words(alloc: Global, words: &[u32]) -> Result<Value, Memory>
    ensures { IfOk result (λ v. v ≡ of_components words.now) }
{
    if words.len() == 1 {
        return Ok(Value::Word(words[0]));
    }
    let parts = many(alloc, words)?;
    Ok(Value::Many(parts))
}

/// The value with which an input or an output begins.
fn interface_begins(
    alloc: Global,
    shapes: &Shapes<'_>,
    input: &Input,
    i: &Interface,
) -> Result<Value, Memory>
    ensures { IfOk result (λ v. v ≡ stages.interface_begins shapes.now input.now i.now) }
{
    if i.output {
        let zero = shapes.zero(alloc, &i.ty)?;
        return Ok(zero);
    }
    let words = first(given_words(&input.ins, i.location), components(&i.ty));
    let v = of_words(alloc, words)?;
    Ok(v)
}

/// The values with which inputs and outputs begin.
fn interfaces_begin(
    alloc: Global,
    shapes: &Shapes<'_>,
    input: &Input,
    interfaces: &Interfaces,
) -> Result<Values, Memory>
    ensures { IfOk result (λ vs. vs ≡ map (stages.interface_begins shapes.now input.now) interfaces.now) }
{
    let mut all = List::new(alloc);
    for k in 0..interfaces.len() {
        let v = interface_begins(alloc, shapes, input, &interfaces[k])?;
        all.push(v)?;
    }
    Ok(all)
}

/// The choices of an input. Memory is wanting where there are 2^32 of them or more.
fn choices_of(alloc: Global, input: &Input) -> Result<Choices, Memory>
    ensures { IfOk result (λ c. c ≡ input.now.choices) }
{
    if input.choices.len() > u32::MAX as usize {
        return Err(Memory);
    }
    let list = List::from_slice(alloc, input.choices.as_slice())?;
    Ok(Choices::new(list))
}

/// What a well typed program begins with on an input.
pub fn begins(
    alloc: Global,
    shapes: &Shapes<'_>,
    program: &Program,
    input: &Input,
) -> Result<Store, Memory>
    requires same { shapes.now ≡ program.now.structs }
    requires known { AreStructs program.now.structs }
    requires plain { ArePlain program.now.structs }
    requires blocks { AllByRecursion (IsBlock program.now.structs) program.now.blocks }
    ensures { IfOk result (λ s. s ≡ spec.begins program.now input.now) }
{
    let globals = globals_begin(alloc, shapes, &program.globals)?;
    let blocks = begun(alloc, &program.structs, input, &program.blocks)?;
    let interfaces = interfaces_begin(alloc, shapes, input, &program.interfaces)?;
    let choices = choices_of(alloc, input)?;
    Ok(Store {
        globals,
        blocks,
        interfaces,
        params: List::new(alloc),
        locals: List::new(alloc),
        choices,
    })
}

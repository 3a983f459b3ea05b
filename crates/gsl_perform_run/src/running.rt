//! A whole shader.

ghost use Rattle.std.specs.Prelude.{◌≡◌, IfOk};
ghost use Rattle.gsl_tree.specs.WellTyped.{IsProgram};
ghost use Rattle.gsl_meaning.specs.Expressions.{Called as Given};
ghost use Rattle.gsl_meaning.specs.Running.{Ran};
ghost use Rattle.gsl_meaning.specs.Shader as spec;
ghost use Rattle.gsl_perform.specs.Does.{Does};
ghost use Rattle.gsl_perform_run.specs.Performing as words;

use crate::outcome::Performed;
use gsl_base::{Input, Memory};
use gsl_perform::{Called, Frame, Stop, World};
use gsl_perform_main::run;
use gsl_perform_state::{begins, output_of};
use gsl_shapes::Shapes;
use gsl_store::Store;
use gsl_tree::Program;
use std::alloc::Global;

/// What a shader begins with.
fn begun(alloc: Global, program: &Program, input: &Input) -> Result<Store, Memory>
    requires { IsProgram program.now }
    ensures { IfOk result (λ s. s ≡ spec.begins program.now input.now) }
{
    let shapes = Shapes::new(alloc, &program.structs)?;
    let store = begins(alloc, &shapes, program, input)?;
    Ok(store)
}

/// A run that ended.
fn ended(
    alloc: Global,
    program: &Program,
    input: &Input,
    killed: bool,
    store: &Store,
) -> Result<Performed, Memory>
    requires { IsProgram program.now }
    ensures { IfOk result (λ o. words.outcome o ≡ spec.Ended (spec.output_of program.now input.now killed store.now)) }
{
    let output = output_of(alloc, program, input, killed, store)?;
    Ok(Performed::Ended(output))
}

/// What it is that `main` came to.
fn finished(
    alloc: Global,
    program: &Program,
    input: &Input,
    came: Result<Called, Stop>,
    w: &World,
) -> Result<Performed, Memory>
    requires { IsProgram program.now }
    ensures { (ran : Ran Given) → Does came w.now ran → IfOk result (λ o. words.outcome o ≡ spec.outcome_of program.now input.now ran) }
{
    match came {
        Ok(_) => ended(alloc, program, input, false, &w.store),
        Err(Stop::Ends) => ended(alloc, program, input, true, &w.store),
        Err(Stop::Strays) => Ok(Performed::Strayed),
        Err(Stop::Goes) => Ok(Performed::Going),
        Err(Stop::Memory) => Err(Memory),
    }
}

/// What a well typed program comes to on an input with so many units, each turn of a loop and each call of a function using one. Bytes and
/// words that are not given are zeros. Memory is wanting, too, where 2^32 choices are given or more.
pub fn perform(
    alloc: Global,
    program: &Program,
    input: &Input,
    units: u64,
) -> Result<Performed, Memory>
    requires { IsProgram program.now }
    ensures { IfOk result (λ o. words.outcome o ≡ spec.shader program.now units input.now) }
{
    let frame = Frame::new(alloc, program, input)?;
    let store = begun(alloc, program, input)?;
    let mut w = World { store, units };
    let came = run(alloc, &frame, &mut w);
    let performed = finished(alloc, program, input, came, &w)?;
    Ok(performed)
}

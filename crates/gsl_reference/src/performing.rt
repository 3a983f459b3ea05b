//! A program on an input, and what is listed of it.

ghost use Rattle.std.specs.Prelude.{List};
ghost use Rattle.gsl_host.specs.declared.target.Target.{Target};
ghost use Rattle.gsl_tree.specs.WellTyped.{IsProgram};
ghost use Rattle.gsl_given.specs.Texts.{misfit_text as text_of};
ghost use Rattle.gsl_meaning.specs.Fits.{fits as its_fit};
ghost use Rattle.gsl_meaning.specs.Shader.{shader};
ghost use Rattle.gsl_perform_run.specs.Performing.{outcome};
ghost use Rattle.gsl_reference.specs.Owed as owed;
ghost use Rattle.gsl_reference.specs.Steps.{Comes};

use crate::stop::Stop;
use gsl_base::{Bytes, Input, InputRefusal};
use gsl_given::misfit_text;
use gsl_manifest::listing;
use gsl_meaning::fits;
use gsl_perform_run::{Performed, perform};
use gsl_tree::Program;
use std::alloc::Global;

/// The listing of what a program comes to on an input, or why there is none.
pub fn performed(alloc: Global, program: &Program, input: &Input, units: u64) -> Result<Bytes, Stop>
    requires { IsProgram program.now }
    ensures { (targets : List Target) → Comes ⊥ (owed.run_if targets program.now units input.now (its_fit program.now input.now)) result }
{
    match fits(program, input) {
        Ok(()) => ran(alloc, program, input, units),
        Err(refusal) => Err(misfit(alloc, refusal)),
    }
}

/// The same for an input that fits.
fn ran(alloc: Global, program: &Program, input: &Input, units: u64) -> Result<Bytes, Stop>
    requires { IsProgram program.now }
    ensures { (targets : List Target) → Comes ⊥ (owed.came_to targets (shader program.now units input.now)) result }
{
    match perform(alloc, program, input, units) {
        Ok(came) => shown(alloc, &came),
        Err(_) => Err(Stop::Memory),
    }
}

/// The listing of what a shader came to, or why there is none.
fn shown(alloc: Global, came: &Performed) -> Result<Bytes, Stop>
    ensures { (targets : List Target) → Comes ⊥ (owed.came_to targets (outcome came.now)) result }
{
    match came {
        Performed::Ended(output) => match listing(alloc, output) {
            Ok(text) => Ok(text),
            Err(_) => Err(Stop::Memory),
        },
        Performed::Strayed => Err(Stop::Strayed),
        Performed::Going => Err(Stop::Going),
    }
}

/// Tells why an input does not fit.
fn misfit(alloc: Global, refusal: InputRefusal) -> Stop
    ensures { (targets : List Target) → Comes ⊥ (owed.told 7 (text_of refusal) targets) (Err result) }
{
    match misfit_text(alloc, refusal) {
        Ok(text) => Stop::Input(text),
        Err(_) => Stop::Memory,
    }
}

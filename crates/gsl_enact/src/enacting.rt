//! A whole module on an input that is tested for its fit first.

ghost use Rattle.std.specs.Prelude.{◌≡◌, ◌<◌, ◌^◌, IfOk, None, length};
ghost use Rattle.gsl_enact.specs.Came as spec;
ghost use Rattle.gsl_valid.specs.IdsDefinedOnce.{ids_defined_once};
ghost use Rattle.gsl_valid.specs.Placed.{count_of_words};

use crate::running::run_module;
use gsl_base::{Input, InputRefusal, Memory};
use gsl_decorations::Decorations;
use gsl_enact_fits::fits;
use gsl_enact_steps::Step;
use gsl_ids::Definitions;
use gsl_words::Module;
use std::alloc::Global;

/// What an input comes to: it does not fit the module, or this is what the module comes to.
#[derive(Drop)]
pub enum Enacted {
    Misfit(InputRefusal),
    Came(Step),
}

/// The first refusal of an input that does not fit a module, or what the module comes to on it after so many instructions.
pub fn enact(alloc: Global, of: &Module, input: &Input, steps: u64) -> Result<Enacted, Memory>
    requires few { length of.now.instrs < 2 ^ 32 }
    requires words { count_of_words of.now < 2 ^ 32 }
    requires once { ids_defined_once of.now ≡ None }
    ensures { IfOk result (λ e. spec.Enacts of.now input.now steps e) }
{
    let definitions = Definitions::new(alloc, of)?;
    let decorations = Decorations::new(alloc, &definitions)?;
    enact_on(alloc, &decorations, input, steps)
}

fn enact_on(
    alloc: Global,
    decorations: &Decorations<'_>,
    input: &Input,
    steps: u64,
) -> Result<Enacted, Memory>
    requires few { length decorations.now.instrs < 2 ^ 32 }
    requires words { count_of_words decorations.now < 2 ^ 32 }
    ensures { IfOk result (λ e. spec.Enacts decorations.now input.now steps e) }
{
    match fits(decorations, input) {
        Err(refusal) => Ok(Enacted::Misfit(refusal)),
        Ok(()) => {
            let step = run_module(alloc, decorations, input, steps)?;
            Ok(Enacted::Came(step))
        }
    }
}

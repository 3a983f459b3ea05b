//! All that a module asks of an input.

ghost use Rattle.std.specs.Prelude.{◌≡◌, ◌^◌, ◌<◌};
ghost use Rattle.gsl_enact_fits.specs.Passes as spec;
ghost use Rattle.gsl_machine.specs.Fits as machine;
ghost use Rattle.gsl_valid.specs.Placed.{count_of_words};

use crate::blocks::{bounds_missed, pushes_met};
use crate::ids::ids_met;
use crate::missed::Missed;
use crate::places::places_missed;
use gsl_base::{Input, InputRefusal};
use gsl_decorations::Decorations;

/// Whether an input fits a module, or the first refusal: of its buffers by set and binding, each absent before it is too short for what its
/// block needs; then of the push constants; then of its inputs by location; then, for compute, of the numbers of the invocation and of
/// its work group. It takes no memory.
pub fn fits(decorations: &Decorations<'_>, input: &Input) -> Result<(), InputRefusal>
    requires { count_of_words decorations.now < 2 ^ 32 }
    ensures { result ≡ machine.fits decorations.now input.now }
{
    all_passed(decorations, input)
}

#[tactic(auto, unfolding(crate::specs::Passes::all_passed))]
fn all_passed(decorations: &Decorations<'_>, input: &Input) -> Result<(), InputRefusal>
    requires { count_of_words decorations.now < 2 ^ 32 }
    ensures { result ≡ spec.all_passed decorations.now input.now }
{
    refusal_in(bounds_missed(decorations, input))?;
    pushes_met(decorations, input)?;
    refusal_at(places_missed(decorations, input))?;
    ids_met(decorations.definitions(), input)
}

fn refusal_in(missed: Option<Missed>) -> Result<(), InputRefusal>
    ensures { result ≡ spec.refusal_in missed }
{
    match missed {
        None => Ok(()),
        Some(missed) => Err(missed.refusal),
    }
}

fn refusal_at(location: Option<u32>) -> Result<(), InputRefusal>
    ensures { result ≡ spec.refusal_at location }
{
    match location {
        None => Ok(()),
        Some(location) => Err(InputRefusal::NoValue(location)),
    }
}

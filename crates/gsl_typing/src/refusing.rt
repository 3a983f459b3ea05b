ghost use Rattle.std.specs.Prelude.{◌≡◌};
ghost use Rattle.gsl_base.specs.declared.fault.Refusal.TheVariants.{Source};

use gsl_base::{Code, Fault, Place, Refusal};

/// The refusal of a fault at a place.
pub fn refuse(place: Place, code: Code) -> Refusal
    ensures { result ≡ Source (record { place = place; code = code }) }
{
    Refusal::Source(Fault { place, code })
}

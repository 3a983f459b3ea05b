//! Why a run may stop short.

ghost use Rattle.std.specs.Prelude.{◌≡◌};
ghost use Rattle.gsl_reference.specs.Steps.{stopped as stopped_by};

use gsl_base::Bytes;
use gsl_given::Stop as Ungiven;

/// Why nothing is listed.
#[derive(Debug, Drop)]
pub enum Stop {
    /// The sources have a first fault, and this line tells it.
    Fault(Bytes),
    /// The units were used up.
    Going,
    /// An index was out of bounds.
    Strayed,
    /// The manifest, a file that it names, or the input is refused, and this line says why.
    Input(Bytes),
    /// A call of the host failed.
    Host,
    Memory,
}

/// Why there is no input.
pub fn stopped(why: Ungiven) -> Stop
    ensures { result ≡ stopped_by why }
{
    match why {
        Ungiven::Refused(text) => Stop::Input(text),
        Ungiven::Host => Stop::Host,
        Ungiven::Memory => Stop::Memory,
    }
}

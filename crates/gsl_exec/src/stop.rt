//! Why nothing is listed.

ghost use Rattle.std.specs.Prelude.{◌≡◌, MatchResult};
ghost use Rattle.gsl_exec.specs.Steps.{stopped as stopped_by};

use gsl_base::{Bytes, Memory};
use gsl_given::Stop as Ungiven;

/// Why nothing is listed.
#[derive(Debug, Drop)]
pub enum Stop {
    /// This is the status, and this line says why.
    Told(u8, Bytes),
    /// A call of the host failed.
    Host,
    Memory,
}

/// Why there is no input.
pub fn stopped(why: Ungiven) -> Stop
    ensures { result ≡ stopped_by why }
{
    match why {
        Ungiven::Refused(text) => Stop::Told(7, text),
        Ungiven::Host => Stop::Host,
        Ungiven::Memory => Stop::Memory,
    }
}

/// A line that is told with a status, unless memory was wanting for it.
pub fn told(status: u8, line: Result<Bytes, Memory>) -> Stop
    ensures { MatchResult line (λ text. result ≡ Stop.Told status text) (λ _. result ≡ Stop.Memory) }
{
    match line {
        Ok(text) => Stop::Told(status, text),
        Err(_) => Stop::Memory,
    }
}

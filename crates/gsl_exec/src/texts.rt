//! The lines that tell why a module was not run to its end.

ghost use Rattle.std.specs.Prelude.{◌≡◌, ◌++◌, IfOk, codes};
ghost use Rattle.std.specs.Fmt.{decimal};
ghost use Rattle.gsl_exec.specs.Texts as spec;

use gsl_base::{Bytes, Memory};
use std::alloc::Global;

/// A text, a number behind it, and the end of the line.
pub fn placed(alloc: Global, front: &[u8], number: u32) -> Result<Bytes, Memory>
    ensures { IfOk result (λ text. text ≡ front.now ++ decimal number ++ codes "\n") }
{
    let mut text = Bytes::from_slice(alloc, front)?;
    let digits = number.to_string(alloc)?;
    text.extend_from_slice(digits.as_bytes())?;
    text.extend_from_slice(b"\n")?;
    Ok(text)
}

/// The line that tells which rule a module breaks, and at which word: `MODULE: VRULE AT`.
pub fn broken_text(alloc: Global, rule: u32, at: u32) -> Result<Bytes, Memory>
    ensures { IfOk result (λ text. text ≡ spec.broken_text (rule, at)) }
{
    let mut text = Bytes::from_slice(alloc, b"MODULE: V")?;
    let number = rule.to_string(alloc)?;
    text.extend_from_slice(number.as_bytes())?;
    text.extend_from_slice(b" ")?;
    let place = at.to_string(alloc)?;
    text.extend_from_slice(place.as_bytes())?;
    text.extend_from_slice(b"\n")?;
    Ok(text)
}

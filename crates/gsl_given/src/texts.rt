//! The lines that tell what is wrong with a manifest or an input.

ghost use Rattle.std.specs.Prelude.{◌≡◌, ◌++◌, IfOk, OnOk, codes};
ghost use Rattle.std.specs.Fmt.{decimal};
ghost use Rattle.gsl_given.specs.Texts as spec;

use gsl_base::{Bytes, InputRefusal, Memory};
use std::alloc::Global;

/// The manifest is too long.
pub fn long_text(alloc: Global) -> Result<Bytes, Memory>
    ensures { IfOk result (λ text. text ≡ spec.long_text) }
{
    Bytes::from_slice(alloc, b"INPUT: too long\n")
}

/// The line of this number is none of a manifest, or the file that it names is too long.
pub fn line_text(alloc: Global, line: u32) -> Result<Bytes, Memory>
    ensures { IfOk result (λ text. text ≡ spec.line_text line) }
{
    numbered(alloc, b"INPUT: line ", line, b"\n")
}

/// The line that tells why an input does not fit.
pub fn misfit_text(alloc: Global, refusal: InputRefusal) -> Result<Bytes, Memory>
    ensures { IfOk result (λ text. text ≡ spec.misfit_text refusal) }
{
    match refusal {
        InputRefusal::NoBuffer(set, binding) => buffer_text(alloc, set, binding, b"\n"),
        InputRefusal::TooShort(set, binding) => buffer_text(alloc, set, binding, b" short\n"),
        InputRefusal::NoPush => Bytes::from_slice(alloc, b"INPUT: push\n"),
        InputRefusal::PushShort => Bytes::from_slice(alloc, b"INPUT: push short\n"),
        InputRefusal::NoValue(location) => { numbered(alloc, b"INPUT: location ", location, b"\n") }
        InputRefusal::BadIds => Bytes::from_slice(alloc, b"INPUT: ids\n"),
    }
}

/// A text, a number, and a text behind it.
fn numbered(alloc: Global, front: &[u8], number: u32, end: &[u8]) -> Result<Bytes, Memory>
    ensures { IfOk result (λ text. text ≡ front.now ++ decimal number ++ end.now) }
{
    let mut text = Bytes::from_slice(alloc, front)?;
    let digits = number.to_string(alloc)?;
    text.extend_from_slice(digits.as_bytes())?;
    text.extend_from_slice(end)?;
    Ok(text)
}

/// The line of the buffer at a set and binding, with this end.
fn buffer_text(alloc: Global, set: u32, binding: u32, end: &[u8]) -> Result<Bytes, Memory>
    ensures { IfOk result (λ text. text ≡ spec.buffer_text set binding end.now) }
{
    let mut text = numbered(alloc, b"INPUT: buffer ", set, b" ")?;
    let digits = binding.to_string(alloc)?;
    text.extend_from_slice(digits.as_bytes())?;
    text.extend_from_slice(end)?;
    Ok(text)
}

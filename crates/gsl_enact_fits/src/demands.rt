//! Single demands on an input.

ghost use Rattle.std.specs.Prelude.{◌≡◌, ℕ};
ghost use Rattle.std.specs.Option.{option_map};
ghost use Rattle.gsl_enact_fits.specs.Passes.{told};
ghost use Rattle.gsl_inputs.specs.Demands as demands;
ghost use Rattle.gsl_inputs.specs.Given as given;
ghost use Rattle.gsl_views.specs.Buffers as buffers_of;

use gsl_base::{Buffer, Buffers, Bytes, Comps, InputRefusal, Ins, Located};

/// Whether a buffer is the one at a set and binding.
fn is_at(set: u32, binding: u32, buffer: &Buffer) -> bool
    ensures { result ≡ buffers_of.is_at set binding buffer.now }
{
    buffer.set == set && buffer.binding == binding
}

/// The bytes of the buffer at a set and binding, if one is given.
#[tactic(auto, using(crate::proofs::Loops::opened))]
pub fn bytes_at<'a>(buffers: &'a Buffers, set: u32, binding: u32) -> Option<&'a Bytes>
    ensures { option_map (λ b. b.now) result ≡ buffers_of.bytes_at buffers.now set binding }
{
    for k in 0..buffers.len() {
        if is_at(set, binding, &buffers[k]) {
            return Some(&buffers[k].bytes);
        }
    }
    None
}

/// Bytes are there before they are as many as are needed, of which no more is told than that no list has so many.
pub(crate) fn bytes_met(
    absent: InputRefusal,
    short: InputRefusal,
    need: u128,
    bytes: Option<&Bytes>,
) -> Result<(), InputRefusal>
    ensures { (whole : ℕ) → need ≡ told whole → result ≡ demands.bytes_met absent short whole (option_map (λ b. b.now) bytes.entry) }
{
    match bytes {
        None => Err(absent),
        Some(bytes) => {
            if (bytes.len() as u128) < need {
                return Err(short);
            }
            Ok(())
        }
    }
}

/// Whether a value is the one at a location.
fn is_there(location: u32, value: &Located) -> bool
    ensures { result ≡ given.is_there location value.now }
{
    value.location == location
}

/// The words that are given at a location.
#[tactic(auto, using(crate::proofs::Loops::opened))]
pub fn words_at<'a>(ins: &'a Ins, location: u32) -> Option<&'a Comps>
    ensures { option_map (λ w. w.now) result ≡ given.words_at ins.now location }
{
    for k in 0..ins.len() {
        if is_there(location, &ins[k]) {
            return Some(&ins[k].words);
        }
    }
    None
}

/// Whether as many words are given as an input has components.
pub(crate) fn has_words(count: u32, words: Option<&Comps>) -> bool
    ensures { result ≡ demands.has_words count (option_map (λ w. w.now) words.entry) }
{
    match words {
        None => false,
        Some(words) => words.len() >= count as usize,
    }
}

/// Whether each part is below its bound.
pub(crate) fn all_below(parts: &[u32], bounds: &[u32]) -> bool
    ensures { result ≡ demands.all_below parts.now bounds.now }
{
    match parts {
        [] => true,
        [part, parts @ ..] => match bounds {
            [] => false,
            [bound, bounds @ ..] => *part < *bound && all_below(parts, bounds),
        },
    }
}

//! Composites that are made of others.

ghost use Rattle.std.specs.Prelude.{◌≡◌, IfOk};
ghost use Rattle.gsl_machine.specs.Operations as spec;

use crate::words::{all_components, components, of_components, words_at};
use gsl_base::Memory;
use gsl_values::{Value, Values};
use std::alloc::Global;

/// A vector of the components of its parts, or what has these parts.
pub fn constructed(alloc: Global, is_vector: bool, parts: Values) -> Result<Value, Memory>
    ensures { IfOk result (λ v. v ≡ spec.constructed is_vector parts) }
{
    if !is_vector {
        return Ok(Value::Many(parts));
    }
    let words = all_components(alloc, &parts)?;
    of_components(alloc, &words)
}

/// Components of two vectors, counted through the first and then the second.
pub fn shuffled(alloc: Global, a: &Value, b: &Value, positions: &[u32]) -> Result<Value, Memory>
    ensures { IfOk result (λ v. v ≡ spec.shuffled a.now b.now positions.now) }
{
    let mut words = components(alloc, a)?;
    let more = components(alloc, b)?;
    words.extend_from_slice(more.as_slice())?;
    let words = words_at(alloc, &words, positions)?;
    of_components(alloc, &words)
}

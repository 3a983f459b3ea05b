//! What is stored where a path leads.

ghost use Rattle.std.specs.Prelude.{◌≡◌, ◌∷◌, OnOk, IfOk, Some, set};
ghost use Rattle.gsl_tree.specs.Values.{parts_in};
ghost use Rattle.gsl_meaning.specs.Accesses as spec;
ghost use Rattle.gsl_store.specs.Puts.{put_in};

use crate::words::{Words, components, of_components};
use gsl_base::{List, Memory};
use gsl_values::Value;
use std::alloc::Global;
use std::mem::replace;

/// A word put at a position, if there is one.
fn put_word(words: &mut Vec<u32>, position: u32, word: u32)
    ensures { words.new.items ≡ set words.old.items position word }
{
    if (position as usize) < words.len() {
        words[position as usize] = word;
    }
}

/// Words put at positions.
fn put_each(positions: &[u32], words: &[u32], old: Words) -> Words
    ensures { result ≡ spec.put_each positions.now words.now old }
{
    let mut all = old.into_vec();
    for k in 0..positions.len().min(words.len()) {
        put_word(&mut all, positions[k], words[k]);
    }
    List::from_vec(all)
}

/// A value with other components at positions.
fn with_positions(alloc: Global, positions: &Words, old: &Value, v: &Value) -> Result<Value, Memory>
    ensures { IfOk result (λ x. x ≡ spec.with_picked (Some positions.now) old.now v.now) }
{
    let words = components(alloc, v)?;
    let old = components(alloc, old)?;
    let new = put_each(positions.as_slice(), words.as_slice(), old);
    of_components(alloc, &new)
}

/// The parts of a value, which has none then.
fn taken(alloc: Global, value: &mut Value) -> Vec<Value>
    ensures { result.items ≡ parts_in value.old }
{
    match replace(value, Value::Word(0)) {
        Value::Word(_) => Vec::new(alloc),
        Value::Many(parts) => parts.into_vec(),
    }
}

/// Puts a value in the place of another, or its components at positions of that.
fn put_picked(
    alloc: Global,
    value: &mut Value,
    picked: &Option<Words>,
    v: Value,
) -> Result<(), Memory>
    ensures { OnOk result (value.new ≡ spec.with_picked picked.now value.old v) }
{
    match picked {
        None => {
            *value = v;
            Ok(())
        }
        Some(positions) => {
            let new = with_positions(alloc, positions, value, &v)?;
            *value = new;
            Ok(())
        }
    }
}

/// Puts a value where a path leads in another, from one of its numbers on.
#[cycle(putting)]
pub(crate) fn put(
    alloc: Global,
    value: &mut Value,
    path: &[u32],
    picked: &Option<Words>,
    v: Value,
) -> Result<(), Memory>
    ensures { OnOk result (value.new ≡ put_in value.old path.now picked.now v) }
{
    match path {
        [] => put_picked(alloc, value, picked, v),
        [number, rest @ ..] => put_part(alloc, value, *number, rest, picked, v),
    }
}

/// Puts a value where a path leads in a part of another.
#[cycle(putting)]
fn put_part(
    alloc: Global,
    value: &mut Value,
    number: u32,
    rest: &[u32],
    picked: &Option<Words>,
    v: Value,
) -> Result<(), Memory>
    ensures { OnOk result (value.new ≡ put_in value.old (number ∷ rest.now) picked.now v) }
{
    let mut items = taken(alloc, value);
    if (number as usize) < items.len() {
        put(alloc, &mut items[number as usize], rest, picked, v)?;
    }
    *value = Value::Many(List::from_vec(items));
    Ok(())
}

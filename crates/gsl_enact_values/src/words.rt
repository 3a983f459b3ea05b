//! The words of values, and their parts.

ghost use Rattle.std.specs.Prelude.{◌≡◌, IfOk, map, replicate, slice_index};
ghost use Rattle.gsl_tree.specs.Operations.{all_components as all_components_of, spread as spread_of};
ghost use Rattle.gsl_tree.specs.Values as spec;
ghost use Rattle.gsl_values.specs.declared.value.Value.TheVariants.{Word, Many};

use gsl_base::{List, Memory};
use gsl_compute::word_in;
use gsl_values::{Value, Values};
use std::alloc::Global;

/// Words in their order.
pub type Words = List<u32>;

/// The parts of a value.
pub fn parts_of(value: &Value) -> &[Value]
    ensures { result.now ≡ spec.parts_in value.now }
{
    match value {
        Value::Word(_) => &[],
        Value::Many(parts) => parts.as_slice(),
    }
}

/// The words of values, one of each.
fn words_in(alloc: Global, values: &Values) -> Result<Words, Memory>
    ensures { IfOk result (λ words. words ≡ map spec.word_in values.now) }
{
    let mut words = List::new(alloc);
    for k in 0..values.len() {
        words.push(word_in(&values[k]))?;
    }
    Ok(words)
}

/// The words of a scalar or vector, the lowest component first.
pub fn components(alloc: Global, value: &Value) -> Result<Words, Memory>
    ensures { IfOk result (λ words. words ≡ spec.components_in value.now) }
{
    match value {
        Value::Word(word) => Ok(List::from_slice(alloc, &[*word])?),
        Value::Many(parts) => Ok(words_in(alloc, parts)?),
    }
}

/// The words of values in a row.
pub(crate) fn all_components(alloc: Global, values: &Values) -> Result<Words, Memory>
    ensures { IfOk result (λ words. words ≡ all_components_of values.now) }
{
    let mut words = List::new(alloc);
    for k in 0..values.len() {
        let more = components(alloc, &values[k])?;
        words.extend_from_slice(more.as_slice())?;
    }
    Ok(words)
}

/// The vector of some words.
fn many(alloc: Global, words: &Words) -> Result<Value, Memory>
    ensures { IfOk result (λ v. v ≡ Many (map Word words.now)) }
{
    let mut parts = List::new(alloc);
    for k in 0..words.len() {
        parts.push(Value::Word(words[k]))?;
    }
    Ok(Value::Many(parts))
}

/// The scalar of one word, or the vector of several.
pub fn of_components(alloc: Global, words: &Words) -> Result<Value, Memory>
    ensures { IfOk result (λ v. v ≡ spec.of_components words.now) }
{
    if words.len() == 1 {
        return Ok(Value::Word(words[0]));
    }
    Ok(many(alloc, words)?)
}

/// So many words where there is one, and the words themselves where there are others.
pub(crate) fn spread(alloc: Global, count: usize, words: &Words) -> Result<Words, Memory>
    ensures { IfOk result (λ l. l ≡ spread_of count words.now) }
{
    if words.len() != 1 {
        return Ok(List::from_slice(alloc, words.as_slice())?);
    }
    Ok(repeated(alloc, count, words[0])?)
}

/// So many times a word.
fn repeated(alloc: Global, count: usize, word: u32) -> Result<Words, Memory>
    ensures { IfOk result (λ l. l ≡ replicate count word) }
{
    Ok(List::from_vec(vec![in alloc; word; count]?))
}

/// The word at a position; 0 past the last.
fn word_at(words: &Words, position: u32) -> u32
    ensures { result ≡ slice_index words.now position }
{
    if (position as usize) < words.len() {
        words[position as usize]
    } else {
        0
    }
}

/// The words at positions.
pub(crate) fn words_at(alloc: Global, words: &Words, positions: &[u32]) -> Result<Words, Memory>
    ensures { IfOk result (λ l. l ≡ map (slice_index words.now) positions.now) }
{
    let mut chosen = List::new(alloc);
    for k in 0..positions.len() {
        chosen.push(word_at(words, positions[k]))?;
    }
    Ok(chosen)
}

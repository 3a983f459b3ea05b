//! The words of values.

ghost use Rattle.std.specs.Prelude.{◌≡◌, IfOk, map, replicate};
ghost use Rattle.gsl_tree.specs.Values as spec;
ghost use Rattle.gsl_tree.specs.Operations.{all_components as all_components_of, spread as spread_of};

use gsl_base::{List, Memory};
use gsl_values::{Value, Values};
use std::alloc::Global;

/// Words in their order.
pub type Words = List<u32>;

/// The word of a scalar; 0 of anything else.
pub fn word_in(value: &Value) -> u32
    ensures { result ≡ spec.word_in value.now }
{
    match value {
        Value::Word(word) => *word,
        Value::Many(_) => 0,
    }
}

/// The words of values, one of each.
fn words_in(alloc: Global, values: &Values) -> Result<Words, Memory>
    ensures { IfOk result (λ words. words ≡ map spec.word_in values.now) }
{
    let mut words = List::new(alloc);
    for k in 0..values.len() {
        words.push(word_in(&values[k]))?;
    }
    Ok(words)
}

/// The words of a scalar or vector, the lowest component first.
pub fn components(alloc: Global, value: &Value) -> Result<Words, Memory>
    ensures { IfOk result (λ words. words ≡ spec.components_in value.now) }
{
    match value {
        Value::Word(word) => Ok(List::from_slice(alloc, &[*word])?),
        Value::Many(parts) => Ok(words_in(alloc, parts)?),
    }
}

/// The words of values in a row.
pub fn all_components(alloc: Global, values: &Values) -> Result<Words, Memory>
    ensures { IfOk result (λ words. words ≡ all_components_of values.now) }
{
    let mut words = List::new(alloc);
    for k in 0..values.len() {
        let more = components(alloc, &values[k])?;
        words.extend_from_slice(more.as_slice())?;
    }
    Ok(words)
}

/// The vector of some words.
pub fn many(alloc: Global, words: &Words) -> Result<Value, Memory>
    ensures { IfOk result (λ v. v ≡ Value.Many (map Value.Word words.now)) }
{
    let mut parts = List::new(alloc);
    for k in 0..words.len() {
        parts.push(Value::Word(words[k]))?;
    }
    Ok(Value::Many(parts))
}

/// The scalar of one word, or the vector of several.
pub fn of_components(alloc: Global, words: &Words) -> Result<Value, Memory>
    ensures { IfOk result (λ v. v ≡ spec.of_components words.now) }
{
    if words.len() == 1 {
        return Ok(Value::Word(words[0]));
    }
    Ok(many(alloc, words)?)
}

/// So many words where there is one, and the words themselves where there are others.
pub fn spread(alloc: Global, count: usize, words: &Words) -> Result<Words, Memory>
    ensures { IfOk result (λ l. l ≡ spread_of count words.now) }
{
    if words.len() != 1 {
        return Ok(List::from_slice(alloc, words.as_slice())?);
    }
    Ok(repeated(alloc, count, words[0])?)
}

/// So many times a word.
fn repeated(alloc: Global, count: usize, word: u32) -> Result<Words, Memory>
    ensures { IfOk result (λ l. l ≡ replicate count word) }
{
    Ok(List::from_vec(vec![in alloc; word; count]?))
}

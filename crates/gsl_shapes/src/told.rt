ghost use Rattle.std.specs.Prelude.{◌≡◌, IfOk, map};
ghost use Rattle.gsl_meaning.specs.Accesses.{told_scalar};
ghost use Rattle.gsl_tree.specs.Values.{parts_in};
ghost use Rattle.gsl_shapes.specs.Shaping as spec;

use crate::shape::Shape;
use gsl_base::{List, Memory};
use gsl_compute::{copy_value, word_in};
use gsl_types::Scalar;
use gsl_values::{Value, Values};
use std::alloc::Global;

/// The parts of a value.
pub(crate) fn parts_of(value: &Value) -> &[Value]
    ensures { result.now ≡ parts_in value.now }
{
    match value {
        Value::Word(_) => &[],
        Value::Many(parts) => parts.as_slice(),
    }
}

/// The word of a scalar type that a word tells.
fn told_word(scalar: Scalar, value: &Value) -> Value
    ensures { result ≡ told_scalar scalar value.now }
{
    let word = word_in(value);
    match scalar {
        Scalar::Bool => Value::Word((word != 0) as u32),
        Scalar::Int | Scalar::Uint => Value::Word(word),
    }
}

fn told_words(alloc: Global, scalar: Scalar, parts: &[Value]) -> Result<Values, Memory>
    ensures { IfOk result (λ all. all ≡ map (told_scalar scalar) parts.now) }
{
    let mut all = List::new(alloc);
    for k in 0..parts.len() {
        let one = told_word(scalar, &parts[k]);
        all.push(one)?;
    }
    Ok(all)
}

/// The value of a shape that words tell.
#[cycle(told)]
pub(crate) fn told(alloc: Global, shape: &Shape, words: &Value) -> Result<Value, Memory>
    ensures { IfOk result (λ v. v ≡ spec.told_of shape.now words.now) }
{
    match shape {
        Shape::Void => copy_value(alloc, words),
        Shape::One(scalar) => Ok(told_word(*scalar, words)),
        Shape::Vector(scalar, _) => {
            let all = told_words(alloc, *scalar, parts_of(words))?;
            Ok(Value::Many(all))
        }
        Shape::Array(element, _) | Shape::Runtime(element) => {
            let all = each_told(alloc, element.get(), parts_of(words))?;
            Ok(Value::Many(all))
        }
        Shape::Struct(members) => {
            let all = members_told(alloc, members.as_slice(), parts_of(words))?;
            Ok(Value::Many(all))
        }
    }
}

/// The elements of an array.
#[cycle(told)]
fn each_told(alloc: Global, element: &Shape, parts: &[Value]) -> Result<Values, Memory>
    ensures { IfOk result (λ all. all ≡ map (spec.told_of element.now) parts.now) }
{
    let mut all = List::new(alloc);
    for k in 0..parts.len() {
        let one = told(alloc, element, &parts[k])?;
        all.push(one)?;
    }
    Ok(all)
}

/// The members of a struct.
#[cycle(told)]
fn members_told(alloc: Global, members: &[Shape], parts: &[Value]) -> Result<Values, Memory>
    ensures { IfOk result (λ all. all ≡ spec.side_by_side (map spec.told_of members.now) parts.now) }
{
    let mut all = List::new(alloc);
    for k in 0..members.len().min(parts.len()) {
        let one = told(alloc, &members[k], &parts[k])?;
        all.push(one)?;
    }
    Ok(all)
}

//! Constructors (GLSL 4.50, 5.4).

ghost use Rattle.std.specs.Prelude.{◌≡◌, IfOk, map, take};
ghost use Rattle.gsl_tree.specs.Operations as spec;

use crate::words::{Words, all_components, many, spread};
use gsl_base::{List, Memory};
use gsl_types::{Scalar, Ty};
use gsl_values::{Value, Values};
use std::alloc::Global;

/// What a constructor of a type gives: of a scalar the first component, of a vector the components in a row, converted, of an
/// array or a struct the arguments.
pub fn build_value(alloc: Global, ty: &Ty, args: Values) -> Result<Value, Memory>
    ensures { IfOk result (λ v. v ≡ spec.build_value ty.now args) }
{
    match ty {
        Ty::One(scalar) => scalar_of(alloc, *scalar, &args),
        Ty::Vector(scalar, count) => vector_of(alloc, *scalar, *count, &args),
        _ => Ok(Value::Many(args)),
    }
}

fn scalar_of(alloc: Global, scalar: Scalar, args: &Values) -> Result<Value, Memory>
    ensures { IfOk result (λ v. v ≡ spec.scalar_from scalar args.now) }
{
    let words = all_components(alloc, args)?;
    let first = if words.is_empty() { 0 } else { words[0] };
    Ok(Value::Word(converted(scalar, first)))
}

fn vector_of(alloc: Global, scalar: Scalar, count: u32, args: &Values) -> Result<Value, Memory>
    ensures { IfOk result (λ v. v ≡ spec.vector_from scalar count args.now) }
{
    let words = all_components(alloc, args)?;
    let words = filled(alloc, scalar, count, &words)?;
    Ok(many(alloc, &words)?)
}

fn filled(alloc: Global, scalar: Scalar, count: u32, words: &Words) -> Result<Words, Memory>
    ensures { IfOk result (λ l. l ≡ spec.filled scalar count words.now) }
{
    let mut spread = spread(alloc, count as usize, words)?;
    spread.truncate(count as usize);
    Ok(all_converted(alloc, scalar, &spread)?)
}

fn all_converted(alloc: Global, scalar: Scalar, words: &Words) -> Result<Words, Memory>
    ensures { IfOk result (λ l. l ≡ map (spec.converted scalar) words.now) }
{
    let mut given = List::new(alloc);
    for k in 0..words.len() {
        given.push(converted(scalar, words[k]))?;
    }
    Ok(given)
}

/// A word as one of a scalar type.
fn converted(scalar: Scalar, word: u32) -> u32
    ensures { result ≡ spec.converted scalar word }
{
    match scalar {
        Scalar::Bool => (word != 0) as u32,
        Scalar::Int | Scalar::Uint => word,
    }
}

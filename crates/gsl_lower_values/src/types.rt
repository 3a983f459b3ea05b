//! The types and constants of scalars and vectors.

ghost use Rattle.std.specs.Prelude.{◌≡◌, ◌==◌, ◌<◌, if◌then◌else◌, IfOk, Some, length, replicate, slice_get};
ghost use Rattle.gsl_lower_values.specs.Building.{Does};
ghost use Rattle.gsl_lower_values.specs.Types as spec;

use crate::operand::Shape;
use gsl_base::{List, Memory};
use gsl_spv::{BuildRefusal, Builder, PlainConst, PlainType};
use gsl_types::Scalar;
use gsl_words::Args;
use std::alloc::Global;

fn plain_scalar(s: Scalar) -> PlainType
    ensures { result ≡ spec.plain_scalar s }
{
    match s {
        Scalar::Bool => PlainType::Bool,
        Scalar::Int => PlainType::Int(true),
        Scalar::Uint => PlainType::Int(false),
    }
}

/// The type of a scalar.
#[tactic(auto, unfolding(crate::specs::Types::scalar_type))]
pub fn scalar_type(b: &mut Builder, s: Scalar) -> Result<u32, BuildRefusal>
    ensures { Does result b.new (spec.scalar_type s b.old) }
{
    b.plain_type(plain_scalar(s))
}

/// The type of a scalar or vector.
#[tactic(auto, unfolding(crate::specs::Types::type_of))]
pub fn type_of(b: &mut Builder, shape: Shape) -> Result<u32, BuildRefusal>
    ensures { Does result b.new (spec.type_of shape b.old) }
{
    let component = scalar_type(b, shape.0)?;
    if shape.1 == 1 {
        return Ok(component);
    }
    b.plain_type(PlainType::Vector(component, shape.1))
}

fn truth_of(word: u32) -> PlainConst
    ensures { result ≡ spec.truth_of word }
{
    if word == 0 {
        PlainConst::False
    } else {
        PlainConst::True
    }
}

fn number(b: &mut Builder, s: Scalar, word: u32) -> Result<u32, BuildRefusal>
    ensures { Does result b.new (spec.number s word b.old) }
{
    let ty = scalar_type(b, s)?;
    b.constant(PlainConst::Word(ty, word))
}

/// The constant of a scalar type with a word.
#[tactic(auto, unfolding(crate::specs::Types::scalar_constant))]
pub fn scalar_constant(b: &mut Builder, s: Scalar, word: u32) -> Result<u32, BuildRefusal>
    ensures { Does result b.new (spec.scalar_constant s word b.old) }
{
    match s {
        Scalar::Bool => b.constant(truth_of(word)),
        Scalar::Int => number(b, Scalar::Int, word),
        Scalar::Uint => number(b, Scalar::Uint, word),
    }
}

/// The same id so many times.
pub(crate) fn copies(alloc: Global, id: u32, count: u32) -> Result<Args, Memory>
    ensures { IfOk result (λ ids. ids ≡ replicate count id) }
{
    let mut ids = List::new(alloc);
    for k in 0..count {
        ids.push(id)?;
    }
    Ok(ids)
}

/// The constant of which each component has the same word.
#[tactic(auto, unfolding(crate::specs::Types::filled_constant))]
pub fn filled_constant(
    alloc: Global,
    b: &mut Builder,
    shape: Shape,
    word: u32,
) -> Result<u32, BuildRefusal>
    ensures { Does result b.new (spec.filled_constant shape word b.old) }
{
    let part = scalar_constant(b, shape.0, word)?;
    if shape.1 == 1 {
        return Ok(part);
    }
    let parts = copies(alloc, part, shape.1)?;
    let ty = type_of(b, shape)?;
    b.composite(ty, parts.as_slice())
}

/// A word by its place.
fn word_at(words: &[u32], k: usize) -> &u32
    requires { k < length words.now }
    ensures { slice_get words.now k ≡ Some result.now }
{
    &words[k]
}

/// The constants of a scalar type with words, in their order.
fn scalar_constants(
    alloc: Global,
    b: &mut Builder,
    s: Scalar,
    words: &[u32],
) -> Result<Args, BuildRefusal>
    ensures { Does result b.new (spec.scalar_constants s words.now b.old) }
{
    let mut parts = List::new(alloc);
    for k in 0..words.len() {
        let part = scalar_constant(b, s, *word_at(words, k))?;
        parts.push(part)?;
    }
    Ok(parts)
}

/// The constant of a vector with words, one a component.
#[tactic(auto, unfolding(crate::specs::Types::vector_constant))]
pub fn vector_constant(
    alloc: Global,
    b: &mut Builder,
    shape: Shape,
    words: &[u32],
) -> Result<u32, BuildRefusal>
    ensures { Does result b.new (spec.vector_constant shape words.now b.old) }
{
    let parts = scalar_constants(alloc, b, shape.0, words)?;
    let ty = type_of(b, shape)?;
    b.composite(ty, parts.as_slice())
}

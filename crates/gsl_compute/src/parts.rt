//! Indexes, members, swizzles and lengths.

ghost use Rattle.std.specs.Prelude.{◌≡◌, IfOk, map, slice_index, take};
ghost use Rattle.gsl_tree.specs.Operations as spec;
ghost use Rattle.gsl_values.specs.Vectors.{components as picked};

use crate::copy::copy_value;
use crate::words::{Words, components, of_components};
use gsl_base::{List, Memory};
use gsl_types::{Scalar, Ty};
use gsl_values::{Lanes, Value};
use std::alloc::Global;

/// The part at an index; none where it is out of bounds.
pub fn index_value(alloc: Global, value: &Value, index: u32) -> Result<Option<Value>, Memory>
    ensures { IfOk result (λ v. v ≡ spec.index_value value.now index) }
{
    match value {
        Value::Word(_) => Ok(None),
        Value::Many(parts) => {
            if index as usize >= parts.len() {
                return Ok(None);
            }
            Ok(Some(copy_value(alloc, &parts[index as usize])?))
        }
    }
}

/// The member of a number.
pub fn member_value(alloc: Global, value: &Value, number: u32) -> Result<Value, Memory>
    ensures { IfOk result (λ v. v ≡ spec.member_value value.now number) }
{
    match value {
        Value::Word(_) => Ok(Value::Word(0)),
        Value::Many(parts) => {
            if number as usize >= parts.len() {
                return Ok(Value::Word(0));
            }
            Ok(copy_value(alloc, &parts[number as usize])?)
        }
    }
}

/// The components at the positions that a swizzle picks.
pub fn swizzle_value(alloc: Global, value: &Value, lanes: &Lanes) -> Result<Value, Memory>
    ensures { IfOk result (λ v. v ≡ spec.swizzle_value value.now lanes.now) }
{
    let words = components(alloc, value)?;
    let given = picks(alloc, &words, lanes)?;
    Ok(of_components(alloc, &given)?)
}

fn picks(alloc: Global, words: &Words, lanes: &Lanes) -> Result<Words, Memory>
    ensures { IfOk result (λ l. l ≡ map (slice_index words.now) (picked lanes.now)) }
{
    let positions = &lanes.words[..(lanes.count as usize).min(4)];
    let mut given = List::new(alloc);
    for position in positions {
        given.push(word_at(words, *position))?;
    }
    Ok(given)
}

/// The word at a position; 0 past the last.
pub fn word_at(words: &Words, position: u32) -> u32
    ensures { result ≡ slice_index words.now position }
{
    if (position as usize) < words.len() {
        words[position as usize]
    } else {
        0
    }
}

/// How many components a vector or elements an array has.
pub fn length_of(ty: &Ty) -> u32
    ensures { result ≡ spec.length_of ty.now }
{
    match ty {
        Ty::Vector(_, count) | Ty::Array(_, count) => *count,
        _ => 0,
    }
}

/// Whether the type alone tells its length.
pub fn has_fixed_length(ty: &Ty) -> bool
    ensures { result ≡ spec.has_fixed_length ty.now }
{
    match ty {
        Ty::Vector(_, _) | Ty::Array(_, _) => true,
        _ => false,
    }
}

/// Whether a type is `int` or a vector of them.
pub fn is_signed(ty: &Ty) -> bool
    ensures { result ≡ spec.is_signed ty.now }
{
    match ty {
        Ty::One(scalar) | Ty::Vector(scalar, _) => *scalar == Scalar::Int,
        _ => false,
    }
}

//! The value of a block, as its words stand in bytes.

ghost use Rattle.std.specs.Prelude.{◌≡◌, ◌<◌, ◌≤◌, ◌+◌, ◌*◌, ◌^◌, ℕ, Some, IfOk, length, map};
ghost use Rattle.gsl_layout.specs.Kinds.{kind_of};
ghost use Rattle.gsl_layout.specs.Layout.{element_of, need};
ghost use Rattle.gsl_layout.specs.declared.kind.Kind.TheVariants as kind;
ghost use Rattle.gsl_meaning.specs.Blocks.{value_of};
ghost use Rattle.gsl_views.specs.Seen.{seen};
ghost use Rattle.gsl_views.specs.Viewed.{IsArray, elements as elements_of};
ghost use Rattle.gsl_values.specs.declared.value.Value.TheVariants.{Many};
ghost use Rattle.gsl_block_words.specs.Reading as spec;

use crate::bytes::word_at;
use gsl_base::{List, Memory};
use gsl_layout::{Kind, Laid};
use gsl_values::{Value, Values};
use std::alloc::Global;

/// Words one behind the other.
fn words(alloc: Global, count: u32, at: usize, bytes: &[u8]) -> Result<Values, Memory>
    requires { at + 4 * count < 2 ^ 64 }
    ensures { IfOk result (λ all. all ≡ spec.words_from count at bytes.now) }
{
    let mut all = List::new(alloc);
    for i in 0..count {
        all.push(Value::Word(word_at(bytes, at + 4 * i as usize)))?;
    }
    Ok(all)
}

/// A run of components: the scalar of one word, or the vector of several.
fn run(alloc: Global, count: u32, at: usize, bytes: &[u8]) -> Result<Value, Memory>
    requires { at + 4 * count < 2 ^ 64 }
    ensures { IfOk result (λ v. v ≡ spec.run_at count at bytes.now) }
{
    if count == 1 {
        return Ok(Value::Word(word_at(bytes, at)));
    }
    let all = words(alloc, count, at, bytes)?;
    Ok(Value::Many(all))
}

/// How many elements an array has at a place in so many bytes.
fn count_at(laid: &Laid, at: usize, length: usize) -> usize
    requires { IsArray laid.now }
    ensures { result ≡ elements_of laid.now at length }
{
    laid.keeps();
    match laid.count() {
        Some(count) => count as usize,
        None => length.saturating_sub(at) / laid.stride() as usize,
    }
}

/// The value of a layout that stands at a place.
#[cycle(read)]
pub(crate) fn read_at(alloc: Global, laid: &Laid, at: usize, bytes: &[u8]) -> Result<Value, Memory>
    requires { at + need laid.now < 2 ^ 64 }
    ensures { IfOk result (λ v. v ≡ spec.read_at laid.now at bytes.now) }
{
    match laid.kind() {
        Kind::Leaf(count) => run(alloc, count, at, bytes),
        Kind::Array => {
            laid.keeps();
            let length = bytes.len();
            let count = count_at(laid, at, length);
            let all = elements(
                alloc,
                laid.part(0),
                laid.stride() as usize,
                count,
                at,
                bytes,
            )?;
            Ok(Value::Many(all))
        }
        Kind::Group(count) => {
            let all = members(alloc, laid, count, at, bytes)?;
            Ok(Value::Many(all))
        }
    }
}

/// The values of elements, one stride behind the other.
#[cycle(read)]
fn elements(
    alloc: Global,
    element: &Laid,
    stride: usize,
    count: usize,
    at: usize,
    bytes: &[u8],
) -> Result<Values, Memory>
    requires { (i : ℕ) → i < count → at + stride * i + need element.now < 2 ^ 64 }
    ensures { IfOk result (λ all. all ≡ spec.elements_at element.now stride count at bytes.now) }
{
    let mut all = List::new(alloc);
    for i in 0..count {
        let v = read_at(alloc, element, at + stride * i, bytes)?;
        all.push(v)?;
    }
    Ok(all)
}

/// The values of members.
#[cycle(read)]
fn members(
    alloc: Global,
    laid: &Laid,
    count: u32,
    at: usize,
    bytes: &[u8],
) -> Result<Values, Memory>
    requires group { kind_of laid.now ≡ kind.Group count }
    requires end { at + need laid.now < 2 ^ 64 }
    ensures { IfOk result (λ all. all ≡ spec.members_at laid.now count at bytes.now) }
{
    let mut all = List::new(alloc);
    for i in 0..count {
        let v = read_at(alloc, laid.part(i), at + laid.offset(i) as usize, bytes)?;
        all.push(v)?;
    }
    Ok(all)
}

/// The value of a layout in bytes from their start on; past the end stand zeros.
#[tactic(auto, unfolding(crate::specs::Reading::read_at))]
pub fn read(alloc: Global, laid: &Laid, bytes: &[u8]) -> Result<Value, Memory>
    ensures { IfOk result (λ v. v ≡ value_of (seen laid.now 0 bytes.now)) }
{
    // what a layout needs is a word
    let _need = laid.need();
    read_at(alloc, laid, 0, bytes)
}

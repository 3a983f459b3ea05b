//! The words of a value, put into bytes where a layout has them. Nothing stands past the end.

ghost use Rattle.std.specs.Prelude.{◌≡◌, ◌<◌, ◌≤◌, ◌^◌, map, length};
ghost use Rattle.gsl_layout.specs.Kinds.{kind_of};
ghost use Rattle.gsl_layout.specs.Layout.{members_of};
ghost use Rattle.gsl_layout.specs.declared.kind.Kind.TheVariants as kind;
ghost use Rattle.gsl_tree.specs.Values.{parts_in};
ghost use Rattle.gsl_meaning.specs.Blocks.{put_value};
ghost use Rattle.gsl_block_words.specs.Writing as spec;

use crate::bytes::put_word;
use gsl_compute::word_in;
use gsl_layout::{Kind, Laid};
use gsl_values::Value;

/// The parts of a value.
fn parts_of(value: &Value) -> &[Value]
    ensures { result.now ≡ parts_in value.now }
{
    match value {
        Value::Word(_) => &[],
        Value::Many(parts) => parts.as_slice(),
    }
}

/// Puts the words of scalars.
fn put_scalars(at: usize, parts: &[Value], bytes: &mut [u8])
    ensures { bytes.new ≡ spec.put_scalars at parts.now bytes.old }
{
    let mut place = at;
    for k in 0..parts.len() {
        if place >= bytes.len() {
            return;
        }
        put_word(bytes, place, word_in(&parts[k]));
        place += 4;
    }
}

/// Puts the words of a scalar or vector.
fn put_run(at: usize, v: &Value, bytes: &mut [u8])
    requires { at < length bytes.old }
    ensures { bytes.new ≡ spec.put_run at v.now bytes.old }
{
    match v {
        Value::Word(word) => put_word(bytes, at, *word),
        Value::Many(parts) => put_scalars(at, parts.as_slice(), bytes),
    }
}

/// Puts the words of a value where a layout at a place has them.
#[cycle(put)]
fn put_at(laid: &Laid, at: usize, v: &Value, bytes: &mut [u8])
    ensures { bytes.new ≡ spec.put_at laid.now at v.now bytes.old }
{
    if at >= bytes.len() {
        return;
    }
    match laid.kind() {
        Kind::Leaf(_) => put_run(at, v, bytes),
        Kind::Array => {
            let parts = parts_of(v);
            put_elements(laid.part(0), laid.stride() as usize, at, parts, bytes)
        }
        Kind::Group(count) => put_parts(laid, count, at, parts_of(v), bytes),
    }
}

/// Puts the words of elements, one stride behind the other.
#[cycle(put)]
fn put_elements(element: &Laid, stride: usize, at: usize, parts: &[Value], bytes: &mut [u8])
    requires { stride < 2 ^ 32 }
    ensures { bytes.new ≡ spec.put_elements element.now stride at parts.now bytes.old }
{
    let mut place = at;
    for k in 0..parts.len() {
        if place >= bytes.len() {
            return;
        }
        put_at(element, place, &parts[k], bytes);
        place += stride;
    }
}

/// Puts the words of members.
#[cycle(put)]
fn put_parts(laid: &Laid, count: u32, at: usize, parts: &[Value], bytes: &mut [u8])
    requires group { kind_of laid.now ≡ kind.Group count }
    requires inside { at < length bytes.old }
    ensures { bytes.new ≡ spec.put_parts (members_of laid.now) at parts.now bytes.old }
{
    for i in 0..count {
        if i as usize >= parts.len() {
            return;
        }
        let place = at + laid.offset(i) as usize;
        put_at(laid.part(i), place, &parts[i as usize], bytes);
    }
}

/// Puts the words of a value where a layout has them.
#[tactic(auto, unfolding(crate::specs::Writing::put_at))]
pub fn put(laid: &Laid, v: &Value, bytes: &mut [u8])
    ensures { bytes.new ≡ put_value laid.now 0 v.now bytes.old }
{
    put_at(laid, 0, v, bytes)
}

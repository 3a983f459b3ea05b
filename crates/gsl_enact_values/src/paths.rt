//! The parts of values to which paths lead.

ghost use Rattle.std.specs.Prelude.{◌≡◌, ◌∷◌, IfOk, MatchOption};
ghost use Rattle.gsl_tree.specs.Operations.{value_at, with_value_at};
ghost use Rattle.gsl_tree.specs.Values.{parts_in};
ghost use Rattle.gsl_values.specs.declared.value.Value.TheVariants.{Word};

use crate::words::parts_of;
use gsl_base::{List, Memory};
use gsl_compute::copy_value;
use gsl_values::Value;
use std::alloc::Global;
use std::mem::replace;

/// The part to which a path leads, if it is there.
pub fn follow<'a>(value: &'a Value, path: &[u32]) -> Option<&'a Value>
    ensures { MatchOption result (value_at value.now path.now ≡ Word 0) (λ part. value_at value.now path.now ≡ part.now) }
{
    let mut at = value;
    for k in 0..path.len() {
        let parts = parts_of(at);
        if path[k] as usize >= parts.len() {
            return None;
        }
        at = &parts[path[k] as usize];
    }
    Some(at)
}

/// A copy of the part to which a path leads.
pub fn part_at(alloc: Global, value: &Value, path: &[u32]) -> Result<Value, Memory>
    ensures { IfOk result (λ v. v ≡ value_at value.now path.now) }
{
    match follow(value, path) {
        None => Ok(Value::Word(0)),
        Some(part) => copy_value(alloc, part),
    }
}

/// The parts of a value, which has none then.
fn taken(alloc: Global, value: &mut Value) -> Vec<Value>
    ensures { result.items ≡ parts_in value.old }
{
    match replace(value, Value::Word(0)) {
        Value::Word(_) => Vec::new(alloc),
        Value::Many(parts) => parts.into_vec(),
    }
}

/// Puts a value where a path leads in another.
#[cycle(putting)]
pub fn put(alloc: Global, value: &mut Value, path: &[u32], part: Value)
    ensures { value.new ≡ with_value_at value.old path.now part }
{
    match path {
        [] => *value = part,
        [number, rest @ ..] => put_part(alloc, value, *number, rest, part),
    }
}

/// Puts a value where a path leads in a part of another.
#[cycle(putting)]
fn put_part(alloc: Global, value: &mut Value, number: u32, rest: &[u32], part: Value)
    ensures { value.new ≡ with_value_at value.old (number ∷ rest.now) part }
{
    let mut items = taken(alloc, value);
    if (number as usize) < items.len() {
        put(alloc, &mut items[number as usize], rest, part);
    }
    *value = Value::Many(List::from_vec(items));
}

ghost use Rattle.std.specs.Prelude.{◌≡◌, IfOk, map, replicate};
ghost use Rattle.gsl_values.specs.declared.value.Value.TheVariants.{Word};
ghost use Rattle.gsl_shapes.specs.Shaping as spec;

use crate::shape::Shape;
use gsl_base::{List, Memory};
use gsl_compute::copy_value;
use gsl_values::{Value, Values};
use std::alloc::Global;

/// So many times a value.
fn repeated(alloc: Global, count: u32, value: &Value) -> Result<Values, Memory>
    ensures { IfOk result (λ all. all ≡ replicate count value.now) }
{
    let mut all = List::new(alloc);
    for k in 0..count {
        let one = copy_value(alloc, value)?;
        all.push(one)?;
    }
    Ok(all)
}

/// The value of a shape whose leaves are all zero.
#[cycle(zero)]
pub(crate) fn zero(alloc: Global, shape: &Shape) -> Result<Value, Memory>
    ensures { IfOk result (λ v. v ≡ spec.zero_of shape.now) }
{
    match shape {
        Shape::Void | Shape::Runtime(_) => Ok(Value::Many(List::new(alloc))),
        Shape::One(_) => Ok(Value::Word(0)),
        Shape::Vector(_, count) => {
            let all = repeated(alloc, *count, &Value::Word(0))?;
            Ok(Value::Many(all))
        }
        Shape::Array(element, count) => {
            let one = zero(alloc, element.get())?;
            let all = repeated(alloc, *count, &one)?;
            Ok(Value::Many(all))
        }
        Shape::Struct(members) => {
            let all = zeros(alloc, members.as_slice())?;
            Ok(Value::Many(all))
        }
    }
}

#[cycle(zero)]
fn zeros(alloc: Global, shapes: &[Shape]) -> Result<Values, Memory>
    ensures { IfOk result (λ all. all ≡ map spec.zero_of shapes.now) }
{
    let mut all = List::new(alloc);
    for k in 0..shapes.len() {
        let one = zero(alloc, &shapes[k])?;
        all.push(one)?;
    }
    Ok(all)
}

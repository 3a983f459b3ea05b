ghost use Rattle.std.specs.Prelude.{◌≡◌, IfOk};

use gsl_base::{List, Memory};
use gsl_values::{Value, Values};
use std::alloc::Global;

/// A copy of a value.
#[cycle(copy)]
pub fn copy_value(alloc: Global, value: &Value) -> Result<Value, Memory>
    ensures { IfOk result (λ v. v ≡ value.now) }
{
    match value {
        Value::Word(word) => Ok(Value::Word(*word)),
        Value::Many(parts) => Ok(Value::Many(copy_all(alloc, parts)?)),
    }
}

/// A copy of values.
#[cycle(copy)]
fn copy_all(alloc: Global, values: &Values) -> Result<Values, Memory>
    ensures { IfOk result (λ vs. vs ≡ values.now) }
{
    let mut copied = List::new(alloc);
    for k in 0..values.len() {
        copied.push(copy_value(alloc, &values[k])?)?;
    }
    Ok(copied)
}

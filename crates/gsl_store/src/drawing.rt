//! Operations that may draw choices.

ghost use Rattle.std.specs.Prelude.{◌≡◌, IfOk, OnOk};
ghost use Rattle.gsl_tree.specs.Operations as spec;
ghost use Rattle.gsl_store.specs.Drawn.{Draws};

use crate::store::Store;
use gsl_base::Memory;
use gsl_compute::{binary_value, builtin_value};
use gsl_values::{BinaryOp, Builtin, Value, Values};
use std::alloc::Global;

/// An operator on two values; `signed` says whether the left one is an `int` or a vector of them.
pub fn binary_drawn(
    alloc: Global,
    op: BinaryOp,
    signed: bool,
    a: &Value,
    b: &Value,
    store: &mut Store,
) -> Result<Value, Memory>
    ensures { Draws result store.new (spec.binary_value op signed a.now b.now) store.old }
{
    binary_value(alloc, op, signed, a, b, &mut store.choices)
}

/// A built-in function on values; `signed` says whether the first is an `int` or a vector of them.
pub fn builtin_drawn(
    alloc: Global,
    which: Builtin,
    signed: bool,
    args: &Values,
    store: &mut Store,
) -> Result<Value, Memory>
    ensures { Draws result store.new (spec.builtin_value which signed args.now) store.old }
{
    builtin_value(alloc, which, signed, args, &mut store.choices)
}

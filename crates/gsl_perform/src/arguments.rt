//! Arguments that were evaluated, calls on them, and what goes back.

ghost use Rattle.std.specs.Prelude.{◌≡◌, ◌<◌, IfOk, OnOk, Some, length, slice_get};
ghost use Rattle.gsl_tree.specs.Weights.{params_of};
ghost use Rattle.gsl_meaning.specs.Expressions as spec;
ghost use Rattle.gsl_perform.specs.Calling.{Calls, calls_with};
ghost use Rattle.gsl_perform.specs.Does.{Does};
ghost use Rattle.gsl_perform.specs.Framed.{around};

use crate::around::Around;
use crate::frame::Frame;
use crate::stop::Stop;
use crate::world::{Called, Passed, World};
use gsl_base::{List, Memory};
use gsl_compute::copy_value;
use gsl_store::{Store, stored};
use gsl_types::{Direction, Ty};
use gsl_values::{Value, Values};
use std::alloc::Global;

impl<'a> Frame<'a> {
    /// The parameters of a function, by the number of its head.
    pub(crate) fn params_of(&self, number: u32) -> &[(Direction, Ty)]
        ensures { result.now ≡ params_of (slice_get self.now.program.prototypes number) }
    {
        let heads = &self.program.prototypes;
        if number as usize >= heads.len() {
            return &[];
        }
        heads[number as usize].params.as_slice()
    }
}

/// A parameter by its place.
pub(crate) fn param_at(params: &[(Direction, Ty)], k: usize) -> &(Direction, Ty)
    requires { k < length params.now }
    ensures { slice_get params.now k ≡ Some result.now }
{
    &params[k]
}

/// The value with which a parameter begins.
fn begun_with(alloc: Global, passed: &Passed) -> Result<Value, Memory>
    ensures { IfOk result (λ v. v ≡ passed.now.value) }
{
    copy_value(alloc, &passed.value)
}

/// The values with which parameters begin.
fn values_of(alloc: Global, passed: &[Passed]) -> Result<Values, Memory>
    ensures { IfOk result (λ vs. vs ≡ spec.values_of passed.now) }
{
    let mut values = List::new(alloc);
    for k in 0..passed.len() {
        values.push(begun_with(alloc, &passed[k])?)?;
    }
    Ok(values)
}

/// A value goes back to where it came from.
fn put_back(alloc: Global, passed: &Passed, v: &Value, store: &mut Store) -> Result<(), Memory>
    ensures { OnOk result (store.new ≡ spec.put_back passed.now.back v.now store.old) }
{
    match &passed.back {
        None => Ok(()),
        Some(access) => {
            let v = copy_value(alloc, v)?;
            stored(alloc, access, v, store)
        }
    }
}

/// `out` and `inout` parameters go back from left to right.
fn all_back(
    alloc: Global,
    passed: &[Passed],
    values: &[Value],
    store: &mut Store,
) -> Result<(), Memory>
    ensures { OnOk result (store.new ≡ spec.all_back passed.now values.now store.old) }
{
    for k in 0..passed.len().min(values.len()) {
        put_back(alloc, &passed[k], &values[k], store)?;
    }
    Ok(())
}

impl<'a, F: Fn(Global, &Frame<'_>, usize, u32, Values, &mut World) -> Result<Called, Stop>> Around<
    'a,
    F,
> {
    /// A call of a function on arguments that were evaluated.
    #[tactic(auto, unfolding(crate::specs::Framed::around))]
    pub(crate) fn calls(&self, number: u32, passed: &[Passed], w: &mut World) -> Result<Value, Stop>
        requires { Calls self.now.frame.now self.now.depth (F.pre self.now.call) (F.post self.now.call) }
        ensures { Does result w.new (calls_with (around self.now.frame.now self.now.depth) number passed.now w.old.store w.old.units) }
    {
        let args = values_of(self.alloc, passed)?;
        let called = (self.call)(self.alloc, self.frame, self.depth, number, args, w)?;
        let Called { value, params } = called;
        all_back(self.alloc, passed, params.as_slice(), &mut w.store)?;
        Ok(value)
    }
}

//! Values whose leaves are all zero.

ghost use Rattle.std.specs.Prelude.{◌≡◌, IfOk, map};
ghost use Rattle.gsl_tree.specs.Values.{zero_value};

use gsl_base::{List, Memory};
use gsl_perform::Frame;
use gsl_types::Types;
use gsl_values::Values;
use std::alloc::Global;

/// Zeros for each of some types.
pub(crate) fn zeros(alloc: Global, frame: &Frame<'_>, types: &Types) -> Result<Values, Memory>
    ensures { IfOk result (λ vs. vs ≡ map (zero_value frame.now.program.structs) types.now) }
{
    let mut all = List::new(alloc);
    for k in 0..types.len() {
        let v = frame.zero(alloc, &types[k])?;
        all.push(v)?;
    }
    Ok(all)
}

//! The values of several ids.

ghost use Rattle.std.specs.Prelude.{◌≡◌, IfOk};
ghost use Rattle.gsl_enact_state.specs.Seen.{ids_seen};
ghost use Rattle.gsl_enact_steps.specs.Outcomes as spec;

use gsl_base::{List, Memory};
use gsl_enact_state::{Globals, State};
use gsl_values::Values;
use std::alloc::Global;

/// The values of ids in their order, if each of them has one.
#[tactic(auto, unfolding(crate::specs::Outcomes::values_in))]
pub fn all_values(
    alloc: Global,
    globals: &Globals<'_>,
    state: &State<'_>,
    ids: &[u32],
) -> Result<Option<Values>, Memory>
    ensures { IfOk result (λ vs. vs ≡ spec.values_in (ids_seen globals.now state.now.own state.now.rows) ids.now) }
{
    let mut found = List::new(alloc);
    let mut rest = ids;
    while let [id, more @ ..] = rest {
        match globals.value(alloc, state, *id)? {
            None => return Ok(None),
            Some(value) => {
                found.push(value)?;
                rest = more;
            }
        }
    }
    Ok(Some(found))
}

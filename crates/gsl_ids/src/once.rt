//! Whether ids are defined once.

ghost use Rattle.std.specs.Prelude.{◌≡◌, ◌^◌, ◌<◌, [], length, IfOk};
ghost use Rattle.gsl_ids.specs.Once as once;
ghost use Rattle.gsl_valid.specs.Placed.{count_of_words};
ghost use Rattle.gsl_valid.specs.IdsDefinedOnce as spec;

use crate::each::Each;
use crate::results::defined_by;
use gsl_base::Memory;
use gsl_words::Module;
use indexmap::IndexSet;
use std::alloc::Global;

/// The place of the first instruction that defines an id that is not at least 1 and below the bound, or that was
/// defined before.
pub fn ids_defined_once(alloc: Global, of: &Module) -> Result<Option<u32>, Memory>
    requires length { length of.now.instrs < 2 ^ 32 }
    requires words { count_of_words of.now < 2 ^ 32 }
    ensures { IfOk result (λ place. place ≡ spec.ids_defined_once of.now) }
{
    let place = first_again(alloc, of.bound, Each::new(of))?;
    Ok(place)
}

/// The same, among instructions of a module with a bound.
#[tactic(auto, unfolding(crate::specs::Once::once_from))]
fn first_again(alloc: Global, bound: u32, each: Each<'_>) -> Result<Option<u32>, Memory>
    ensures { IfOk result (λ place. place ≡ once.once_from bound [] each.entry) }
{
    let mut each = each;
    let mut ids: IndexSet<u32> = IndexSet::new(alloc);
    while let Some((place, op, args)) = each.next() {
        if let Some(id) = defined_by(op, args) {
            if id == 0 || id >= bound {
                return Ok(Some(place));
            }
            let (_, added) = ids.insert_full(id)?;
            if !added {
                return Ok(Some(place));
            }
        }
    }
    Ok(None)
}

//! Which functions reach which by calls.

ghost use Rattle.std.specs.Prelude.{◌≡◌, ◌^◌, ◌<◌, None, nat_eq, slice_index, length, IfOk, OnOk};
ghost use Rattle.indexmap.specs.IndexSet.{insert_all};
ghost use Rattle.gsl_valid.specs.CallRules as spec;
ghost use Rattle.gsl_valid.specs.IdsDefinedOnce.{ids_defined_once};

use crate::callees::{Callees, called_by};
use gsl_base::Memory;
use gsl_ids::Definitions;
use indexmap::IndexSet;
use std::alloc::Global;

/// Whether a function reaches another by calls, or is it: a search over what it reaches, each function once.
pub(crate) fn leads_to(
    alloc: Global,
    definitions: &Definitions<'_>,
    from: u32,
    id: u32,
) -> Result<bool, Memory>
    requires few { length definitions.now.instrs < 2 ^ 32 }
    requires once { ids_defined_once definitions.now ≡ None }
    ensures { IfOk result (λ leads. leads ≡ spec.leads_to definitions.now from id) }
{
    let mut found: IndexSet<u32> = IndexSet::new(alloc);
    found.insert_full(from)?;
    let mut at = 0;
    while at < found.len() {
        let next = numbered(&found, at);
        if next == id {
            return Ok(true);
        }
        add_all(&mut found, called_by(definitions, next))?;
        at += 1;
    }
    Ok(false)
}

/// The id of a number in a set.
fn numbered(ids: &IndexSet<u32>, at: usize) -> u32
    ensures { result ≡ slice_index ids.now.keys at }
{
    match ids.get_index(at) {
        Some(id) => *id,
        None => 0,
    }
}

/// Adds what is called to a set.
fn add_all(ids: &mut IndexSet<u32>, callees: Callees<'_>) -> Result<(), Memory>
    ensures { OnOk result (ids.new.keys ≡ insert_all nat_eq ids.old.keys callees.entry) }
{
    let mut callees = callees;
    while let Some(callee) = callees.next() {
        ids.insert_full(callee)?;
    }
    Ok(())
}

//! Whether a function reaches another by calls: a search over what it reaches, each function once.

ghost use Rattle.std.specs.Prelude.{◌≡◌, nat_eq, slice_index, IfOk, OnOk};
ghost use Rattle.indexmap.specs.IndexSet.{insert_all};
ghost use Rattle.gsl_link_calls.specs.Calls as spec;

use crate::table::CallTable;
use gsl_base::Memory;
use indexmap::IndexSet;
use std::alloc::Global;

/// Whether a function reaches another by calls.
pub(crate) fn reaches(
    alloc: Global,
    table: &CallTable<'_>,
    from: u32,
    head: u32,
) -> Result<bool, Memory>
    ensures { IfOk result (λ reached. reached ≡ spec.reaches table.now from head) }
{
    let mut found: IndexSet<u32> = IndexSet::new(alloc);
    add_all(&mut found, table.callees(from as usize))?;
    let mut at = 0;
    while at < found.len() {
        let next = numbered(&found, at);
        if next == head {
            return Ok(true);
        }
        add_all(&mut found, table.callees(next as usize))?;
        at += 1;
    }
    Ok(false)
}

/// The head of a number in a set.
fn numbered(heads: &IndexSet<u32>, at: usize) -> u32
    ensures { result ≡ slice_index heads.now.keys at }
{
    match heads.get_index(at) {
        Some(head) => *head,
        None => 0,
    }
}

/// Adds what is called to a set.
fn add_all(heads: &mut IndexSet<u32>, callees: &[u32]) -> Result<(), Memory>
    ensures { OnOk result (heads.new.keys ≡ insert_all nat_eq heads.old.keys callees.now) }
{
    for k in 0..callees.len() {
        heads.insert_full(callees[k])?;
    }
    Ok(())
}

//! Which functions are lowered.

ghost use Rattle.std.specs.Prelude.{◌≡◌, ◌<◌, ℕ, Some, nat_eq, length, slice_get, slice_index, IfOk, OnOk};
ghost use Rattle.std.specs.List.{list_any};
ghost use Rattle.indexmap.specs.IndexSet.{insert_all};
ghost use Rattle.gsl_link_calls.specs.Calls as calls;
ghost use Rattle.gsl_lower_flow.specs.Reaching as spec;

use gsl_base::{List, Memory};
use gsl_link_calls::calls_of;
use gsl_lower_holders::Ids;
use gsl_tree::{Function, Functions};
use indexmap::IndexSet;
use std::alloc::Global;

pub(crate) fn function_at(functions: &Functions, k: usize) -> &Function
    requires { k < length functions.now }
    ensures { slice_get functions.now k ≡ Some result.now }
{
    &functions[k]
}

/// The heads that the function of a head calls.
fn called_by(alloc: Global, functions: &Functions, head: u32) -> Result<Ids, Memory>
    ensures { IfOk result (λ heads. heads ≡ calls.called_by functions.now head) }
{
    for k in 0..functions.len() {
        let f = function_at(functions, k);
        if f.prototype == head {
            return calls_of(alloc, f);
        }
    }
    Ok(List::new(alloc))
}

/// The head of a number in a set.
fn numbered(heads: &IndexSet<u32>, at: usize) -> u32
    ensures { result ≡ slice_index heads.now.keys at }
{
    match heads.get_index(at) {
        Some(head) => *head,
        None => 0,
    }
}

fn add_all(heads: &mut IndexSet<u32>, callees: &[u32]) -> Result<(), Memory>
    ensures { OnOk result (heads.new.keys ≡ insert_all nat_eq heads.old.keys callees.now) }
{
    for k in 0..callees.len() {
        heads.insert_full(callees[k])?;
    }
    Ok(())
}

/// The heads of the functions that `main` reaches by calls.
pub(crate) fn reached(
    alloc: Global,
    functions: &Functions,
    main: u32,
) -> Result<IndexSet<u32>, Memory>
    ensures { IfOk result (λ found. (head : ℕ) → list_any (nat_eq head) found.keys ≡ calls.reaches functions.now main head) }
{
    let mut found: IndexSet<u32> = IndexSet::new(alloc);
    let first = called_by(alloc, functions, main)?;
    add_all(&mut found, first.as_slice())?;
    let mut at = 0;
    while at < found.len() {
        let next = numbered(&found, at);
        let callees = called_by(alloc, functions, next)?;
        add_all(&mut found, callees.as_slice())?;
        at += 1;
    }
    Ok(found)
}

/// Whether a head is among those that were found.
fn is_found(found: &IndexSet<u32>, head: u32) -> bool
    ensures { result ≡ list_any (nat_eq head) found.now.keys }
{
    for at in 0..found.len() {
        if numbered(found, at) == head {
            return true;
        }
    }
    false
}

/// Whether a function is lowered.
pub(crate) fn is_among(found: &IndexSet<u32>, main: u32, f: &Function) -> bool
    ensures { result ≡ spec.is_among found.now.keys main f.now }
{
    main == f.prototype || is_found(found, f.prototype)
}

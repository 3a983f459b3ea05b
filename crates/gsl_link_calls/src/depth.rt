//! How deep calls nest.

ghost use Rattle.std.specs.Prelude.{◌≡◌, ◌+◌, max, min, nat_le, slice_index, vec_len, IfOk};
ghost use Rattle.std.specs.List.{list_any};
ghost use Rattle.gsl_tree.specs.declared.unit.Function.{Function as OneFunction};
ghost use Rattle.gsl_link_calls.specs.Table.{heads_of};
ghost use Rattle.gsl_link_calls.specs.Depths as spec;

use crate::rows::byte_at;
use crate::table::CallTable;
use gsl_base::Memory;
use gsl_tree::Function;
use std::alloc::Global;

/// The depth that is told of all that nest deeper too.
pub(crate) const DEEP: u8 = 65;

/// How deep calls nest from each function on, by its head: a table that is made again until it stays the same, at most 65 times.
pub(crate) fn depths_of(alloc: Global, table: &CallTable<'_>) -> Result<Vec<u8>, Memory>
    ensures { IfOk result (λ rows. spec.TellDepths rows.items table.now) }
{
    let mut rows = first_rows(alloc, table)?;
    let mut done = 0;
    while done < DEEP {
        let next = made_again(alloc, table, &rows)?;
        if next.as_slice() == rows.as_slice() {
            return Ok(rows);
        }
        rows = next;
        done += 1;
    }
    Ok(rows)
}

/// The table that is begun with.
fn first_rows(alloc: Global, table: &CallTable<'_>) -> Result<Vec<u8>, Memory>
    ensures { IfOk result (λ rows. vec_len rows ≡ heads_of table.now) }
{
    let rows = vec![in alloc; 0; table.heads()]?;
    Ok(rows)
}

/// The table, where an earlier one tells of the functions that are called.
fn made_again(alloc: Global, table: &CallTable<'_>, old: &[u8]) -> Result<Vec<u8>, Memory>
    ensures { IfOk result (λ rows. rows.items ≡ spec.made_again table.now old.now) }
{
    let mut rows = Vec::new(alloc);
    for head in 0..old.len() {
        rows.push(deepest(old, table.callees(head)))?;
    }
    Ok(rows)
}

/// How deep calls of these heads nest, their own call among them.
fn deepest(old: &[u8], heads: &[u32]) -> u8
    ensures { result ≡ spec.deepest old.now heads.now }
{
    let mut depth = 0;
    for k in 0..heads.len() {
        depth = deeper(depth, one_more(byte_at(old, heads[k])));
    }
    depth
}

/// One more than a depth.
fn one_more(depth: u8) -> u8
    ensures { result ≡ min 65 (1 + depth) }
{
    if depth < DEEP { depth + 1 } else { DEEP }
}

fn deeper(a: u8, b: u8) -> u8
    ensures { result ≡ max a b }
{
    if a < b { b } else { a }
}

/// Whether calls nest deeper than they may from one of these functions on.
pub(crate) fn any_deep(functions: &[Function], rows: &[u8]) -> bool
    ensures { result ≡ list_any (λ (f : OneFunction). nat_le 65 (slice_index rows.now f.prototype)) functions.now }
{
    for k in 0..functions.len() {
        if byte_at(rows, functions[k].prototype) >= DEEP {
            return true;
        }
    }
    false
}

//! What is stored where an access leads.

ghost use Rattle.std.specs.Prelude.{◌≡◌, OnOk, set, slice_index_or};
ghost use Rattle.gsl_meaning.specs.Accesses as spec;
ghost use Rattle.gsl_store.specs.Puts.{put_in};

use crate::access::Access;
use crate::putting::put;
use crate::root::Root;
use crate::store::Store;
use crate::words::Words;
use gsl_base::{List, Memory};
use gsl_values::{Value, Values};
use std::alloc::Global;
use std::mem::replace;

/// Puts a value where a path leads in the one of a number, if there is one.
fn put_numbered(
    alloc: Global,
    values: &mut Values,
    number: u32,
    path: &Words,
    picked: &Option<Words>,
    v: Value,
) -> Result<(), Memory>
    ensures { OnOk result (values.new ≡ set values.old number (put_in (slice_index_or values.old number spec.nothing) path.now picked.now v)) }
{
    let mut items = replace(values, List::new(alloc)).into_vec();
    if (number as usize) < items.len() {
        put(
            alloc,
            &mut items[number as usize],
            path.as_slice(),
            picked,
            v,
        )?;
    }
    *values = List::from_vec(items);
    Ok(())
}

/// Stores a value where an access leads.
pub fn stored(alloc: Global, access: &Access, v: Value, store: &mut Store) -> Result<(), Memory>
    ensures { OnOk result (store.new ≡ spec.stored access.now v store.old) }
{
    let path = &access.path;
    let picked = &access.picked;
    match &access.root {
        Root::Global(number) => put_numbered(alloc, &mut store.globals, *number, path, picked, v),
        Root::Block(number) => put_numbered(alloc, &mut store.blocks, *number, path, picked, v),
        Root::Interface(number) => {
            put_numbered(alloc, &mut store.interfaces, *number, path, picked, v)
        }
        Root::Param(number) => put_numbered(alloc, &mut store.params, *number, path, picked, v),
        Root::Local(number) => put_numbered(alloc, &mut store.locals, *number, path, picked, v),
        Root::Loose(_) => Ok(()),
    }
}

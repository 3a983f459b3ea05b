//! What is read where an access leads.

ghost use Rattle.std.specs.Prelude.{◌≡◌, ◌∷◌, [], IfOk, MatchOption, length, slice_index_or};
ghost use Rattle.gsl_store.specs.Roots.{root_of};
ghost use Rattle.gsl_tree.specs.Operations.{value_at};
ghost use Rattle.gsl_tree.specs.Values.{parts_in};
ghost use Rattle.gsl_values.specs.declared.value.Value.TheVariants.{Word};
ghost use Rattle.gsl_meaning.specs.Accesses as spec;
ghost use Rattle.gsl_meaning.specs.Expressions.{block_parts as block_parts_of};

use crate::access::Access;
use crate::root::{Root, is_block};
use crate::store::Store;
use crate::words::{Words, components, of_components, parts_of, words_at};
use gsl_base::{List, Memory};
use gsl_compute::copy_value;
use gsl_shapes::Shapes;
use gsl_types::Ty;
use gsl_values::{Value, Values};
use std::alloc::Global;

/// The part to which a path leads, if it is there.
pub(crate) fn follow<'a>(value: &'a Value, path: &[u32]) -> Option<&'a Value>
    ensures { MatchOption result (value_at value.now path.now ≡ Word 0) (λ part. value_at value.now path.now ≡ part.now) }
{
    let mut at = value;
    for k in 0..path.len() {
        let parts = parts_of(at);
        if path[k] as usize >= parts.len() {
            return None;
        }
        at = &parts[path[k] as usize];
    }
    Some(at)
}

/// The value of a number, if there is one.
fn numbered<'a>(values: &'a Values, number: u32) -> Option<&'a Value>
    ensures { MatchOption result (slice_index_or values.now number spec.nothing ≡ spec.nothing) (λ v. slice_index_or values.now number spec.nothing ≡ v.now) }
{
    if number as usize >= values.len() {
        return None;
    }
    Some(&values[number as usize])
}

/// What an access begins at, if it is there.
fn root_at<'a>(root: &'a Root, store: &'a Store) -> Option<&'a Value>
    ensures { MatchOption result (spec.root_value (root_of root.now) store.now ≡ spec.nothing) (λ v. spec.root_value (root_of root.now) store.now ≡ v.now) }
{
    match root {
        Root::Global(number) => numbered(&store.globals, *number),
        Root::Block(number) => numbered(&store.blocks, *number),
        Root::Interface(number) => numbered(&store.interfaces, *number),
        Root::Param(number) => numbered(&store.params, *number),
        Root::Local(number) => numbered(&store.locals, *number),
        Root::Loose(value) => Some(value),
    }
}

/// The components at positions of a value, or all of it.
fn picked(alloc: Global, positions: &Option<Words>, value: &Value) -> Result<Value, Memory>
    ensures { IfOk result (λ v. v ≡ spec.pick positions.now value.now) }
{
    match positions {
        None => copy_value(alloc, value),
        Some(positions) => {
            let words = components(alloc, value)?;
            let words = words_at(alloc, &words, positions.as_slice())?;
            of_components(alloc, &words)
        }
    }
}

/// The words that stand in a value where an access leads.
fn found_in(alloc: Global, access: &Access, value: &Value) -> Result<Value, Memory>
    ensures { IfOk result (λ v. v ≡ spec.pick access.now.picked (value_at value.now access.now.path)) }
{
    match follow(value, access.path.as_slice()) {
        None => picked(alloc, &access.picked, &Value::Word(0)),
        Some(part) => picked(alloc, &access.picked, part),
    }
}

/// The words that stand where an access leads.
fn found(alloc: Global, access: &Access, store: &Store) -> Result<Value, Memory>
    ensures { IfOk result (λ v. v ≡ spec.found access.now store.now) }
{
    match root_at(&access.root, store) {
        None => found_in(alloc, access, &Value::Many(List::new(alloc))),
        Some(value) => found_in(alloc, access, value),
    }
}

/// The value that an access of a type reads. A word of a `bool` in a block that is not 0 is true.
pub fn read(
    alloc: Global,
    shapes: &Shapes,
    ty: &Ty,
    access: &Access,
    store: &Store,
) -> Result<Value, Memory>
    ensures { IfOk result (λ v. v ≡ spec.read shapes.now ty.now access.now store.now) }
{
    let words = found(alloc, access, store)?;
    if is_block(&access.root) {
        shapes.told(alloc, ty, &words)
    } else {
        Ok(words)
    }
}

/// How many parts the value has to which a path leads.
fn parts_in_value(value: &Value, path: &[u32]) -> usize
    ensures { result ≡ length (parts_in (value_at value.now path.now)) }
{
    match follow(value, path) {
        None => 0,
        Some(part) => parts_of(part).len(),
    }
}

/// How many parts an index may name.
fn count_in(access: &Access, value: &Value) -> usize
    ensures { result ≡ spec.count_parts access.now.picked (value_at value.now access.now.path) }
{
    match &access.picked {
        None => parts_in_value(value, access.path.as_slice()),
        Some(positions) => positions.len(),
    }
}

/// How many parts an index may name where an access leads.
pub fn parts_at(alloc: Global, access: &Access, store: &Store) -> usize
    ensures { result ≡ spec.parts_at access.now store.now }
{
    match root_at(&access.root, store) {
        None => count_in(access, &Value::Many(List::new(alloc))),
        Some(value) => count_in(access, value),
    }
}

/// How many parts a member of a block has.
pub fn block_parts(alloc: Global, block: u32, number: u32, store: &Store) -> usize
    ensures { result ≡ block_parts_of block number store.now }
{
    match numbered(&store.blocks, block) {
        None => parts_in_value(&Value::Many(List::new(alloc)), &[number]),
        Some(value) => parts_in_value(value, &[number]),
    }
}

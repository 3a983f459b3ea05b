//! Sets of names and of keys, each found by its place.

ghost use Rattle.std.specs.Prelude.{◌≡◌, not, bytes_eq, IfOk, OnOk};
ghost use Rattle.std.specs.List.{list_any, position_or_len};
ghost use Rattle.indexmap.specs.IndexSet.{insert_key};

use gsl_base::{Memory, Text};
use gsl_link_structs::Key;
use indexmap::IndexSet;

/// A number as a word.
pub(crate) fn word_of(number: usize) -> Result<u32, Memory>
    ensures { IfOk result (λ word. word ≡ number) }
{
    if number > u32::MAX as usize {
        return Err(Memory);
    }
    Ok(number as u32)
}

/// Puts a name into a set, and tells whether it was not in it.
pub fn put_name(names: &mut IndexSet<Text>, name: Text) -> Result<bool, Memory>
    ensures new { IfOk result (λ new. new ≡ not (list_any (bytes_eq name) names.old.keys)) }
    ensures keys { OnOk result (names.new.keys ≡ insert_key bytes_eq names.old.keys name) }
{
    let (_, new) = names.insert_full(name)?;
    Ok(new)
}

/// The number of a name in a set, or how many there are.
fn place_of_name(names: &IndexSet<Text>, name: &Text) -> usize
    ensures { result ≡ position_or_len (bytes_eq name.now) names.now.keys }
{
    match names.get_index_of(name) {
        Some(number) => number,
        None => names.len(),
    }
}

/// The number of a name in a set, or how many there are.
pub(crate) fn name_number(names: &IndexSet<Text>, name: &Text) -> Result<u32, Memory>
    ensures { IfOk result (λ n. n ≡ position_or_len (bytes_eq name.now) names.now.keys) }
{
    let number = word_of(place_of_name(names, name))?;
    Ok(number)
}

/// Puts a key into a set, and tells whether it was not in it.
pub(crate) fn put_key(keys: &mut IndexSet<Key>, key: Key) -> Result<bool, Memory>
    ensures new { IfOk result (λ new. new ≡ not (list_any (bytes_eq key) keys.old.keys)) }
    ensures keys { OnOk result (keys.new.keys ≡ insert_key bytes_eq keys.old.keys key) }
{
    let (_, new) = keys.insert_full(key)?;
    Ok(new)
}

fn place_of_key(keys: &IndexSet<Key>, key: &Key) -> usize
    ensures { result ≡ position_or_len (bytes_eq key.now) keys.now.keys }
{
    match keys.get_index_of(key) {
        Some(number) => number,
        None => keys.len(),
    }
}

/// The number of a key in a set, or how many there are.
pub(crate) fn key_number(keys: &IndexSet<Key>, key: &Key) -> Result<u32, Memory>
    ensures { IfOk result (λ n. n ≡ position_or_len (bytes_eq key.now) keys.now.keys) }
{
    let number = word_of(place_of_key(keys, key))?;
    Ok(number)
}

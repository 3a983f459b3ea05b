//! The heads of functions of units, each once.

ghost use Rattle.std.specs.Prelude.{◌≡◌, [], IfOk, OnOk};
ghost use Rattle.indexmap.specs.IndexSet.{insert_key, insert_all};
ghost use Rattle.gsl_link_units.specs.Agreement.{same_function};
ghost use Rattle.gsl_link_whole.specs.Numbers.{joined_heads as all_of};
ghost use Rattle.gsl_link_numbers.specs.Joining as spec;

use crate::sets::{key_number, put_key};
use gsl_base::{List, Memory, Text};
use gsl_link_structs::Key;
use gsl_link_whole::{Side, copied};
use gsl_tree::{Params, Prototype, Prototypes};
use gsl_types::{Direction, Ty};
use indexmap::IndexSet;
use std::alloc::Global;

fn copied_params(alloc: Global, params: &[(Direction, Ty)]) -> Result<Params, Memory>
    ensures { IfOk result (λ xs. xs ≡ params.now) }
{
    let mut all = List::new(alloc);
    for k in 0..params.len() {
        let ty = copied(alloc, &params[k].1)?;
        all.push((params[k].0, ty))?;
    }
    Ok(all)
}

fn copied_head(alloc: Global, head: &Prototype) -> Result<Prototype, Memory>
    ensures { IfOk result (λ x. x ≡ head.now) }
{
    let name = Text::from_str(alloc, head.name.as_str())?;
    let result = copied(alloc, &head.result)?;
    let params = copied_params(alloc, head.params.as_slice())?;
    Ok(Prototype {
        name,
        result,
        params,
        place: head.place,
    })
}

/// Puts a head behind others, where none has its name.
fn add_head(
    alloc: Global,
    keys: &mut IndexSet<Key>,
    all: &mut Prototypes,
    head: &Prototype,
) -> Result<(), Memory>
    requires named { keys.old.keys ≡ spec.head_keys all.old }
    ensures named { OnOk result (keys.new.keys ≡ spec.head_keys all.new) }
    ensures all { OnOk result (all.new ≡ insert_key same_function all.old head.now) }
{
    let key = Key::of(alloc, head)?;
    if put_key(keys, key)? {
        let head = copied_head(alloc, head)?;
        all.push(head)?;
    }
    Ok(())
}

fn add_heads(
    alloc: Global,
    keys: &mut IndexSet<Key>,
    all: &mut Prototypes,
    more: &[Prototype],
) -> Result<(), Memory>
    requires named { keys.old.keys ≡ spec.head_keys all.old }
    ensures named { OnOk result (keys.new.keys ≡ spec.head_keys all.new) }
    ensures all { OnOk result (all.new ≡ insert_all same_function all.old more.now) }
{
    for k in 0..more.len() {
        add_head(alloc, keys, all, &more[k])?;
    }
    Ok(())
}

fn heads_behind(
    alloc: Global,
    keys: &mut IndexSet<Key>,
    all: &mut Prototypes,
    sides: &[Side],
) -> Result<(), Memory>
    requires named { keys.old.keys ≡ spec.head_keys all.old }
    ensures named { OnOk result (keys.new.keys ≡ spec.head_keys all.new) }
    ensures all { OnOk result (all.new ≡ spec.heads_behind all.old sides.now) }
{
    for k in 0..sides.len() {
        let side = &sides[k];
        add_heads(alloc, keys, all, side.unit.prototypes.as_slice())?;
    }
    Ok(())
}

/// The heads of functions of units, each once, and their keys in the same order, put into an empty set.
#[tactic(auto, using(crate::proofs::Joined::heads_are))]
pub(crate) fn joined_heads(
    alloc: Global,
    keys: &mut IndexSet<Key>,
    sides: &[Side],
) -> Result<Prototypes, Memory>
    requires none { keys.old.keys ≡ [] }
    ensures named { OnOk result (keys.new.keys ≡ spec.head_keys (all_of sides.now)) }
    ensures all { IfOk result (λ all. all ≡ all_of sides.now) }
{
    let mut all = List::new(alloc);
    heads_behind(alloc, keys, &mut all, sides)?;
    Ok(all)
}

/// The numbers of heads of functions among those of all units, whose keys these are.
pub(crate) fn head_numbers(
    alloc: Global,
    keys: &IndexSet<Key>,
    heads: &[Prototype],
) -> Result<List<u32>, Memory>
    ensures { IfOk result (λ ns. ns ≡ spec.head_places keys.now.keys heads.now) }
{
    let mut all = List::new(alloc);
    for k in 0..heads.len() {
        let key = Key::of(alloc, &heads[k])?;
        let number = key_number(keys, &key)?;
        all.push(number)?;
    }
    Ok(all)
}

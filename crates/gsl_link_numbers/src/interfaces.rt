//! The inputs and outputs of units, each once.

ghost use Rattle.std.specs.Prelude.{◌≡◌, [], IfOk, OnOk};
ghost use Rattle.indexmap.specs.IndexSet.{insert_key, insert_all};
ghost use Rattle.gsl_link_whole.specs.Numbers.{same_interface, joined_interfaces as all_of};
ghost use Rattle.gsl_link_numbers.specs.Joining as spec;

use crate::sets::{name_number, put_name};
use gsl_base::{List, Memory, Text};
use gsl_link_whole::{Side, copied};
use gsl_tree::{Interface, Interfaces};
use indexmap::IndexSet;
use std::alloc::Global;

fn copied_interface(alloc: Global, i: &Interface) -> Result<Interface, Memory>
    ensures { IfOk result (λ x. x ≡ i.now) }
{
    let name = Text::from_str(alloc, i.name.as_str())?;
    let ty = copied(alloc, &i.ty)?;
    Ok(Interface {
        name,
        ty,
        output: i.output,
        flat: i.flat,
        location: i.location,
        place: i.place,
    })
}

/// Puts an input or an output behind others, where none has its name.
fn add_interface(
    alloc: Global,
    names: &mut IndexSet<Text>,
    all: &mut Interfaces,
    i: &Interface,
) -> Result<(), Memory>
    requires named { names.old.keys ≡ spec.interface_names all.old }
    ensures named { OnOk result (names.new.keys ≡ spec.interface_names all.new) }
    ensures all { OnOk result (all.new ≡ insert_key same_interface all.old i.now) }
{
    let name = Text::from_str(alloc, i.name.as_str())?;
    if put_name(names, name)? {
        let i = copied_interface(alloc, i)?;
        all.push(i)?;
    }
    Ok(())
}

fn add_interfaces(
    alloc: Global,
    names: &mut IndexSet<Text>,
    all: &mut Interfaces,
    more: &[Interface],
) -> Result<(), Memory>
    requires named { names.old.keys ≡ spec.interface_names all.old }
    ensures named { OnOk result (names.new.keys ≡ spec.interface_names all.new) }
    ensures all { OnOk result (all.new ≡ insert_all same_interface all.old more.now) }
{
    for k in 0..more.len() {
        add_interface(alloc, names, all, &more[k])?;
    }
    Ok(())
}

fn interfaces_behind(
    alloc: Global,
    names: &mut IndexSet<Text>,
    all: &mut Interfaces,
    sides: &[Side],
) -> Result<(), Memory>
    requires named { names.old.keys ≡ spec.interface_names all.old }
    ensures named { OnOk result (names.new.keys ≡ spec.interface_names all.new) }
    ensures all { OnOk result (all.new ≡ spec.interfaces_behind all.old sides.now) }
{
    for k in 0..sides.len() {
        let side = &sides[k];
        add_interfaces(alloc, names, all, side.unit.interfaces.as_slice())?;
    }
    Ok(())
}

/// The inputs and outputs of units, each once, and their names in the same order, put into an empty set.
#[tactic(auto, using(crate::proofs::Joined::interfaces_are))]
pub(crate) fn joined_interfaces(
    alloc: Global,
    names: &mut IndexSet<Text>,
    sides: &[Side],
) -> Result<Interfaces, Memory>
    requires none { names.old.keys ≡ [] }
    ensures named { OnOk result (names.new.keys ≡ spec.interface_names (all_of sides.now)) }
    ensures all { IfOk result (λ all. all ≡ all_of sides.now) }
{
    let mut all = List::new(alloc);
    interfaces_behind(alloc, names, &mut all, sides)?;
    Ok(all)
}

/// The numbers of inputs and outputs among those of all units, whose names these are.
pub(crate) fn interface_numbers(
    alloc: Global,
    names: &IndexSet<Text>,
    interfaces: &[Interface],
) -> Result<List<u32>, Memory>
    ensures { IfOk result (λ ns. ns ≡ spec.interface_places names.now.keys interfaces.now) }
{
    let mut all = List::new(alloc);
    for k in 0..interfaces.len() {
        let number = name_number(names, &interfaces[k].name)?;
        all.push(number)?;
    }
    Ok(all)
}

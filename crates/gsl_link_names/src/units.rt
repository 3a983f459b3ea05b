//! Declarations of many units, unit by unit.

ghost use Rattle.std.specs.Prelude.{◌≡◌, [], map, IfOk, OnOk};
ghost use Rattle.std.specs.List.{AllByRecursion};
ghost use Rattle.gsl_types.specs.Known.{AreStructs};
ghost use Rattle.gsl_layout.specs.Extents.{ArePlain};
ghost use Rattle.gsl_link_units.specs.Declarations.{declared_at};
ghost use Rattle.gsl_link_names.specs.Against as spec;
ghost use Rattle.gsl_link_names.specs.Earlier as earlier;

use crate::adding::add_unit;
use crate::asking::{Places, ask_unit};
use crate::rows::{HeadRows, NamedRows};
use gsl_base::{List, Memory, Place, Text};
use gsl_link_whole::Side;
use gsl_types::Structs;
use indexmap::{IndexMap, IndexSet};
use std::alloc::Global;

/// Asks for the declarations of a unit, and then puts them into the tables.
fn next_unit<'a>(
    alloc: Global,
    structs: &Structs,
    rows: &mut NamedRows<'a>,
    heads: &mut HeadRows<'a>,
    functions: &mut IndexSet<Text>,
    pushes: &mut List<Text>,
    places: &mut Places,
    side: &'a Side,
) -> Result<(), Memory>
    requires known { AreStructs structs.now }
    requires plain { ArePlain structs.now }
    requires typed { earlier.AreTypedBlocks structs.now side.now }
    ensures rows { OnOk result (rows.new.entries ≡ spec.with_unit structs.now rows.old.entries side.now) }
    ensures heads { OnOk result (heads.new.entries ≡ spec.with_heads heads.old.entries side.now.unit.prototypes) }
    ensures functions { OnOk result (functions.new.keys ≡ spec.with_functions functions.old.keys side.now.unit.prototypes) }
    ensures pushes { OnOk result (pushes.new ≡ spec.with_pushes pushes.old side.now.unit.blocks) }
    ensures places { OnOk result (places.new ≡ spec.unit_against structs.now rows.old.entries heads.old.entries functions.old.keys pushes.old places.old side.now) }
{
    ask_unit(
        alloc,
        structs,
        rows,
        heads,
        functions,
        pushes.as_slice(),
        places,
        side,
    )?;
    add_unit(alloc, structs, rows, heads, functions, pushes, side)?;
    Ok(())
}

fn all_units<'a>(
    alloc: Global,
    structs: &Structs,
    rows: &mut NamedRows<'a>,
    heads: &mut HeadRows<'a>,
    functions: &mut IndexSet<Text>,
    pushes: &mut List<Text>,
    places: &mut Places,
    sides: &'a [Side],
) -> Result<(), Memory>
    requires known { AreStructs structs.now }
    requires plain { ArePlain structs.now }
    requires typed { AllByRecursion (earlier.AreTypedBlocks structs.now) sides.now }
    ensures { OnOk result (places.new ≡ spec.all_against structs.now rows.old.entries heads.old.entries functions.old.keys pushes.old places.old sides.now) }
{
    for k in 0..sides.len() {
        let side = &sides[k];
        next_unit(alloc, structs, rows, heads, functions, pushes, places, side)?;
    }
    Ok(())
}

/// The places of the declarations that are against one of an earlier unit, in the order of the units, and within a unit kind by kind. `Memory` where
/// memory was wanting.
#[tactic(auto, using(crate::proofs::Told::against_are))]
pub fn against_earlier(
    alloc: Global,
    structs: &Structs,
    sides: &[Side],
) -> Result<List<Place>, Memory>
    requires known { AreStructs structs.now }
    requires plain { ArePlain structs.now }
    requires typed { AllByRecursion (earlier.AreTypedBlocks structs.now) sides.now }
    ensures { IfOk result (λ places. places ≡ map declared_at (earlier.against_earlier structs.now [] sides.now)) }
{
    let mut rows = IndexMap::new(alloc);
    let mut heads = IndexMap::new(alloc);
    let mut functions = IndexSet::new(alloc);
    let mut pushes = List::new(alloc);
    let mut places = List::new(alloc);
    all_units(
        alloc,
        structs,
        &mut rows,
        &mut heads,
        &mut functions,
        &mut pushes,
        &mut places,
        sides,
    )?;
    Ok(places)
}

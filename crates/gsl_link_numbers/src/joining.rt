//! What units give to a program, one unit behind the other.

ghost use Rattle.std.specs.Prelude.{◌≡◌, ◌∷◌, ◌++◌, [], map, if◌then◌else◌, OnOk};
ghost use Rattle.gsl_link_whole.specs.Renumbering as renumbering;
ghost use Rattle.gsl_link_numbers.specs.Numbering as spec;
ghost use Rattle.gsl_link_numbers.specs.Standing.{stands_there};

use crate::sets::word_of;
use crate::spots::{Spots, stands};
use crate::tables::{Tables, numbering};
use gsl_base::{List, Memory};
use gsl_link_whole::{Numbering, Side, renumbered_function, renumbered_global};
use gsl_tree::{Function, Functions, GlobalVar, Globals, TypedUnit};
use std::alloc::Global;

/// Puts a global variable by the new numbers behind others, if its declaration stands for it.
fn add_global(
    alloc: Global,
    all: &mut Globals,
    spots: &Spots,
    n: &Numbering,
    unit: u32,
    index: u32,
    g: &GlobalVar,
) -> Result<(), Memory>
    ensures { OnOk result (all.new ≡ (if stands_there spots.now.entries unit index g.now then all.old ++ renumbering.renumbered_global n.now g.now ∷ [] else all.old)) }
{
    if stands(spots, unit, index, g) {
        let g = renumbered_global(alloc, n, g)?;
        all.push(g)?;
    }
    Ok(())
}

fn add_globals(
    alloc: Global,
    all: &mut Globals,
    spots: &Spots,
    n: &Numbering,
    unit: u32,
    globals: &[GlobalVar],
) -> Result<(), Memory>
    ensures { OnOk result (all.new ≡ spec.globals_behind all.old spots.now.entries n.now unit 0 globals.now) }
{
    for k in 0..globals.len() {
        let index = word_of(k)?;
        add_global(alloc, all, spots, n, unit, index, &globals[k])?;
    }
    Ok(())
}

fn add_functions(
    alloc: Global,
    all: &mut Functions,
    n: &Numbering,
    functions: &[Function],
) -> Result<(), Memory>
    ensures { OnOk result (all.new ≡ all.old ++ map (renumbering.renumbered_function n.now) functions.now) }
{
    for k in 0..functions.len() {
        let f = renumbered_function(alloc, n, &functions[k])?;
        all.push(f)?;
    }
    Ok(())
}

/// Puts the variables and the functions of a unit behind others.
fn add_by(
    alloc: Global,
    globals: &mut Globals,
    functions: &mut Functions,
    spots: &Spots,
    n: &Numbering,
    unit: u32,
    of: &TypedUnit,
) -> Result<(), Memory>
    ensures globals { OnOk result (globals.new ≡ spec.globals_behind globals.old spots.now.entries n.now unit 0 of.now.globals) }
    ensures functions { OnOk result (functions.new ≡ functions.old ++ map (renumbering.renumbered_function n.now) of.now.functions) }
{
    add_globals(alloc, globals, spots, n, unit, of.globals.as_slice())?;
    add_functions(alloc, functions, n, of.functions.as_slice())?;
    Ok(())
}

/// Puts what a unit gives, and its numbers, behind others.
fn add_unit(
    alloc: Global,
    t: &Tables,
    numbers: &mut List<Numbering>,
    globals: &mut Globals,
    functions: &mut Functions,
    unit: u32,
    side: &Side,
) -> Result<(), Memory>
    ensures numbers { OnOk result (numbers.new ≡ numbers.old ++ spec.numbering_by t.now unit side.now ∷ []) }
    ensures globals { OnOk result (globals.new ≡ spec.globals_behind globals.old t.now.spots (spec.numbering_by t.now unit side.now) unit 0 side.now.unit.globals) }
    ensures functions { OnOk result (functions.new ≡ functions.old ++ map (renumbering.renumbered_function (spec.numbering_by t.now unit side.now)) side.now.unit.functions) }
{
    let n = numbering(alloc, t, unit, side)?;
    add_by(alloc, globals, functions, &t.spots, &n, unit, &side.unit)?;
    numbers.push(n)?;
    Ok(())
}

/// Puts what all units give, and their numbers, behind others.
pub(crate) fn add_units(
    alloc: Global,
    t: &Tables,
    numbers: &mut List<Numbering>,
    globals: &mut Globals,
    functions: &mut Functions,
    sides: &[Side],
) -> Result<(), Memory>
    ensures numbers { OnOk result (numbers.new ≡ spec.numberings_behind numbers.old t.now 0 sides.now) }
    ensures globals { OnOk result (globals.new ≡ spec.all_globals_behind globals.old t.now 0 sides.now) }
    ensures functions { OnOk result (functions.new ≡ spec.all_functions_behind functions.old t.now 0 sides.now) }
{
    for k in 0..sides.len() {
        let unit = word_of(k)?;
        add_unit(alloc, t, numbers, globals, functions, unit, &sides[k])?;
    }
    Ok(())
}

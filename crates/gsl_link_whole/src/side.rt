//! Units with their declarations by the joined structs.

ghost use Rattle.std.specs.Prelude.{◌≡◌, ◌∷◌, ◌++◌, [], IfOk, OnOk};
ghost use Rattle.gsl_link_units.specs.Declarations as spec;
ghost use Rattle.gsl_link_units.specs.Structs as structs;

use gsl_base::{List, Memory};
use gsl_link_structs::{Joined, join_structs};
use gsl_link_units::retype_unit;
use gsl_tree::{TypedUnit, TypedUnits};
use gsl_types::Structs;
use std::alloc::Global;
use std::marker::Model;
use std::mem::replace;

/// A unit whose declarations have the new numbers of its structs; its initialisers and functions are still as they were. `structs` has these
/// numbers.
#[derive(Drop)]
pub struct Side {
    pub structs: List<u32>,
    pub unit: TypedUnit,
}

impl Model for Side {
    ghost use Rattle.gsl_link_units.specs.Declarations.{Side as Plain};
    ghost use Rattle.std.specs.Coded.{codes};
    ghost use Rattle.gsl_tree.specs.contracts.unit.TypedUnit as unit_row;

    ghost Value = { Plain };

    ghost coded = { Prim.hlevel (codes, unit_row.the_row.coded) };

    ghost view = { λ s. record { structs = s.structs; unit = s.unit } };
}

/// Units in their order.
pub type Sides = List<Side>;

fn empty(alloc: Global) -> TypedUnit {
    TypedUnit {
        structs: List::new(alloc),
        globals: List::new(alloc),
        blocks: List::new(alloc),
        interfaces: List::new(alloc),
        prototypes: List::new(alloc),
        functions: List::new(alloc),
        local_sizes: List::new(alloc),
    }
}

/// A unit by the joined structs, to which its own are put.
fn joined_side(alloc: Global, joined: Joined, unit: TypedUnit) -> Result<(Joined, Side), Memory>
    ensures joined { IfOk result (λ r. r.0 ≡ (structs.with_structs joined [] unit.structs).0) }
    ensures side { IfOk result (λ r. r.1 ≡ spec.side_of (structs.with_structs joined [] unit.structs).1 unit) }
{
    let mut unit = unit;
    let (joined, structs) = join_structs(alloc, joined, unit.structs.as_slice())?;
    retype_unit(alloc, structs.as_slice(), &mut unit)?;
    Ok((joined, Side { structs, unit }))
}

/// Puts a unit behind others.
fn put_side(
    alloc: Global,
    joined: Joined,
    sides: &mut Sides,
    unit: &mut TypedUnit,
) -> Result<Joined, Memory>
    ensures joined { IfOk result (λ all. all ≡ (structs.with_structs joined [] unit.old.structs).0) }
    ensures sides { OnOk result (sides.new ≡ sides.old ++ spec.side_of (structs.with_structs joined [] unit.old.structs).1 unit.old ∷ []) }
{
    let unit = replace(unit, empty(alloc));
    let (joined, side) = joined_side(alloc, joined, unit)?;
    sides.push(side)?;
    Ok(joined)
}

/// Units by the joined structs, which are put into a list.
pub fn join_units(alloc: Global, joined: &mut Structs, units: TypedUnits) -> Result<Sides, Memory>
    requires none { joined.old ≡ [] }
    ensures structs { OnOk result (joined.new ≡ structs.joined_structs units) }
    ensures sides { IfOk result (λ sides. sides ≡ spec.sides_of units) }
{
    let mut all = units.into_vec();
    let mut sides = List::new(alloc);
    let mut each = Joined::new(alloc);
    for k in 0..all.len() {
        each = put_side(alloc, each, &mut sides, &mut all[k])?;
    }
    *joined = each.into_structs();
    Ok(sides)
}

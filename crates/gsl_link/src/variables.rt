//! The leaves of global variables.

ghost use Rattle.std.specs.Prelude.{◌≡◌, IfOk, OnOk};
ghost use Rattle.gsl_types.specs.Known.{AreStructs};
ghost use Rattle.gsl_link.specs.Sides as spec;
ghost use Rattle.gsl_link.specs.Rows as rows;

use crate::slots::Counted;
use gsl_base::{List, Memory, Place, Text};
use gsl_link_numbers::put_name;
use gsl_link_whole::Side;
use gsl_tree::{GlobalVar, Program};
use gsl_types::Structs;
use gsl_weights::few_leaves;
use indexmap::IndexSet;
use std::alloc::Global;

/// Whether a declaration counts, whose name is put to those that were counted.
fn counts(alloc: Global, names: &mut IndexSet<Text>, g: &GlobalVar) -> Result<bool, Memory>
    ensures counts { IfOk result (λ counts. counts ≡ spec.counts names.old.keys g.now) }
    ensures names { OnOk result (names.new.keys ≡ spec.with_name names.old.keys g.now) }
{
    if g.constant {
        return Ok(true);
    }
    let name = Text::from_str(alloc, g.name.as_str())?;
    let new = put_name(names, name)?;
    Ok(new)
}

fn add_counted(
    alloc: Global,
    structs: &Structs,
    names: &mut IndexSet<Text>,
    all: &mut List<Counted>,
    g: &GlobalVar,
) -> Result<(), Memory>
    requires known { AreStructs structs.now }
    ensures names { OnOk result (names.new.keys ≡ spec.with_name names.old.keys g.now) }
    ensures all { OnOk result (all.new ≡ spec.with_counted structs.now names.old.keys all.old g.now) }
{
    if counts(alloc, names, g)? {
        all.push(Counted {
            leaves: few_leaves(structs, &g.ty),
            place: g.place,
        })?;
    }
    Ok(())
}

fn counted_behind(
    alloc: Global,
    structs: &Structs,
    names: &mut IndexSet<Text>,
    all: &mut List<Counted>,
    globals: &[GlobalVar],
) -> Result<(), Memory>
    requires known { AreStructs structs.now }
    ensures names { OnOk result (names.new.keys ≡ spec.names_behind names.old.keys globals.now) }
    ensures all { OnOk result (all.new ≡ spec.counted_behind structs.now names.old.keys all.old globals.now) }
{
    for k in 0..globals.len() {
        add_counted(alloc, structs, names, all, &globals[k])?;
    }
    Ok(())
}

fn counted_all(
    alloc: Global,
    structs: &Structs,
    names: &mut IndexSet<Text>,
    all: &mut List<Counted>,
    sides: &[Side],
) -> Result<(), Memory>
    requires known { AreStructs structs.now }
    ensures { OnOk result (all.new ≡ spec.counted_all structs.now names.old.keys all.old sides.now) }
{
    for k in 0..sides.len() {
        let side = &sides[k];
        counted_behind(alloc, structs, names, all, side.unit.globals.as_slice())?;
    }
    Ok(())
}

/// The place of the first of those that count with which there are too many leaves.
fn first_beyond(counted: &[Counted]) -> Option<Place>
    ensures { result ≡ spec.first_beyond 0 counted.now }
{
    let mut leaves: u32 = 0;
    for k in 0..counted.len() {
        let more = leaves.saturating_add(counted[k].leaves);
        if more > 65_536 {
            return Some(counted[k].place);
        }
        leaves = more;
    }
    None
}

/// The place of the first global variable with which they have too many leaves, each counted once.
pub fn large_globals(alloc: Global, p: &Program, sides: &[Side]) -> Result<Option<Place>, Memory>
    requires known { AreStructs p.now.structs }
    ensures { IfOk result (λ place. place ≡ rows.large_globals p.now sides.now) }
{
    let mut names = IndexSet::new(alloc);
    let mut counted = List::new(alloc);
    counted_all(alloc, &p.structs, &mut names, &mut counted, sides)?;
    let place = first_beyond(counted.as_slice());
    Ok(place)
}

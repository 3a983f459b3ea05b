//! Which declaration stands for each global variable.

ghost use Rattle.std.specs.Prelude.{◌≡◌, [], ◌∷◌, ◌++◌, is_some, IfOk, OnOk};
ghost use Rattle.std.specs.List.{position_or_len};
ghost use Rattle.indexmap.specs.IndexSet.{insert_all};
ghost use Rattle.gsl_link_numbers.specs.Standing as spec;

use crate::sets::word_of;
use crate::site::{Site, Spot};
use gsl_base::{List, Memory, Text};
use gsl_link_whole::Side;
use gsl_tree::{Expr, GlobalVar};
use indexmap::{IndexMap, IndexSet};
use std::alloc::Global;

/// The declarations that stand for variables, by the names of these.
pub(crate) type Spots = IndexMap<Text, Spot>;

fn is_there(init: &Option<Expr>) -> bool
    ensures { result ≡ is_some init.now }
{
    match init {
        Some(_) => true,
        None => false,
    }
}

fn takes_over(spot: Option<Spot>, begun: bool) -> bool
    ensures { result ≡ spec.takes_over spot begun }
{
    match spot {
        None => true,
        Some(spot) => begun && !spot.begun,
    }
}

fn spot_of(spots: &Spots, name: &Text) -> Option<Spot>
    ensures { result ≡ spec.spot_of spots.now.entries name.now }
{
    spots.get(name).copied()
}

/// Notes a declaration, if it is to stand for its variable so far.
fn note(
    alloc: Global,
    spots: &mut Spots,
    unit: u32,
    index: u32,
    g: &GlobalVar,
) -> Result<(), Memory>
    ensures { OnOk result (spots.new.entries ≡ spec.noted spots.old.entries unit index g.now) }
{
    let begun = is_there(&g.init);
    if !g.constant && takes_over(spot_of(spots, &g.name), begun) {
        let name = Text::from_str(alloc, g.name.as_str())?;
        let site = Site { unit, index };
        spots.insert(name, Spot { site, begun })?;
    }
    Ok(())
}

fn note_each(
    alloc: Global,
    spots: &mut Spots,
    unit: u32,
    globals: &[GlobalVar],
) -> Result<(), Memory>
    ensures { OnOk result (spots.new.entries ≡ spec.noted_from spots.old.entries unit 0 globals.now) }
{
    for k in 0..globals.len() {
        let index = word_of(k)?;
        note(alloc, spots, unit, index, &globals[k])?;
    }
    Ok(())
}

/// Notes the declarations of all units.
pub(crate) fn note_all(alloc: Global, spots: &mut Spots, sides: &[Side]) -> Result<(), Memory>
    ensures { OnOk result (spots.new.entries ≡ spec.noted_all spots.old.entries 0 sides.now) }
{
    for k in 0..sides.len() {
        let side = &sides[k];
        let unit = word_of(k)?;
        note_each(alloc, spots, unit, side.unit.globals.as_slice())?;
    }
    Ok(())
}

/// The declaration that stands for the variable of one.
fn site_of(spots: &Spots, unit: u32, index: u32, g: &GlobalVar) -> Site
    ensures { result ≡ spec.site_of spots.now.entries unit index g.now }
{
    if g.constant {
        return Site { unit, index };
    }
    match spot_of(spots, &g.name) {
        None => Site { unit, index },
        Some(spot) => spot.site,
    }
}

/// Whether a declaration stands for its variable.
pub(crate) fn stands(spots: &Spots, unit: u32, index: u32, g: &GlobalVar) -> bool
    ensures { result ≡ spec.stands_there spots.now.entries unit index g.now }
{
    site_of(spots, unit, index, g) == Site { unit, index }
}

/// Puts the declarations of a unit that stand for variables into a set.
fn put_standing(
    spots: &Spots,
    sites: &mut IndexSet<Site>,
    unit: u32,
    globals: &[GlobalVar],
) -> Result<(), Memory>
    ensures { OnOk result (sites.new.keys ≡ insert_all spec.site_eq sites.old.keys (spec.standing_from spots.now.entries unit 0 globals.now)) }
{
    for k in 0..globals.len() {
        let index = word_of(k)?;
        put_if_standing(spots, sites, unit, index, &globals[k])?;
    }
    Ok(())
}

fn put_if_standing(
    spots: &Spots,
    sites: &mut IndexSet<Site>,
    unit: u32,
    index: u32,
    g: &GlobalVar,
) -> Result<(), Memory>
    ensures { OnOk result (sites.new.keys ≡ spec.with_standing spots.now.entries sites.old.keys unit index g.now) }
{
    if stands(spots, unit, index, g) {
        sites.insert_full(Site { unit, index })?;
    }
    Ok(())
}

/// Puts the declarations that stand for variables into a set, in their order.
pub(crate) fn put_all_standing(
    spots: &Spots,
    sites: &mut IndexSet<Site>,
    sides: &[Side],
) -> Result<(), Memory>
    ensures { OnOk result (sites.new.keys ≡ insert_all spec.site_eq sites.old.keys (spec.standing_all spots.now.entries 0 sides.now)) }
{
    for k in 0..sides.len() {
        let side = &sides[k];
        let unit = word_of(k)?;
        put_standing(spots, sites, unit, side.unit.globals.as_slice())?;
    }
    Ok(())
}

/// The number of a declaration in a set, or how many there are.
fn place_of_site(sites: &IndexSet<Site>, site: Site) -> usize
    ensures { result ≡ position_or_len (spec.site_eq site) sites.now.keys }
{
    match sites.get_index_of(&site) {
        Some(number) => number,
        None => sites.len(),
    }
}

/// Puts the number of a variable behind others, where these declarations stand for all.
fn push_number(
    all: &mut List<u32>,
    spots: &Spots,
    sites: &IndexSet<Site>,
    unit: u32,
    index: u32,
    g: &GlobalVar,
) -> Result<(), Memory>
    ensures { OnOk result (all.new ≡ all.old ++ position_or_len (spec.site_eq (spec.site_of spots.now.entries unit index g.now)) sites.now.keys ∷ []) }
{
    let site = site_of(spots, unit, index, g);
    let number = word_of(place_of_site(sites, site))?;
    all.push(number)?;
    Ok(())
}

/// The numbers of a unit's variables, where these declarations stand for all.
pub(crate) fn global_numbers(
    alloc: Global,
    spots: &Spots,
    sites: &IndexSet<Site>,
    unit: u32,
    globals: &[GlobalVar],
) -> Result<List<u32>, Memory>
    ensures { IfOk result (λ ns. ns ≡ spec.places_behind [] spots.now.entries sites.now.keys unit 0 globals.now) }
{
    let mut all = List::new(alloc);
    for k in 0..globals.len() {
        let index = word_of(k)?;
        push_number(&mut all, spots, sites, unit, index, &globals[k])?;
    }
    Ok(all)
}

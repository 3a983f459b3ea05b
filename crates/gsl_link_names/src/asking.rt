//! Declarations of a unit that are asked of tables.

ghost use Rattle.std.specs.Prelude.{◌≡◌, is_some, IfOk, OnOk};
ghost use Rattle.std.specs.List.{AllByRecursion};
ghost use Rattle.gsl_types.specs.Known.{AreStructs};
ghost use Rattle.gsl_layout.specs.Extents.{ArePlain};
ghost use Rattle.gsl_tree.specs.WellTyped as typed;
ghost use Rattle.gsl_link_units.specs.Agreement as agreement;
ghost use Rattle.gsl_link_names.specs.Against as spec;
ghost use Rattle.gsl_link_names.specs.Rows.{row_of};
ghost use Rattle.gsl_link_names.specs.declared.lent.Named.TheVariants as variant;

use crate::adding::is_push;
use crate::laying::offsets_of;
use crate::lent::{LentBlock, LentHead, LentInterface, LentVariable, Named};
use crate::rows::{HeadRows, NamedRows};
use gsl_base::{List, Memory, Place, Text};
use gsl_link_structs::Key;
use gsl_link_units::{
    agree_functions, agree_interfaces, agree_members, agree_variables, same_kind,
};
use gsl_link_whole::Side;
use gsl_tree::{Block, GlobalVar, Interface, Prototype};
use gsl_types::Structs;
use indexmap::IndexSet;
use std::alloc::Global;

/// Places in their order.
pub(crate) type Places = List<Place>;

// ---- agreement

fn both_or_neither(a: bool, b: bool) -> bool
    ensures { result ≡ agreement.both_or_neither a b }
{
    if a { b } else { !b }
}

fn has_name(name: &Option<Text>) -> bool
    ensures { result ≡ is_some name.now }
{
    match name {
        Some(_) => true,
        None => false,
    }
}

/// Whether blocks are for the same, bound at one place and named alike.
fn same_form(a: &Block, b: &Block) -> bool
    ensures { result ≡ spec.same_form a.now b.now }
{
    same_kind(a.kind, b.kind)
        && a.set == b.set
        && a.binding == b.binding
        && both_or_neither(a.std140, b.std140)
        && both_or_neither(has_name(&a.instance), has_name(&b.instance))
}

/// Whether blocks agree whose members have these offsets.
fn agree_laid(a: &Block, offsets: &[u32], b: &Block, others: &[u32]) -> bool
    ensures { result ≡ spec.agree_laid a.now offsets.now b.now others.now }
{
    same_form(a, b)
        && agree_members(a.members.as_slice(), b.members.as_slice())
        && offsets == others
}

fn agree_named(a: &Named<'_>, b: &Named<'_>) -> bool
    ensures { result ≡ spec.agree_named a.now b.now }
{
    match (a, b) {
        (Named::Variable(x), Named::Variable(y)) => agree_variables(x.get(), y.get()),
        (Named::Interface(x), Named::Interface(y)) => agree_interfaces(x.get(), y.get()),
        (Named::Block(x, offsets), Named::Block(y, others)) => {
            agree_laid(x.get(), offsets.as_slice(), y.get(), others.as_slice())
        }
        _ => false,
    }
}

fn is_other(x: &Named<'_>, row: &[Named<'_>]) -> bool
    ensures { result ≡ spec.is_other x.now row.now }
{
    for k in 0..row.len() {
        if !agree_named(x, &row[k]) {
            return true;
        }
    }
    false
}

fn is_other_head(p: &Prototype, row: &[LentHead<'_>]) -> bool
    ensures { result ≡ spec.is_other_head p.now row.now }
{
    for k in 0..row.len() {
        if !agree_functions(p, row[k].get()) {
            return true;
        }
    }
    false
}

/// Whether one of these names is another one.
fn has_other(pushes: &[Text], name: &Text) -> bool
    ensures { result ≡ spec.has_other pushes.now name.now }
{
    for k in 0..pushes.len() {
        if name.as_str() != pushes[k].as_str() {
            return true;
        }
    }
    false
}

// ---- one declaration

/// Whether a declaration is another than one of its name.
fn other_named(rows: &NamedRows<'_>, name: &Text, x: &Named<'_>) -> bool
    ensures { result ≡ spec.is_other x.now (row_of rows.now.entries name.now) }
{
    match rows.get(name) {
        Some(row) => is_other(x, row.as_slice()),
        None => false,
    }
}

/// Whether something but functions has a name.
fn is_named(rows: &NamedRows<'_>, name: &Text) -> bool
    ensures { result ≡ spec.is_there (row_of rows.now.entries name.now) }
{
    match rows.get(name) {
        Some(row) => is_there(row.as_slice()),
        None => false,
    }
}

fn other_heads(heads: &HeadRows<'_>, key: &Key, p: &Prototype) -> bool
    ensures { result ≡ spec.is_other_head p.now (row_of heads.now.entries key.now) }
{
    match heads.get(key) {
        Some(row) => is_other_head(p, row.as_slice()),
        None => false,
    }
}

fn against_named(
    rows: &NamedRows<'_>,
    functions: &IndexSet<Text>,
    name: &Text,
    x: &Named<'_>,
) -> bool
    ensures { result ≡ spec.against_named rows.now.entries functions.now.keys name.now x.now }
{
    other_named(rows, name, x) || functions.contains(name)
}

fn against_variable(rows: &NamedRows<'_>, functions: &IndexSet<Text>, g: &GlobalVar) -> bool
    ensures { result ≡ spec.against_variable rows.now.entries functions.now.keys g.now }
{
    !g.constant
        && against_named(
            rows,
            functions,
            &g.name,
            &Named::Variable(LentVariable::new(g)),
        )
}

fn against_interface(rows: &NamedRows<'_>, functions: &IndexSet<Text>, i: &Interface) -> bool
    ensures { result ≡ spec.against_named rows.now.entries functions.now.keys i.now.name (variant.Interface i.now) }
{
    against_named(
        rows,
        functions,
        &i.name,
        &Named::Interface(LentInterface::new(i)),
    )
}

fn against_block(
    alloc: Global,
    structs: &Structs,
    rows: &NamedRows<'_>,
    functions: &IndexSet<Text>,
    pushes: &[Text],
    block: &Block,
) -> Result<bool, Memory>
    requires known { AreStructs structs.now }
    requires plain { ArePlain structs.now }
    requires typed { typed.IsBlock structs.now block.now }
    ensures { IfOk result (λ b. b ≡ spec.against_block structs.now rows.now.entries functions.now.keys pushes.now block.now) }
{
    let offsets = offsets_of(alloc, structs, block)?;
    let x = Named::Block(LentBlock::new(block), offsets);
    Ok(
        against_named(rows, functions, &block.name, &x)
            || (is_push(block.kind) && has_other(pushes, &block.name)),
    )
}

fn against_heads(
    alloc: Global,
    rows: &NamedRows<'_>,
    heads: &HeadRows<'_>,
    p: &Prototype,
) -> Result<bool, Memory>
    ensures { IfOk result (λ b. b ≡ spec.against_heads rows.now.entries heads.now.entries p.now) }
{
    let key = Key::of(alloc, p)?;
    Ok(other_heads(heads, &key, p) || is_named(rows, &p.name))
}

fn is_there(row: &[Named<'_>]) -> bool
    ensures { result ≡ spec.is_there row.now }
{
    match row {
        [] => false,
        [_, ..] => true,
    }
}

// ---- places

/// Puts a place behind others, if it is so.
fn add_place(so: bool, places: &mut Places, place: Place) -> Result<(), Memory>
    ensures { OnOk result (places.new ≡ spec.with_place so places.old place) }
{
    if so {
        places.push(place)?;
    }
    Ok(())
}

fn ask_variables(
    rows: &NamedRows<'_>,
    functions: &IndexSet<Text>,
    places: &mut Places,
    globals: &[GlobalVar],
) -> Result<(), Memory>
    ensures { OnOk result (places.new ≡ spec.variables_against rows.now.entries functions.now.keys places.old globals.now) }
{
    for k in 0..globals.len() {
        let g = &globals[k];
        add_place(against_variable(rows, functions, g), places, g.place)?;
    }
    Ok(())
}

fn ask_interfaces(
    rows: &NamedRows<'_>,
    functions: &IndexSet<Text>,
    places: &mut Places,
    interfaces: &[Interface],
) -> Result<(), Memory>
    ensures { OnOk result (places.new ≡ spec.interfaces_against rows.now.entries functions.now.keys places.old interfaces.now) }
{
    for k in 0..interfaces.len() {
        let i = &interfaces[k];
        add_place(against_interface(rows, functions, i), places, i.place)?;
    }
    Ok(())
}

fn ask_blocks(
    alloc: Global,
    structs: &Structs,
    rows: &NamedRows<'_>,
    functions: &IndexSet<Text>,
    pushes: &[Text],
    places: &mut Places,
    blocks: &[Block],
) -> Result<(), Memory>
    requires known { AreStructs structs.now }
    requires plain { ArePlain structs.now }
    requires typed { AllByRecursion (typed.IsBlock structs.now) blocks.now }
    ensures { OnOk result (places.new ≡ spec.blocks_against structs.now rows.now.entries functions.now.keys pushes.now places.old blocks.now) }
{
    for k in 0..blocks.len() {
        let block = &blocks[k];
        let so = against_block(alloc, structs, rows, functions, pushes, block)?;
        add_place(so, places, block.place)?;
    }
    Ok(())
}

fn ask_heads(
    alloc: Global,
    rows: &NamedRows<'_>,
    heads: &HeadRows<'_>,
    places: &mut Places,
    prototypes: &[Prototype],
) -> Result<(), Memory>
    ensures { OnOk result (places.new ≡ spec.heads_against rows.now.entries heads.now.entries places.old prototypes.now) }
{
    for k in 0..prototypes.len() {
        let p = &prototypes[k];
        let so = against_heads(alloc, rows, heads, p)?;
        add_place(so, places, p.place)?;
    }
    Ok(())
}

/// Puts the places of a unit's declarations that are against those in the tables behind others.
pub(crate) fn ask_unit(
    alloc: Global,
    structs: &Structs,
    rows: &NamedRows<'_>,
    heads: &HeadRows<'_>,
    functions: &IndexSet<Text>,
    pushes: &[Text],
    places: &mut Places,
    side: &Side,
) -> Result<(), Memory>
    requires known { AreStructs structs.now }
    requires plain { ArePlain structs.now }
    requires typed { AllByRecursion (typed.IsBlock structs.now) side.now.unit.blocks }
    ensures { OnOk result (places.new ≡ spec.unit_against structs.now rows.now.entries heads.now.entries functions.now.keys pushes.now places.old side.now) }
{
    let of = &side.unit;
    ask_variables(rows, functions, places, of.globals.as_slice())?;
    ask_interfaces(rows, functions, places, of.interfaces.as_slice())?;
    ask_blocks(
        alloc,
        structs,
        rows,
        functions,
        pushes,
        places,
        of.blocks.as_slice(),
    )?;
    ask_heads(alloc, rows, heads, places, of.prototypes.as_slice())?;
    Ok(())
}

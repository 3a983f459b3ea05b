//! Declarations of a unit that are put into tables.

ghost use Rattle.std.specs.Prelude.{◌≡◌, bytes_eq, OnOk};
ghost use Rattle.std.specs.List.{AllByRecursion};
ghost use Rattle.indexmap.specs.IndexSet.{insert_key};
ghost use Rattle.gsl_types.specs.Known.{AreStructs};
ghost use Rattle.gsl_layout.specs.Extents.{ArePlain};
ghost use Rattle.gsl_tree.specs.WellTyped as typed;
ghost use Rattle.gsl_link_names.specs.Against as spec;
ghost use Rattle.gsl_link_names.specs.Rows as rows_spec;
ghost use Rattle.gsl_link_names.specs.declared.lent.Named.TheVariants as named;

use crate::laying::offsets_of;
use crate::lent::{LentBlock, LentInterface, LentVariable, Named};
use crate::rows::{HeadRows, NamedRows, put_head, put_named};
use gsl_base::{List, Memory, Text};
use gsl_link_numbers::put_name;
use gsl_link_whole::Side;
use gsl_tree::{Block, BlockKind, GlobalVar, Interface, Prototype};
use gsl_types::Structs;
use indexmap::IndexSet;
use std::alloc::Global;

pub(crate) fn is_push(kind: BlockKind) -> bool
    ensures { result ≡ typed.is_push kind }
{
    match kind {
        BlockKind::Push => true,
        BlockKind::Uniform | BlockKind::Buffer => false,
    }
}

fn add_variable<'a>(alloc: Global, rows: &mut NamedRows<'a>, g: &'a GlobalVar) -> Result<(), Memory>
    ensures { OnOk result (rows.new.entries ≡ spec.with_variable rows.old.entries g.now) }
{
    if !g.constant {
        put_named(alloc, rows, &g.name, Named::Variable(LentVariable::new(g)))?;
    }
    Ok(())
}

fn add_variables<'a>(
    alloc: Global,
    rows: &mut NamedRows<'a>,
    globals: &'a [GlobalVar],
) -> Result<(), Memory>
    ensures { OnOk result (rows.new.entries ≡ spec.with_variables rows.old.entries globals.now) }
{
    for k in 0..globals.len() {
        add_variable(alloc, rows, &globals[k])?;
    }
    Ok(())
}

fn add_interface<'a>(
    alloc: Global,
    rows: &mut NamedRows<'a>,
    i: &'a Interface,
) -> Result<(), Memory>
    ensures { OnOk result (rows.new.entries ≡ rows_spec.with_one rows.old.entries i.now.name (named.Interface i.now)) }
{
    put_named(
        alloc,
        rows,
        &i.name,
        Named::Interface(LentInterface::new(i)),
    )
}

fn add_interfaces<'a>(
    alloc: Global,
    rows: &mut NamedRows<'a>,
    interfaces: &'a [Interface],
) -> Result<(), Memory>
    ensures { OnOk result (rows.new.entries ≡ spec.with_interfaces rows.old.entries interfaces.now) }
{
    for k in 0..interfaces.len() {
        add_interface(alloc, rows, &interfaces[k])?;
    }
    Ok(())
}

fn add_block<'a>(
    alloc: Global,
    structs: &Structs,
    rows: &mut NamedRows<'a>,
    block: &'a Block,
) -> Result<(), Memory>
    requires known { AreStructs structs.now }
    requires plain { ArePlain structs.now }
    requires typed { typed.IsBlock structs.now block.now }
    ensures { OnOk result (rows.new.entries ≡ rows_spec.with_one rows.old.entries block.now.name (spec.laid structs.now block.now)) }
{
    let offsets = offsets_of(alloc, structs, block)?;
    put_named(
        alloc,
        rows,
        &block.name,
        Named::Block(LentBlock::new(block), offsets),
    )
}

fn add_push(alloc: Global, pushes: &mut List<Text>, block: &Block) -> Result<(), Memory>
    ensures { OnOk result (pushes.new ≡ spec.with_push pushes.old block.now) }
{
    if is_push(block.kind) {
        pushes.push(Text::from_str(alloc, block.name.as_str())?)?;
    }
    Ok(())
}

fn add_pushes(alloc: Global, pushes: &mut List<Text>, blocks: &[Block]) -> Result<(), Memory>
    ensures { OnOk result (pushes.new ≡ spec.with_pushes pushes.old blocks.now) }
{
    for k in 0..blocks.len() {
        add_push(alloc, pushes, &blocks[k])?;
    }
    Ok(())
}

fn add_blocks<'a>(
    alloc: Global,
    structs: &Structs,
    rows: &mut NamedRows<'a>,
    blocks: &'a [Block],
) -> Result<(), Memory>
    requires known { AreStructs structs.now }
    requires plain { ArePlain structs.now }
    requires typed { AllByRecursion (typed.IsBlock structs.now) blocks.now }
    ensures { OnOk result (rows.new.entries ≡ spec.with_blocks structs.now rows.old.entries blocks.now) }
{
    for k in 0..blocks.len() {
        add_block(alloc, structs, rows, &blocks[k])?;
    }
    Ok(())
}

fn add_heads<'a>(
    alloc: Global,
    rows: &mut HeadRows<'a>,
    heads: &'a [Prototype],
) -> Result<(), Memory>
    ensures { OnOk result (rows.new.entries ≡ spec.with_heads rows.old.entries heads.now) }
{
    for k in 0..heads.len() {
        put_head(alloc, rows, &heads[k])?;
    }
    Ok(())
}

fn add_function(alloc: Global, names: &mut IndexSet<Text>, p: &Prototype) -> Result<(), Memory>
    ensures { OnOk result (names.new.keys ≡ insert_key bytes_eq names.old.keys p.now.name) }
{
    let name = Text::from_str(alloc, p.name.as_str())?;
    put_name(names, name)?;
    Ok(())
}

fn add_functions(
    alloc: Global,
    names: &mut IndexSet<Text>,
    heads: &[Prototype],
) -> Result<(), Memory>
    ensures { OnOk result (names.new.keys ≡ spec.with_functions names.old.keys heads.now) }
{
    for k in 0..heads.len() {
        add_function(alloc, names, &heads[k])?;
    }
    Ok(())
}

/// Puts the declarations of a unit into the tables.
pub(crate) fn add_unit<'a>(
    alloc: Global,
    structs: &Structs,
    rows: &mut NamedRows<'a>,
    heads: &mut HeadRows<'a>,
    functions: &mut IndexSet<Text>,
    pushes: &mut List<Text>,
    side: &'a Side,
) -> Result<(), Memory>
    requires known { AreStructs structs.now }
    requires plain { ArePlain structs.now }
    requires typed { AllByRecursion (typed.IsBlock structs.now) side.now.unit.blocks }
    ensures rows { OnOk result (rows.new.entries ≡ spec.with_unit structs.now rows.old.entries side.now) }
    ensures heads { OnOk result (heads.new.entries ≡ spec.with_heads heads.old.entries side.now.unit.prototypes) }
    ensures functions { OnOk result (functions.new.keys ≡ spec.with_functions functions.old.keys side.now.unit.prototypes) }
    ensures pushes { OnOk result (pushes.new ≡ spec.with_pushes pushes.old side.now.unit.blocks) }
{
    add_variables(alloc, rows, side.unit.globals.as_slice())?;
    add_interfaces(alloc, rows, side.unit.interfaces.as_slice())?;
    add_blocks(alloc, structs, rows, side.unit.blocks.as_slice())?;
    add_pushes(alloc, pushes, side.unit.blocks.as_slice())?;
    add_heads(alloc, heads, side.unit.prototypes.as_slice())?;
    add_functions(alloc, functions, side.unit.prototypes.as_slice())?;
    Ok(())
}

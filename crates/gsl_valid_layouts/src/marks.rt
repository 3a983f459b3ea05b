//! Which types the variables of blocks reach.

ghost use Rattle.std.specs.Prelude.{◌≡◌, ◌+◌, ◌^◌, ◌<◌, None, false, length, drop, slice_index_or, IfOk};
ghost use Rattle.gsl_ids.specs.Table.{is_defined_in as is_before};
ghost use Rattle.gsl_kinds.specs.Seen as seen;
ghost use Rattle.gsl_valid.specs.IdsDefinedOnce.{ids_defined_once};
ghost use Rattle.gsl_valid.specs.Kinds as kinds;
ghost use Rattle.gsl_valid.specs.LayoutRules as spec;
ghost use Rattle.gsl_valid.specs.Types as types;
ghost use Rattle.gsl_valid_layouts.specs.Marks as marks;
ghost use Rattle.gsl_valid_layouts.specs.Stands.{Stands};

use crate::seeds::{bare_pointee, block_pointee};
use gsl_base::Memory;
use gsl_decorations::Decorations;
use gsl_ids::{Definitions, defined_by};
use gsl_kinds::{Kind, Shape, kind_at, shape_in};
use gsl_words::Module;
use std::alloc::Global;
use std::marker::Model;

/// The types of a module that variables of blocks reach, beside its decorations. Contracts see the module.
#[derive(Drop)]
pub(crate) struct Reached<'a> {
    decorations: &'a Decorations<'a>,
    pointees: Vec<bool>,
    bare: Vec<bool>,
    parts: Vec<bool>,
}

impl<'a> Model for Reached<'a> {
    ghost use Rattle.gsl_words.specs.declared.module.Module.{Module as OneModule};
    ghost use Rattle.gsl_valid_layouts.specs.Marks.{Tells};

    ghost Value = { OneModule };

    ghost view = { λ reached. reached.decorations.now };

    ghost invariant = { λ reached. Tells reached.decorations.now reached.pointees.items reached.bare.items reached.parts.items };
}

impl<'a> Reached<'a> {
    /// The types of a module that defines each id once. They take three bytes for each id below its bound.
    pub(crate) fn new(
        alloc: Global,
        decorations: &'a Decorations<'a>,
    ) -> Result<Reached<'a>, Memory>
        requires few { length decorations.now.instrs < 2 ^ 32 }
        requires once { ids_defined_once decorations.now ≡ None }
        ensures { IfOk result (λ reached. reached ≡ decorations.now) }
    {
        let pointees = pointees(alloc, decorations.definitions())?;
        let bare = bare(alloc, decorations)?;
        let parts = parts(alloc, decorations.definitions(), &pointees)?;
        Ok(Reached {
            decorations,
            pointees,
            bare,
            parts,
        })
    }

    /// The decorations of the module.
    pub(crate) fn decorations(&self) -> &'a Decorations<'a>
        ensures { result.now ≡ self.now }
    {
        self.decorations
    }

    /// Whether a variable of a block reaches a type.
    pub(crate) fn is_in_block(&self, id: u32) -> bool
        ensures { result ≡ spec.is_in_block self.now id }
    {
        is_marked(&self.pointees, id) || is_marked(&self.parts, id)
    }

    /// Whether a struct may have an array without length as its last member.
    pub(crate) fn may_grow(&self, id: u32) -> bool
        ensures { result ≡ spec.may_grow self.now id }
    {
        !(is_marked(&self.bare, id) || is_marked(&self.parts, id))
    }
}

/// Whether an id is marked.
fn is_marked(rows: &[bool], id: u32) -> bool
    ensures { result ≡ slice_index_or rows.now id false }
{
    match rows.get(id as usize) {
        Some(marked) => *marked,
        None => false,
    }
}

/// Marks an id, if there is one and it has a row.
fn mark(rows: &mut Vec<bool>, id: Option<u32>)
    ensures { rows.new.items ≡ marks.marked rows.old.items id }
{
    if let Some(id) = id {
        if (id as usize) < rows.len() {
            rows[id as usize] = true;
        }
    }
}

/// Which types variables of blocks point to.
fn pointees(alloc: Global, definitions: &Definitions<'_>) -> Result<Vec<bool>, Memory>
    requires few { length definitions.now.instrs < 2 ^ 32 }
    ensures { IfOk result (λ rows. rows.items ≡ marks.pointees definitions.now) }
{
    let of = definitions.module();
    let mut rows = vec![in alloc; false; of.bound as usize]?;
    let mut at = 0;
    while (at as usize) < of.instrs.len() {
        let kind = kind_of(of, at);
        if begins(kind) {
            return Ok(rows);
        }
        mark(&mut rows, block_pointee(definitions, kind));
        at += 1;
    }
    Ok(rows)
}

/// Which types variables of blocks point to that are not storage blocks.
fn bare(alloc: Global, decorations: &Decorations<'_>) -> Result<Vec<bool>, Memory>
    requires few { length decorations.now.instrs < 2 ^ 32 }
    ensures { IfOk result (λ rows. rows.items ≡ marks.bare decorations.now) }
{
    let of = decorations.definitions().module();
    let mut rows = vec![in alloc; false; of.bound as usize]?;
    let mut at = 0;
    while (at as usize) < of.instrs.len() {
        let kind = kind_of(of, at);
        if begins(kind) {
            return Ok(rows);
        }
        mark(&mut rows, bare_pointee(decorations, kind));
        at += 1;
    }
    Ok(rows)
}

/// The kind of the instruction of a number.
fn kind_of(of: &Module, at: u32) -> Kind<'_>
    requires { at < length of.now.instrs }
    ensures { Stands of.now.instrs at (seen.kind_seen result) }
{
    kind_at(of.instrs.op(at), of.instrs.args(at))
}

/// Whether an instruction begins a function.
fn begins(kind: Kind<'_>) -> bool
    ensures { result ≡ types.begins (seen.kind_seen kind.entry) }
{
    matches!(kind, Kind::Begins { .. })
}

/// Which types are parts of types that variables of blocks reach.
fn parts(
    alloc: Global,
    definitions: &Definitions<'_>,
    pointees: &[bool],
) -> Result<Vec<bool>, Memory>
    requires few { length definitions.now.instrs < 2 ^ 32 }
    ensures { IfOk result (λ rows. rows.items ≡ marks.parts_marked definitions.now pointees.now 0 definitions.now.instrs) }
{
    let of = definitions.module();
    let mut rows = vec![in alloc; false; of.bound as usize]?;
    let mut at = of.instrs.len() as u32;
    while at > 0 {
        at -= 1;
        mark_below(&mut rows, definitions, pointees, at);
    }
    Ok(rows)
}

/// Marks the parts of what an instruction defines, if it is reached, where those behind it are marked.
fn mark_below(rows: &mut Vec<bool>, definitions: &Definitions<'_>, pointees: &[bool], at: u32)
    requires within { at < length definitions.now.instrs }
    requires behind { rows.old.items ≡ marks.parts_marked definitions.now pointees.now (at + 1) (drop (at + 1) definitions.now.instrs) }
    ensures { rows.new.items ≡ marks.parts_marked definitions.now pointees.now at (drop at definitions.now.instrs) }
{
    let instrs = &definitions.module().instrs;
    let op = instrs.op(at);
    let args = instrs.args(at);
    if is_reached(pointees, rows, defined_by(op, args)) {
        mark_parts(rows, definitions, at, shape_in(kind_at(op, args)));
    }
}

/// Whether an id, if there is one, is marked in one of two tables.
fn is_reached(pointees: &[bool], parts: &[bool], id: Option<u32>) -> bool
    ensures { result ≡ marks.is_reached pointees.now parts.now id }
{
    match id {
        Some(id) => is_marked(pointees, id) || is_marked(parts, id),
        None => false,
    }
}

/// Marks the parts of a type that are defined among so many instructions at the front of the module.
fn mark_parts(rows: &mut Vec<bool>, definitions: &Definitions<'_>, count: u32, shape: Shape<'_>)
    ensures { rows.new.items ≡ marks.marked_all definitions.now count rows.old.items (types.parts_in (seen.shape_seen shape.entry)) }
{
    match shape {
        Shape::Array { element, .. } => mark_defined(rows, definitions, count, element),
        Shape::RuntimeArray { element } => mark_defined(rows, definitions, count, element),
        Shape::Struct { members, .. } => mark_all(rows, definitions, count, members),
        _ => {}
    }
}

/// Marks those of some types.
fn mark_all(rows: &mut Vec<bool>, definitions: &Definitions<'_>, count: u32, ids: &[u32])
    ensures { rows.new.items ≡ marks.marked_all definitions.now count rows.old.items ids.now }
{
    for id in ids {
        mark_defined(rows, definitions, count, *id);
    }
}

/// Marks a type, if it is defined among so many instructions.
fn mark_defined(rows: &mut Vec<bool>, definitions: &Definitions<'_>, count: u32, id: u32)
    ensures { rows.new.items ≡ marks.marked_if (is_before definitions.now count id) rows.old.items id }
{
    if definitions.is_defined_in(count, id) {
        mark(rows, Some(id));
    }
}

//! The types that have an array without length in them.

ghost use Rattle.std.specs.Prelude.{◌≡◌, ◌+◌, ◌^◌, ◌<◌, ◌||◌, None, false, length, slice_index_or, vec_len, IfOk};
ghost use Rattle.std.specs.List.{list_any};
ghost use Rattle.gsl_kinds.specs.Runtimes as table;
ghost use Rattle.gsl_kinds.specs.Seen as seen;
ghost use Rattle.gsl_valid.specs.Search.{whole};
ghost use Rattle.gsl_valid.specs.IdsDefinedOnce.{ids_defined_once};
ghost use Rattle.gsl_valid.specs.ConstantRules as spec;
ghost use Rattle.gsl_valid.specs.Types as types;

use crate::kind::Shape;
use crate::reading::kind_at;
use crate::types::{is_runtime, is_value_type, shape_in};
use gsl_base::Memory;
use gsl_ids::{Definitions, defined_by};
use std::alloc::Global;
use std::marker::Model;

/// The types of a module that have an array without length in them, beside its definitions. Contracts see the module.
#[derive(Drop)]
pub struct Runtimes<'a> {
    definitions: &'a Definitions<'a>,
    rows: Vec<bool>,
}

impl<'a> Model for Runtimes<'a> {
    ghost use Rattle.gsl_words.specs.declared.module.Module.{Module as OneModule};
    ghost use Rattle.gsl_valid.specs.Search.{whole};
    ghost use Rattle.gsl_kinds.specs.Runtimes.{Tells};

    ghost Value = { OneModule };

    ghost view = { λ runtimes. runtimes.definitions.now };

    ghost invariant = { λ runtimes. Tells runtimes.rows.items runtimes.definitions.now (whole runtimes.definitions.now) };
}

impl<'a> Runtimes<'a> {
    /// The types of a module that defines each id once. They take a byte for each id below its bound.
    pub fn new(alloc: Global, definitions: &'a Definitions<'a>) -> Result<Runtimes<'a>, Memory>
        requires few { length definitions.now.instrs < 2 ^ 32 }
        requires once { ids_defined_once definitions.now ≡ None }
        ensures { IfOk result (λ runtimes. runtimes ≡ definitions.now) }
    {
        let rows = rows_of(alloc, definitions)?;
        Ok(Runtimes { definitions, rows })
    }

    /// The definitions of the module.
    pub fn definitions(&self) -> &'a Definitions<'a>
        ensures { result.now ≡ self.now }
    {
        self.definitions
    }

    /// Whether an array without length is in a type.
    pub fn has_runtime(&self, type_: u32) -> bool
        ensures { result ≡ spec.has_runtime self.now type_ }
    {
        row(&self.rows, type_)
    }

    /// Whether a value of a type can be held where no array without length may be.
    pub fn is_whole(&self, type_: u32) -> bool
        ensures { result ≡ spec.is_whole self.now type_ }
    {
        is_value_type(self.definitions, type_) && !self.has_runtime(type_)
    }
}

/// What a row says.
fn row(rows: &Vec<bool>, id: u32) -> bool
    ensures { result ≡ slice_index_or rows.now.items id false }
{
    match rows.get(id as usize) {
        Some(has) => *has,
        None => false,
    }
}

/// Which types have an array without length in them.
fn rows_of(alloc: Global, definitions: &Definitions<'_>) -> Result<Vec<bool>, Memory>
    requires few { length definitions.now.instrs < 2 ^ 32 }
    requires once { ids_defined_once definitions.now ≡ None }
    ensures { IfOk result (λ rows. table.Tells rows.items definitions.now (whole definitions.now)) }
{
    let of = definitions.module();
    let mut rows = vec![in alloc; false; of.bound as usize]?;
    let mut at = 0;
    while (at as usize) < of.instrs.len() {
        note(&mut rows, definitions, at);
        at += 1;
    }
    Ok(rows)
}

/// Notes of what an instruction defines whether it has an array without length in it, where those before it are noted.
fn note(rows: &mut Vec<bool>, definitions: &Definitions<'_>, at: u32)
    requires once { ids_defined_once definitions.now ≡ None }
    requires within { at < length definitions.now.instrs }
    requires room { vec_len rows.old ≡ definitions.now.bound }
    requires before { table.Tells rows.old.items definitions.now (table.front definitions.now at) }
    ensures room { vec_len rows.new ≡ definitions.now.bound }
    ensures noted { table.Tells rows.new.items definitions.now (table.front definitions.now (at + 1)) }
{
    let instrs = &definitions.module().instrs;
    let op = instrs.op(at);
    let args = instrs.args(at);
    if let Some(id) = defined_by(op, args) {
        let held = is_held(rows, definitions, id, shape_in(kind_at(op, args)));
        rows[id as usize] = held;
    }
}

/// Whether a type of an id is an array without length or has one in it.
fn is_held(rows: &Vec<bool>, definitions: &Definitions<'_>, id: u32, shape: Shape<'_>) -> bool
    ensures { result ≡ (types.is_runtime definitions.now id || list_any (λ id. slice_index_or rows.now.items id false) (types.parts_in (seen.shape_seen shape.entry))) }
{
    is_runtime(definitions, id) || any_part(rows, shape)
}

/// Whether a part of a type has an array without length in it.
fn any_part(rows: &Vec<bool>, shape: Shape<'_>) -> bool
    ensures { result ≡ list_any (λ id. slice_index_or rows.now.items id false) (types.parts_in (seen.shape_seen shape.entry)) }
{
    match shape {
        Shape::Array { element, .. } => row(rows, element),
        Shape::RuntimeArray { element } => row(rows, element),
        Shape::Struct { members, .. } => any_member(rows, members),
        _ => false,
    }
}

/// Whether a member has an array without length in it.
fn any_member(rows: &Vec<bool>, members: &[u32]) -> bool
    ensures { result ≡ list_any (λ id. slice_index_or rows.now.items id false) members.now }
{
    members.iter().any(|id| row(rows, *id))
}

//! The table of how many words the values of types have.

ghost use Rattle.std.specs.Prelude.{◌≡◌, ◌+◌, ◌^◌, ◌<◌, None, length, slice_index, take, vec_len, IfOk};
ghost use Rattle.std.specs.List.{sum_by};
ghost use Rattle.gsl_kinds.specs.Runtimes.{front};
ghost use Rattle.gsl_kinds.specs.Seen as seen;
ghost use Rattle.gsl_leaves.specs.Leaves as spec;
ghost use Rattle.gsl_leaves.specs.Table as table;
ghost use Rattle.gsl_valid.specs.IdsDefinedOnce.{ids_defined_once};
ghost use Rattle.gsl_valid.specs.Kinds as kinds;
ghost use Rattle.gsl_valid.specs.Search.{whole};
ghost use Rattle.gsl_valid.specs.Types.{defined_as};

use crate::telling::{plus, times};
use gsl_base::Memory;
use gsl_enact_values::length_by;
use gsl_ids::{Definitions, defined_by};
use gsl_kinds::{Shape, kind_at, shape_in, shape_of};
use std::alloc::Global;
use std::marker::Model;

/// How many words the values of a module's types have, beside its definitions. Contracts see the module.
#[derive(Drop)]
pub struct Leaves<'a> {
    definitions: &'a Definitions<'a>,
    rows: Vec<u64>,
}

impl<'a> Model for Leaves<'a> {
    ghost use Rattle.gsl_words.specs.declared.module.Module.{Module as OneModule};
    ghost use Rattle.gsl_valid.specs.Search.{whole};
    ghost use Rattle.gsl_leaves.specs.Table.{Tells};

    ghost Value = { OneModule };

    ghost view = { λ leaves. leaves.definitions.now };

    ghost invariant = { λ leaves. Tells leaves.rows.items leaves.definitions.now (whole leaves.definitions.now) };
}

impl<'a> Leaves<'a> {
    /// The types of a module that defines each id once. They take eight bytes for each id below its bound.
    pub fn new(alloc: Global, definitions: &'a Definitions<'a>) -> Result<Leaves<'a>, Memory>
        requires few { length definitions.now.instrs < 2 ^ 32 }
        requires once { ids_defined_once definitions.now ≡ None }
        ensures { IfOk result (λ leaves. leaves ≡ definitions.now) }
    {
        let rows = rows_of(alloc, definitions)?;
        Ok(Leaves { definitions, rows })
    }

    /// The definitions of the module.
    pub fn definitions(&self) -> &'a Definitions<'a>
        ensures { result.now ≡ self.now }
    {
        self.definitions
    }

    /// How many words a value of a type has; a count beyond 2^61 - 1 is told as that.
    pub fn leaves(&self, type_: u32) -> u64
        ensures { result ≡ table.told (spec.leaves self.now type_) }
    {
        row(&self.rows, type_)
    }

    /// How many parts a type has.
    pub fn parts(&self, type_: u32) -> u64
        ensures { result ≡ spec.parts_as self.now (kinds.shape_of (defined_as self.now type_)) }
    {
        parts_as(self.definitions, shape_of(self.definitions, type_))
    }

    /// How many words of a value of a type stand in front of the part of a number, told like `leaves`. For a struct it takes a step for each
    /// member in front.
    pub fn ahead(&self, type_: u32, number: u32) -> u64
        ensures { result ≡ table.told (spec.ahead self.now type_ number) }
    {
        ahead_as(&self.rows, number, shape_of(self.definitions, type_))
    }
}

/// What a row says.
fn row(rows: &Vec<u64>, id: u32) -> u64
    ensures { result ≡ slice_index rows.now.items id }
{
    match rows.get(id as usize) {
        Some(count) => *count,
        None => 0,
    }
}

/// How many parts a type has.
fn parts_as(definitions: &Definitions<'_>, shape: Shape<'_>) -> u64
    ensures { result ≡ spec.parts_as definitions.now (seen.shape_seen shape.entry) }
{
    match shape {
        Shape::Vector { count, .. } => u64::from(count),
        Shape::Array { length, .. } => u64::from(length_by(definitions, length)),
        Shape::Struct { members, .. } => members.len() as u64,
        _ => 0,
    }
}

/// The words of values of so many types, as rows tell them.
#[tactic(auto, unfolding(crate::specs::Table::told))]
fn sum_of(rows: &Vec<u64>, types: &[u32], count: usize) -> u64
    ensures { result ≡ table.told (sum_by (λ id. slice_index rows.now.items id) (take count types.now)) }
{
    let mut all = 0;
    for k in 0..count.min(types.len()) {
        all = plus(all, row(rows, types[k]));
    }
    all
}

/// The words in front of the part of a number, as rows tell them.
#[tactic(auto, unfolding(crate::specs::Table::told))]
fn ahead_as(rows: &Vec<u64>, number: u32, shape: Shape<'_>) -> u64
    ensures { result ≡ table.told (spec.ahead_as (λ id. slice_index rows.now.items id) number (seen.shape_seen shape.entry)) }
{
    match shape {
        Shape::Vector { component, .. } => times(number, row(rows, component)),
        Shape::Array { element, .. } => times(number, row(rows, element)),
        Shape::Struct { members, .. } => sum_of(rows, members, number as usize),
        _ => 0,
    }
}

/// The words of a value of a shape, as rows tell those of its parts.
#[tactic(auto, unfolding(crate::specs::Table::told))]
fn leaves_as(rows: &Vec<u64>, definitions: &Definitions<'_>, shape: Shape<'_>) -> u64
    ensures { result ≡ table.told (spec.leaves_as definitions.now (λ id. slice_index rows.now.items id) (seen.shape_seen shape.entry)) }
{
    match shape {
        Shape::Bool | Shape::Int { .. } => 1,
        Shape::Vector { component, count } => times(count, row(rows, component)),
        Shape::Array { element, length } => {
            times(length_by(definitions, length), row(rows, element))
        }
        Shape::Struct { members, .. } => sum_of(rows, members, members.len()),
        _ => 0,
    }
}

/// How many words the values of each type have.
fn rows_of(alloc: Global, definitions: &Definitions<'_>) -> Result<Vec<u64>, Memory>
    requires few { length definitions.now.instrs < 2 ^ 32 }
    requires once { ids_defined_once definitions.now ≡ None }
    ensures { IfOk result (λ rows. table.Tells rows.items definitions.now (whole definitions.now)) }
{
    let of = definitions.module();
    let mut rows = vec![in alloc; 0; of.bound as usize]?;
    let mut at = 0;
    while (at as usize) < of.instrs.len() {
        note(&mut rows, definitions, at);
        at += 1;
    }
    Ok(rows)
}

/// Notes how many words a value has of the type that an instruction defines, where those before it are noted.
fn note(rows: &mut Vec<u64>, definitions: &Definitions<'_>, at: u32)
    requires once { ids_defined_once definitions.now ≡ None }
    requires within { at < length definitions.now.instrs }
    requires room { vec_len rows.old ≡ definitions.now.bound }
    requires before { table.Tells rows.old.items definitions.now (front definitions.now at) }
    ensures room { vec_len rows.new ≡ definitions.now.bound }
    ensures noted { table.Tells rows.new.items definitions.now (front definitions.now (at + 1)) }
{
    let instrs = &definitions.module().instrs;
    let op = instrs.op(at);
    let args = instrs.args(at);
    if let Some(id) = defined_by(op, args) {
        let count = leaves_as(rows, definitions, shape_in(kind_at(op, args)));
        rows[id as usize] = count;
    }
}

//! Where ids and variables stand, and how large the frames of functions are.

ghost use Rattle.std.specs.Prelude.{◌≡◌, ◌+◌, ◌^◌, ◌<◌, None, length, slice_index, vec_len, IfOk};
ghost use Rattle.gsl_frames.specs.Frames as spec;
ghost use Rattle.gsl_kinds.specs.Runtimes.{front};
ghost use Rattle.gsl_leaves.specs.Table.{told};
ghost use Rattle.gsl_positions.specs.Positions.{left};
ghost use Rattle.gsl_valid.specs.IdsDefinedOnce.{ids_defined_once};
ghost use Rattle.gsl_valid.specs.Search.{whole};

use crate::taken::{Taken, behind, in_front, nothing_taken};
use gsl_base::Memory;
use gsl_ids::defined_by;
use gsl_instr::op;
use gsl_kinds::kind_at;
use gsl_leaves::Leaves;
use std::alloc::Global;
use std::marker::Model;

/// Where ids and variables stand in the frames of a module's functions, beside the words that the values of its types have. Contracts see
/// the module.
#[derive(Drop)]
pub struct Frames<'a> {
    leaves: &'a Leaves<'a>,
    rows: Vec<u64>,
}

impl<'a> Model for Frames<'a> {
    ghost use Rattle.gsl_words.specs.declared.module.Module.{Module as OneModule};
    ghost use Rattle.gsl_valid.specs.Search.{whole};
    ghost use Rattle.gsl_frames.specs.Frames.{Tells};

    ghost Value = { OneModule };

    ghost view = { λ frames. frames.leaves.now };

    ghost invariant = { λ frames. Tells frames.rows.items frames.leaves.now (whole frames.leaves.now) };
}

impl<'a> Frames<'a> {
    /// The frames of a module that defines each id once. They take eight bytes for each id below its bound.
    pub fn new(alloc: Global, leaves: &'a Leaves<'a>) -> Result<Frames<'a>, Memory>
        requires few { length leaves.now.instrs < 2 ^ 32 }
        requires once { ids_defined_once leaves.now ≡ None }
        ensures { IfOk result (λ frames. frames ≡ leaves.now) }
    {
        let rows = rows_of(alloc, leaves)?;
        Ok(Frames { leaves, rows })
    }

    /// The words that the values of the module's types have.
    pub fn leaves(&self) -> &'a Leaves<'a>
        ensures { result.now ≡ self.now }
    {
        self.leaves
    }

    /// Where stands what an id is given, told like the words of types.
    pub fn place(&self, id: u32) -> u64
        ensures { result ≡ told (spec.place self.now id) }
    {
        row(&self.rows, id)
    }

    /// What a function takes whose body begins at the instruction of a number.
    pub fn frame(&self, body: u32) -> Taken
        requires few { length self.now.instrs < 2 ^ 32 }
        ensures { result ≡ spec.told_taken (spec.frame self.now (left self.now body)) }
    {
        let count = self.leaves.definitions().module().instrs.len() as u32;
        frame_from(self.leaves, count, body)
    }
}

/// What a row says.
fn row(rows: &Vec<u64>, id: u32) -> u64
    ensures { result ≡ slice_index rows.now.items id }
{
    match rows.get(id as usize) {
        Some(place) => *place,
        None => 0,
    }
}

/// What a function takes whose body begins at the instruction of a number.
fn frame_from(leaves: &Leaves<'_>, count: u32, body: u32) -> Taken
    requires count { count ≡ length leaves.now.instrs }
    ensures { result ≡ spec.told_taken (spec.frame leaves.now (left leaves.now body)) }
{
    let mut taken = nothing_taken();
    let mut at = body;
    while at < count {
        let (next, to) = step(leaves, count, at, taken);
        taken = next;
        at = to;
    }
    taken
}

/// What is taken behind an instruction of a function, and where it goes on.
fn step(leaves: &Leaves<'_>, count: u32, at: u32, taken: Taken) -> (Taken, u32)
    requires count { count ≡ length leaves.now.instrs }
    requires within { at < count }
    ensures same { spec.taken_told leaves.now (left leaves.now at) taken ≡ spec.taken_told leaves.now (left leaves.now result.1) result.0 }
    ensures goes { at < result.1 }
{
    let instrs = &leaves.definitions().module().instrs;
    let op = instrs.op(at);
    let args = instrs.args(at);
    let next = behind(leaves, kind_at(op, args), taken);
    let to = next_at(count, at, op);
    (next, to)
}

/// Where a function goes on behind an instruction of an opcode.
fn next_at(count: u32, at: u32, op: u16) -> u32
    requires within { at < count }
    ensures { result ≡ spec.next_at count at op }
{
    if op == op::FUNCTION_END {
        count
    } else {
        at + 1
    }
}

/// Where stands what each id is given.
fn rows_of(alloc: Global, leaves: &Leaves<'_>) -> Result<Vec<u64>, Memory>
    requires few { length leaves.now.instrs < 2 ^ 32 }
    requires once { ids_defined_once leaves.now ≡ None }
    ensures { IfOk result (λ rows. spec.Tells rows.items leaves.now (whole leaves.now)) }
{
    let of = leaves.definitions().module();
    let mut rows = vec![in alloc; 0; of.bound as usize]?;
    let mut taken = nothing_taken();
    let mut at = 0;
    while (at as usize) < of.instrs.len() {
        note(&mut rows, leaves, at, taken);
        taken = next_taken(leaves, at, taken);
        at += 1;
    }
    Ok(rows)
}

/// Notes where stands what an instruction gives, where that of those before it is noted.
fn note(rows: &mut Vec<u64>, leaves: &Leaves<'_>, at: u32, taken: Taken)
    requires once { ids_defined_once leaves.now ≡ None }
    requires within { at < length leaves.now.instrs }
    requires room { vec_len rows.old ≡ leaves.now.bound }
    requires before { spec.Tells rows.old.items leaves.now (front leaves.now at) }
    requires taken { taken ≡ spec.told_taken (spec.taken_in leaves.now (front leaves.now at)) }
    ensures room { vec_len rows.new ≡ leaves.now.bound }
    ensures noted { spec.Tells rows.new.items leaves.now (front leaves.now (at + 1)) }
{
    let instrs = &leaves.definitions().module().instrs;
    let op = instrs.op(at);
    let args = instrs.args(at);
    if let Some(id) = defined_by(op, args) {
        let place = in_front(kind_at(op, args), taken);
        rows[id as usize] = place;
    }
}

/// What is taken behind an instruction.
fn next_taken(leaves: &Leaves<'_>, at: u32, taken: Taken) -> Taken
    requires within { at < length leaves.now.instrs }
    requires taken { taken ≡ spec.told_taken (spec.taken_in leaves.now (front leaves.now at)) }
    ensures { result ≡ spec.told_taken (spec.taken_in leaves.now (front leaves.now (at + 1))) }
{
    let instrs = &leaves.definitions().module().instrs;
    let op = instrs.op(at);
    let args = instrs.args(at);
    behind(leaves, kind_at(op, args), taken)
}

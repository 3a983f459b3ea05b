//! Where the words of operands stand.

ghost use Rattle.std.specs.Prelude.{◌≡◌, ◌+◌, ◌++◌, ◌<◌, ◌≤◌, ◌^◌, IfOk, None, OnOk, length, map, slice_index_or};
ghost use Rattle.std.specs.List.{range_with_len};
ghost use Rattle.gsl_kinds.specs.Seen.{kind_seen};
ghost use Rattle.gsl_frames.specs.Frames.{place};
ghost use Rattle.gsl_leaves.specs.Table.{most};
ghost use Rattle.gsl_operands.specs.Operands as spec;
ghost use Rattle.gsl_valid.specs.IdsDefinedOnce.{ids_defined_once};
ghost use Rattle.gsl_valid.specs.Kinds as kinds;
ghost use Rattle.gsl_valid.specs.Types.{defined_as};

use gsl_base::Memory;
use gsl_constants::Constants;
use gsl_frames::Frames;
use gsl_ids::Definitions;
use gsl_kinds::{Kind, kind_if};
use std::alloc::Global;
use std::marker::Model;

/// Where the words of operands stand, and those of all constants. Contracts see the module.
#[derive(Drop)]
pub struct Operands<'a> {
    frames: &'a Frames<'a>,
    words: Vec<u32>,
    firsts: Vec<Option<usize>>,
}

impl<'a> Model for Operands<'a> {
    ghost use Rattle.std.specs.Prelude.{◌≡◌, map};
    ghost use Rattle.std.specs.List.{range_with_len};
    ghost use Rattle.gsl_words.specs.declared.module.Module.{Module as OneModule};
    ghost use Rattle.gsl_operands.specs.Operands.{constants, first};

    ghost Value = { OneModule };

    ghost view = { λ operands. operands.frames.now };

    ghost invariant = { λ operands. (operands.words.items ≡ constants operands.frames.now) × (operands.firsts.items ≡ map (first operands.frames.now) (range_with_len 0 operands.frames.now.bound)) };
}

impl<'a> Operands<'a> {
    /// The operands of a module that defines each id once. Each constant takes four bytes a word, and each id below the bound sixteen; while they are made, twice that.
    pub fn new(alloc: Global, frames: &'a Frames<'a>) -> Result<Operands<'a>, Memory>
        requires few { length frames.now.instrs < 2 ^ 32 }
        requires once { ids_defined_once frames.now ≡ None }
        ensures { IfOk result (λ operands. operands ≡ frames.now) }
    {
        let constants = Constants::new(alloc, frames.leaves())?;
        let Rows { words, firsts } = rows_of(alloc, frames, &constants)?;
        Ok(Operands {
            frames,
            words,
            firsts,
        })
    }

    /// Where ids and variables stand in the frames of functions.
    pub fn frames(&self) -> &'a Frames<'a>
        ensures { result.now ≡ self.now }
    {
        self.frames
    }

    /// The words of all constants, which stand in front of all slots.
    pub fn constants(&self) -> &[u32]
        ensures { result.now ≡ spec.constants self.now }
    {
        self.words.as_slice()
    }

    /// Where the words of an operand begin, in a function whose slots begin at a place; told as far as the words of types are.
    pub fn stands(&self, slots: u64, id: u32) -> u64
        ensures { id < self.now.bound → spec.stands self.now slots id ≤ most → result ≡ spec.stands self.now slots id }
    {
        match first_in(&self.firsts, id) {
            Some(first) => first as u64,
            None => slots.saturating_add(self.frames.place(id)),
        }
    }

    /// Where the words begin of what an id is given, in a function whose slots begin at a place; told likewise.
    pub fn place(&self, slots: u64, id: u32) -> u64
        ensures { slots + place self.now id ≤ most → result ≡ slots + place self.now id }
    {
        slots.saturating_add(self.frames.place(id))
    }
}

/// The words of all constants, and at each id where those of its constant begin.
#[derive(Drop)]
struct Rows {
    words: Vec<u32>,
    firsts: Vec<Option<usize>>,
}

/// What a row says.
fn first_in(firsts: &Vec<Option<usize>>, id: u32) -> Option<usize>
    ensures { result ≡ slice_index_or firsts.now.items id None }
{
    match firsts.get(id as usize) {
        Some(first) => *first,
        None => None,
    }
}

/// The words of all constants, one behind the other.
fn rows_of(alloc: Global, frames: &Frames<'_>, constants: &Constants<'_>) -> Result<Rows, Memory>
    requires same { constants.now ≡ frames.now }
    ensures { IfOk result (λ rows. (rows.words.items ≡ spec.constants frames.now) × (rows.firsts.items ≡ map (spec.first frames.now) (range_with_len 0 frames.now.bound))) }
{
    let definitions = frames.leaves().definitions();
    let bound = definitions.module().bound;
    let mut words = Vec::new(alloc);
    let mut firsts = Vec::new(alloc);
    let mut id = 0;
    while id < bound {
        firsts.push(if_constant(definitions, id, words.len()))?;
        put_all(&mut words, constants.words(id))?;
        id += 1;
    }
    Ok(Rows { words, firsts })
}

/// Where the words of an id begin, if it is a constant.
fn if_constant(definitions: &Definitions<'_>, id: u32, first: usize) -> Option<usize>
    ensures { result ≡ spec.if_constant (kinds.constant_is (defined_as definitions.now id)) first }
{
    first_if(kind_if(definitions.get(id)), first)
}

fn first_if(kind: Kind<'_>, first: usize) -> Option<usize>
    ensures { result ≡ spec.if_constant (kinds.constant_in (kind_seen kind.entry)) first }
{
    match kind {
        Kind::Fixes { .. } => Some(first),
        _ => None,
    }
}

/// Puts words behind others.
fn put_all(words: &mut Vec<u32>, more: &[u32]) -> Result<(), Memory>
    ensures { OnOk result (words.new.items ≡ words.old.items ++ more.now) }
{
    for k in 0..more.len() {
        words.push(more[k])?;
    }
    Ok(())
}

//! What the ids of a module stand for, by a table.

ghost use Rattle.std.specs.Prelude.{◌≡◌, ◌+◌, ◌^◌, ◌<◌, [], ◌∷◌, None, length, drop, slice_get, slice_index, vec_len, IfOk, MatchOption};
ghost use Rattle.gsl_ids.specs.Table as table;
ghost use Rattle.gsl_valid.specs.IdsDefinedOnce.{ids_defined_once};

use crate::results::defined_by;
use gsl_base::Memory;
use gsl_instr::{Instruction, read};
use gsl_words::Module;
use std::alloc::Global;
use std::marker::Model;

/// The definitions of a module, found by their ids. Contracts see the module.
#[derive(Drop)]
pub struct Definitions<'a> {
    of: &'a Module,
    rows: Vec<u32>,
}

impl<'a> Model for Definitions<'a> {
    ghost use Rattle.std.specs.Prelude.{◌^◌, ◌<◌, length};
    ghost use Rattle.gsl_words.specs.declared.module.Module.{Module as OneModule};
    ghost use Rattle.gsl_ids.specs.Table.{Tells};

    ghost Value = { OneModule };

    ghost view = { λ definitions. definitions.of.now };

    ghost invariant = { λ definitions. (length definitions.of.now.instrs < 2 ^ 32) × Tells definitions.rows.items 0 definitions.of.now.instrs };
}

impl<'a> Definitions<'a> {
    ghost use Rattle.gsl_valid.specs.Types.{defined_as};

    /// The definitions of a module that defines each id once. They take four bytes for each id below its bound.
    pub fn new(alloc: Global, of: &'a Module) -> Result<Definitions<'a>, Memory>
        requires few { length of.now.instrs < 2 ^ 32 }
        requires once { ids_defined_once of.now ≡ None }
        ensures { IfOk result (λ definitions. definitions ≡ of.now) }
    {
        let rows = rows_of(alloc, of)?;
        Ok(Definitions { of, rows })
    }

    /// The module.
    pub fn module(&self) -> &'a Module
        ensures { result.now ≡ self.now }
    {
        self.of
    }

    /// The opcode and the operand words of the instruction of a number, or `None` behind the last.
    pub fn instr(&self, at: usize) -> Option<(u16, &'a [u32])>
        ensures { MatchOption result (drop at self.now.instrs ≡ []) (λ p. drop at self.now.instrs ≡ record { op = p.0; args = p.1.now } ∷ drop (at + 1) self.now.instrs) }
    {
        if at < self.of.instrs.len() {
            Some((self.of.instrs.op(at as u32), self.of.instrs.args(at as u32)))
        } else {
            None
        }
    }

    /// What an id stands for.
    pub fn get(&self, id: u32) -> Option<Instruction<'a>>
        ensures { result ≡ defined_as self.now id }
    {
        numbered(self.of, self.number(id))
    }

    /// One more than the number of the instruction that defines an id, 0 where none does.
    pub fn number(&self, id: u32) -> u32
        ensures { result ≡ table.number_of self.now id }
    {
        row(&self.rows, id)
    }

    /// Whether an id is defined among so many instructions at the front of the module.
    pub fn is_defined_in(&self, count: u32, id: u32) -> bool
        ensures { result ≡ table.is_defined_in self.now count id }
    {
        let number = self.number(id);
        0 < number && number <= count
    }

    /// Whether an id is defined from the instruction of a number on, before that of another.
    pub fn is_defined_from(&self, first: u64, at: u32, id: u32) -> bool
        ensures { result ≡ table.is_defined_from self.now first at id }
    {
        let number = self.number(id);
        first < u64::from(number) && number <= at
    }
}

/// The number in a row, 0 where there is none.
fn row(rows: &Vec<u32>, id: u32) -> u32
    ensures { result ≡ slice_index rows.now.items id }
{
    match rows.get(id as usize) {
        Some(number) => *number,
        None => 0,
    }
}

/// The instruction that a number in a row gives, if it gives one.
fn numbered(of: &Module, number: u32) -> Option<Instruction<'_>>
    ensures { result ≡ table.numbered of.now.instrs number }
{
    if number == 0 || (number as usize) > of.instrs.len() {
        return None;
    }
    read(of.instrs.op(number - 1), of.instrs.args(number - 1))
}

/// The number of the instruction that defines each id.
fn rows_of(alloc: Global, of: &Module) -> Result<Vec<u32>, Memory>
    requires few { length of.now.instrs < 2 ^ 32 }
    requires once { ids_defined_once of.now ≡ None }
    ensures { IfOk result (λ rows. table.Tells rows.items 0 of.now.instrs) }
{
    let mut rows = vec![in alloc; 0; of.bound as usize]?;
    let mut at = of.instrs.len() as u32;
    while at > 0 {
        at -= 1;
        note(&mut rows, of, at);
    }
    Ok(rows)
}

/// Notes the number of an instruction for the id that it defines, where those behind it are noted.
fn note(rows: &mut Vec<u32>, of: &Module, at: u32)
    requires few { length of.now.instrs < 2 ^ 32 }
    requires once { ids_defined_once of.now ≡ None }
    requires within { at < length of.now.instrs }
    requires room { vec_len rows.old ≡ of.now.bound }
    requires behind { table.Tells rows.old.items (at + 1) (drop (at + 1) of.now.instrs) }
    ensures room { vec_len rows.new ≡ of.now.bound }
    ensures noted { table.Tells rows.new.items at (drop at of.now.instrs) }
{
    if let Some(id) = defined_by(of.instrs.op(at), of.instrs.args(at)) {
        rows[id as usize] = at + 1;
    }
}

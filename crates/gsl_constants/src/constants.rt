//! The table of the words of constants.

ghost use Rattle.std.specs.Prelude.{◌≡◌, ◌+◌, ◌^◌, ◌<◌, ◌≤◌, None, drop, length, take, vec_len, IfOk, OnOk};
ghost use Rattle.gsl_constants.specs.Rows as spec;
ghost use Rattle.gsl_kinds.specs.Runtimes.{front};
ghost use Rattle.gsl_machine.specs.Constants.{constant};
ghost use Rattle.gsl_region.specs.Flat.{flat};
ghost use Rattle.gsl_valid.specs.IdsDefinedOnce.{ids_defined_once};
ghost use Rattle.gsl_valid.specs.Search.{whole};

use crate::putting::{put_kind, row};
use gsl_base::Memory;
use gsl_ids::{Definitions, defined_by};
use gsl_kinds::kind_at;
use gsl_leaves::Leaves;
use std::alloc::Global;
use std::marker::Model;

/// The words of the constants of a module, found by their ids. Contracts see the module.
#[derive(Drop)]
pub struct Constants<'a> {
    definitions: &'a Definitions<'a>,
    words: Vec<u32>,
    firsts: Vec<usize>,
    counts: Vec<usize>,
}

impl<'a> Model for Constants<'a> {
    ghost use Rattle.gsl_words.specs.declared.module.Module.{Module as OneModule};
    ghost use Rattle.gsl_valid.specs.Search.{whole};
    ghost use Rattle.gsl_constants.specs.Rows.{Tells};

    ghost Value = { OneModule };

    ghost view = { λ constants. constants.definitions.now };

    ghost invariant = { λ constants. Tells constants.words.items constants.firsts.items constants.counts.items constants.definitions.now (whole constants.definitions.now) };
}

impl<'a> Constants<'a> {
    /// The constants of a module that defines each id once. Each takes four bytes a word, and each id below the bound sixteen.
    pub fn new(alloc: Global, leaves: &Leaves<'a>) -> Result<Constants<'a>, Memory>
        requires few { length leaves.now.instrs < 2 ^ 32 }
        requires once { ids_defined_once leaves.now ≡ None }
        ensures { IfOk result (λ constants. constants ≡ leaves.now) }
    {
        let Rows {
            words,
            firsts,
            counts,
        } = rows_of(alloc, leaves)?;
        Ok(Constants {
            definitions: leaves.definitions(),
            words,
            firsts,
            counts,
        })
    }

    /// The words of the value of a constant, those of its parts in their order; of what is no constant there are none.
    pub fn words(&self, id: u32) -> &[u32]
        ensures { result.now ≡ flat (constant self.now id) }
    {
        words_of(
            self.words.as_slice(),
            row(&self.firsts, id),
            row(&self.counts, id),
        )
    }
}

/// So many words from a place on.
fn words_of(words: &[u32], first: usize, count: usize) -> &[u32]
    requires { first + count ≤ length words.now }
    ensures { result.now ≡ take count (drop first words.now) }
{
    let end = first + count;
    &words[first..end]
}

/// The words, and at each id where those of its constant begin and how many there are.
#[derive(Drop)]
struct Rows {
    words: Vec<u32>,
    firsts: Vec<usize>,
    counts: Vec<usize>,
}

/// The words of all constants.
fn rows_of(alloc: Global, leaves: &Leaves<'_>) -> Result<Rows, Memory>
    requires few { length leaves.now.instrs < 2 ^ 32 }
    requires once { ids_defined_once leaves.now ≡ None }
    ensures { IfOk result (λ rows. spec.Tells rows.words.items rows.firsts.items rows.counts.items leaves.now (whole leaves.now)) }
{
    let mut rows = no_rows(alloc, leaves)?;
    let count = leaves.definitions().module().instrs.len() as u32;
    for at in 0..count {
        note(&mut rows, leaves, at)?;
    }
    Ok(rows)
}

/// No words, with a row for each id below the bound.
fn no_rows(alloc: Global, leaves: &Leaves<'_>) -> Result<Rows, Memory>
    ensures { IfOk result (λ rows. (vec_len rows.firsts ≡ leaves.now.bound) × (vec_len rows.counts ≡ leaves.now.bound) × spec.Tells rows.words.items rows.firsts.items rows.counts.items leaves.now (front leaves.now 0)) }
{
    let bound = leaves.definitions().module().bound as usize;
    let firsts = vec![in alloc; 0; bound]?;
    let counts = vec![in alloc; 0; bound]?;
    Ok(Rows {
        words: Vec::new(alloc),
        firsts,
        counts,
    })
}

/// Notes the words of what an instruction fixes, where those before it are noted.
fn note(rows: &mut Rows, leaves: &Leaves<'_>, at: u32) -> Result<(), Memory>
    requires once { ids_defined_once leaves.now ≡ None }
    requires within { at < length leaves.now.instrs }
    requires firsts { vec_len rows.old.firsts ≡ leaves.now.bound }
    requires counts { vec_len rows.old.counts ≡ leaves.now.bound }
    requires before { spec.Tells rows.old.words.items rows.old.firsts.items rows.old.counts.items leaves.now (front leaves.now at) }
    ensures firsts { vec_len rows.new.firsts ≡ leaves.now.bound }
    ensures counts { vec_len rows.new.counts ≡ leaves.now.bound }
    ensures noted { OnOk result (spec.Tells rows.new.words.items rows.new.firsts.items rows.new.counts.items leaves.now (front leaves.now (at + 1))) }
{
    let instrs = &leaves.definitions().module().instrs;
    let op = instrs.op(at);
    let args = instrs.args(at);
    if let Some(id) = defined_by(op, args) {
        let first = rows.words.len();
        let kind = kind_at(op, args);
        put_kind(
            &mut rows.words,
            &rows.firsts,
            &rows.counts,
            leaves,
            (op, args),
            kind,
        )?;
        rows.firsts[id as usize] = first;
        rows.counts[id as usize] = rows.words.len() - first;
    }
    Ok(())
}

//! Which functions reach which, asked of a module.

ghost use Rattle.std.specs.Prelude.{◌≡◌, ◌^◌, ◌<◌, None, nat_le, length, slice_index, IfOk};
ghost use Rattle.std.specs.List.{list_all};
ghost use Rattle.gsl_kinds.specs.Seen.{kind_seen};
ghost use Rattle.gsl_valid.specs.CallRules as rule;
ghost use Rattle.gsl_valid.specs.IdsDefinedOnce.{ids_defined_once};
ghost use Rattle.gsl_valid_calls.specs.Ranks as spec;

use crate::callees::{Callees, called_by, kind_of};
use crate::search::leads_to;
use crate::table::word_at;
use gsl_base::Memory;
use gsl_ids::Definitions;
use gsl_kinds::Kind;
use std::alloc::Global;
use std::marker::Model;

/// The calls of a module, with ranks by which most functions are seen not to reach others. Contracts see the module.
#[derive(Drop)]
pub(crate) struct Calls<'a> {
    definitions: &'a Definitions<'a>,
    ranks: Vec<u32>,
}

impl<'a> Model for Calls<'a> {
    ghost use Rattle.std.specs.Prelude.{◌≡◌, ◌^◌, ◌<◌, None, length};
    ghost use Rattle.gsl_words.specs.declared.module.Module.{Module as OneModule};
    ghost use Rattle.gsl_valid.specs.IdsDefinedOnce.{ids_defined_once};
    ghost use Rattle.gsl_valid_calls.specs.Ranks.{Ranked};

    ghost Value = { OneModule };

    ghost view = { λ calls. calls.definitions.now };

    ghost invariant = { λ calls. (length calls.definitions.now.instrs < 2 ^ 32) × (ids_defined_once calls.definitions.now ≡ None) × Ranked calls.ranks.items calls.definitions.now };
}

impl<'a> Calls<'a> {
    ghost use Rattle.gsl_valid.specs.CallRules as rule;

    /// The calls of a module, with ranks that are checked: without ranks each question is a search.
    pub(crate) fn new(alloc: Global, definitions: &'a Definitions<'a>, ranks: Vec<u32>) -> Calls<'a>
        requires few { length definitions.now.instrs < 2 ^ 32 }
        requires once { ids_defined_once definitions.now ≡ None }
        ensures { result ≡ definitions.now }
    {
        let ranks = checked(alloc, definitions, ranks);
        Calls { definitions, ranks }
    }

    /// The definitions of the module.
    pub(crate) fn definitions(&self) -> &'a Definitions<'a>
        ensures { result.now ≡ self.now }
    {
        self.definitions
    }

    /// Whether a function reaches another, or is it.
    pub(crate) fn leads_to(&self, alloc: Global, from: u32, id: u32) -> Result<bool, Memory>
        ensures { IfOk result (λ leads. leads ≡ rule.leads_to self.now from id) }
    {
        if word_at(&self.ranks, from) < word_at(&self.ranks, id) {
            return Ok(false);
        }
        let leads = leads_to(alloc, self.definitions, from, id)?;
        Ok(leads)
    }
}

/// Ranks, if no function calls one of a higher rank by them, and else none.
fn checked(alloc: Global, definitions: &Definitions<'_>, ranks: Vec<u32>) -> Vec<u32>
    requires few { length definitions.now.instrs < 2 ^ 32 }
    requires once { ids_defined_once definitions.now ≡ None }
    ensures { spec.Ranked result.items definitions.now }
{
    if are_ranked(definitions, &ranks) {
        ranks
    } else {
        Vec::new(alloc)
    }
}

/// Whether no function calls one of a higher rank.
fn are_ranked(definitions: &Definitions<'_>, ranks: &[u32]) -> bool
    requires few { length definitions.now.instrs < 2 ^ 32 }
    requires once { ids_defined_once definitions.now ≡ None }
    ensures { result ≡ spec.are_ranked ranks.now definitions.now }
{
    let of = definitions.module();
    let mut at = 0;
    while (at as usize) < of.instrs.len() {
        if !is_ranked(definitions, ranks, kind_of(of, at)) {
            return false;
        }
        at += 1;
    }
    true
}

/// Whether an instruction, if it begins a function, begins one that calls none of a higher rank.
fn is_ranked(definitions: &Definitions<'_>, ranks: &[u32], kind: Kind<'_>) -> bool
    requires few { length definitions.now.instrs < 2 ^ 32 }
    requires once { ids_defined_once definitions.now ≡ None }
    ensures { result ≡ spec.is_ranked ranks.now definitions.now.instrs (kind_seen kind.entry) }
{
    match kind {
        Kind::Begins { id, .. } => all_within(
            ranks,
            called_by(definitions, id),
            word_at(ranks, id),
        ),
        _ => true,
    }
}

/// Whether none of these functions is of a higher rank.
fn all_within(ranks: &[u32], callees: Callees<'_>, most: u32) -> bool
    ensures { result ≡ list_all (λ next. nat_le (slice_index ranks.now next) most) callees.entry }
{
    let mut callees = callees;
    while let Some(callee) = callees.next() {
        if word_at(ranks, callee) > most {
            return false;
        }
    }
    true
}

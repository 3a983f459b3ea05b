//! The calls of a module, with what V11 asks of all of them together.

ghost use Rattle.std.specs.Prelude.{◌≡◌, ◌^◌, ◌<◌, ◌||◌, None, not, length, IfOk};
ghost use Rattle.std.specs.List.{list_any};
ghost use Rattle.gsl_kinds.specs.Seen.{kind_seen};
ghost use Rattle.gsl_valid.specs.CallRules as spec;
ghost use Rattle.gsl_valid.specs.IdsDefinedOnce.{ids_defined_once};

use crate::callees::{Callees, called_by, kind_of};
use crate::depth::{DEEP, depths};
use crate::ranks::walked;
use crate::reach::Calls;
use crate::table::byte_at;
use gsl_base::Memory;
use gsl_ids::Definitions;
use gsl_kinds::Kind;
use std::alloc::Global;
use std::marker::Model;

/// The calls of a module, how deeply they nest, and whether there is a cycle. Contracts see the module.
#[derive(Drop)]
pub(crate) struct CallGraph<'a> {
    calls: Calls<'a>,
    depths: Vec<u8>,
    has_cycle: bool,
}

impl<'a> Model for CallGraph<'a> {
    ghost use Rattle.std.specs.Prelude.{◌≡◌, ◌^◌, ◌<◌, None, length};
    ghost use Rattle.gsl_words.specs.declared.module.Module.{Module as OneModule};
    ghost use Rattle.gsl_valid.specs.CallRules.{has_cycle as goes_round};
    ghost use Rattle.gsl_valid.specs.IdsDefinedOnce.{ids_defined_once};
    ghost use Rattle.gsl_valid_calls.specs.Depths.{TellDepths};

    ghost Value = { OneModule };

    ghost view = { λ graph. graph.calls };

    ghost invariant = { λ graph. (ids_defined_once graph.calls ≡ None) × TellDepths graph.depths.items graph.calls × (graph.has_cycle ≡ goes_round graph.calls) };
}

impl<'a> CallGraph<'a> {
    /// The calls of a module.
    pub(crate) fn new(
        alloc: Global,
        definitions: &'a Definitions<'a>,
    ) -> Result<CallGraph<'a>, Memory>
        requires few { length definitions.now.instrs < 2 ^ 32 }
        requires once { ids_defined_once definitions.now ≡ None }
        ensures { IfOk result (λ graph. graph ≡ definitions.now) }
    {
        let (ranks, guess) = walked(alloc, definitions)?;
        let calls = Calls::new(alloc, definitions, ranks);
        let has_cycle = goes_round(alloc, &calls)?;
        let depths = depths(alloc, definitions.module(), guess)?;
        Ok(CallGraph {
            calls,
            depths,
            has_cycle,
        })
    }

    /// The definitions of the module.
    pub(crate) fn definitions(&self) -> &'a Definitions<'a>
        ensures { result.now ≡ self.now }
    {
        self.calls.definitions()
    }

    /// Whether a function reaches another, or is it.
    pub(crate) fn leads_to(&self, alloc: Global, from: u32, id: u32) -> Result<bool, Memory>
        ensures { IfOk result (λ leads. leads ≡ spec.leads_to self.now from id) }
    {
        let leads = self.calls.leads_to(alloc, from, id)?;
        Ok(leads)
    }

    /// Whether calls nest from a function on as deeply as they may, or in a cycle somewhere.
    pub(crate) fn may_begin(&self, id: u32) -> bool
        ensures { result ≡ (not (spec.has_chain self.now.instrs 65 id) || spec.has_cycle self.now) }
    {
        !self.is_deep(id) || self.has_cycle
    }

    /// Whether more calls stand one within the other, from a function on, than may.
    fn is_deep(&self, id: u32) -> bool
        ensures { result ≡ spec.has_chain self.now.instrs 65 id }
    {
        byte_at(&self.depths, id) >= DEEP
    }
}

/// Whether a function reaches itself by calls.
fn goes_round(alloc: Global, calls: &Calls<'_>) -> Result<bool, Memory>
    requires few { length calls.now.instrs < 2 ^ 32 }
    requires once { ids_defined_once calls.now ≡ None }
    ensures { IfOk result (λ round. round ≡ spec.has_cycle calls.now) }
{
    let of = calls.definitions().module();
    let mut at = 0;
    while (at as usize) < of.instrs.len() {
        if begins_cycle(alloc, calls, kind_of(of, at))? {
            return Ok(true);
        }
        at += 1;
    }
    Ok(false)
}

/// Whether an instruction begins a function that reaches itself by calls.
fn begins_cycle(alloc: Global, calls: &Calls<'_>, kind: Kind<'_>) -> Result<bool, Memory>
    requires few { length calls.now.instrs < 2 ^ 32 }
    requires once { ids_defined_once calls.now ≡ None }
    ensures { IfOk result (λ round. round ≡ spec.begins_cycle calls.now (kind_seen kind.entry)) }
{
    match kind {
        Kind::Begins { id, .. } => {
            any_leads(alloc, calls, called_by(calls.definitions(), id), id)
        }
        _ => Ok(false),
    }
}

/// Whether one of these functions reaches a function.
fn any_leads(
    alloc: Global,
    calls: &Calls<'_>,
    callees: Callees<'_>,
    id: u32,
) -> Result<bool, Memory>
    ensures { IfOk result (λ leads. leads ≡ list_any (λ next. spec.leads_to calls.now next id) callees.entry) }
{
    let mut callees = callees;
    while let Some(callee) = callees.next() {
        if calls.leads_to(alloc, callee, id)? {
            return Ok(true);
        }
    }
    Ok(false)
}

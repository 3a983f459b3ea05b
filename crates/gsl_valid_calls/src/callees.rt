//! The calls of functions.

ghost use Rattle.std.specs.Prelude.{◌≡◌, ◌∷◌, ◌+◌, ◌^◌, ◌<◌, [], None, length, drop, MatchOption};
ghost use Rattle.gsl_kinds.specs.Seen.{kind_seen};
ghost use Rattle.gsl_ids.specs.Table.{number_of};
ghost use Rattle.gsl_valid.specs.CallRules as spec;
ghost use Rattle.gsl_valid.specs.IdsDefinedOnce.{ids_defined_once};
ghost use Rattle.gsl_valid.specs.Types as types;
ghost use Rattle.gsl_valid_calls.specs.Stands.{Stands};

use gsl_ids::Definitions;
use gsl_kinds::{Kind, kind_at, kind_if};
use gsl_words::Module;
use std::marker::Model;

/// The calls up to the end of a function that are still to come. Contracts see the list of the functions that are called.
#[derive(Drop)]
pub(crate) struct Callees<'a> {
    of: &'a Module,
    at: u32,
}

impl<'a> Model for Callees<'a> {
    ghost use Rattle.std.specs.Prelude.{ℕ, List, ◌^◌, ◌<◌, length, drop};
    ghost use Rattle.gsl_valid.specs.CallRules.{called};

    ghost Value = { List ℕ };

    ghost view = { λ callees. called (drop callees.at callees.of.now.instrs) };

    ghost invariant = { λ callees. length callees.of.now.instrs < 2 ^ 32 };
}

impl<'a> Callees<'a> {
    ghost use Rattle.gsl_valid.specs.CallRules as spec;

    /// The calls from an instruction on.
    pub(crate) fn from(of: &'a Module, at: u32) -> Callees<'a>
        requires { length of.now.instrs < 2 ^ 32 }
        ensures { result ≡ spec.called (drop at of.now.instrs) }
    {
        Callees { of, at }
    }

    /// The function that is called next, or `None` behind the last call.
    pub(crate) fn next(&mut self) -> Option<u32>
        ensures { MatchOption result (self.old ≡ []) (λ id. self.old ≡ id ∷ self.new) }
    {
        let (callee, at) = next_call(self.of, self.at)?;
        self.at = at;
        Some(callee)
    }
}

/// The function that is called next from an instruction on, with the number of the instruction behind the call.
pub(crate) fn next_call(of: &Module, at: u32) -> Option<(u32, u32)>
    requires { length of.now.instrs < 2 ^ 32 }
    ensures { MatchOption result (spec.called (drop at of.now.instrs) ≡ []) (λ p. spec.called (drop at of.now.instrs) ≡ p.0 ∷ spec.called (drop p.1 of.now.instrs)) }
{
    let mut at = at;
    while (at as usize) < of.instrs.len() {
        let kind = kind_of(of, at);
        at += 1;
        if is_last(kind) {
            return None;
        }
        if let Some(callee) = callee_in(kind) {
            return Some((callee, at));
        }
    }
    None
}

/// The kind of the instruction of a number.
pub(crate) fn kind_of(of: &Module, at: u32) -> Kind<'_>
    requires { at < length of.now.instrs }
    ensures { Stands of.now.instrs at (kind_seen result) }
{
    kind_at(of.instrs.op(at), of.instrs.args(at))
}

/// Whether an instruction ends a function.
fn is_last(kind: Kind<'_>) -> bool
    ensures { result ≡ spec.is_last (kind_seen kind.entry) }
{
    matches!(kind, Kind::Ended)
}

/// The function that an instruction calls.
fn callee_in(kind: Kind<'_>) -> Option<u32>
    ensures { result ≡ spec.callee_in (kind_seen kind.entry) }
{
    match kind {
        Kind::Calls { function, .. } => Some(function),
        _ => None,
    }
}

/// The functions that a function calls.
pub(crate) fn called_by<'a>(definitions: &Definitions<'a>, id: u32) -> Callees<'a>
    requires few { length definitions.now.instrs < 2 ^ 32 }
    requires once { ids_defined_once definitions.now ≡ None }
    ensures { result ≡ spec.called_by definitions.now.instrs id }
{
    let of = definitions.module();
    if is_function(definitions, id) {
        Callees::from(of, definitions.number(id))
    } else {
        Callees::from(of, of.instrs.len() as u32)
    }
}

/// Whether an id stands for a function.
pub(crate) fn is_function(definitions: &Definitions<'_>, id: u32) -> bool
    ensures { result ≡ types.function_begins (types.defined_as definitions.now id) }
{
    begins(kind_if(definitions.get(id)))
}

/// Whether an instruction begins a function.
fn begins(kind: Kind<'_>) -> bool
    ensures { result ≡ types.begins (kind_seen kind.entry) }
{
    matches!(kind, Kind::Begins { .. })
}

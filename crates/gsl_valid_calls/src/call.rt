//! Calls.

ghost use Rattle.std.specs.Prelude.{◌≡◌, ◌+◌, ◌^◌, ◌<◌, ◌&&◌, None, cond, not, length, IfOk};
ghost use Rattle.gsl_ids.specs.Pass.{first_failed};
ghost use Rattle.gsl_kinds.specs.Seen.{kind_seen};
ghost use Rattle.gsl_valid.specs.CallRules as spec;
ghost use Rattle.gsl_valid.specs.IdsDefinedOnce.{ids_defined_once};
ghost use Rattle.gsl_valid.specs.Kinds as kinds;
ghost use Rattle.gsl_valid.specs.Placed.{count_of_words};
ghost use Rattle.gsl_valid.specs.Types as types;
ghost use Rattle.gsl_valid.specs.Where as places;
ghost use Rattle.gsl_valid_calls.specs.Calls as kept;

use crate::graph::CallGraph;
use crate::pointers::{are_own, pointers_differ};
use gsl_base::Memory;
use gsl_ids::{Definitions, Each};
use gsl_kinds::{Kind, Parts, Shape, have_each, kind_at, kind_if, shape_of};
use std::alloc::Global;

/// The place of the first instruction that breaks V11: a call whose arguments do not fit, whose pointers are not the caller's own or
/// are twice the same, or that leads back to the caller (SPIR-V 1.0, 2.16.1); or a Function from which calls nest too deeply.
pub fn calls(alloc: Global, definitions: &Definitions<'_>) -> Result<Option<u32>, Memory>
    requires length { length definitions.now.instrs < 2 ^ 32 }
    requires words { count_of_words definitions.now < 2 ^ 32 }
    requires once { ids_defined_once definitions.now ≡ None }
    ensures { IfOk result (λ place. place ≡ spec.calls definitions.now) }
{
    let graph = CallGraph::new(alloc, definitions)?;
    let place = first_wrong(alloc, &graph, Each::new(definitions.module()))?;
    Ok(place)
}

/// The same, among the instructions of a module.
#[tactic(auto, unfolding(gsl_ids::specs::Pass::first_failed))]
fn first_wrong(alloc: Global, graph: &CallGraph<'_>, each: Each<'_>) -> Result<Option<u32>, Memory>
    requires length { length graph.now.instrs < 2 ^ 32 }
    requires whole { length each ≡ length graph.now.instrs }
    ensures { IfOk result (λ place. place ≡ first_failed kept.passes kept.behind (record { of = graph.now; caller = None; body = 0 }) 0 each.entry) }
{
    let mut at = 0;
    let mut each = each;
    let mut caller = None;
    let mut body = 0;
    while let Some((place, op, args)) = each.next() {
        let kind = kind_at(op, args);
        if !may_stand(alloc, graph, caller, body, at, kind)? {
            return Ok(Some(place));
        }
        caller = caller_after(caller, kind);
        body = body_after(body, kind, at);
        at += 1;
    }
    Ok(None)
}

/// The caller behind an instruction.
fn caller_after(caller: Option<u32>, kind: Kind<'_>) -> Option<u32>
    ensures { result ≡ kept.caller_after caller (kind_seen kind.entry) }
{
    match kind {
        Kind::Begins { id, .. } => Some(id),
        _ => caller,
    }
}

/// The first instruction of a function's body behind the instruction of a number, which bounds it or not.
fn body_after(body: u64, kind: Kind<'_>, at: u32) -> u64
    ensures { result ≡ cond (places.bounds_one (kind_seen kind.entry)) (at + 1) body }
{
    match kind {
        Kind::Begins { .. } | Kind::Ended => u64::from(at) + 1,
        _ => body,
    }
}

/// Whether the instruction of a number keeps V11, where it stands behind this Function.
fn may_stand(
    alloc: Global,
    graph: &CallGraph<'_>,
    caller: Option<u32>,
    body: u64,
    at: u32,
    kind: Kind<'_>,
) -> Result<bool, Memory>
    ensures { IfOk result (λ passed. passed ≡ kept.call_from graph.now caller body at (kind_seen kind.entry)) }
{
    match kind {
        Kind::Begins { id, .. } => Ok(graph.may_begin(id)),
        Kind::Calls {
            type_,
            function,
            arguments,
        } => {
            let definitions = graph.definitions();
            if !fits_function(definitions, type_, arguments, function)
                || !are_own(definitions, body, at, arguments)
            {
                return Ok(false);
            }
            differ_and_end(alloc, graph, caller, function, arguments)
        }
        _ => Ok(true),
    }
}

/// Whether no two pointers among the arguments of a call are one, and it does not lead back to the caller.
fn differ_and_end(
    alloc: Global,
    graph: &CallGraph<'_>,
    caller: Option<u32>,
    function: u32,
    arguments: &[u32],
) -> Result<bool, Memory>
    ensures { IfOk result (λ passed. passed ≡ (spec.pointers_differ graph.now arguments.now && not (spec.is_reached graph.now function caller))) }
{
    if !pointers_differ(alloc, graph.definitions(), arguments)? {
        return Ok(false);
    }
    let reached = is_reached(alloc, graph, function, caller)?;
    Ok(!reached)
}

/// Whether a function, if there is one, is reached.
fn is_reached(
    alloc: Global,
    graph: &CallGraph<'_>,
    from: u32,
    caller: Option<u32>,
) -> Result<bool, Memory>
    ensures { IfOk result (λ reached. reached ≡ spec.is_reached graph.now from caller) }
{
    match caller {
        Some(id) => graph.leads_to(alloc, from, id),
        None => Ok(false),
    }
}

/// Whether a call of a function with these arguments gives a type.
fn fits_function(
    definitions: &Definitions<'_>,
    type_: u32,
    arguments: &[u32],
    function: u32,
) -> bool
    ensures { result ≡ spec.fits_function definitions.now type_ arguments.now (kinds.kind (types.defined_as definitions.now function)) }
{
    match kind_if(definitions.get(function)) {
        Kind::Begins {
            type_: returned,
            function_type,
            ..
        } => returned == type_
            && have_each(
                definitions,
                Parts::Values,
                parameters_of(definitions, function_type),
                arguments,
            ),
        _ => false,
    }
}

/// The parameters of a function type.
fn parameters_of<'a>(definitions: &Definitions<'a>, id: u32) -> &'a [u32]
    ensures { result.now ≡ types.parameters_of (types.defined_as definitions.now id) }
{
    match shape_of(definitions, id) {
        Shape::Function { parameters, .. } => parameters,
        _ => &[],
    }
}

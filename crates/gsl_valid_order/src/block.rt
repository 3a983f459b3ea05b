//! The order of the blocks of functions.

ghost use Rattle.std.specs.Prelude.{◌≡◌, ◌^◌, ◌<◌, ◌||◌, not, length, IfOk};
ghost use Rattle.gsl_kinds.specs.Seen.{kind_seen};
ghost use Rattle.gsl_valid.specs.Placed.{count_of_words};
ghost use Rattle.gsl_ids.specs.Pass.{first_failed};
ghost use Rattle.gsl_valid.specs.StructureRules as spec;
ghost use Rattle.gsl_valid.specs.Types as types;
ghost use Rattle.gsl_valid_order.specs.Nested as nested;

use gsl_base::Memory;
use gsl_blocks::nesting;
use gsl_ids::Each;
use gsl_kinds::{Kind, kind_at};
use gsl_words::Module;
use std::alloc::Global;

/// The place of the first Function whose blocks are not structured (SPIR-V 1.0, 2.11), which breaks V12.
pub fn structure(alloc: Global, of: &Module) -> Result<Option<u32>, Memory>
    requires length { length of.now.instrs < 2 ^ 32 }
    requires words { count_of_words of.now < 2 ^ 32 }
    ensures { IfOk result (λ place. place ≡ spec.structure of.now) }
{
    let place = first_unstructured(alloc, of, Each::new(of))?;
    Ok(place)
}

/// The same, among the instructions of a module.
#[tactic(auto, unfolding(gsl_ids::specs::Pass::first_failed))]
fn first_unstructured(alloc: Global, of: &Module, each: Each<'_>) -> Result<Option<u32>, Memory>
    requires length { length of.now.instrs < 2 ^ 32 }
    requires whole { length each ≡ length of.now.instrs }
    ensures { IfOk result (λ place. place ≡ first_failed nested.passes nested.behind of.now 0 each.entry) }
{
    let mut at = 0;
    let mut each = each;
    while let Some((place, op, args)) = each.next() {
        if !begins_structured(alloc, of, at, kind_at(op, args))? {
            return Ok(Some(place));
        }
        at += 1;
    }
    Ok(None)
}

/// Whether the instruction of a number, if it begins a function, begins one whose blocks are structured.
fn begins_structured(alloc: Global, of: &Module, at: u32, kind: Kind<'_>) -> Result<bool, Memory>
    requires length { length of.now.instrs < 2 ^ 32 }
    ensures { IfOk result (λ passed. passed ≡ (not (types.begins (kind_seen kind.entry)) || spec.is_structured (nested.nesting_at of.now at))) }
{
    match kind {
        Kind::Begins { .. } => is_structured(alloc, of, at),
        _ => Ok(true),
    }
}

/// Whether the blocks of the function that begins at an instruction are structured.
fn is_structured(alloc: Global, of: &Module, at: u32) -> Result<bool, Memory>
    requires length { length of.now.instrs < 2 ^ 32 }
    ensures { IfOk result (λ passed. passed ≡ spec.is_structured (nested.nesting_at of.now at)) }
{
    let depth = nesting(alloc, &of.instrs, at)?;
    Ok(depth.is_some())
}

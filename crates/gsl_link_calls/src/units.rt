//! The calls of declarations.

ghost use Rattle.std.specs.Prelude.{◌≡◌, ◌++◌, OnOk, IfOk};
ghost use Rattle.std.specs.List.{flat_map};
ghost use Rattle.gsl_tree.specs.Weights as weights;
ghost use Rattle.gsl_link_calls.specs.Calls as calls_spec;
ghost use Rattle.gsl_link_calls.specs.Gathering.{in_turn};
ghost use Rattle.gsl_link_calls.specs.Gathering as spec;

use crate::call::Calls;
use crate::gather::{any_gathered, gathered, stmts_gathered};
use crate::heads::stmts_heads_gathered;
use gsl_base::{List, Memory};
use gsl_tree::{Expr, Function, GlobalVar, TypedUnit};
use std::alloc::Global;

/// Puts the calls in an expression behind a list.
#[tactic(auto, using(crate::proofs::Steps::gathered_is))]
pub fn calls_in(e: &Expr, calls: &mut Calls) -> Result<(), Memory>
    ensures { OnOk result (calls.new ≡ calls.old ++ calls_spec.expr_calls e.now) }
{
    gathered(e, calls)?;
    Ok(())
}

#[tactic(auto, using(crate::proofs::Steps::global_opens))]
fn global_gathered(g: &GlobalVar, calls: &mut Calls) -> Result<(), Memory>
    ensures { OnOk result (calls.new ≡ spec.global_gathered calls.old g.now) }
{
    any_gathered(&g.init, calls)?;
    Ok(())
}

#[tactic(auto, using(crate::proofs::Steps::function_opens))]
fn function_gathered(f: &Function, calls: &mut Calls) -> Result<(), Memory>
    ensures { OnOk result (calls.new ≡ spec.function_gathered calls.old f.now) }
{
    stmts_gathered(&f.body, calls)?;
    Ok(())
}

fn globals_gathered(globals: &[GlobalVar], calls: &mut Calls) -> Result<(), Memory>
    ensures { OnOk result (calls.new ≡ in_turn spec.global_gathered calls.old globals.now) }
{
    for k in 0..globals.len() {
        global_gathered(&globals[k], calls)?;
    }
    Ok(())
}

fn functions_gathered(functions: &[Function], calls: &mut Calls) -> Result<(), Memory>
    ensures { OnOk result (calls.new ≡ in_turn spec.function_gathered calls.old functions.now) }
{
    for k in 0..functions.len() {
        function_gathered(&functions[k], calls)?;
    }
    Ok(())
}

/// Puts the calls in a unit behind a list: those of its global variables, then those of its functions.
pub fn unit_calls(unit: &TypedUnit, calls: &mut Calls) -> Result<(), Memory>
    ensures { OnOk result (calls.new ≡ calls.old ++ (flat_map calls_spec.global_calls unit.now.globals ++ flat_map calls_spec.function_calls unit.now.functions)) }
{
    globals_gathered(unit.globals.as_slice(), calls)?;
    functions_gathered(unit.functions.as_slice(), calls)?;
    Ok(())
}

/// The heads that a function calls, in the order of its tree.
#[tactic(auto, using(crate::proofs::HeadSteps::calls_of_is))]
pub fn calls_of(alloc: Global, f: &Function) -> Result<List<u32>, Memory>
    ensures { IfOk result (λ heads. heads ≡ weights.calls_of f.now) }
{
    let mut heads = List::new(alloc);
    stmts_heads_gathered(&f.body, &mut heads)?;
    Ok(heads)
}

//! The weight and the leaves of a program.

ghost use Rattle.std.specs.Prelude.{◌≡◌, slice_get};
ghost use Rattle.gsl_tree.specs.Weights as weights;
ghost use Rattle.gsl_types.specs.Known.{AreStructs};
ghost use Rattle.gsl_weights.specs.Telling.{up_to, in_turn};
ghost use Rattle.gsl_weights.specs.Weighing as spec;

use crate::declarations::{
    blocks_weighed, functions_weighed, globals_weighed, interfaces_weighed, prototypes_weighed,
    structs_weighed,
};
use crate::leaves::few_leaves;
use crate::telling::added;
use gsl_tree::{Function, GlobalVar, Program, Prototype};
use gsl_types::{Direction, Structs, Ty};

/// The weight of a program, up to the ceiling.
pub fn program_weight(p: &Program) -> u32
    requires known { AreStructs p.now.structs }
    ensures { result ≡ up_to (weights.program_weight p.now) }
{
    let structs = structs_weighed(0, p.structs.as_slice());
    let globals = globals_weighed(&p.structs, structs, p.globals.as_slice());
    let blocks = blocks_weighed(globals, p.blocks.as_slice());
    let interfaces = interfaces_weighed(blocks, p.interfaces.as_slice());
    let prototypes = prototypes_weighed(interfaces, p.prototypes.as_slice());
    let all = functions_weighed(&p.structs, prototypes, p.functions.as_slice());
    added(all, 0)
}

/// A count with the leaves of a type.
fn type_leaves(structs: &Structs, so_far: u32, ty: &Ty) -> u32
    requires known { AreStructs structs.now }
    ensures { result ≡ spec.type_leaves structs.now so_far ty.now }
{
    added(so_far, few_leaves(structs, ty))
}

fn params_leaves(structs: &Structs, so_far: u32, params: &[(Direction, Ty)]) -> u32
    requires known { AreStructs structs.now }
    ensures { result ≡ in_turn (spec.param_leaves structs.now) so_far params.now }
{
    let mut total = so_far;
    for k in 0..params.len() {
        total = type_leaves(structs, total, &params[k].1);
    }
    total
}

fn types_leaves(structs: &Structs, so_far: u32, types: &[Ty]) -> u32
    requires known { AreStructs structs.now }
    ensures { result ≡ in_turn (spec.type_leaves structs.now) so_far types.now }
{
    let mut total = so_far;
    for k in 0..types.len() {
        total = type_leaves(structs, total, &types[k]);
    }
    total
}

fn variables_leaves(structs: &Structs, so_far: u32, globals: &[GlobalVar]) -> u32
    requires known { AreStructs structs.now }
    ensures { result ≡ in_turn (spec.variable_leaves structs.now) so_far globals.now }
{
    let mut total = so_far;
    for k in 0..globals.len() {
        total = type_leaves(structs, total, &globals[k].ty);
    }
    total
}

/// A count with the leaves of the parameters of a head, by its number.
fn head_leaves(structs: &Structs, so_far: u32, prototypes: &[Prototype], number: u32) -> u32
    requires known { AreStructs structs.now }
    ensures { result ≡ in_turn (spec.param_leaves structs.now) so_far (weights.params_of (slice_get prototypes.now number)) }
{
    match prototypes.get(number as usize) {
        Some(p) => params_leaves(structs, so_far, p.params.as_slice()),
        None => so_far,
    }
}

/// The leaves of the parameters and local variables of a function together, up to the ceiling.
pub fn function_leaves(structs: &Structs, prototypes: &[Prototype], f: &Function) -> u32
    requires known { AreStructs structs.now }
    ensures { result ≡ up_to (weights.function_leaves structs.now prototypes.now f.now) }
{
    let params = head_leaves(structs, 0, prototypes, f.prototype);
    let all = types_leaves(structs, params, f.locals.as_slice());
    added(all, 0)
}

/// The leaves of global variables together, up to the ceiling.
pub fn global_leaves(structs: &Structs, globals: &[GlobalVar]) -> u32
    requires known { AreStructs structs.now }
    ensures { result ≡ up_to (weights.global_leaves structs.now globals.now) }
{
    let all = variables_leaves(structs, 0, globals);
    added(all, 0)
}

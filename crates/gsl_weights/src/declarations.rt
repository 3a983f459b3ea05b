//! The weights of declarations.

ghost use Rattle.std.specs.Prelude.{◌≡◌, ◌+◌};
ghost use Rattle.gsl_tree.specs.Weights as weights;
ghost use Rattle.gsl_types.specs.Known.{AreStructs};
ghost use Rattle.gsl_weights.specs.Telling.{up_to, in_turn};
ghost use Rattle.gsl_weights.specs.Weighing as spec;

use crate::expressions::read_weighed;
use crate::leaves::few_leaves;
use crate::statements::stmts_weighed;
use crate::telling::added;
use gsl_tree::{Block, BlockMember, Expr, Function, GlobalVar, Interface, Prototype};
use gsl_types::{Direction, Member, StructType, Structs, Ty};

/// How many dimensions of arrays a type is written with.
#[tactic(auto, using(crate::proofs::Dimensions::dimensions_step))]
fn dimensions(ty: &Ty) -> u32
    ensures { result ≡ up_to (weights.dimensions ty.now) }
{
    match ty {
        Ty::Array(element, _) => added(dimensions(element.get()), 1),
        Ty::Runtime(element) => added(dimensions(element.get()), 1),
        Ty::Void | Ty::One(_) | Ty::Vector(_, _) | Ty::Struct(_) => 0,
    }
}

/// A count with what is declared with a type.
fn declared_weighed(so_far: u32, ty: &Ty) -> u32
    ensures { result ≡ spec.declared_weighed so_far ty.now }
{
    added(added(so_far, 1), dimensions(ty))
}

fn members_weighed(so_far: u32, members: &[Member]) -> u32
    ensures { result ≡ in_turn spec.member_weighed so_far members.now }
{
    let mut total = so_far;
    for k in 0..members.len() {
        total = declared_weighed(total, &members[k].ty);
    }
    total
}

fn block_members_weighed(so_far: u32, members: &[BlockMember]) -> u32
    ensures { result ≡ in_turn spec.block_member_weighed so_far members.now }
{
    let mut total = so_far;
    for k in 0..members.len() {
        total = declared_weighed(total, &members[k].ty);
    }
    total
}

fn params_weighed(so_far: u32, params: &[(Direction, Ty)]) -> u32
    ensures { result ≡ in_turn spec.param_weighed so_far params.now }
{
    let mut total = so_far;
    for k in 0..params.len() {
        total = declared_weighed(total, &params[k].1);
    }
    total
}

fn types_weighed(so_far: u32, types: &[Ty]) -> u32
    ensures { result ≡ in_turn spec.declared_weighed so_far types.now }
{
    let mut total = so_far;
    for k in 0..types.len() {
        total = declared_weighed(total, &types[k]);
    }
    total
}

/// A count with the weight of a struct.
fn struct_weighed(so_far: u32, s: &StructType) -> u32
    ensures { result ≡ spec.struct_weighed so_far s.now }
{
    let all = members_weighed(so_far, s.members.as_slice());
    added(all, 0)
}

/// A count with the weight of a block.
fn block_weighed(so_far: u32, block: &Block) -> u32
    ensures { result ≡ spec.block_weighed so_far block.now }
{
    let all = block_members_weighed(added(so_far, 1), block.members.as_slice());
    added(all, 0)
}

/// A count with the weight of a head of a function.
fn prototype_weighed(so_far: u32, p: &Prototype) -> u32
    ensures { result ≡ spec.prototype_weighed so_far p.now }
{
    let all = params_weighed(added(so_far, dimensions(&p.result)), p.params.as_slice());
    added(all, 0)
}

/// A count with the weight of an initialiser of a variable of a type, if there is one.
fn init_weighed(structs: &Structs, so_far: u32, ty: &Ty, init: &Option<Expr>) -> u32
    requires known { AreStructs structs.now }
    ensures { result ≡ up_to (so_far + weights.init_weight structs.now ty.now init.now) }
{
    match init {
        Some(e) => {
            let read = read_weighed(structs, so_far, e);
            added(read, few_leaves(structs, ty))
        }
        None => added(so_far, 0),
    }
}

/// A count with the weight of a global variable.
fn global_weighed(structs: &Structs, so_far: u32, g: &GlobalVar) -> u32
    requires known { AreStructs structs.now }
    ensures { result ≡ spec.global_weighed structs.now so_far g.now }
{
    let own = declared_weighed(so_far, &g.ty);
    init_weighed(structs, own, &g.ty, &g.init)
}

/// A count with the weight of a function.
fn function_weighed(structs: &Structs, so_far: u32, f: &Function) -> u32
    requires known { AreStructs structs.now }
    ensures { result ≡ spec.function_weighed structs.now so_far f.now }
{
    let locals = types_weighed(added(so_far, 1), f.locals.as_slice());
    let all = stmts_weighed(structs, locals, &f.body);
    added(all, 0)
}

pub(crate) fn structs_weighed(so_far: u32, structs: &[StructType]) -> u32
    ensures { result ≡ in_turn spec.struct_weighed so_far structs.now }
{
    let mut total = so_far;
    for k in 0..structs.len() {
        total = struct_weighed(total, &structs[k]);
    }
    total
}

pub(crate) fn blocks_weighed(so_far: u32, blocks: &[Block]) -> u32
    ensures { result ≡ in_turn spec.block_weighed so_far blocks.now }
{
    let mut total = so_far;
    for k in 0..blocks.len() {
        total = block_weighed(total, &blocks[k]);
    }
    total
}

pub(crate) fn interfaces_weighed(so_far: u32, interfaces: &[Interface]) -> u32
    ensures { result ≡ in_turn spec.interface_weighed so_far interfaces.now }
{
    let mut total = so_far;
    for k in 0..interfaces.len() {
        total = declared_weighed(total, &interfaces[k].ty);
    }
    total
}

pub(crate) fn prototypes_weighed(so_far: u32, prototypes: &[Prototype]) -> u32
    ensures { result ≡ in_turn spec.prototype_weighed so_far prototypes.now }
{
    let mut total = so_far;
    for k in 0..prototypes.len() {
        total = prototype_weighed(total, &prototypes[k]);
    }
    total
}

pub(crate) fn globals_weighed(structs: &Structs, so_far: u32, globals: &[GlobalVar]) -> u32
    requires known { AreStructs structs.now }
    ensures { result ≡ in_turn (spec.global_weighed structs.now) so_far globals.now }
{
    let mut total = so_far;
    for k in 0..globals.len() {
        total = global_weighed(structs, total, &globals[k]);
    }
    total
}

pub(crate) fn functions_weighed(structs: &Structs, so_far: u32, functions: &[Function]) -> u32
    requires known { AreStructs structs.now }
    ensures { result ≡ in_turn (spec.function_weighed structs.now) so_far functions.now }
{
    let mut total = so_far;
    for k in 0..functions.len() {
        total = function_weighed(structs, total, &functions[k]);
    }
    total
}

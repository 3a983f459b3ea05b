//! What variables begin as.

ghost use Rattle.std.specs.Prelude.{◌≡◌, ◌+◌, map, IfOk};
ghost use Rattle.gsl_base.specs.Checked.{Gives};
ghost use Rattle.gsl_types.specs.Known.{AreStructs};
ghost use Rattle.gsl_makers.specs.Heights.{AreHeights};
ghost use Rattle.gsl_check_expr.specs.Initialisers as spec;

use crate::env::Env;
use crate::walking::taken_expression;
use crate::writing::Written;
use gsl_base::{Boxed, Code, List, Memory, Place, Refusal};
use gsl_makers::{Parts, build};
use gsl_syntax::Init;
use gsl_tree::Expr;
use gsl_types::{Member, Structs, Ty};
use gsl_typing::{Part, Scene, copy, refuse, serves_as};
use std::alloc::Global;

/// The type of a member of the struct of a number, `void` where there is none.
fn member_type(alloc: Global, structs: &Structs, number: u32, at: usize) -> Result<Ty, Memory>
    ensures { IfOk result (λ t. t ≡ spec.member_type structs.now number at) }
{
    if number as usize >= structs.len() {
        return Ok(Ty::Void);
    }
    let members = structs[number as usize].members.as_slice();
    if at >= members.len() {
        return Ok(Ty::Void);
    }
    copy(alloc, &members[at].ty)
}

/// The type that the part of a number is needed as in a list of a type.
#[tactic(auto, unfolding(crate::specs::Initialisers::part_type))]
fn part_type(alloc: Global, scene: &Scene, ty: &Ty, at: usize) -> Result<Ty, Memory>
    ensures { IfOk result (λ t. t ≡ spec.part_type scene.now ty.now at) }
{
    match ty {
        Ty::Vector(scalar, _) => Ok(Ty::One(*scalar)),
        Ty::Array(element, _) => copy(alloc, element.get()),
        Ty::Struct(number) => member_type(alloc, &scene.structs, *number, at),
        Ty::Void | Ty::One(_) | Ty::Runtime(_) => Ok(Ty::Void),
    }
}

/// The same parts as a value of another type.
fn as_of(place: Place, ty: Ty, x: Part) -> Part
    ensures { result ≡ spec.as_of place ty x }
{
    Part {
        expr: Expr {
            ty,
            place,
            kind: x.expr.kind,
        },
        fixed: false,
    }
}

/// A list of a type over its parts.
#[tactic(auto, unfolding(crate::specs::Initialisers::listed))]
fn listed(alloc: Global, env: &Env, place: Place, ty: &Ty, parts: Parts) -> Result<Part, Refusal>
    requires heights { AreHeights env.now.scene.structs env.now.heights }
    ensures { Gives result (spec.listed env.now.scene place ty.now parts) }
{
    match ty {
        Ty::Vector(scalar, count) => {
            let components = Ty::Array(Boxed::new(alloc, Ty::One(*scalar))?, *count);
            let x = build(alloc, &env.scene, &env.heights, place, components, parts)?;
            Ok(as_of(place, Ty::Vector(*scalar, *count), x))
        }
        Ty::Array(_, _) | Ty::Struct(_) => {
            let ty = copy(alloc, ty)?;
            build(alloc, &env.scene, &env.heights, place, ty, parts)
        }
        Ty::Void | Ty::One(_) | Ty::Runtime(_) => Err(refuse(place, Code::E0505)),
    }
}

/// The value of an initialiser where one of a type is needed. An expression has a type of its own, and a list has this one.
#[cycle(value)]
#[tactic(auto, using(crate::proofs::Steps::inits))]
fn value_as(alloc: Global, env: &Env, init: &Init, ty: &Ty) -> Result<Part, Refusal>
    requires known { AreStructs env.now.scene.structs }
    requires heights { AreHeights env.now.scene.structs env.now.heights }
    ensures { Gives result (spec.value_as env.now init.now ty.now) }
{
    match init {
        Init::Expr(e) => taken_expression(alloc, env, e),
        Init::Braces(place, items) => {
            let parts = parts_in(alloc, env, items.as_slice(), ty)?;
            listed(alloc, env, *place, ty, parts)
        }
    }
}

/// The part of a number of a list of a type.
#[cycle(value)]
fn part_in(alloc: Global, env: &Env, init: &Init, ty: &Ty, at: usize) -> Result<Part, Refusal>
    requires known { AreStructs env.now.scene.structs }
    requires heights { AreHeights env.now.scene.structs env.now.heights }
    ensures { Gives result (spec.value_as env.now init.now (spec.part_type env.now.scene ty.now at)) }
{
    let needed = part_type(alloc, &env.scene, ty, at)?;
    value_as(alloc, env, init, &needed)
}

/// The parts of a list of a type.
#[cycle(value)]
fn parts_in(alloc: Global, env: &Env, items: &[Init], ty: &Ty) -> Result<Parts, Refusal>
    requires known { AreStructs env.now.scene.structs }
    requires heights { AreHeights env.now.scene.structs env.now.heights }
    ensures { Gives result (spec.parts_from env.now.scene ty.now 0 (map (spec.value_as env.now) items.now)) }
{
    let mut found = List::new(alloc);
    for k in 0..items.len() {
        let x = part_in(alloc, env, &items[k], ty, k)?;
        found.push(x)?;
    }
    Ok(found)
}

/// How many parts a list has, as a word.
#[tactic(auto, unfolding(crate::specs::Initialisers::count_in))]
fn count_in(init: &Init) -> u32
    ensures { result ≡ spec.count_in init.now }
{
    match init {
        Init::Expr(_) => 0,
        Init::Braces(_, items) => items.len().min(u32::MAX as usize) as u32,
    }
}

/// The type that a list of so many parts is of, where a variable has a type.
fn needed(alloc: Global, ty: &Written, count: u32) -> Result<Ty, Memory>
    ensures { IfOk result (λ t. t ≡ spec.needed ty.now count) }
{
    match ty {
        Written::Whole(ty) => copy(alloc, ty),
        Written::Open(_, element) => {
            let element = copy(alloc, element)?;
            Ok(Ty::Array(Boxed::new(alloc, element)?, count))
        }
    }
}

/// The value of the initialiser of a variable of a type, not yet converted to it. A list where no composite is needed, or with a wrong
/// count of parts, is `E0505`, a part that does not convert `E0504`, at its `{`.
#[tactic(auto, unfolding(crate::specs::Initialisers::initial))]
pub fn initial(alloc: Global, env: &Env, ty: &Written, init: &Init) -> Result<Part, Refusal>
    requires known { AreStructs env.now.scene.structs }
    requires heights { AreHeights env.now.scene.structs env.now.heights }
    ensures { Gives result (spec.initial env.now ty.now init.now) }
{
    let needed = needed(alloc, ty, count_in(init))?;
    value_as(alloc, env, init, &needed)
}

/// The type of a variable that begins as a value: that which is written, and where its size is left out the size is that of the value.
fn sized_as(alloc: Global, ty: &Written, from: &Ty) -> Result<Option<Ty>, Memory>
    ensures { IfOk result (λ t. t ≡ spec.sized_as ty.now from.now) }
{
    match ty {
        Written::Whole(ty) => Ok(Some(copy(alloc, ty)?)),
        Written::Open(_, element) => match from {
            Ty::Array(_, count) => {
                let element = copy(alloc, element)?;
                Ok(Some(Ty::Array(Boxed::new(alloc, element)?, *count)))
            }
            _ => Ok(None),
        },
    }
}

/// The type of a variable that begins as a value; none where the value does not serve as one of that type.
#[tactic(auto, unfolding(crate::specs::Initialisers::begun_type))]
pub fn begun_type(alloc: Global, ty: &Written, x: &Part) -> Result<Option<Ty>, Memory>
    ensures { IfOk result (λ t. t ≡ spec.begun_type ty.now x.now) }
{
    match sized_as(alloc, ty, &x.expr.ty)? {
        Some(ty) => {
            if serves_as(&x.expr.ty, &ty) {
                Ok(Some(ty))
            } else {
                Ok(None)
            }
        }
        None => Ok(None),
    }
}

//! Local variables.

ghost use Rattle.std.specs.Prelude.{◌≡◌, IfOk};
ghost use Rattle.gsl_base.specs.Checked.{Gives, GivesBy};
ghost use Rattle.gsl_syntax.specs.declared.declaration.Declarator.TheVariants as declarator_of;
ghost use Rattle.gsl_types.specs.Known.{AreStructs};
ghost use Rattle.gsl_makers.specs.Heights.{AreHeights};
ghost use Rattle.gsl_check_decl.specs.Locals as spec;

use crate::asked::{is_declared, is_high, is_reserved, may_be_had};
use crate::sound::SoundEnv;
use crate::structs::declared_whole;
use gsl_base::{Code, Memory, Place, Refusal};
use gsl_check_expr::{Env, Written, begun_type, declared, initial, taken_expression};
use gsl_fold::constant;
use gsl_syntax::{Declarator, Dim, Init, Lay, Name, Qual};
use gsl_tree::{Expr, Folded, Stmt};
use gsl_types::Ty;
use gsl_typing::{Part, Scene, as_type, is_unread, refuse};
use std::alloc::Global;

/// The fault of a layout value whose name may not stand there.
pub fn refused_value(alloc: Global, scene: &Scene, place: Place, x: &Part) -> Result<bool, Refusal>
    ensures { Gives result (spec.refused_value scene.now place x.now) }
{
    if is_unread(scene, x) {
        return Err(refuse(place, Code::E0507));
    }
    match constant(alloc, &scene.structs, &scene.consts, &x.expr)? {
        Folded::Known(_) => Err(refuse(place, Code::E0704)),
        Folded::NotConstant => Err(refuse(place, Code::E0601)),
        Folded::Free => Err(refuse(place, Code::E0602)),
    }
}

/// The fault of the layout names before a local variable.
pub fn refused_layout(
    alloc: Global,
    env: &Env,
    place: Place,
    items: &[Lay],
) -> Result<bool, Refusal>
    requires known { AreStructs env.now.scene.structs }
    requires heights { AreHeights env.now.scene.structs env.now.heights }
    ensures { Gives result (spec.refused_layout env.now place items.now) }
{
    if items.is_empty() {
        return Err(refuse(place, Code::E0701));
    }
    match &items[0] {
        Lay::Flag(name) => Err(refuse(name.place, Code::E0704)),
        Lay::Value(name, e) => {
            let x = taken_expression(alloc, env, e)?;
            refused_value(alloc, &env.scene, name.place, &x)
        }
    }
}

/// Whether a qualifier before local variables is `const`, or its fault.
pub fn qualified_by(alloc: Global, env: &Env, fixed: bool, qual: &Qual) -> Result<bool, Refusal>
    requires known { AreStructs env.now.scene.structs }
    requires heights { AreHeights env.now.scene.structs env.now.heights }
    ensures { Gives result (spec.qualified_by env.now fixed qual.now) }
{
    match qual {
        Qual::Const(place) => {
            if fixed {
                return Err(refuse(*place, Code::E0701));
            }
            Ok(true)
        }
        Qual::In(place)
        | Qual::Out(place)
        | Qual::Inout(place)
        | Qual::Uniform(place)
        | Qual::Buffer(place)
        | Qual::Flat(place)
        | Qual::Coherent(place)
        | Qual::Volatile(place)
        | Qual::Restrict(place)
        | Qual::Readonly(place)
        | Qual::Writeonly(place) => Err(refuse(*place, Code::E0701)),
        Qual::Layout(place, items) => refused_layout(alloc, env, *place, items.as_slice()),
    }
}

/// Whether local variables are `const`, by their qualifiers.
#[tactic(auto, unfolding(crate::specs::Locals::qualified))]
pub fn qualified(alloc: Global, env: &Env, quals: &[Qual]) -> Result<bool, Refusal>
    requires known { AreStructs env.now.scene.structs }
    requires heights { AreHeights env.now.scene.structs env.now.heights }
    ensures { Gives result (spec.qualified env.now quals.now) }
{
    let mut fixed = false;
    for k in 0..quals.len() {
        fixed = qualified_by(alloc, env, fixed, &quals[k])?;
    }
    Ok(fixed)
}

/// Whether a variable that begins as zeros may be declared.
#[tactic(auto, unfolding(crate::specs::Locals::may_be_plain))]
pub fn may_be_plain(env: &Env, fixed: bool, name: &Name, ty: &Ty) -> Result<(), Refusal>
    requires heights { AreHeights env.now.scene.structs env.now.heights }
    ensures { Gives result (spec.may_be_plain fixed name.now ty.now env.now) }
{
    if is_declared(env, &name.text) {
        return Err(refuse(name.place, Code::E0403));
    }
    if is_reserved(&name.text) {
        return Err(refuse(name.place, Code::E0404));
    }
    if !may_be_had(&env.scene, ty) {
        return Err(refuse(name.place, Code::E0510));
    }
    if fixed {
        return Err(refuse(name.place, Code::E0604));
    }
    if is_high(env, ty) {
        return Err(refuse(name.place, Code::E0908));
    }
    Ok(())
}

/// A variable that begins as zeros.
#[tactic(auto, unfolding(crate::specs::Locals::plain_variable))]
pub fn plain_variable(
    alloc: Global,
    fixed: bool,
    name: &Name,
    ty: Ty,
    env: &mut SoundEnv,
) -> Result<Stmt, Refusal>
    ensures { GivesBy (λ s. (s, env.new)) result (spec.plain_variable fixed name.now ty env.old) }
{
    may_be_plain(env.get(), fixed, name, &ty)?;
    let number = env.declare_local(alloc, false, &name.text, ty, Folded::NotConstant)?;
    Ok(Stmt::Declare(number, None))
}

/// What is known of a variable that begins as an expression.
pub fn known_as(alloc: Global, scene: &Scene, fixed: bool, e: &Expr) -> Result<Folded, Memory>
    ensures { IfOk result (λ f. f ≡ spec.known_as scene.now fixed e.now) }
{
    if fixed {
        return constant(alloc, &scene.structs, &scene.consts, e);
    }
    Ok(Folded::NotConstant)
}

/// A variable of a type that begins as an expression of its type.
#[tactic(auto, unfolding(crate::specs::Locals::set_variable))]
pub fn set_variable(
    alloc: Global,
    fixed: bool,
    name: &Name,
    ty: Ty,
    e: Expr,
    env: &mut SoundEnv,
) -> Result<Stmt, Refusal>
    ensures { GivesBy (λ s. (s, env.new)) result (spec.set_variable fixed name.now ty e env.old) }
{
    let folded = known_as(alloc, &env.get().scene, fixed, &e)?;
    let number = env.declare_local(alloc, fixed, &name.text, ty, folded)?;
    Ok(Stmt::Declare(number, Some(e)))
}

/// The type of a variable that begins as a value, if it may.
#[tactic(auto, unfolding(crate::specs::Locals::may_begin))]
pub fn may_begin(
    alloc: Global,
    env: &Env,
    name: &Name,
    written: &Written,
    x: &Part,
) -> Result<Ty, Refusal>
    requires heights { AreHeights env.now.scene.structs env.now.heights }
    ensures { Gives result (spec.may_begin name.now written.now x.now env.now) }
{
    if is_declared(env, &name.text) {
        return Err(refuse(name.place, Code::E0403));
    }
    if is_reserved(&name.text) {
        return Err(refuse(name.place, Code::E0404));
    }
    let ty = match begun_type(alloc, written, x)? {
        Some(ty) => ty,
        None => return Err(refuse(name.place, Code::E0504)),
    };
    if is_unread(&env.scene, x) {
        return Err(refuse(name.place, Code::E0507));
    }
    if !may_be_had(&env.scene, &ty) {
        return Err(refuse(name.place, Code::E0510));
    }
    if is_high(env, &ty) {
        return Err(refuse(name.place, Code::E0908));
    }
    Ok(ty)
}

/// A variable that begins as a value, which is converted to its type.
#[tactic(auto, unfolding(crate::specs::Locals::begun_variable))]
pub fn begun_variable(
    alloc: Global,
    fixed: bool,
    name: &Name,
    written: &Written,
    x: Part,
    env: &mut SoundEnv,
) -> Result<Stmt, Refusal>
    ensures { GivesBy (λ s. (s, env.new)) result (spec.begun_variable fixed name.now written.now x env.old) }
{
    let ty = may_begin(alloc, env.get(), name, written, &x)?;
    let e = as_type(alloc, &ty, x.expr)?;
    set_variable(alloc, fixed, name, ty, e, env)
}

/// A variable with its brackets and its initialiser.
fn initialised(
    alloc: Global,
    fixed: bool,
    base: &Written,
    name: &Name,
    dims: &[Dim],
    init: &Init,
    env: &mut SoundEnv,
) -> Result<Stmt, Refusal>
    ensures { GivesBy (λ s. (s, env.new)) result (spec.declarator_by fixed base.now (declarator_of.Initialised name.now dims.now init.now) env.old) }
{
    let ty = declared(alloc, env.get(), base, dims)?;
    let x = initial(alloc, env.get(), &ty, init)?;
    begun_variable(alloc, fixed, name, &ty, x, env)
}

/// One variable: its brackets, its initialiser, and then the variable.
#[tactic(auto, unfolding(crate::specs::Locals::declarator))]
pub fn declarator(
    alloc: Global,
    fixed: bool,
    base: &Written,
    d: &Declarator,
    env: &mut SoundEnv,
) -> Result<Stmt, Refusal>
    ensures { GivesBy (λ s. (s, env.new)) result (spec.declarator fixed base.now d.now env.old) }
{
    match d {
        Declarator::Plain(name, dims) => {
            let ty = declared_whole(alloc, env.get(), base, dims.as_slice())?;
            plain_variable(alloc, fixed, name, ty, env)
        }
        Declarator::Initialised(name, dims, init) => {
            initialised(alloc, fixed, base, name, dims.as_slice(), init, env)
        }
    }
}

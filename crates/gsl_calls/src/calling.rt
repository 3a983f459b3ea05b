//! Calls of functions over typed arguments.

ghost use Rattle.std.specs.Prelude.{◌≡◌, [], map, slice_index_or, IfOk};
ghost use Rattle.gsl_base.specs.Checked.{Gives};
ghost use Rattle.gsl_tree.specs.Expressions as tree_spec;
ghost use Rattle.gsl_overload.specs.Best.{chosen};
ghost use Rattle.gsl_typing.specs.Scene.{made as made_of};
ghost use Rattle.gsl_calls.specs.Calls as spec;

use crate::families::candidates;
use crate::results::built_shape;
use gsl_base::{Code, List, Memory, Place, Refusal};
use gsl_makers::Queue;
use gsl_overload::{Choice, Params, Signatures, choose};
use gsl_tree::{Expr, ExprKind, Exprs};
use gsl_types::{Direction, Ty, Types};
use gsl_typing::{
    Part, Scene, Shape, as_type, copy, is_unread, is_writable, of_shape, refuse, shape_of,
};
use gsl_values::Builtin;
use std::alloc::Global;

/// The types of arguments.
fn types_in(alloc: Global, args: &[Part]) -> Result<Types, Memory>
    ensures { IfOk result (λ types. types ≡ spec.types_in args.now) }
{
    let mut types = List::new(alloc);
    for k in 0..args.len() {
        types.push(copy(alloc, &args[k].expr.ty)?)?;
    }
    Ok(types)
}

/// Whether an argument may not be used so: what goes in is read, and what comes out is written.
fn is_misused(scene: &Scene, way: Direction, arg: &Part) -> bool
    ensures { result ≡ spec.is_misused scene.now way arg.now }
{
    match way {
        Direction::In => is_unread(scene, arg),
        Direction::Out => !is_writable(scene, arg),
        Direction::InOut => !is_writable(scene, arg) || is_unread(scene, arg),
    }
}

fn any_misused(scene: &Scene, params: &[(Direction, Ty)], args: &[Part]) -> bool
    ensures { result ≡ spec.any_misused scene.now params.now args.now }
{
    for k in 0..args.len() {
        if k >= params.len() {
            return false;
        }
        if is_misused(scene, params[k].0, &args[k]) {
            return true;
        }
    }
    false
}

/// What goes in is converted to the parameter's type; what comes out is converted where it comes back.
fn as_argument(alloc: Global, way: Direction, ty: &Ty, arg: Expr) -> Result<Expr, Memory>
    ensures { IfOk result (λ e. e ≡ spec.as_argument (way, ty.now) arg) }
{
    match way {
        Direction::In => as_type(alloc, ty, arg),
        Direction::Out | Direction::InOut => Ok(arg),
    }
}

fn as_arguments(
    alloc: Global,
    params: &[(Direction, Ty)],
    args: List<Part>,
) -> Result<Exprs, Memory>
    ensures { IfOk result (λ es. es ≡ spec.as_arguments params.now args) }
{
    let mut given = List::new(alloc);
    let mut left = Queue::new(args);
    for k in 0..params.len() {
        match left.next() {
            Some(arg) => given.push(as_argument(alloc, params[k].0, &params[k].1, arg.expr)?)?,
            None => return Ok(given),
        }
    }
    Ok(given)
}

/// The parameters of the function of a prototype.
fn params_of(scene: &Scene, number: u32) -> &[(Direction, Ty)]
    ensures { result.now ≡ spec.params_of scene.now number }
{
    if (number as usize) < scene.prototypes.len() {
        scene.prototypes[number as usize].params.as_slice()
    } else {
        &[]
    }
}

fn copied(alloc: Global, params: &[(Direction, Ty)]) -> Result<Params, Memory>
    ensures { IfOk result (λ l. l ≡ params.now) }
{
    let mut list = List::new(alloc);
    for k in 0..params.len() {
        list.push((params[k].0, copy(alloc, &params[k].1)?))?;
    }
    Ok(list)
}

fn signatures(alloc: Global, scene: &Scene, numbers: &[u32]) -> Result<Signatures, Memory>
    ensures { IfOk result (λ l. l ≡ map (spec.params_of scene.now) numbers.now) }
{
    let mut list = List::new(alloc);
    for k in 0..numbers.len() {
        list.push(copied(alloc, params_of(scene, numbers[k]))?)?;
    }
    Ok(list)
}

/// The type of a call of the function of a prototype.
fn result_of(alloc: Global, scene: &Scene, number: u32) -> Result<Ty, Memory>
    ensures { IfOk result (λ t. t ≡ spec.result_of scene.now number) }
{
    if (number as usize) < scene.prototypes.len() {
        copy(alloc, &scene.prototypes[number as usize].result)
    } else {
        Ok(Ty::Void)
    }
}

fn made(place: Place, ty: Ty, kind: ExprKind) -> Part
    ensures { result ≡ made_of place ty kind }
{
    Part {
        expr: Expr { ty, place, kind },
        fixed: false,
    }
}

/// A call of the function of a prototype, which fits.
#[tactic(auto, unfolding(crate::specs::Calls::call_of))]
fn call_of(
    alloc: Global,
    scene: &Scene,
    place: Place,
    number: u32,
    args: List<Part>,
) -> Result<Part, Refusal>
    ensures { Gives result (spec.call_of scene.now place number args) }
{
    let params = params_of(scene, number);
    if any_misused(scene, params, args.as_slice()) {
        return Err(refuse(place, Code::E0507));
    }
    let args = as_arguments(alloc, params, args)?;
    let ty = result_of(alloc, scene, number)?;
    Ok(made(place, ty, ExprKind::Call(number, args)))
}

fn number_at(numbers: &[u32], at: usize) -> u32
    ensures { result ≡ slice_index_or numbers.now at 0 }
{
    if at >= numbers.len() {
        return 0;
    }
    numbers[at]
}

/// The candidate that a call chooses.
fn choice(
    alloc: Global,
    candidates: &Signatures,
    args: &[Part],
) -> Result<Result<usize, Choice>, Memory>
    ensures { IfOk result (λ c. c ≡ chosen candidates.now (spec.types_in args.now)) }
{
    let types = types_in(alloc, args)?;
    Ok(choose(candidates, &types))
}

/// A call of one of the functions of a name, by the numbers of their prototypes.
#[tactic(auto, unfolding(crate::specs::Calls::call))]
pub fn call(
    alloc: Global,
    scene: &Scene,
    place: Place,
    numbers: &[u32],
    args: List<Part>,
) -> Result<Part, Refusal>
    ensures { Gives result (spec.call scene.now place numbers.now args) }
{
    let list = signatures(alloc, scene, numbers)?;
    match choice(alloc, &list, args.as_slice())? {
        Err(Choice::NoMatch) => Err(refuse(place, Code::E0501)),
        Err(Choice::Ambiguous) => Err(refuse(place, Code::E0502)),
        Ok(at) => call_of(alloc, scene, place, number_at(numbers, at), args),
    }
}

/// The shapes of expressions that are all scalars or vectors.
#[tactic(auto, using(gsl_makers::proofs::Loops::behind_more, gsl_makers::proofs::Loops::behind_none))]
fn shapes_in(alloc: Global, args: &[Expr]) -> Result<Option<List<Shape>>, Memory>
    ensures { IfOk result (λ shapes. shapes ≡ tree_spec.shapes_of args.now) }
{
    let mut shapes = List::new(alloc);
    for k in 0..args.len() {
        match shape_of(&args[k].ty) {
            Some(shape) => shapes.push(shape)?,
            None => return Ok(None),
        }
    }
    Ok(Some(shapes))
}

fn type_of_shape(shape: Option<Shape>) -> Ty
    ensures { result ≡ spec.type_of_shape shape }
{
    match shape {
        Some(shape) => of_shape(shape),
        None => Ty::Void,
    }
}

/// The type of a call of a built-in function on arguments that are converted.
fn built_type(alloc: Global, which: Builtin, args: &[Expr]) -> Result<Ty, Memory>
    ensures { IfOk result (λ t. t ≡ spec.built_type which args.now) }
{
    match shapes_in(alloc, args)? {
        Some(shapes) => Ok(type_of_shape(built_shape(which, shapes.as_slice()))),
        None => Ok(Ty::Void),
    }
}

/// A call of a built-in function with these parameters, which fit.
#[tactic(auto, unfolding(crate::specs::Calls::built_of))]
fn built_of(
    alloc: Global,
    scene: &Scene,
    place: Place,
    which: Builtin,
    params: &[(Direction, Ty)],
    args: List<Part>,
) -> Result<Part, Refusal>
    ensures { Gives result (spec.built_of scene.now place which params.now args) }
{
    if any_misused(scene, params, args.as_slice()) {
        return Err(refuse(place, Code::E0507));
    }
    let args = as_arguments(alloc, params, args)?;
    let ty = built_type(alloc, which, args.as_slice())?;
    Ok(made(place, ty, ExprKind::Built(which, args)))
}

fn signature_at(list: &Signatures, at: usize) -> &[(Direction, Ty)]
    ensures { result.now ≡ slice_index_or list.now at [] }
{
    if at < list.len() {
        list[at].as_slice()
    } else {
        &[]
    }
}

/// A call of a built-in function.
#[tactic(auto, unfolding(crate::specs::Calls::built))]
pub fn built(
    alloc: Global,
    scene: &Scene,
    place: Place,
    which: Builtin,
    args: List<Part>,
) -> Result<Part, Refusal>
    ensures { Gives result (spec.built scene.now place which args) }
{
    let list = candidates(alloc, which)?;
    match choice(alloc, &list, args.as_slice())? {
        Err(Choice::NoMatch) => Err(refuse(place, Code::E0501)),
        Err(Choice::Ambiguous) => Err(refuse(place, Code::E0502)),
        Ok(at) => built_of(alloc, scene, place, which, signature_at(&list, at), args),
    }
}

//! Constructors and initialiser lists over typed parts.

ghost use Rattle.std.specs.Prelude.{◌≡◌, IfOk};
ghost use Rattle.gsl_base.specs.Checked.{Gives};
ghost use Rattle.gsl_makers.specs.Constructors as spec;
ghost use Rattle.gsl_makers.specs.Heights.{AreHeights};

use crate::heights::{Heights, is_low};
use crate::queue::Queue;
use crate::supplies::{is_one, shapes_in, supply};
use gsl_base::{Code, List, Memory, Place, Refusal};
use gsl_tree::{Expr, ExprKind, Exprs};
use gsl_types::{Member, Ty};
use gsl_typing::{Part, Scene, as_type, is_unread, refuse, serves_as};
use std::alloc::Global;

/// Typed parts in their order.
pub type Parts = List<Part>;

/// Whether each argument serves as an element.
fn all_serve(element: &Ty, args: &[Part]) -> bool
    ensures { result ≡ spec.all_serve element.now args.now }
{
    for k in 0..args.len() {
        if !serves_as(&args[k].expr.ty, element) {
            return false;
        }
    }
    true
}

/// Whether each argument serves as the member at its place, as far as there is one for each.
#[tactic(auto, using(crate::proofs::Loops::none_serves))]
fn each_serves(members: &[Member], args: &[Part]) -> bool
    ensures { result ≡ spec.each_serves members.now args.now }
{
    for k in 0..args.len() {
        if k >= members.len() {
            return true;
        }
        if !serves_as(&args[k].expr.ty, &members[k].ty) {
            return false;
        }
    }
    true
}

/// The arguments where elements are needed.
fn as_elements(alloc: Global, element: &Ty, args: Parts) -> Result<Exprs, Memory>
    ensures { IfOk result (λ es. es ≡ spec.as_elements element.now args) }
{
    let mut given = List::new(alloc);
    let mut left = Queue::new(args);
    'each: while let Some(arg) = left.next() {
        given.push(as_type(alloc, element, arg.expr)?)?;
    }
    Ok(given)
}

/// The arguments where members are needed.
#[tactic(auto, using(crate::proofs::Loops::none_converted))]
fn as_members(alloc: Global, members: &[Member], args: Parts) -> Result<Exprs, Memory>
    ensures { IfOk result (λ es. es ≡ spec.as_members members.now args) }
{
    let mut given = List::new(alloc);
    let mut left = Queue::new(args);
    for k in 0..members.len() {
        match left.next() {
            Some(arg) => given.push(as_type(alloc, &members[k].ty, arg.expr)?)?,
            None => return Ok(given),
        }
    }
    Ok(given)
}

/// The expressions of parts.
fn exprs_in(alloc: Global, args: Parts) -> Result<Exprs, Memory>
    ensures { IfOk result (λ es. es ≡ spec.exprs_in args) }
{
    let mut given = List::new(alloc);
    let mut left = Queue::new(args);
    'each: while let Some(arg) = left.next() {
        given.push(arg.expr)?;
    }
    Ok(given)
}

/// The members of a struct by number.
fn members_of(scene: &Scene, number: u32) -> &[Member]
    ensures { result.now ≡ spec.members_of scene.now number }
{
    if (number as usize) < scene.structs.len() {
        scene.structs[number as usize].members.as_slice()
    } else {
        &[]
    }
}

/// Whether each argument of an array or a struct serves as its part.
#[tactic(auto, unfolding(crate::specs::Constructors::serve))]
fn parts_serve(scene: &Scene, ty: &Ty, args: &[Part]) -> bool
    ensures { result ≡ spec.serve scene.now ty.now args.now }
{
    match ty {
        Ty::Array(element, _) => all_serve(element.get(), args),
        Ty::Struct(number) => each_serves(members_of(scene, *number), args),
        _ => true,
    }
}

/// Whether the arguments are as many as a type asks for, and supply its components.
#[tactic(auto, unfolding(crate::specs::Constructors::count))]
fn parts_count(alloc: Global, scene: &Scene, ty: &Ty, args: &[Part]) -> Result<bool, Memory>
    ensures { IfOk result (λ counts. counts ≡ spec.count scene.now ty.now args.now) }
{
    match ty {
        Ty::One(_) => Ok(is_one(&shapes_in(alloc, args)?)),
        Ty::Vector(_, count) => Ok(supply(*count, &shapes_in(alloc, args)?)),
        Ty::Array(_, count) => Ok(args.len() == *count as usize && *count != 0),
        Ty::Struct(number) => {
            Ok(args.len() == members_of(scene, *number).len() && args.len() != 0)
        }
        Ty::Void | Ty::Runtime(_) => Ok(true),
    }
}

/// The arguments as the tree has them.
#[tactic(auto, unfolding(crate::specs::Constructors::converted))]
fn converted(alloc: Global, scene: &Scene, ty: &Ty, args: Parts) -> Result<Exprs, Memory>
    ensures { IfOk result (λ es. es ≡ spec.converted scene.now ty.now args) }
{
    match ty {
        Ty::Array(element, _) => as_elements(alloc, element.get(), args),
        Ty::Struct(number) => as_members(alloc, members_of(scene, *number), args),
        _ => exprs_in(alloc, args),
    }
}

/// Whether one of the arguments may not be read.
#[tactic(auto, unfolding(crate::specs::Constructors::any_unread))]
fn any_unread(scene: &Scene, args: &[Part]) -> bool
    ensures { result ≡ spec.any_unread scene.now args.now }
{
    args.iter().any(|arg| is_unread(scene, arg))
}

/// Whether no `void` and no runtime array stands in a type.
#[tactic(auto, unfolding(crate::specs::Constructors::plain))]
fn plain(ty: &Ty) -> bool
    ensures { result ≡ spec.plain ty.now }
{
    match ty {
        Ty::Void | Ty::Runtime(_) => false,
        Ty::One(_) | Ty::Vector(_, _) | Ty::Struct(_) => true,
        Ty::Array(element, _) => plain(element.get()),
    }
}

/// Whether a type is too high, or has too many arguments.
#[tactic(auto, unfolding(crate::specs::Constructors::is_too_large))]
fn is_too_large(scene: &Scene, heights: &Heights, ty: &Ty, args: &[Part]) -> bool
    requires heights { AreHeights scene.now.structs heights.now }
    ensures { result ≡ spec.is_too_large scene.now ty.now args.now }
{
    !is_low(&scene.structs, heights, ty, 64) || args.len() > 16383
}

/// The fault of a constructor of a type on these arguments, if it has one.
#[tactic(auto, unfolding(crate::specs::Constructors::buildable))]
fn buildable(
    alloc: Global,
    scene: &Scene,
    heights: &Heights,
    place: Place,
    ty: &Ty,
    args: &[Part],
) -> Result<(), Refusal>
    requires heights { AreHeights scene.now.structs heights.now }
    ensures { Gives result (spec.buildable scene.now place ty.now args.now) }
{
    if !parts_serve(scene, ty, args) {
        return Err(refuse(place, Code::E0504));
    }
    if !parts_count(alloc, scene, ty, args)? {
        return Err(refuse(place, Code::E0505));
    }
    if any_unread(scene, args) {
        return Err(refuse(place, Code::E0507));
    }
    if !plain(ty) {
        return Err(refuse(place, Code::E0510));
    }
    if is_too_large(scene, heights, ty, args) {
        return Err(refuse(place, Code::E0908));
    }
    Ok(())
}

/// A constructor of a type, or an initialiser list where that type is needed.
#[tactic(auto, unfolding(crate::specs::Constructors::build))]
pub fn build(
    alloc: Global,
    scene: &Scene,
    heights: &Heights,
    place: Place,
    ty: Ty,
    args: Parts,
) -> Result<Part, Refusal>
    requires heights { AreHeights scene.now.structs heights.now }
    ensures { Gives result (spec.build scene.now place ty args) }
{
    buildable(alloc, scene, heights, place, &ty, args.as_slice())?;
    let args = converted(alloc, scene, &ty, args)?;
    Ok(Part {
        expr: Expr {
            ty,
            place,
            kind: ExprKind::Build(args),
        },
        fixed: false,
    })
}

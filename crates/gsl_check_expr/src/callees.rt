//! What calls mean once their brackets and arguments are known.

ghost use Rattle.std.specs.Prelude.{◌≡◌, Some, IfOk};
ghost use Rattle.gsl_base.specs.Checked.{Gives};
ghost use Rattle.gsl_makers.specs.Heights.{AreHeights};
ghost use Rattle.gsl_check_expr.specs.Callees as spec;

use crate::brackets::{Dimensions, is_plain_name, with_dimensions};
use crate::env::Env;
use gsl_base::{Code, List, Memory, Place, Refusal, Text};
use gsl_calls::{built, call};
use gsl_makers::{Parts, build};
use gsl_names::Entry;
use gsl_syntax::Basic;
use gsl_types::{Scalar, Ty};
use gsl_typing::{Part, refuse};
use std::alloc::Global;

/// The type that a keyword names.
pub fn basic_type(basic: Basic) -> Ty
    ensures { result ≡ spec.basic_type basic }
{
    match basic {
        Basic::Void => Ty::Void,
        Basic::Bool => Ty::One(Scalar::Bool),
        Basic::Int => Ty::One(Scalar::Int),
        Basic::Uint => Ty::One(Scalar::Uint),
        Basic::Bvec2 => Ty::Vector(Scalar::Bool, 2),
        Basic::Bvec3 => Ty::Vector(Scalar::Bool, 3),
        Basic::Bvec4 => Ty::Vector(Scalar::Bool, 4),
        Basic::Ivec2 => Ty::Vector(Scalar::Int, 2),
        Basic::Ivec3 => Ty::Vector(Scalar::Int, 3),
        Basic::Ivec4 => Ty::Vector(Scalar::Int, 4),
        Basic::Uvec2 => Ty::Vector(Scalar::Uint, 2),
        Basic::Uvec3 => Ty::Vector(Scalar::Uint, 3),
        Basic::Uvec4 => Ty::Vector(Scalar::Uint, 4),
    }
}

/// The prototypes among what the declarations of a name stand for.
fn functions_in(alloc: Global, entries: &[Entry]) -> Result<List<u32>, Memory>
    ensures { IfOk result (λ numbers. numbers ≡ spec.functions_in entries.now) }
{
    let mut numbers = List::new(alloc);
    for k in 0..entries.len() {
        match entries[k] {
            Entry::Function(number) => numbers.push(number)?,
            Entry::Local(_, _)
            | Entry::Param(_, _)
            | Entry::Global(_)
            | Entry::Member(_, _)
            | Entry::Instance(_)
            | Entry::Block(_)
            | Entry::Interface(_)
            | Entry::Struct(_)
            | Entry::Builtin(_)
            | Entry::Stage(_)
            | Entry::Size => {}
        }
    }
    Ok(numbers)
}

/// A constructor of a type with brackets.
fn constructor(
    alloc: Global,
    env: &Env,
    place: Place,
    dims: &Dimensions,
    element: Ty,
    args: Parts,
) -> Result<Part, Refusal>
    requires heights { AreHeights env.now.scene.structs env.now.heights }
    ensures { Gives result (spec.constructor env.now place dims.now element args) }
{
    let ty = with_dimensions(alloc, count_of(&args), dims, element)?;
    build(alloc, &env.scene, &env.heights, place, ty, args)
}

/// How many arguments there are, as a word.
fn count_of(args: &Parts) -> u32
    ensures { result ≡ spec.count_of args.now }
{
    args.len().min(u32::MAX as usize) as u32
}

/// A call of functions of the unit.
fn functions(
    alloc: Global,
    env: &Env,
    place: Place,
    name: &Text,
    args: Parts,
) -> Result<Part, Refusal>
    ensures { Gives result (spec.functions env.now place name.now args) }
{
    let entries = env.names.find_all(alloc, name)?;
    let numbers = functions_in(alloc, entries.as_slice())?;
    call(alloc, &env.scene, place, numbers.as_slice(), args)
}

fn called_entry(
    alloc: Global,
    env: &Env,
    place: Place,
    name: &Text,
    dims: &Dimensions,
    args: Parts,
    entry: Entry,
) -> Result<Part, Refusal>
    requires heights { AreHeights env.now.scene.structs env.now.heights }
    ensures { Gives result (spec.called_entry env.now place name.now dims.now args (Some entry)) }
{
    match entry {
        Entry::Struct(number) => constructor(alloc, env, place, dims, Ty::Struct(number), args),
        Entry::Function(_) => {
            if is_plain_name(dims) {
                functions(alloc, env, place, name, args)
            } else {
                Err(refuse(place, Code::E0402))
            }
        }
        Entry::Builtin(which) => {
            if is_plain_name(dims) {
                built(alloc, &env.scene, place, which, args)
            } else {
                Err(refuse(place, Code::E0402))
            }
        }
        Entry::Local(_, _)
        | Entry::Param(_, _)
        | Entry::Global(_)
        | Entry::Member(_, _)
        | Entry::Instance(_)
        | Entry::Block(_)
        | Entry::Interface(_)
        | Entry::Stage(_)
        | Entry::Size => Err(refuse(place, Code::E0402)),
    }
}

/// A call of a name, once its brackets and its arguments are known.
#[tactic(auto, unfolding(crate::specs::Callees::called))]
pub fn called_name(
    alloc: Global,
    env: &Env,
    place: Place,
    name: &Text,
    dims: &Dimensions,
    args: Parts,
) -> Result<Part, Refusal>
    requires heights { AreHeights env.now.scene.structs env.now.heights }
    ensures { Gives result (spec.called env.now place (spec.Name name.now) dims.now args) }
{
    match env.names.find(name) {
        Some(entry) => called_entry(alloc, env, place, name, dims, args, entry),
        None => Err(refuse(place, Code::E0401)),
    }
}

/// A call of a type keyword, once its brackets and its arguments are known.
#[tactic(auto, unfolding(crate::specs::Callees::called))]
pub fn called_type(
    alloc: Global,
    env: &Env,
    place: Place,
    basic: Basic,
    dims: &Dimensions,
    args: Parts,
) -> Result<Part, Refusal>
    requires heights { AreHeights env.now.scene.structs env.now.heights }
    ensures { Gives result (spec.called env.now place (spec.Keyword basic) dims.now args) }
{
    constructor(alloc, env, place, dims, basic_type(basic), args)
}

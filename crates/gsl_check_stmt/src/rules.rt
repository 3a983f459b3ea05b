//! The rules of single statements over typed parts.

ghost use Rattle.std.specs.Prelude.{◌≡◌};
ghost use Rattle.gsl_base.specs.Checked.{Gives};
ghost use Rattle.gsl_types.specs.Known.{AreStructs};
ghost use Rattle.gsl_check_stmt.specs.Rules as spec;

use crate::within::Within;
use gsl_base::{Code, Place, Refusal, Stage};
use gsl_check_decl::is_void;
use gsl_tree::{Expr, Stmt};
use gsl_types::Ty;
use gsl_typing::{Part, Scene, as_type, is_bool, is_runtime, is_unread, refuse, serves_as, whole};
use std::alloc::Global;

/// An expression that stands alone.
#[tactic(auto, unfolding(crate::specs::Rules::alone))]
pub fn alone(scene: &Scene, x: Part) -> Result<Part, Refusal>
    requires known { AreStructs scene.now.structs }
    ensures { Gives result (spec.alone scene.now x) }
{
    if is_unread(scene, &x) {
        return Err(refuse(x.expr.place, Code::E0507));
    }
    if is_runtime(&x) {
        return Err(refuse(x.expr.place, Code::E0510));
    }
    whole(scene, x)
}

/// The fault of a condition, if it has one.
#[tactic(auto, unfolding(crate::specs::Rules::condition_fault))]
pub fn condition_fault(scene: &Scene, test: &Part) -> Option<Code>
    ensures { result ≡ spec.condition_fault scene.now test.now }
{
    if !is_bool(test) {
        Some(Code::E0503)
    } else if is_unread(scene, test) {
        Some(Code::E0507)
    } else {
        None
    }
}

#[tactic(auto, unfolding(crate::specs::Rules::broken))]
pub fn broken(within: Within, place: Place) -> Result<Stmt, Refusal>
    ensures { Gives result (spec.broken within place) }
{
    if !within.breaks {
        return Err(refuse(place, Code::E0512));
    }
    Ok(Stmt::Break)
}

#[tactic(auto, unfolding(crate::specs::Rules::continued))]
pub fn continued(within: Within, place: Place) -> Result<Stmt, Refusal>
    ensures { Gives result (spec.continued within place) }
{
    if !within.continues {
        return Err(refuse(place, Code::E0512));
    }
    Ok(Stmt::Continue)
}

#[tactic(auto, unfolding(crate::specs::Rules::discarded))]
pub fn discarded(stage: Stage, place: Place) -> Result<Stmt, Refusal>
    ensures { Gives result (spec.discarded stage place) }
{
    match stage {
        Stage::Fragment => Ok(Stmt::Discard),
        Stage::Vertex | Stage::Compute => Err(refuse(place, Code::E0514)),
    }
}

/// `return` without a value.
#[tactic(auto, unfolding(crate::specs::Rules::returned))]
pub fn returned(returns: &Ty, place: Place) -> Result<Stmt, Refusal>
    ensures { Gives result (spec.returned returns.now place) }
{
    if !is_void(returns) {
        return Err(refuse(place, Code::E0513));
    }
    Ok(Stmt::Return(None))
}

/// `return` with a value.
#[tactic(auto, unfolding(crate::specs::Rules::returned_value))]
pub fn returned_value(
    alloc: Global,
    scene: &Scene,
    returns: &Ty,
    place: Place,
    x: Part,
) -> Result<Stmt, Refusal>
    ensures { Gives result (spec.returned_value scene.now returns.now place x) }
{
    if !is_void(returns) && !serves_as(&x.expr.ty, returns) {
        return Err(refuse(place, Code::E0504));
    }
    if is_unread(scene, &x) {
        return Err(refuse(place, Code::E0507));
    }
    if is_void(returns) {
        return Err(refuse(place, Code::E0513));
    }
    Ok(Stmt::Return(Some(as_type(alloc, returns, x.expr)?)))
}

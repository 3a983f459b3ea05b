//! Types that stand in declarations.

ghost use Rattle.std.specs.Prelude.{map};
ghost use Rattle.gsl_base.specs.Checked.{Gives};
ghost use Rattle.gsl_types.specs.Known.{AreStructs};
ghost use Rattle.gsl_makers.specs.Heights.{AreHeights};
ghost use Rattle.gsl_check_expr.specs.Expressions.{bracket, callee};
ghost use Rattle.gsl_check_expr.specs.Written as spec;

use crate::callees::basic_type;
use crate::env::Env;
use crate::walking::{brackets, dimensions};
use crate::writing::{Written, bracketed, named_by, struct_type};
use gsl_base::Refusal;
use gsl_syntax::{Dim, TypeSpec};
use gsl_types::Ty;
use std::alloc::Global;

/// What stands before the brackets of a type.
#[tactic(auto, using(crate::proofs::Steps::steps), unfolding(crate::specs::Written::base_type))]
fn base_type(env: &Env, ty: &TypeSpec) -> Result<Ty, Refusal>
    ensures { Gives result (spec.base_type env.now (callee env.now ty.now).place (callee env.now ty.now).base) }
{
    match ty {
        TypeSpec::Basic(_, basic, _) => Ok(basic_type(*basic)),
        TypeSpec::Named(place, name, _) => struct_type(env, *place, name),
    }
}

/// The type that stands before the names of a declaration: its brackets, and then its name. A name that is unknown is `E0401`, one
/// of no struct `E0402`.
#[tactic(auto, unfolding(crate::specs::Written::written_by))]
pub fn written_type(alloc: Global, env: &Env, ty: &TypeSpec) -> Result<Written, Refusal>
    requires known { AreStructs env.now.scene.structs }
    requires heights { AreHeights env.now.scene.structs env.now.heights }
    ensures { Gives result (spec.written_type env.now ty.now) }
{
    let dims = brackets(alloc, env, ty)?;
    let base = base_type(env, ty)?;
    Ok(bracketed(alloc, &dims, base)?)
}

/// The type of a name that is declared with brackets, where a type stands before it. A size of that type that is left out is then
/// `E0603` at its `[`.
#[tactic(auto, unfolding(crate::specs::Written::declared))]
pub fn declared(alloc: Global, env: &Env, base: &Written, dims: &[Dim]) -> Result<Written, Refusal>
    requires known { AreStructs env.now.scene.structs }
    requires heights { AreHeights env.now.scene.structs env.now.heights }
    ensures { Gives result (spec.declared (map (bracket env.now) dims.now) base.now) }
{
    let dims = dimensions(alloc, env, dims)?;
    named_by(alloc, &dims, base)
}

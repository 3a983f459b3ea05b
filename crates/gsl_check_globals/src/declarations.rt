//! Declarations at the top of a unit.

ghost use Rattle.std.specs.Prelude.{◌≡◌, ◌∷◌, [], unwrap_or};
ghost use Rattle.gsl_base.specs.Checked.{GivesBy};
ghost use Rattle.gsl_check_globals.specs.Globals as spec;

use crate::declaring::declarators;
use gsl_base::{Code, Place, Refusal};
use gsl_check_decl::{SoundEnv, structured};
use gsl_check_expr::{Written, written_type};
use gsl_qualifiers::{Qualified, Role, qualify, role_alone};
use gsl_syntax::{Declarator, Qual, Struct, TypeSpec};
use gsl_tree::LocalSize;
use gsl_types::Ty;
use gsl_typing::refuse;
use std::alloc::Global;

/// Variables of a type, with their qualifiers.
#[tactic(auto, unfolding(crate::specs::Globals::variables))]
pub fn typed_variables(
    alloc: Global,
    role: Role,
    quals: &[Qual],
    ty: &TypeSpec,
    all: &[Declarator],
    env: &mut SoundEnv,
) -> Result<(), Refusal>
    ensures { GivesBy (λ _. env.new) result (spec.variables role quals.now ty.now all.now env.old) }
{
    let q = qualify(alloc, env.get(), role, quals)?;
    let base = written_type(alloc, env.get(), ty)?;
    declarators(alloc, role, &q, &base, all, env)
}

/// A struct and variables of it, with their qualifiers.
#[tactic(auto, unfolding(crate::specs::Globals::struct_and_variables))]
pub fn struct_variables(
    alloc: Global,
    role: Role,
    quals: &[Qual],
    s: &Struct,
    all: &[Declarator],
    env: &mut SoundEnv,
) -> Result<(), Refusal>
    ensures { GivesBy (λ _. env.new) result (spec.struct_and_variables role quals.now s.now all.now env.old) }
{
    let q = qualify(alloc, env.get(), role, quals)?;
    let number = structured(alloc, env, s)?;
    let base = Written::Whole(Ty::Struct(number));
    declarators(alloc, role, &q, &base, all, env)
}

/// Whether no size is stated.
fn states_none(q: &Qualified) -> bool
    ensures { result ≡ spec.states_none q.now }
{
    q.size_x.is_none() && q.size_y.is_none() && q.size_z.is_none()
}

/// The size that is stated.
fn size_of(q: &Qualified, place: Place) -> LocalSize
    ensures { result ≡ record { parts = unwrap_or q.now.size_x 1 ∷ unwrap_or q.now.size_y 1 ∷ unwrap_or q.now.size_z 1 ∷ []; place = place } }
{
    LocalSize {
        parts: [
            q.size_x.unwrap_or(1),
            q.size_y.unwrap_or(1),
            q.size_z.unwrap_or(1),
        ],
        place,
    }
}

/// The size of the work group, where `in` stands among its qualifiers.
fn sized_at(q: &Qualified, within: Option<Place>, env: &mut SoundEnv) -> Result<(), Refusal>
    ensures { GivesBy (λ _. env.new) result (spec.sized_at q.now env.old within) }
{
    match within {
        Some(place) => {
            if states_none(q) {
                return Err(refuse(place, Code::E0701));
            }
            env.declare_size(size_of(q, place))?;
            Ok(())
        }
        None => Ok(()),
    }
}

/// Qualifiers alone, which state the size of the work group.
#[tactic(auto, unfolding(crate::specs::Globals::alone))]
pub fn alone(alloc: Global, quals: &[Qual], env: &mut SoundEnv) -> Result<(), Refusal>
    ensures { GivesBy (λ _. env.new) result (spec.alone quals.now env.old) }
{
    let role = role_alone(env.get().scene.stage, quals);
    let q = qualify(alloc, env.get(), role, quals)?;
    sized_at(&q, q.within, env)
}

//! Declarations at the top of a unit.

ghost use Rattle.gsl_base.specs.Checked.{GivesBy};
ghost use Rattle.gsl_check.specs.Units as spec;

use gsl_base::Refusal;
use gsl_check_blocks::block;
use gsl_check_decl::SoundEnv;
use gsl_check_globals::{alone, struct_variables, typed_variables};
use gsl_qualifiers::{role_of_block, role_of_variables};
use gsl_syntax::Decl;
use std::alloc::Global;

/// A declaration, by its form.
#[tactic(auto, unfolding(crate::specs::Units::declaration))]
pub fn declaration(alloc: Global, d: &Decl, env: &mut SoundEnv) -> Result<(), Refusal>
    ensures { GivesBy (λ _. env.new) result (spec.declaration d.now env.old) }
{
    match d {
        Decl::Variables(quals, ty, all) => {
            let role = role_of_variables(quals.as_slice());
            typed_variables(alloc, role, quals.as_slice(), ty, all.as_slice(), env)
        }
        Decl::Struct(quals, s, all) => {
            let role = role_of_variables(quals.as_slice());
            struct_variables(alloc, role, quals.as_slice(), s, all.as_slice(), env)
        }
        Decl::Block(quals, name, lines, instance) => {
            let role = role_of_block(quals.as_slice());
            block(
                alloc,
                role,
                quals.as_slice(),
                name,
                lines.as_slice(),
                instance,
                env,
            )
        }
        Decl::Quals(quals) => alone(alloc, quals.as_slice(), env),
    }
}

//! What the qualifiers of a parameter say.

ghost use Rattle.std.specs.Prelude.{◌≡◌, ◌||◌, [], ◌∷◌, true, Ok};
ghost use Rattle.gsl_base.specs.Checked.{Gives};
ghost use Rattle.gsl_base.specs.declared.fault.Code.TheVariants.{E0701};
ghost use Rattle.gsl_types.specs.Known.{AreStructs};
ghost use Rattle.gsl_typing.specs.Rows.{unless};
ghost use Rattle.gsl_makers.specs.Heights.{AreHeights};
ghost use Rattle.gsl_check_heads.specs.Heads as spec;

use crate::parameter::Said;
use gsl_base::{Code, Place, Refusal};
use gsl_check_decl::refused_layout;
use gsl_check_expr::Env;
use gsl_syntax::Qual;
use gsl_types::Direction;
use gsl_typing::refuse;
use std::alloc::Global;

/// Whether it is said that values come out.
fn comes_out(direction: Option<Direction>) -> bool
    ensures { result ≡ spec.comes_out direction }
{
    match direction {
        Some(Direction::Out) | Some(Direction::InOut) => true,
        Some(Direction::In) | None => false,
    }
}

/// What is said with a direction.
fn directed(place: Place, out: bool, direction: Direction, said: Said) -> Result<Said, Refusal>
    ensures { Gives result (spec.directed place out direction said) }
{
    if said.direction.is_some() || (out && said.fixed) {
        return Err(refuse(place, Code::E0701));
    }
    Ok(Said {
        direction: Some(direction),
        ..said
    })
}

/// What is said with `const`.
fn fixed(place: Place, said: Said) -> Result<Said, Refusal>
    ensures { Gives result (unless place ((E0701, said.fixed || spec.comes_out said.direction) ∷ []) (Ok (record said { fixed = true }))) }
{
    if said.fixed || comes_out(said.direction) {
        return Err(refuse(place, Code::E0701));
    }
    Ok(Said {
        fixed: true,
        ..said
    })
}

/// What is said with one more qualifier.
fn said_by(alloc: Global, env: &Env, said: Said, qual: &Qual) -> Result<Said, Refusal>
    requires known { AreStructs env.now.scene.structs }
    requires heights { AreHeights env.now.scene.structs env.now.heights }
    ensures { Gives result (spec.said_by env.now said qual.now) }
{
    match qual {
        Qual::Const(place) => fixed(*place, said),
        Qual::In(place) => directed(*place, false, Direction::In, said),
        Qual::Out(place) => directed(*place, true, Direction::Out, said),
        Qual::Inout(place) => directed(*place, true, Direction::InOut, said),
        Qual::Uniform(place)
        | Qual::Buffer(place)
        | Qual::Flat(place)
        | Qual::Coherent(place)
        | Qual::Volatile(place)
        | Qual::Restrict(place)
        | Qual::Readonly(place)
        | Qual::Writeonly(place) => Err(refuse(*place, Code::E0701)),
        Qual::Layout(place, items) => {
            refused_layout(alloc, env, *place, items.as_slice())?;
            Ok(said)
        }
    }
}

/// What the qualifiers of a parameter say, from left to right.
#[tactic(auto, unfolding(crate::specs::Heads::said))]
pub fn said_in(alloc: Global, env: &Env, quals: &[Qual]) -> Result<Said, Refusal>
    requires known { AreStructs env.now.scene.structs }
    requires heights { AreHeights env.now.scene.structs env.now.heights }
    ensures { Gives result (spec.said env.now quals.now) }
{
    let mut said = Said {
        fixed: false,
        direction: None,
    };
    for k in 0..quals.len() {
        said = said_by(alloc, env, said, &quals[k])?;
    }
    Ok(said)
}

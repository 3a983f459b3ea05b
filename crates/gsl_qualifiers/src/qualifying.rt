//! What qualifiers say, from left to right.

ghost use Rattle.std.specs.Prelude.{◌≡◌, true, Some};
ghost use Rattle.gsl_base.specs.Checked.{Gives};
ghost use Rattle.gsl_types.specs.Known.{AreStructs};
ghost use Rattle.gsl_makers.specs.Heights.{AreHeights};
ghost use Rattle.gsl_qualifiers.specs.Qualifiers as spec;

use crate::laying::laid;
use crate::qualified::{Qualified, Role};
use crate::words::{
    has_memory, is_output, may_be_buffer, may_be_fixed, may_be_flat, may_be_in, may_be_uniform,
};
use gsl_base::{Code, Place, Refusal};
use gsl_check_expr::Env;
use gsl_syntax::Qual;
use gsl_typing::refuse;
use std::alloc::Global;

/// Nothing is said.
fn unsaid() -> Qualified
    ensures { result ≡ spec.unsaid }
{
    Qualified {
        stored: false,
        fixed: false,
        flat: false,
        coherent: false,
        volatile: false,
        restrict: false,
        readonly: false,
        writeonly: false,
        std140: None,
        location: None,
        set: None,
        binding: None,
        offset: None,
        align: None,
        size_x: None,
        size_y: None,
        size_z: None,
        within: None,
    }
}

/// What is said with a word, which may stand there and has not stood before.
fn once(place: Place, stood: bool, may: bool, said: Qualified) -> Result<Qualified, Refusal>
    ensures { Gives result (spec.once place stood may said) }
{
    if stood || !may {
        return Err(refuse(place, Code::E0701));
    }
    Ok(said)
}

/// What is said with a storage qualifier, which is the only one.
fn stored(place: Place, may: bool, said: Qualified) -> Result<Qualified, Refusal>
    ensures { Gives result (spec.stored place may said said) }
{
    let stood = said.stored;
    once(
        place,
        stood,
        may,
        Qualified {
            stored: true,
            ..said
        },
    )
}

fn fixed(place: Place, may: bool, said: Qualified) -> Result<Qualified, Refusal>
    ensures { Gives result (spec.stored place may said (record said { fixed = true })) }
{
    stored(
        place,
        may,
        Qualified {
            fixed: true,
            ..said
        },
    )
}

fn within(place: Place, may: bool, said: Qualified) -> Result<Qualified, Refusal>
    ensures { Gives result (spec.stored place may said (record said { within = Some place })) }
{
    stored(
        place,
        may,
        Qualified {
            within: Some(place),
            ..said
        },
    )
}

fn flat(place: Place, may: bool, said: Qualified) -> Result<Qualified, Refusal>
    ensures { Gives result (spec.once place said.flat may (record said { flat = true })) }
{
    let stood = said.flat;
    once(place, stood, may, Qualified { flat: true, ..said })
}

fn coherent(place: Place, may: bool, said: Qualified) -> Result<Qualified, Refusal>
    ensures { Gives result (spec.once place said.coherent may (record said { coherent = true })) }
{
    let stood = said.coherent;
    once(
        place,
        stood,
        may,
        Qualified {
            coherent: true,
            ..said
        },
    )
}

fn volatile(place: Place, may: bool, said: Qualified) -> Result<Qualified, Refusal>
    ensures { Gives result (spec.once place said.volatile may (record said { volatile = true })) }
{
    let stood = said.volatile;
    once(
        place,
        stood,
        may,
        Qualified {
            volatile: true,
            ..said
        },
    )
}

fn restrict(place: Place, may: bool, said: Qualified) -> Result<Qualified, Refusal>
    ensures { Gives result (spec.once place said.restrict may (record said { restrict = true })) }
{
    let stood = said.restrict;
    once(
        place,
        stood,
        may,
        Qualified {
            restrict: true,
            ..said
        },
    )
}

fn readonly(place: Place, may: bool, said: Qualified) -> Result<Qualified, Refusal>
    ensures { Gives result (spec.once place said.readonly may (record said { readonly = true })) }
{
    let stood = said.readonly;
    once(
        place,
        stood,
        may,
        Qualified {
            readonly: true,
            ..said
        },
    )
}

fn writeonly(place: Place, may: bool, said: Qualified) -> Result<Qualified, Refusal>
    ensures { Gives result (spec.once place said.writeonly may (record said { writeonly = true })) }
{
    let stood = said.writeonly;
    once(
        place,
        stood,
        may,
        Qualified {
            writeonly: true,
            ..said
        },
    )
}

/// What is said with one more qualifier.
fn qualified_by(
    alloc: Global,
    env: &Env,
    role: Role,
    said: Qualified,
    qual: &Qual,
) -> Result<Qualified, Refusal>
    requires known { AreStructs env.now.scene.structs }
    requires heights { AreHeights env.now.scene.structs env.now.heights }
    ensures { Gives result (spec.qualified_by env.now role said qual.now) }
{
    match qual {
        Qual::Const(place) => fixed(*place, may_be_fixed(role), said),
        Qual::In(place) => within(*place, may_be_in(role), said),
        Qual::Out(place) => stored(*place, is_output(role), said),
        Qual::Inout(place) => Err(refuse(*place, Code::E0701)),
        Qual::Uniform(place) => stored(*place, may_be_uniform(role), said),
        Qual::Buffer(place) => stored(*place, may_be_buffer(role), said),
        Qual::Flat(place) => flat(*place, may_be_flat(env.scene.stage, role), said),
        Qual::Coherent(place) => coherent(*place, has_memory(role), said),
        Qual::Volatile(place) => volatile(*place, has_memory(role), said),
        Qual::Restrict(place) => restrict(*place, has_memory(role), said),
        Qual::Readonly(place) => readonly(*place, has_memory(role), said),
        Qual::Writeonly(place) => writeonly(*place, has_memory(role), said),
        Qual::Layout(_, items) => laid(alloc, env, role, items.as_slice(), said),
    }
}

/// What the qualifiers of a declaration say, from left to right. A word that may not stand there, or stands there twice, is `E0701`, a layout
/// name that may not `E0704`, a value that a name may not have `E0705`, or `E0709` where it is an alignment that is no power of two.
#[tactic(auto, unfolding(crate::specs::Qualifiers::qualified))]
pub fn qualify(alloc: Global, env: &Env, role: Role, quals: &[Qual]) -> Result<Qualified, Refusal>
    requires known { AreStructs env.now.scene.structs }
    requires heights { AreHeights env.now.scene.structs env.now.heights }
    ensures { Gives result (spec.qualified env.now role quals.now) }
{
    let mut said = unsaid();
    for k in 0..quals.len() {
        said = qualified_by(alloc, env, role, said, &quals[k])?;
    }
    Ok(said)
}

//! What the items of a layout say.

ghost use Rattle.std.specs.Prelude.{◌≡◌, true, false};
ghost use Rattle.gsl_base.specs.Checked.{Gives};
ghost use Rattle.gsl_types.specs.Known.{AreStructs};
ghost use Rattle.gsl_makers.specs.Heights.{AreHeights};
ghost use Rattle.gsl_qualifiers.specs.Qualifiers as spec;

use crate::qualified::{Qualified, Role};
use crate::valued::{Valued, is_value_of, is_wrong, valued_name};
use crate::words::{is_block, is_push};
use gsl_base::{Code, Place, Refusal};
use gsl_check_expr::{Env, taken_expression};
use gsl_compute::word_in;
use gsl_fold::constant;
use gsl_makers::is_index;
use gsl_syntax::{Lay, Name};
use gsl_tree::Folded;
use gsl_typing::{Part, Scene, is_unread, refuse};
use std::alloc::Global;

/// The value that a layout name states; its faults stand at the name.
#[tactic(auto, unfolding(crate::specs::Qualifiers::stated_value))]
fn stated_value(
    alloc: Global,
    scene: &Scene,
    which: Option<Valued>,
    place: Place,
    x: &Part,
) -> Result<u32, Refusal>
    ensures { Gives result (spec.stated_value scene.now which place x.now) }
{
    if is_unread(scene, x) {
        return Err(refuse(place, Code::E0507));
    }
    let word = match constant(alloc, &scene.structs, &scene.consts, &x.expr)? {
        Folded::Known(value) => word_in(&value),
        Folded::NotConstant => return Err(refuse(place, Code::E0601)),
        Folded::Free => return Err(refuse(place, Code::E0602)),
    };
    let which = match which {
        Some(which) => which,
        None => return Err(refuse(place, Code::E0704)),
    };
    if !is_index(x) || !is_value_of(which, word) {
        return Err(refuse(place, Code::E0705));
    }
    if is_wrong(which, word) {
        return Err(refuse(place, Code::E0709));
    }
    Ok(word)
}

/// What is said, with the value of a name.
fn with_value(which: Option<Valued>, place: Place, word: u32, said: Qualified) -> Qualified
    ensures { result ≡ spec.with_value which place word said }
{
    let mut said = said;
    match which {
        Some(Valued::Location) => said.location = Some(word),
        Some(Valued::Set) => said.set = Some(word),
        Some(Valued::Binding) => said.binding = Some(word),
        Some(Valued::Offset) => said.offset = Some((place, word)),
        Some(Valued::Align) => said.align = Some(word),
        Some(Valued::SizeX) => said.size_x = Some(word),
        Some(Valued::SizeY) => said.size_y = Some(word),
        Some(Valued::SizeZ) => said.size_z = Some(word),
        None => {}
    }
    said
}

/// A layout rule by its name, of a block.
fn ruled(role: Role, name: &Name, std140: bool, said: Qualified) -> Result<Qualified, Refusal>
    ensures { Gives result (spec.flag_by std140 true false role name.now said) }
{
    if !is_block(role) {
        return Err(refuse(name.place, Code::E0704));
    }
    Ok(Qualified {
        std140: Some(std140),
        ..said
    })
}

/// `push_constant`, of a block of push constants.
fn pushed(role: Role, name: &Name, said: Qualified) -> Result<Qualified, Refusal>
    ensures { Gives result (spec.flag_by false false true role name.now said) }
{
    if !is_push(role) {
        return Err(refuse(name.place, Code::E0704));
    }
    Ok(said)
}

/// A layout name without a value, which is none of those that stand by themselves.
fn lacks_value(role: Role, name: &Name, _said: &Qualified) -> Result<Qualified, Refusal>
    ensures { Gives result (spec.flag_by false false false role name.now _said.now) }
{
    match valued_name(role, &name.text) {
        Some(_) => Err(refuse(name.place, Code::E0705)),
        None => Err(refuse(name.place, Code::E0704)),
    }
}

/// A layout name without a value, by which of the words that stand by themselves it is.
fn flag_by(
    is140: bool,
    is430: bool,
    push: bool,
    role: Role,
    name: &Name,
    said: Qualified,
) -> Result<Qualified, Refusal>
    ensures { Gives result (spec.flag_by is140 is430 push role name.now said) }
{
    if is140 || is430 {
        return ruled(role, name, is140, said);
    }
    if push {
        return pushed(role, name, said);
    }
    lacks_value(role, name, &said)
}

/// A layout name without a value.
#[tactic(auto, unfolding(crate::specs::Qualifiers::flag))]
fn flag(role: Role, name: &Name, said: Qualified) -> Result<Qualified, Refusal>
    ensures { Gives result (spec.flag role name.now said) }
{
    let text = name.text.as_str();
    flag_by(
        text == "std140",
        text == "std430",
        text == "push_constant",
        role,
        name,
        said,
    )
}

/// What is said with one more item of a layout.
fn laid_by(
    alloc: Global,
    env: &Env,
    role: Role,
    item: &Lay,
    said: Qualified,
) -> Result<Qualified, Refusal>
    requires known { AreStructs env.now.scene.structs }
    requires heights { AreHeights env.now.scene.structs env.now.heights }
    ensures { Gives result (spec.laid_by env.now role item.now said) }
{
    match item {
        Lay::Flag(name) => flag(role, name, said),
        Lay::Value(name, e) => {
            let x = taken_expression(alloc, env, e)?;
            let which = valued_name(role, &name.text);
            let word = stated_value(alloc, &env.scene, which, name.place, &x)?;
            Ok(with_value(which, name.place, word, said))
        }
    }
}

/// What is said with the items of a layout, from left to right.
pub(crate) fn laid(
    alloc: Global,
    env: &Env,
    role: Role,
    items: &[Lay],
    said: Qualified,
) -> Result<Qualified, Refusal>
    requires known { AreStructs env.now.scene.structs }
    requires heights { AreHeights env.now.scene.structs env.now.heights }
    ensures { Gives result (spec.laid env.now role items.now said) }
{
    let mut said = said;
    for k in 0..items.len() {
        said = laid_by(alloc, env, role, &items[k], said)?;
    }
    Ok(said)
}

//! `#extension`.

ghost use Rattle.std.specs.Prelude.{◌≡◌};
ghost use Rattle.std.specs.Option.{option_map};
ghost use Rattle.gsl_base.specs.Checked.{Gives};
ghost use Rattle.gsl_pp.specs.Directives as spec;

use crate::word::{is_colon, word};
use gsl_base::{Code, Place, Raw, Refusal, Text};
use gsl_macros::fault;

fn is_behaviour(word: &Text) -> bool
    ensures { result ≡ spec.is_behaviour word.now }
{
    let word = word.as_str();
    word == "require" || word == "enable" || word == "warn" || word == "disable"
}

/// Whether what is asked for is not there.
fn is_wanting(name: &Text, behaviour: &Text) -> bool
    ensures { result ≡ spec.is_wanting name.now behaviour.now }
{
    let name = name.as_str();
    let behaviour = behaviour.as_str();
    if name == "all" {
        behaviour == "require" || behaviour == "enable"
    } else {
        behaviour == "require" && name != "GL_KHR_vulkan_glsl"
    }
}

fn asked_for(place: Place, name: Option<&Text>, behaviour: Option<&Text>) -> Result<(), Refusal>
    ensures { Gives result (spec.asked_for place (option_map (λ t. t.now) name.entry) (option_map (λ t. t.now) behaviour.entry)) }
{
    let Some(name) = name else {
        return Err(fault(place, Code::E0201));
    };
    let Some(behaviour) = behaviour else {
        return Err(fault(place, Code::E0201));
    };
    if !is_behaviour(behaviour) {
        return Err(fault(place, Code::E0201));
    }
    if is_wanting(name, behaviour) {
        return Err(fault(place, Code::E0212));
    }
    Ok(())
}

/// What `#extension` says; this stands behind the word.
pub(crate) fn extension(place: Place, raws: &[Raw]) -> Result<(), Refusal>
    ensures { Gives result (spec.extension place raws.now) }
{
    match raws {
        [name, colon, behaviour] => {
            if is_colon(colon) {
                asked_for(place, word(name), word(behaviour))
            } else {
                Err(fault(place, Code::E0201))
            }
        }
        _ => Err(fault(place, Code::E0201)),
    }
}

//! The bytes of blocks.

ghost use Rattle.std.specs.Prelude.{◌≡◌};
ghost use Rattle.std.specs.Option.{option_map};
ghost use Rattle.gsl_enact_fits.specs.Passes.{variable_if_seen};
ghost use Rattle.gsl_enact_memory.specs.Reaching.{bytes_in};
ghost use Rattle.gsl_instr.specs.declared.enumerant.storage_class.TheConstants as storage_classes;
ghost use Rattle.gsl_kinds.specs.Seen.{kind_seen};
ghost use Rattle.gsl_machine.specs.Memory as spec;
ghost use Rattle.gsl_valid.specs.Kinds as kinds;
ghost use Rattle.gsl_valid.specs.Types as types;

use gsl_base::{Buffers, Bytes, Input};
use gsl_decorations::Decorations;
use gsl_enact_fits::{bytes_at, variable_in};
use gsl_instr::enumerant::{decoration, storage_class};
use gsl_kinds::{Kind, kind_if};

/// Whether a variable is that of the push constants.
pub(crate) fn is_push(decorations: &Decorations<'_>, variable: u32) -> bool
    ensures { result ≡ spec.is_push decorations.now variable }
{
    is_push_kind(kind_if(decorations.definitions().get(variable)))
}

fn is_push_kind(kind: Kind<'_>) -> bool
    ensures { result ≡ types.is_variable_of storage_classes.PUSH_CONSTANT (kinds.variable_in (kind_seen kind.entry)) }
{
    match kind {
        Kind::Holds(v) => v.class == storage_class::PUSH_CONSTANT,
        _ => false,
    }
}

/// The bytes of a block's variable: those of the push constants, or of the buffer at its set and binding.
pub fn bytes_of<'a>(
    decorations: &Decorations<'_>,
    input: &'a Input,
    buffers: &'a Buffers,
    variable: u32,
) -> Option<&'a Bytes>
    ensures { option_map (λ b. b.now) result ≡ bytes_in decorations.now input.now buffers.now variable }
{
    if is_push(decorations, variable) {
        return input.push.as_ref();
    }
    let set = decorations.number_on(decoration::DESCRIPTOR_SET, variable);
    let binding = decorations.number_on(decoration::BINDING, variable);
    bytes_if(buffers, set, binding)
}

fn bytes_if(buffers: &Buffers, set: Option<u32>, binding: Option<u32>) -> Option<&Bytes>
    ensures { option_map (λ b. b.now) result ≡ spec.bytes_if buffers.now set binding }
{
    match set {
        None => None,
        Some(set) => match binding {
            None => None,
            Some(binding) => bytes_at(buffers, set, binding),
        },
    }
}

//! Locations and built-in variables.

ghost use Rattle.std.specs.Prelude.{◌≡◌, ◌==◌, ◌&&◌, take};
ghost use Rattle.gsl_kinds.specs.Seen.{kind_seen, lanes_seen, scalar_seen};
ghost use Rattle.gsl_instr.specs.declared.enumerant.execution_model.TheConstants as execution_model;
ghost use Rattle.gsl_instr.specs.declared.enumerant.storage_class.TheConstants as storage_class;
ghost use Rattle.gsl_valid_entry.specs.Stages as stages;
ghost use Rattle.gsl_valid.specs.EntryRules as spec;
ghost use Rattle.gsl_valid.specs.Kinds as kinds;

use crate::marks::class_of;
use crate::stage::Stage;
use gsl_decorations::pointee;
use gsl_instr::enumerant::{built_in, decoration, execution_model, storage_class};
use gsl_kinds::{Kind, Lanes, Scalar, lanes_of};

/// Whether a variable may have the location that literals give it.
pub(crate) fn may_have_location(stage: &Stage<'_>, at: u32, target: u32, literals: &[u32]) -> bool
    ensures { result ≡ spec.may_have_location stage.now (take at stage.now.instrs) target literals.now }
{
    match literals {
        [] => false,
        [location, ..] => may_be_at(stage, at, target, *location),
    }
}

/// Whether a variable may have a location: in no compute shader, where no decoration before gives it to another of its class, and where
/// it is flat if it is an input of a fragment shader.
fn may_be_at(stage: &Stage<'_>, at: u32, target: u32, location: u32) -> bool
    ensures { result ≡ spec.may_be_at stage.now (take at stage.now.instrs) target location }
{
    let class = class_of(stage.definitions(), target);
    stage.model() != execution_model::GL_COMPUTE
        && !stage.locates_in(at, class, location)
        && (!is_fragment_input(stage.model(), class)
            || stage.decorations().has(decoration::FLAT, target))
}

/// Whether a class is that of the inputs of a fragment shader.
fn is_fragment_input(model: u32, class: Option<u32>) -> bool
    ensures { result ≡ (model == execution_model.FRAGMENT && spec.is_of_class storage_class.INPUT class) }
{
    model == execution_model::FRAGMENT && is_input(class)
}

/// Whether there is a class, and it is Input.
fn is_input(class: Option<u32>) -> bool
    ensures { result ≡ spec.is_of_class storage_class.INPUT class }
{
    match class {
        Some(class) => class == storage_class::INPUT,
        None => false,
    }
}

/// Whether an instruction is a variable that may be the built-in one that literals name.
pub(crate) fn is_built_in_of(stage: &Stage<'_>, literals: &[u32], kind: Kind<'_>) -> bool
    ensures { result ≡ stages.is_built_in_kind stage.now literals.now (kind_seen kind.entry) }
{
    match literals {
        [] => false,
        [number, ..] => is_built_in(stage, *number, kind),
    }
}

/// Whether an instruction is a variable that may be a built-in one of a number.
fn is_built_in(stage: &Stage<'_>, number: u32, kind: Kind<'_>) -> bool
    ensures { result ≡ spec.is_built_in stage.now number (kinds.variable_in (kind_seen kind.entry)) }
{
    match kind {
        Kind::Holds(variable) => {
            variable.class == storage_class::INPUT
                && is_built_in_type(
                    stage.model(),
                    number,
                    lanes_of(
                        stage.definitions(),
                        pointee(stage.definitions(), variable.type_),
                    ),
                )
        }
        _ => false,
    }
}

/// Whether these components are those of a built-in variable of a stage.
fn is_built_in_type(model: u32, number: u32, lanes: Option<Lanes>) -> bool
    ensures { result ≡ spec.is_built_in_type model number (lanes_seen lanes) }
{
    model == execution_model::GL_COMPUTE && is_compute_type(number, lanes)
        || model == execution_model::VERTEX
            && (number == built_in::VERTEX_INDEX || number == built_in::INSTANCE_INDEX)
            && are_words(1, 1, lanes)
}

/// Whether these components are those of a built-in variable of a compute shader.
fn is_compute_type(number: u32, lanes: Option<Lanes>) -> bool
    ensures { result ≡ stages.is_compute_type number (lanes_seen lanes) }
{
    matches!(
        number,
        built_in::NUM_WORKGROUPS
            | built_in::WORKGROUP_ID
            | built_in::LOCAL_INVOCATION_ID
            | built_in::GLOBAL_INVOCATION_ID
    ) && are_words(0, 3, lanes)
        || number == built_in::LOCAL_INVOCATION_INDEX && are_words(0, 1, lanes)
}

/// Whether components are so many of `int`, where the sign is 1, or `uint`, where it is 0.
fn are_words(sign: u32, size: u32, lanes: Option<Lanes>) -> bool
    ensures { result ≡ spec.are_words sign size (lanes_seen lanes) }
{
    match lanes {
        Some(lanes) => are_words_of(sign, size, lanes.scalar, lanes.size),
        None => false,
    }
}

/// The same of a scalar and a number of them.
fn are_words_of(sign: u32, size: u32, scalar: Scalar, count: u32) -> bool
    ensures { result ≡ spec.are_words_of sign size (scalar_seen scalar) count }
{
    match scalar {
        Scalar::Words { signedness } => signedness == sign && count == size,
        Scalar::Truths => false,
    }
}

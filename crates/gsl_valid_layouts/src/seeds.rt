//! What the variables of blocks point to.

ghost use Rattle.std.specs.Prelude.{◌≡◌};
ghost use Rattle.gsl_kinds.specs.Seen as seen;
ghost use Rattle.gsl_valid.specs.DecorationRules as rules;
ghost use Rattle.gsl_valid.specs.Kinds as kinds;
ghost use Rattle.gsl_valid.specs.LayoutRules as spec;
ghost use Rattle.gsl_valid.specs.Types as types;
ghost use Rattle.gsl_valid_layouts.specs.Marks as marks;

use gsl_decorations::Decorations;
use gsl_ids::Definitions;
use gsl_instr::enumerant::{decoration, storage_class};
use gsl_kinds::{Kind, Shape, Variable, shape_of};

/// The type that an instruction points to, if it is a variable of a block.
pub(crate) fn block_pointee(definitions: &Definitions<'_>, kind: Kind<'_>) -> Option<u32>
    ensures { result ≡ marks.block_pointee definitions.now (kinds.variable_in (seen.kind_seen kind.entry)) }
{
    match kind {
        Kind::Holds(variable) => pointee_in_block(definitions, variable),
        _ => None,
    }
}

/// The same, if it is not that of a storage block.
pub(crate) fn bare_pointee(decorations: &Decorations<'_>, kind: Kind<'_>) -> Option<u32>
    ensures { result ≡ marks.bare_pointee decorations.now (kinds.variable_in (seen.kind_seen kind.entry)) }
{
    match kind {
        Kind::Holds(variable) => {
            if is_storage(decorations, variable) {
                None
            } else {
                pointee_in_block(decorations.definitions(), variable)
            }
        }
        _ => None,
    }
}

/// The type that a variable points to, if it is that of a block.
fn pointee_in_block(definitions: &Definitions<'_>, variable: Variable<'_>) -> Option<u32>
    ensures { result ≡ marks.block_pointee definitions.now (Some (seen.variable_seen variable.entry)) }
{
    if is_block_class(variable.class) {
        if_defined(definitions, pointee(definitions, variable.type_))
    } else {
        None
    }
}

/// An id, if it is defined.
fn if_defined(definitions: &Definitions<'_>, id: u32) -> Option<u32>
    ensures { result ≡ marks.if_defined definitions.now id }
{
    if 0 < definitions.number(id) {
        Some(id)
    } else {
        None
    }
}

/// The type that a pointer type points to, 0 where it is none.
fn pointee(definitions: &Definitions<'_>, type_: u32) -> u32
    ensures { result ≡ rules.pointee definitions.now type_ }
{
    match shape_of(definitions, type_) {
        Shape::Pointer { pointee, .. } => pointee,
        _ => 0,
    }
}

/// Whether a class is that of a block's variable.
fn is_block_class(class: u32) -> bool
    ensures { result ≡ types.is_block_class class }
{
    class == storage_class::UNIFORM
        || class == storage_class::STORAGE_BUFFER
        || class == storage_class::PUSH_CONSTANT
}

/// Whether a variable is one of a storage block.
fn is_storage(decorations: &Decorations<'_>, variable: Variable<'_>) -> bool
    ensures { result ≡ spec.is_storage decorations.now (seen.variable_seen variable.entry) }
{
    variable.class == storage_class::STORAGE_BUFFER
        || variable.class == storage_class::UNIFORM
            && decorations.has(
                decoration::BUFFER_BLOCK,
                pointee(decorations.definitions(), variable.type_),
            )
}

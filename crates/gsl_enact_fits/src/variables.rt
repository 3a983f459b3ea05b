//! The variables of a module.

ghost use Rattle.std.specs.Prelude.{◌≡◌};
ghost use Rattle.gsl_enact_fits.specs.Passes as spec;
ghost use Rattle.gsl_instr.specs.Instructions as table;
ghost use Rattle.gsl_kinds.specs.Seen as seen;
ghost use Rattle.gsl_machine.specs.Memory.{size_of};
ghost use Rattle.gsl_valid.specs.Kinds as kinds;
ghost use Rattle.gsl_valid.specs.Types as types;

use gsl_ids::Definitions;
use gsl_instr::enumerant::storage_class;
use gsl_kinds::{Kind, Variable, kind_at, lanes_of};

/// Whether an instruction begins a function.
pub fn begins(kind: Kind<'_>) -> bool
    ensures { result ≡ types.begins (seen.kind_seen kind.entry) }
{
    matches!(kind, Kind::Begins { .. })
}

/// The variable that an instruction is.
pub fn variable_in(kind: Kind<'_>) -> Option<Variable<'_>>
    ensures { spec.variable_if_seen result ≡ kinds.variable_in (seen.kind_seen kind.entry) }
{
    match kind {
        Kind::Holds(variable) => Some(variable),
        _ => None,
    }
}

/// Whether a class is that of a block's variable.
pub(crate) fn is_block_class(class: u32) -> bool
    ensures { result ≡ types.is_block_class class }
{
    class == storage_class::UNIFORM
        || class == storage_class::STORAGE_BUFFER
        || class == storage_class::PUSH_CONSTANT
}

/// How many components a type has, 0 where it is no scalar or vector.
pub fn lanes_size(definitions: &Definitions<'_>, type_: u32) -> u32
    ensures { result ≡ size_of (types.lanes_of definitions.now type_) }
{
    match lanes_of(definitions, type_) {
        Some(lanes) => lanes.size,
        None => 0,
    }
}

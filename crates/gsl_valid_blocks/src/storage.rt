//! Chains, and the variables that they begin at.

ghost use Rattle.std.specs.Prelude.{◌≡◌};
ghost use Rattle.gsl_kinds.specs.Seen.{kind_seen, variable_seen};
ghost use Rattle.gsl_valid.specs.Kinds as kinds;
ghost use Rattle.gsl_valid.specs.LayoutRules as layout;
ghost use Rattle.gsl_valid.specs.MemoryRules as spec;
ghost use Rattle.gsl_valid.specs.Types as types;
ghost use Rattle.gsl_valid_blocks.specs.Seen.{chain_seen};

use gsl_decorations::{Decorations, pointee};
use gsl_instr::Instruction;
use gsl_instr::enumerant::{decoration, storage_class};
use gsl_kinds::{Kind, Variable, kind_if};

/// The base and the indexes of a chain.
#[derive(Clone, Copy)]
pub(crate) struct Chain<'a> {
    pub(crate) base: u32,
    pub(crate) indexes: &'a [u32],
}

/// The chain that an instruction is, if there is one.
pub(crate) fn chain_if(instruction: Option<Instruction<'_>>) -> Option<Chain<'_>>
    ensures { chain_seen result ≡ spec.chain_of instruction.entry }
{
    match instruction {
        Some(instruction) => chain_in(instruction),
        None => None,
    }
}

/// The chain that an instruction is.
fn chain_in(instruction: Instruction<'_>) -> Option<Chain<'_>>
    ensures { chain_seen result ≡ spec.chain_in instruction.entry }
{
    match instruction {
        Instruction::AccessChain { base, indexes, .. } => Some(Chain {
            base,
            indexes: indexes.as_slice(),
        }),
        _ => None,
    }
}

/// Whether a pointer, if it is a chain, leads into a storage block.
pub(crate) fn is_in_buffer(decorations: &Decorations<'_>, pointer: u32) -> bool
    ensures { result ≡ spec.is_in_buffer decorations.now (types.defined_as decorations.now pointer) }
{
    match chain_if(decorations.definitions().get(pointer)) {
        Some(chain) => is_variable_of_storage(decorations, chain.base),
        None => false,
    }
}

/// Whether an id is a variable of a storage block.
pub(crate) fn is_variable_of_storage(decorations: &Decorations<'_>, id: u32) -> bool
    ensures { result ≡ spec.stores decorations.now (kinds.variable_is (types.defined_as decorations.now id)) }
{
    stores(decorations, kind_if(decorations.definitions().get(id)))
}

/// Whether an instruction is.
fn stores(decorations: &Decorations<'_>, kind: Kind<'_>) -> bool
    ensures { result ≡ spec.stores decorations.now (kinds.variable_in (kind_seen kind.entry)) }
{
    match kind {
        Kind::Holds(variable) => is_storage(decorations, variable),
        _ => false,
    }
}

/// Whether a variable is that of a storage block.
fn is_storage(decorations: &Decorations<'_>, variable: Variable<'_>) -> bool
    ensures { result ≡ layout.is_storage decorations.now (variable_seen variable.entry) }
{
    variable.class == storage_class::STORAGE_BUFFER
        || variable.class == storage_class::UNIFORM
            && decorations.has(
                decoration::BUFFER_BLOCK,
                pointee(decorations.definitions(), variable.type_),
            )
}

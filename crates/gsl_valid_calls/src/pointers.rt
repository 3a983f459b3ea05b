//! Pointers among the arguments of a call.

ghost use Rattle.std.specs.Prelude.{◌≡◌, ◌||◌, IfOk};
ghost use Rattle.std.specs.List.{list_all};
ghost use Rattle.gsl_instr.specs.declared.enumerant.storage_class.TheConstants as class;
ghost use Rattle.gsl_kinds.specs.Seen.{kind_seen};
ghost use Rattle.gsl_valid.specs.CallRules as spec;
ghost use Rattle.gsl_valid.specs.Kinds as kinds;
ghost use Rattle.gsl_valid.specs.Types as types;
ghost use Rattle.gsl_valid_calls.specs.Calls as kept;

use gsl_base::Memory;
use gsl_ids::Definitions;
use gsl_instr::enumerant::storage_class;
use gsl_kinds::{Kind, Shape, kind_if, shape_of, type_of};
use indexmap::IndexSet;
use std::alloc::Global;

/// Whether a value is a pointer.
fn is_pointer(definitions: &Definitions<'_>, id: u32) -> bool
    ensures { result ≡ spec.is_pointer definitions.now id }
{
    match type_of(definitions, id) {
        Some(type_) => matches!(shape_of(definitions, type_), Shape::Pointer { .. }),
        None => false,
    }
}

/// Whether all arguments that are pointers, of a call that is the instruction of a number, are the caller's own, where the
/// caller began before the instruction of another.
pub(crate) fn are_own(definitions: &Definitions<'_>, body: u64, at: u32, arguments: &[u32]) -> bool
    ensures { result ≡ list_all (kept.is_own_from definitions.now body at) arguments.now }
{
    arguments
        .iter()
        .all(|id| is_own(definitions, body, at, *id))
}

/// Whether one argument is, if it is a pointer.
fn is_own(definitions: &Definitions<'_>, body: u64, at: u32, id: u32) -> bool
    ensures { result ≡ kept.is_own_from definitions.now body at id }
{
    !is_pointer(definitions, id)
        || definitions.is_defined_from(body, at, id) && is_local(kind_if(definitions.get(id)))
}

/// Whether an instruction is a variable of class Function or a parameter.
fn is_local(kind: Kind<'_>) -> bool
    ensures { result ≡ (types.is_variable_of class.FUNCTION (kinds.variable_in (kind_seen kind.entry)) || spec.takes (kind_seen kind.entry)) }
{
    match kind {
        Kind::Holds(variable) => variable.class == storage_class::FUNCTION,
        Kind::Takes { .. } => true,
        _ => false,
    }
}

/// Whether no two pointers among arguments are one.
pub(crate) fn pointers_differ(
    alloc: Global,
    definitions: &Definitions<'_>,
    arguments: &[u32],
) -> Result<bool, Memory>
    ensures { IfOk result (λ differ. differ ≡ spec.pointers_differ definitions.now arguments.now) }
{
    let mut pointers: IndexSet<u32> = IndexSet::new(alloc);
    for id in arguments {
        if is_pointer(definitions, *id) {
            let (_, added) = pointers.insert_full(*id)?;
            if !added {
                return Ok(false);
            }
        }
    }
    Ok(true)
}

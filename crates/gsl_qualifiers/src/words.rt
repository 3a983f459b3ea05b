//! Which qualifiers may stand before what is declared.

ghost use Rattle.std.specs.Prelude.{◌≡◌};
ghost use Rattle.gsl_qualifiers.specs.Qualifiers as spec;

use crate::qualified::Role;
use gsl_base::Stage;

/// Whether `const` may stand there.
pub(crate) fn may_be_fixed(role: Role) -> bool
    ensures { result ≡ spec.may_be_fixed role }
{
    role == Role::Variable
}

/// Whether `in` may stand there.
pub(crate) fn may_be_in(role: Role) -> bool
    ensures { result ≡ spec.may_be_in role }
{
    role == Role::Input || role == Role::Size
}

/// Whether it is an output.
pub(crate) fn is_output(role: Role) -> bool
    ensures { result ≡ spec.is_output role }
{
    role == Role::Output
}

/// Whether `uniform` may stand there.
pub(crate) fn may_be_uniform(role: Role) -> bool
    ensures { result ≡ spec.may_be_uniform role }
{
    role == Role::Uniform || role == Role::Push
}

/// Whether `buffer` may stand there.
pub(crate) fn may_be_buffer(role: Role) -> bool
    ensures { result ≡ spec.may_be_buffer role }
{
    role == Role::Buffer
}

/// Whether `flat` may stand there.
pub(crate) fn may_be_flat(stage: Stage, role: Role) -> bool
    ensures { result ≡ spec.may_be_flat stage role }
{
    match stage {
        Stage::Vertex => role == Role::Output,
        Stage::Fragment => role == Role::Input,
        Stage::Compute => false,
    }
}

/// Whether memory qualifiers may stand there.
pub(crate) fn has_memory(role: Role) -> bool
    ensures { result ≡ spec.has_memory role }
{
    match role {
        Role::Buffer => true,
        Role::Member(in_buffer) => in_buffer,
        _ => false,
    }
}

/// Whether it is a block.
pub(crate) fn is_block(role: Role) -> bool
    ensures { result ≡ spec.is_block role }
{
    match role {
        Role::Uniform | Role::Buffer | Role::Push => true,
        _ => false,
    }
}

/// Whether it is a push constant block.
pub(crate) fn is_push(role: Role) -> bool
    ensures { result ≡ spec.is_push role }
{
    role == Role::Push
}

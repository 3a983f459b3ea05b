//! What a declaration declares, by its form and its first storage qualifier.

ghost use Rattle.std.specs.Prelude.{◌≡◌, Some};
ghost use Rattle.std.specs.List.{list_any};
ghost use Rattle.gsl_base.specs.declared.stage.Stage.TheVariants.{Compute};
ghost use Rattle.gsl_qualifiers.specs.Qualifiers as spec;

use crate::qualified::Role;
use gsl_base::Stage;
use gsl_syntax::{Lay, Qual};

/// What variables with these qualifiers are.
#[tactic(auto, unfolding(crate::specs::Qualifiers::role_of_variables))]
pub fn role_of_variables(quals: &[Qual]) -> Role
    ensures { result ≡ spec.role_of_variables quals.now }
{
    for k in 0..quals.len() {
        match &quals[k] {
            Qual::In(_) => return Role::Input,
            Qual::Out(_) => return Role::Output,
            Qual::Const(_) | Qual::Inout(_) | Qual::Uniform(_) | Qual::Buffer(_) => {
                return Role::Variable;
            }
            _ => {}
        }
    }
    Role::Variable
}

/// Whether an item of a layout is `push_constant`.
fn is_push_item(item: &Lay) -> bool
    ensures { result ≡ spec.is_push_item item.now }
{
    match item {
        Lay::Flag(name) => name.text.as_str() == "push_constant",
        Lay::Value(_, _) => false,
    }
}

/// Whether one of the items of a layout is `push_constant`.
fn any_push_item(items: &[Lay]) -> bool
    ensures { result ≡ list_any spec.is_push_item items.now }
{
    items.iter().any(|item| is_push_item(item))
}

/// Whether a qualifier is a layout with `push_constant`.
fn says_push(qual: &Qual) -> bool
    ensures { result ≡ spec.says_push qual.now }
{
    match qual {
        Qual::Layout(_, items) => any_push_item(items.as_slice()),
        _ => false,
    }
}

/// Whether one of the qualifiers is a layout with `push_constant`.
fn any_push(quals: &[Qual]) -> bool
    ensures { result ≡ list_any spec.says_push quals.now }
{
    quals.iter().any(|qual| says_push(qual))
}

/// What a block with these qualifiers is.
#[tactic(auto, unfolding(crate::specs::Qualifiers::role_of_block))]
pub fn role_of_block(quals: &[Qual]) -> Role
    ensures { result ≡ spec.role_of_block quals.now }
{
    let push = any_push(quals);
    for k in 0..quals.len() {
        match &quals[k] {
            Qual::Uniform(_) => return uniform_block(push),
            Qual::Buffer(_) => return Role::Buffer,
            Qual::Const(_) | Qual::In(_) | Qual::Out(_) | Qual::Inout(_) => return Role::Nothing,
            _ => {}
        }
    }
    Role::Nothing
}

/// What a `uniform` block is.
fn uniform_block(push: bool) -> Role
    ensures { result ≡ spec.block_by push (Some spec.OfUniform) }
{
    if push { Role::Push } else { Role::Uniform }
}

/// What qualifiers alone declare.
#[tactic(auto, unfolding(crate::specs::Qualifiers::role_alone))]
pub fn role_alone(stage: Stage, quals: &[Qual]) -> Role
    ensures { result ≡ spec.role_alone stage quals.now }
{
    match stage {
        Stage::Vertex | Stage::Fragment => Role::Nothing,
        Stage::Compute => alone_in_compute(quals),
    }
}

/// What qualifiers alone declare in a compute shader.
fn alone_in_compute(quals: &[Qual]) -> Role
    ensures { result ≡ spec.alone_by Compute (spec.storage_in quals.now) }
{
    for k in 0..quals.len() {
        match &quals[k] {
            Qual::In(_) => return Role::Size,
            Qual::Const(_) | Qual::Out(_) | Qual::Inout(_) | Qual::Uniform(_) | Qual::Buffer(_) =>
                return Role::Nothing,
            _ => {}
        }
    }
    Role::Nothing
}

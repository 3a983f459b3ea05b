//! Declarations among statements.

ghost use Rattle.std.specs.Prelude.{◌≡◌, map};
ghost use Rattle.gsl_base.specs.Checked.{GivesBy};
ghost use Rattle.gsl_check_decl.specs.Declarations as spec;
ghost use Rattle.gsl_check_decl.specs.Locals as locals;
ghost use Rattle.gsl_check_decl.specs.Steps as steps;

use crate::locals::{declarator, qualified};
use crate::sound::SoundEnv;
use crate::structs::structured;
use gsl_base::{Code, List, Refusal};
use gsl_check_expr::{Written, written_type};
use gsl_syntax::{Decl, Declarator, Qual, Struct, TypeSpec};
use gsl_tree::{Stmt, Stmts};
use gsl_types::Ty;
use gsl_typing::refuse;
use std::alloc::Global;

/// Statements as one.
pub fn as_one(stmts: Stmts) -> Stmt
    ensures { result ≡ steps.as_one stmts }
{
    let mut stmts = stmts;
    if stmts.len() > 1 {
        return Stmt::Group(stmts);
    }
    match stmts.pop() {
        Some(one) => one,
        None => Stmt::Empty,
    }
}

/// Variables from left to right.
fn declarators(
    alloc: Global,
    fixed: bool,
    base: &Written,
    all: &[Declarator],
    env: &mut SoundEnv,
) -> Result<Stmts, Refusal>
    ensures { GivesBy (λ found. (found, env.new)) result (steps.in_turn (map (locals.declarator fixed base.now) all.now) env.old) }
{
    let mut found = List::new(alloc);
    for k in 0..all.len() {
        let one = declarator(alloc, fixed, base, &all[k], env)?;
        found.push(one)?;
    }
    Ok(found)
}

/// Variables of a type, with their qualifiers.
#[tactic(auto, unfolding(crate::specs::Declarations::variables))]
fn variables(
    alloc: Global,
    quals: &[Qual],
    ty: &TypeSpec,
    all: &[Declarator],
    env: &mut SoundEnv,
) -> Result<Stmts, Refusal>
    ensures { GivesBy (λ found. (found, env.new)) result (spec.variables quals.now ty.now all.now env.old) }
{
    let fixed = qualified(alloc, env.get(), quals)?;
    let base = written_type(alloc, env.get(), ty)?;
    declarators(alloc, fixed, &base, all, env)
}

/// A struct and variables of it, with their qualifiers.
#[tactic(auto, unfolding(crate::specs::Declarations::struct_and_variables))]
fn struct_and_variables(
    alloc: Global,
    quals: &[Qual],
    s: &Struct,
    all: &[Declarator],
    env: &mut SoundEnv,
) -> Result<Stmts, Refusal>
    ensures { GivesBy (λ found. (found, env.new)) result (spec.struct_and_variables quals.now s.now all.now env.old) }
{
    let fixed = qualified(alloc, env.get(), quals)?;
    let number = structured(alloc, env, s)?;
    let base = Written::Whole(Ty::Struct(number));
    declarators(alloc, fixed, &base, all, env)
}

/// What a declaration declares, variable by variable.
#[tactic(auto, unfolding(crate::specs::Declarations::declared_by))]
fn declared_by(alloc: Global, d: &Decl, env: &mut SoundEnv) -> Result<Stmts, Refusal>
    ensures { GivesBy (λ found. (found, env.new)) result (spec.declared_by d.now env.old) }
{
    match d {
        Decl::Variables(quals, ty, all) => {
            variables(alloc, quals.as_slice(), ty, all.as_slice(), env)
        }
        Decl::Struct(quals, s, all) => {
            struct_and_variables(alloc, quals.as_slice(), s, all.as_slice(), env)
        }
        Decl::Block(quals, name, _, _) => {
            qualified(alloc, env.get(), quals.as_slice())?;
            Err(refuse(name.place, Code::E0701))
        }
        Decl::Quals(quals) => {
            qualified(alloc, env.get(), quals.as_slice())?;
            Ok(List::new(alloc))
        }
    }
}

/// A declaration: its qualifiers, its type or struct, and then its variables.
#[tactic(auto, unfolding(crate::specs::Declarations::declaration))]
pub fn declaration(alloc: Global, d: &Decl, env: &mut SoundEnv) -> Result<Stmt, Refusal>
    ensures { GivesBy (λ s. (s, env.new)) result (spec.declaration d.now env.old) }
{
    let found = declared_by(alloc, d, env)?;
    Ok(as_one(found))
}

ghost use Rattle.std.specs.Prelude.{◌≡◌, ◌∷◌, [], IfOk};
ghost use Rattle.gsl_tree.specs.Constants.{constant_of, gives, known_by};

use crate::standing::standing;
use crate::stop::Stop;
use crate::value::value;
use gsl_base::{List, Memory};
use gsl_tree::{Consts, Expr, Folded, Standing};
use gsl_types::Structs;
use gsl_values::{Choices, Value};
use std::alloc::Global;

/// Whether an expression is constant, by what is known of the variables (GLSL 4.50, 4.3.3). It is `Known` where it has the
/// forms of constant expressions and known variables alone, and its value is left open nowhere; `Free` where only that
/// something is left open stands against it, in it or in the initialiser of a variable; and else not constant.
#[tactic(auto, unfolding(gsl_tree::specs::Constants::constant_of))]
pub fn constant(
    alloc: Global,
    _structs: &Structs,
    consts: &Consts,
    expr: &Expr,
) -> Result<Folded, Memory>
    ensures { IfOk result (λ f. f ≡ constant_of consts.now expr.now) }
{
    match standing(consts, expr) {
        Standing::Never => Ok(Folded::NotConstant),
        Standing::Open => Ok(Folded::Free),
        Standing::Settled => settled(alloc, consts, expr),
    }
}

/// What is known of an expression of the right forms: it is evaluated with one choice, which may not be drawn.
fn settled(alloc: Global, consts: &Consts, expr: &Expr) -> Result<Folded, Memory>
    ensures { IfOk result (λ f. f ≡ known_by (gives consts.now expr.now (0 ∷ []))) }
{
    let mut choices = Choices::new(List::from_slice(alloc, &[0])?);
    match value(alloc, consts, expr, &mut choices) {
        Ok(v) => Ok(found(v, &choices)),
        Err(Stop::Strays) => Ok(not_found(&choices)),
        Err(Stop::Memory) => Err(Memory),
    }
}

/// What is known where this value was found.
fn found(v: Value, choices: &Choices) -> Folded
    ensures { result ≡ known_by (Some v, choices.now) }
{
    if choices.left() == 0 {
        Folded::Free
    } else {
        Folded::Known(v)
    }
}

/// What is known where no value was found.
fn not_found(choices: &Choices) -> Folded
    ensures { result ≡ known_by (None, choices.now) }
{
    if choices.left() == 0 {
        Folded::Free
    } else {
        Folded::NotConstant
    }
}

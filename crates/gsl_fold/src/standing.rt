//! The forms of constant expressions, and what their variables are.

ghost use Rattle.std.specs.Prelude.{◌≡◌};
ghost use Rattle.gsl_tree.specs.Constants as spec;

use gsl_compute::has_fixed_length;
use gsl_tree::{Consts, Expr, ExprKind, Exprs, Folded, Foldeds, Standing};

/// The standing of what has two parts: the worse one.
fn worse(a: Standing, b: Standing) -> Standing
    ensures { result ≡ spec.worse a b }
{
    match (a, b) {
        (Standing::Settled, b) => b,
        (Standing::Open, Standing::Never) => Standing::Never,
        (Standing::Open, _) => Standing::Open,
        (Standing::Never, _) => Standing::Never,
    }
}

/// The standing of a variable.
fn of_variable(foldeds: &Foldeds, number: u32) -> Standing
    ensures { result ≡ spec.standing_of (spec.known_at foldeds.now number) }
{
    if number as usize >= foldeds.len() {
        return Standing::Never;
    }
    of_folded(&foldeds[number as usize])
}

fn of_folded(folded: &Folded) -> Standing
    ensures { result ≡ spec.standing_of folded.now }
{
    match folded {
        Folded::Known(_) => Standing::Settled,
        Folded::NotConstant => Standing::Never,
        Folded::Free => Standing::Open,
    }
}

/// The standing of an expression.
#[cycle(standing)]
#[tactic(auto, using(gsl_tree::proofs::Steps::standings_step))]
pub fn standing(consts: &Consts, e: &Expr) -> Standing
    ensures { result ≡ spec.standing consts.now e.now }
{
    of_kind(consts, &e.kind)
}

#[cycle(standing)]
#[tactic(auto, using(gsl_tree::proofs::Steps::standings_step))]
fn of_kind(consts: &Consts, kind: &ExprKind) -> Standing
    ensures { result ≡ spec.kind_standing consts.now kind.now }
{
    match kind {
        ExprKind::Const(_) => Standing::Settled,
        ExprKind::Local(number) => of_variable(&consts.locals, *number),
        ExprKind::Global(number) => of_variable(&consts.globals, *number),
        ExprKind::Member(a, _)
        | ExprKind::Swizzle(a, _)
        | ExprKind::Unary(_, a)
        | ExprKind::Convert(a) => { standing(consts, a.get()) }
        ExprKind::Index(a, b) | ExprKind::Binary(_, a, b) | ExprKind::Logic(_, a, b) => {
            worse(standing(consts, a.get()), standing(consts, b.get()))
        }
        ExprKind::Length(a) => {
            if has_fixed_length(&a.get().ty) {
                Standing::Settled
            } else {
                Standing::Never
            }
        }
        ExprKind::Choose(test, a, b) => {
            let either = worse(standing(consts, a.get()), standing(consts, b.get()));
            worse(standing(consts, test.get()), either)
        }
        ExprKind::Built(_, args) | ExprKind::Build(args) => of_all(consts, args),
        ExprKind::Param(_)
        | ExprKind::BlockMember(_, _)
        | ExprKind::Stage(_)
        | ExprKind::Interface(_)
        | ExprKind::Assign(_, _)
        | ExprKind::Update(_, _, _)
        | ExprKind::Step(_, _)
        | ExprKind::Call(_, _)
        | ExprKind::Comma(_) => Standing::Never,
    }
}

#[cycle(standing)]
fn of_all(consts: &Consts, es: &Exprs) -> Standing
    ensures { result ≡ spec.standings consts.now es.now }
{
    let mut worst = Standing::Settled;
    for k in 0..es.len() {
        worst = worse(worst, standing(consts, &es[k]));
    }
    worst
}

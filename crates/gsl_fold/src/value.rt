//! What a constant expression gives.

ghost use Rattle.std.specs.Prelude.{◌≡◌};
ghost use Rattle.gsl_tree.specs.Constants as spec;
ghost use Rattle.gsl_tree.specs.Operations as operations;
ghost use Rattle.gsl_tree.specs.Drawing.{checked};
ghost use Rattle.gsl_tree.specs.Values.{word_in as word_of};
ghost use Rattle.gsl_fold.specs.Answers.{Answers};

use crate::held::{Held, index_of, member_of};
use crate::stop::Stop;
use gsl_base::List;
use gsl_compute::{
    binary_value, build_value, builtin_value, decides, is_signed, length_of, logic_word,
    swizzle_value, unary_value, word_in,
};
use gsl_tree::{Consts, Expr, ExprKind, Exprs, Folded, Foldeds};
use gsl_types::Ty;
use gsl_values::{Choices, Value, Values};
use std::alloc::Global;

/// The value of a variable.
fn variable<'a>(foldeds: &'a Foldeds, number: u32, choices: &mut Choices) -> Result<Held<'a>, Stop>
    ensures { Answers result choices.new (spec.folded_value (spec.known_at foldeds.now number) choices.old) }
{
    if number as usize >= foldeds.len() {
        return Err(Stop::Strays);
    }
    folded(&foldeds[number as usize], choices)
}

fn folded<'a>(folded: &'a Folded, _choices: &mut Choices) -> Result<Held<'a>, Stop>
    ensures { Answers result _choices.new (spec.folded_value folded.now _choices.old) }
{
    match folded {
        Folded::Known(v) => Ok(Held::lent(v)),
        Folded::NotConstant | Folded::Free => Err(Stop::Strays),
    }
}

/// The part of a value at an index.
fn part<'a>(
    alloc: Global,
    v: Held<'a>,
    index: u32,
    _choices: &mut Choices,
) -> Result<Held<'a>, Stop>
    ensures { Answers result _choices.new (checked (operations.index_value v.entry index) _choices.old) }
{
    match index_of(alloc, v, index)? {
        Some(part) => Ok(part),
        None => Err(Stop::Strays),
    }
}

/// Whether the first of some expressions is an `int` or a vector of them.
fn signed_first(es: &Exprs) -> bool
    ensures { result ≡ spec.signed_first es.now }
{
    !es.is_empty() && is_signed(&es[0].ty)
}

/// What an expression gives.
#[cycle(value)]
pub fn value(alloc: Global, consts: &Consts, e: &Expr, choices: &mut Choices) -> Result<Value, Stop>
    ensures { Answers result choices.new (spec.gives consts.now e.now choices.old) }
{
    let v = held(alloc, consts, e, choices)?;
    Ok(v.into_value(alloc)?)
}

/// What an expression gives, lent where a literal or a variable has it.
#[cycle(value)]
#[tactic(auto, using(gsl_tree::proofs::Steps::gives_step))]
fn held<'a>(
    alloc: Global,
    consts: &'a Consts,
    e: &'a Expr,
    choices: &mut Choices,
) -> Result<Held<'a>, Stop>
    ensures { Answers result choices.new (spec.gives consts.now e.now choices.old) }
{
    of_kind(alloc, consts, &e.kind, &e.ty, choices)
}

#[cycle(value)]
#[tactic(auto, using(gsl_tree::proofs::Steps::gives_step))]
fn of_kind<'a>(
    alloc: Global,
    consts: &'a Consts,
    kind: &'a ExprKind,
    ty: &Ty,
    choices: &mut Choices,
) -> Result<Held<'a>, Stop>
    ensures { Answers result choices.new (spec.kind_gives consts.now kind.now ty.now choices.old) }
{
    match kind {
        ExprKind::Const(v) => Ok(Held::lent(v)),
        ExprKind::Local(number) => variable(&consts.locals, *number, choices),
        ExprKind::Global(number) => variable(&consts.globals, *number, choices),
        ExprKind::Member(a, number) => {
            let v = held(alloc, consts, a.get(), choices)?;
            Ok(member_of(alloc, v, *number)?)
        }
        ExprKind::Index(a, i) => {
            let v = held(alloc, consts, a.get(), choices)?;
            let index = held(alloc, consts, i.get(), choices)?;
            part(alloc, v, word_in(index.get()), choices)
        }
        ExprKind::Swizzle(a, lanes) => {
            let v = held(alloc, consts, a.get(), choices)?;
            Ok(Held::own(swizzle_value(alloc, v.get(), lanes)?))
        }
        ExprKind::Length(a) => Ok(Held::own(Value::Word(length_of(&a.get().ty)))),
        ExprKind::Unary(op, a) => {
            let v = held(alloc, consts, a.get(), choices)?;
            Ok(Held::own(unary_value(alloc, *op, v.get())?))
        }
        ExprKind::Binary(op, a, b) => {
            let x = held(alloc, consts, a.get(), choices)?;
            let y = held(alloc, consts, b.get(), choices)?;
            let signed = is_signed(&a.get().ty);
            Ok(Held::own(binary_value(alloc, *op, signed, x.get(), y.get(), choices)?))
        }
        ExprKind::Logic(op, a, b) => {
            let x = held(alloc, consts, a.get(), choices)?;
            if decides(*op, word_in(x.get())) {
                return Ok(x);
            }
            let y = held(alloc, consts, b.get(), choices)?;
            Ok(Held::own(Value::Word(logic_word(*op, word_in(x.get()), word_in(y.get())))))
        }
        ExprKind::Choose(test, a, b) => {
            let x = held(alloc, consts, test.get(), choices)?;
            if word_in(x.get()) == 0 {
                held(alloc, consts, b.get(), choices)
            } else {
                held(alloc, consts, a.get(), choices)
            }
        }
        ExprKind::Built(which, args) => {
            let vs = values(alloc, consts, args, choices)?;
            Ok(Held::own(builtin_value(alloc, *which, signed_first(args), &vs, choices)?))
        }
        ExprKind::Build(args) => {
            let vs = values(alloc, consts, args, choices)?;
            Ok(Held::own(build_value(alloc, ty, vs)?))
        }
        ExprKind::Convert(a) => held(alloc, consts, a.get(), choices),
        ExprKind::Param(_)
        | ExprKind::BlockMember(_, _)
        | ExprKind::Stage(_)
        | ExprKind::Interface(_)
        | ExprKind::Assign(_, _)
        | ExprKind::Update(_, _, _)
        | ExprKind::Step(_, _)
        | ExprKind::Call(_, _)
        | ExprKind::Comma(_) => Err(Stop::Strays),
    }
}

/// What several expressions give in their order.
#[cycle(value)]
fn values(alloc: Global, consts: &Consts, es: &Exprs, choices: &mut Choices) -> Result<Values, Stop>
    ensures { Answers result choices.new (spec.gives_all consts.now es.now choices.old) }
{
    let mut given = List::new(alloc);
    for k in 0..es.len() {
        given.push(value(alloc, consts, &es[k], choices)?)?;
    }
    Ok(given)
}

//! What is known of an expression before it is lowered.

ghost use Rattle.std.specs.Prelude.{◌≡◌, IfOk};
ghost use Rattle.gsl_types.specs.declared.ty.Ty.TheViews.{out-Ty};
ghost use Rattle.gsl_lower_traits.specs.Traits as spec;

use gsl_base::Memory;
use gsl_compute::{has_fixed_length, word_in};
use gsl_tree::{Expr, ExprKind, Exprs, LogicOp};
use gsl_types::Ty;
use gsl_typing::shape_of;
use gsl_values::{BinaryOp, Value};

/// What is known of an expression before it is lowered: the number that it is, if it is a literal; whether it stands in no variable; whether
/// its code has labels; whether it calls a function of the program; whether it may be evaluated where it does not count, since it does
/// nothing but give a value, and whether it may be reached there.
#[derive(Clone, Copy, Debug)]
pub struct Traits {
    pub literal: Option<u32>,
    pub is_loose: bool,
    pub splits: bool,
    pub calls: bool,
    pub quiet: bool,
    pub still: bool,
}

/// Whether a type is a scalar or a vector.
pub fn is_plain(ty: &Ty) -> bool
    ensures { result ≡ spec.is_plain ty.now }
{
    shape_of(ty).is_some()
}

fn is_one(ty: &Ty) -> bool
    ensures { result ≡ spec.is_one (shapes.shape_of ty.now) }
{
    match shape_of(ty) {
        None => false,
        Some(shape) => shape.1 == 1,
    }
}

ghost use Rattle.gsl_tree.specs.Shapes as shapes;

pub fn is_dynamic(literal: Option<u32>) -> bool
    ensures { result ≡ spec.is_dynamic literal }
{
    literal.is_none()
}

/// Whether an array that is a value and in no variable is put into a holder for an index into it.
pub fn spills(ty: &Ty, a: Traits, i: Traits) -> bool
    ensures { result ≡ spec.spills (record { ty = ty.now; traits = a }) i }
{
    a.is_loose && is_dynamic(i.literal) && !is_plain(ty)
}

/// Whether the right operand is entered only where the left one does not decide.
pub fn is_short(which: LogicOp, b: Traits) -> bool
    ensures { result ≡ spec.is_short which b }
{
    match which {
        LogicOp::Xor => false,
        _ => !b.quiet,
    }
}

/// Whether a scalar is selected from two values that are both there.
pub fn is_selected(ty: &Ty, a: Traits, b: Traits) -> bool
    ensures { result ≡ spec.is_selected ty.now a b }
{
    is_one(ty) && a.quiet && b.quiet
}

fn is_sure(which: BinaryOp) -> bool
    ensures { result ≡ spec.is_sure which }
{
    match which {
        BinaryOp::Div | BinaryOp::Mod | BinaryOp::Shl | BinaryOp::Shr => false,
        _ => true,
    }
}

fn literal_by(ty: &Ty, v: &Value) -> Option<u32>
    ensures { result ≡ spec.literal_by (out-Ty ty.now) v.now }
{
    match ty {
        Ty::One(_) => Some(word_in(v)),
        _ => None,
    }
}

fn in_variable(ty: &Ty) -> Traits
    ensures { result ≡ spec.in_variable ty.now }
{
    Traits {
        literal: None,
        is_loose: false,
        splits: false,
        calls: false,
        quiet: is_plain(ty),
        still: true,
    }
}

fn part_of(ty: &Ty, a: Traits) -> Traits
    ensures { result ≡ spec.part_of ty.now a }
{
    Traits {
        literal: None,
        is_loose: a.is_loose,
        splits: a.splits,
        calls: a.calls,
        quiet: a.still && is_plain(ty),
        still: a.still,
    }
}

fn valued(splits: bool, calls: bool, quiet: bool) -> Traits
    ensures { result ≡ spec.valued splits calls quiet }
{
    Traits {
        literal: None,
        is_loose: true,
        splits,
        calls,
        quiet,
        still: quiet,
    }
}

fn constant(ty: &Ty, v: &Value) -> Traits
    ensures { result ≡ spec.constant ty.now v.now }
{
    Traits {
        literal: literal_by(ty, v),
        is_loose: true,
        splits: false,
        calls: false,
        quiet: true,
        still: true,
    }
}

fn of_one(a: Traits) -> Traits
    ensures { result ≡ spec.of_one a }
{
    valued(a.splits, a.calls, a.quiet)
}

fn of_two(more: bool, quiet: bool, a: Traits, b: Traits) -> Traits
    ensures { result ≡ spec.of_two more quiet a b }
{
    valued(
        a.splits || b.splits || more,
        a.calls || b.calls,
        a.quiet && b.quiet && quiet,
    )
}

fn is_still_index(ty: &Ty, a: Traits, i: Traits) -> bool
    ensures { result ≡ spec.is_still_index (record { ty = ty.now; traits = a }) i }
{
    a.still && !is_dynamic(i.literal) && has_fixed_length(ty)
}

fn indexed(ty: &Ty, base: &Ty, a: Traits, i: Traits) -> Traits
    ensures { result ≡ spec.indexed ty.now (record { ty = base.now; traits = a }) i }
{
    let still = is_still_index(base, a, i);
    Traits {
        literal: None,
        is_loose: a.is_loose && !spills(base, a, i),
        splits: a.splits || i.splits,
        calls: a.calls || i.calls,
        quiet: still && is_plain(ty),
        still,
    }
}

fn chosen(ty: &Ty, test: Traits, a: Traits, b: Traits) -> Traits
    ensures { result ≡ spec.chosen ty.now test a b }
{
    let selected = is_selected(ty, a, b);
    valued(
        test.splits || a.splits || b.splits || !selected,
        test.calls || a.calls || b.calls,
        test.quiet && selected,
    )
}

fn with(a: Traits, b: Traits) -> Traits
    ensures { result ≡ spec.with a b }
{
    valued(a.splits || b.splits, a.calls || b.calls, a.quiet && b.quiet)
}

fn loud(a: Traits) -> Traits
    ensures { result ≡ spec.loud a }
{
    valued(a.splits, a.calls, false)
}

fn built(ty: &Ty, a: Traits) -> Traits
    ensures { result ≡ spec.built ty.now a }
{
    valued(a.splits, a.calls, a.quiet && is_plain(ty))
}

/// What is known of an expression.
#[cycle(traits)]
#[tactic(auto, using(crate::proofs::Known::traits_step))]
pub fn traits_of(e: &Expr) -> Result<Traits, Memory>
    ensures { IfOk result (λ t. t ≡ spec.traits_of e.now) }
{
    kind_traits(&e.kind, &e.ty)
}

/// What is known of a form: a name, a part of one, an operator on one operand, or another form.
#[cycle(traits)]
#[tactic(auto, using(crate::proofs::Known::traits_step))]
fn kind_traits(kind: &ExprKind, ty: &Ty) -> Result<Traits, Memory>
    ensures { IfOk result (λ t. t ≡ spec.kind_traits kind.now ty.now) }
{
    match kind {
        ExprKind::Const(v) => Ok(constant(ty, v)),
        ExprKind::Local(_)
        | ExprKind::Global(_)
        | ExprKind::Param(_)
        | ExprKind::BlockMember(_, _)
        | ExprKind::Interface(_) => Ok(in_variable(ty)),
        ExprKind::Stage(_) | ExprKind::Length(_) => Ok(valued(false, false, true)),
        ExprKind::Member(a, _) | ExprKind::Swizzle(a, _) => Ok(part_of(ty, traits_of(a.get())?)),
        ExprKind::Unary(_, a) | ExprKind::Convert(a) => Ok(of_one(traits_of(a.get())?)),
        ExprKind::Step(_, a) => Ok(loud(traits_of(a.get())?)),
        other => pair_traits(other, ty),
    }
}

/// What is known of a form with two or three parts, or of another one.
#[cycle(traits)]
#[tactic(auto, using(crate::proofs::Known::traits_step))]
fn pair_traits(kind: &ExprKind, ty: &Ty) -> Result<Traits, Memory>
    ensures { IfOk result (λ t. t ≡ spec.kind_traits kind.now ty.now) }
{
    match kind {
        ExprKind::Index(a, i) => {
            let x = traits_of(a.get())?;
            let y = traits_of(i.get())?;
            Ok(indexed(ty, &a.get().ty, x, y))
        }
        ExprKind::Binary(op, a, b) => {
            let x = traits_of(a.get())?;
            let y = traits_of(b.get())?;
            Ok(of_two(false, is_sure(*op), x, y))
        }
        ExprKind::Logic(op, a, b) => {
            let x = traits_of(a.get())?;
            let y = traits_of(b.get())?;
            Ok(of_two(is_short(*op, y), true, x, y))
        }
        ExprKind::Assign(a, b) | ExprKind::Update(_, a, b) => {
            let x = traits_of(a.get())?;
            let y = traits_of(b.get())?;
            Ok(of_two(false, false, x, y))
        }
        ExprKind::Choose(test, a, b) => {
            let x = traits_of(test.get())?;
            let y = traits_of(a.get())?;
            let z = traits_of(b.get())?;
            Ok(chosen(ty, x, y, z))
        }
        other => row_traits(other, ty),
    }
}

/// What is known of a form with a row of parts.
#[cycle(traits)]
#[tactic(auto, using(crate::proofs::Known::traits_step))]
fn row_traits(kind: &ExprKind, ty: &Ty) -> Result<Traits, Memory>
    ensures { IfOk result (λ t. t ≡ spec.kind_traits kind.now ty.now) }
{
    match kind {
        ExprKind::Call(_, args) => Ok(called(together(args)?)),
        ExprKind::Built(_, args) => Ok(loud(together(args)?)),
        ExprKind::Build(args) => Ok(built(ty, together(args)?)),
        ExprKind::Comma(items) => Ok(loud(together(items)?)),
        _ => Err(Memory),
    }
}

/// What is known of several expressions together.
#[cycle(traits)]
fn together(es: &Exprs) -> Result<Traits, Memory>
    ensures { IfOk result (λ t. t ≡ spec.together_of es.now) }
{
    let mut all = valued(false, false, true);
    for k in 0..es.len() {
        all = with(all, traits_of(&es[k])?);
    }
    Ok(all)
}

fn called(a: Traits) -> Traits
    ensures { result ≡ spec.called a }
{
    valued(a.splits, true, false)
}

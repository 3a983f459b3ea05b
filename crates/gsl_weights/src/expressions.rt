//! The weights of expressions.

ghost use Rattle.std.specs.Prelude.{◌≡◌, if◌then◌else◌, ◌&&◌};
ghost use Rattle.gsl_tree.specs.Shapes.{is_equality as tests_equality};
ghost use Rattle.gsl_tree.specs.Paths.{is_aggregate as whole_type};
ghost use Rattle.gsl_types.specs.Known.{AreStructs};
ghost use Rattle.gsl_types.specs.Leaves.{told_leaves};
ghost use Rattle.gsl_weights.specs.Telling.{up_to, in_turn};
ghost use Rattle.gsl_weights.specs.Weighing as spec;

use crate::leaves::{few_leaves, is_aggregate};
use crate::telling::added;
use gsl_tree::{Expr, ExprKind, Exprs};
use gsl_types::{Structs, Ty};
use gsl_values::BinaryOp;

fn is_equality(op: BinaryOp) -> bool
    ensures { result ≡ tests_equality op }
{
    match op {
        BinaryOp::Equal | BinaryOp::Unequal => true,
        _ => false,
    }
}

/// Whether an expression is a member of a block or a part of one.
#[cycle(leads)]
#[tactic(auto, using(crate::proofs::Steps::leads_step))]
fn in_block(structs: &Structs, e: &Expr) -> bool
    ensures { result ≡ spec.in_block structs.now e.now }
{
    kind_in_block(structs, &e.kind)
}

#[cycle(leads)]
#[tactic(auto, using(crate::proofs::Steps::leads_step))]
fn kind_in_block(structs: &Structs, kind: &ExprKind) -> bool
    ensures { result ≡ spec.kind_in_block structs.now kind.now }
{
    match kind {
        ExprKind::BlockMember(_, _) => true,
        ExprKind::Member(a, _) | ExprKind::Index(a, _) | ExprKind::Swizzle(a, _) => {
            in_block(structs, a.get())
        }
        ExprKind::Const(_)
        | ExprKind::Local(_)
        | ExprKind::Global(_)
        | ExprKind::Param(_)
        | ExprKind::Stage(_)
        | ExprKind::Interface(_)
        | ExprKind::Length(_)
        | ExprKind::Unary(_, _)
        | ExprKind::Binary(_, _, _)
        | ExprKind::Logic(_, _, _)
        | ExprKind::Choose(_, _, _)
        | ExprKind::Assign(_, _)
        | ExprKind::Update(_, _, _)
        | ExprKind::Step(_, _)
        | ExprKind::Call(_, _)
        | ExprKind::Built(_, _)
        | ExprKind::Build(_)
        | ExprKind::Convert(_)
        | ExprKind::Comma(_) => false,
    }
}

/// The leaves that are copied where an expression is read or written.
#[tactic(auto, using(crate::proofs::Steps::copied_opens))]
fn copied(structs: &Structs, e: &Expr) -> u32
    requires known { AreStructs structs.now }
    ensures { result ≡ up_to (spec.copied_leaves structs.now e.now) }
{
    if in_block(structs, e) && is_aggregate(&e.ty) {
        few_leaves(structs, &e.ty)
    } else {
        0
    }
}

/// The leaves that an operator on operands of a type compares.
fn compared(structs: &Structs, op: BinaryOp, ty: &Ty) -> u32
    requires known { AreStructs structs.now }
    ensures { result ≡ up_to (if tests_equality op && whole_type ty.now then told_leaves structs.now ty.now else 0) }
{
    if is_equality(op) && is_aggregate(ty) {
        few_leaves(structs, ty)
    } else {
        0
    }
}

/// A count with the weight of an expression.
#[cycle(weigh)]
#[tactic(auto, using(crate::proofs::Steps::weigh_step))]
fn weighed(structs: &Structs, so_far: u32, e: &Expr) -> u32
    requires known { AreStructs structs.now }
    ensures { result ≡ spec.weighed structs.now so_far e.now }
{
    kind_weighed(structs, added(so_far, 1), &e.kind)
}

/// A count with the weight of an expression that is read.
#[cycle(weigh)]
#[tactic(auto, using(crate::proofs::Steps::read_opens))]
pub(crate) fn read_weighed(structs: &Structs, so_far: u32, e: &Expr) -> u32
    requires known { AreStructs structs.now }
    ensures { result ≡ spec.read_weighed structs.now so_far e.now }
{
    let own = weighed(structs, so_far, e);
    added(own, copied(structs, e))
}

#[cycle(weigh)]
#[tactic(auto, using(crate::proofs::Steps::weigh_step))]
fn kind_weighed(structs: &Structs, so_far: u32, kind: &ExprKind) -> u32
    requires known { AreStructs structs.now }
    ensures { result ≡ spec.kind_weighed structs.now so_far kind.now }
{
    match kind {
        ExprKind::Const(_)
        | ExprKind::Local(_)
        | ExprKind::Global(_)
        | ExprKind::Param(_)
        | ExprKind::BlockMember(_, _)
        | ExprKind::Stage(_)
        | ExprKind::Interface(_) => added(so_far, 0),
        ExprKind::Member(a, _) | ExprKind::Swizzle(a, _) | ExprKind::Length(a) => {
            weighed(structs, so_far, a.get())
        }
        ExprKind::Index(a, i) => {
            let base = weighed(structs, so_far, a.get());
            read_weighed(structs, base, i.get())
        }
        ExprKind::Unary(_, a) | ExprKind::Step(_, a) | ExprKind::Convert(a) => {
            read_weighed(structs, so_far, a.get())
        }
        ExprKind::Binary(op, a, b) => {
            let first = read_weighed(structs, so_far, a.get());
            let both = read_weighed(structs, first, b.get());
            added(both, compared(structs, *op, &a.get().ty))
        }
        ExprKind::Logic(_, a, b) | ExprKind::Assign(a, b) | ExprKind::Update(_, a, b) => {
            let first = read_weighed(structs, so_far, a.get());
            read_weighed(structs, first, b.get())
        }
        ExprKind::Choose(test, a, b) => {
            let first = read_weighed(structs, so_far, test.get());
            let second = read_weighed(structs, first, a.get());
            read_weighed(structs, second, b.get())
        }
        ExprKind::Call(_, args)
        | ExprKind::Built(_, args)
        | ExprKind::Build(args)
        | ExprKind::Comma(args) => {
            let all = all_weighed(structs, so_far, args);
            added(all, 0)
        }
    }
}

#[cycle(weigh)]
fn all_weighed(structs: &Structs, so_far: u32, es: &Exprs) -> u32
    requires known { AreStructs structs.now }
    ensures { result ≡ in_turn (spec.read_weighed structs.now) so_far es.now }
{
    let mut total = so_far;
    for k in 0..es.len() {
        total = read_weighed(structs, total, &es[k]);
    }
    total
}

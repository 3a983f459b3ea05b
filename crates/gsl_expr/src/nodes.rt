//! Pieces of expressions and types: what a tree is, and trees put together.

ghost use Rattle.std.specs.Prelude.{◌≡◌, IfOk};
ghost use Rattle.gsl_expr.specs.Expressions as spec;

use crate::held::with;
use crate::reading::Cursor;
use crate::rule::{Base, Head, Mode};
use gsl_base::{Boxed, Key, List, Memory, Place, Punct, Text};
use gsl_syntax::{AssignOp, Basic, BinaryOp, Dim, Dims, Expr, Name, PostfixOp, TypeSpec, UnaryOp};
use std::alloc::Global;

#[tactic(auto, unfolding(crate::specs::Expressions::is_cond))]
fn is_cond(tree: &Expr) -> bool
    ensures { result ≡ spec.is_cond tree.now }
{
    match tree {
        Expr::Assign(..) | Expr::Sequence(..) => false,
        _ => true,
    }
}

#[tactic(auto, unfolding(crate::specs::Expressions::is_tight))]
pub(crate) fn is_tight(tree: &Expr) -> bool
    ensures { result ≡ spec.is_tight tree.now }
{
    match tree {
        Expr::Binary(..) | Expr::Conditional(..) | Expr::Assign(..) | Expr::Sequence(..) => false,
        _ => true,
    }
}

fn mode_after(mode: Mode, size: &Expr) -> Mode
    ensures { result ≡ spec.mode_after mode size.now }
{
    match mode {
        Mode::Either => {
            if is_cond(size) {
                Mode::Either
            } else {
                Mode::Index
            }
        }
        Mode::Type => Mode::Type,
        Mode::Index => Mode::Index,
    }
}

pub(crate) fn level_in(mode: Mode) -> u8
    ensures { result ≡ spec.level_in mode }
{
    if mode == Mode::Type { 2 } else { 0 }
}

pub fn may_be_open(mode: Mode) -> bool
    ensures { result ≡ spec.may_be_open mode }
{
    mode != Mode::Index
}

pub(crate) fn may_be_index(mode: Mode) -> bool
    ensures { result ≡ spec.may_be_index mode }
{
    mode != Mode::Type
}

/// The type that a head is.
pub fn head_type(head: Head) -> TypeSpec
    ensures { result ≡ spec.head_type head }
{
    let Head {
        place,
        base,
        dims,
        ..
    } = head;
    match base {
        Base::Basic(basic) => TypeSpec::Basic(place, basic, dims),
        Base::Named(text) => TypeSpec::Named(place, text, dims),
    }
}

/// Gives up a head, part by part.
pub(crate) fn give_up(head: Head) {
    let Head { base, dims, .. } = head;
    drop(base);
    drop(dims);
}

/// Two trees in boxes.
fn boxed_both(alloc: Global, a: Expr, b: Expr) -> Result<(Boxed<Expr>, Boxed<Expr>), Memory>
    ensures { IfOk result (λ both. both ≡ (a, b)) }
{
    let (a, b) = with(Boxed::new(alloc, a), b)?;
    let (b, a) = with(Boxed::new(alloc, b), a)?;
    Ok((a, b))
}

/// A size in brackets, and what the brackets behind it may be.
pub(crate) fn sized(
    alloc: Global,
    mode: Mode,
    place: Place,
    size: Expr,
) -> Result<(Dim, Mode), Memory>
    ensures { IfOk result (λ r. r ≡ (Dim.Sized place size, spec.mode_after mode size)) }
{
    let after = mode_after(mode, &size);
    Ok((Dim::Sized(place, Boxed::new(alloc, size)?), after))
}

pub(crate) fn member_of(alloc: Global, place: Place, left: Expr, name: Text) -> Result<Expr, Memory>
    ensures { IfOk result (λ t. t ≡ Expr.Member place left name) }
{
    let (left, name) = with(Boxed::new(alloc, left), name)?;
    Ok(Expr::Member(place, left, name))
}

pub(crate) fn method_of(alloc: Global, place: Place, left: Expr, name: Text) -> Result<Expr, Memory>
    ensures { IfOk result (λ t. t ≡ Expr.Method place left name) }
{
    let (left, name) = with(Boxed::new(alloc, left), name)?;
    Ok(Expr::Method(place, left, name))
}

pub(crate) fn index(alloc: Global, place: Place, a: Expr, b: Expr) -> Result<Expr, Memory>
    ensures { IfOk result (λ t. t ≡ Expr.Index place a b) }
{
    let (a, b) = boxed_both(alloc, a, b)?;
    Ok(Expr::Index(place, a, b))
}

pub(crate) fn paren(alloc: Global, place: Place, a: Expr) -> Result<Expr, Memory>
    ensures { IfOk result (λ t. t ≡ Expr.Paren place a) }
{
    Ok(Expr::Paren(place, Boxed::new(alloc, a)?))
}

pub(crate) fn unary(alloc: Global, place: Place, op: UnaryOp, a: Expr) -> Result<Expr, Memory>
    ensures { IfOk result (λ t. t ≡ Expr.Unary place op a) }
{
    Ok(Expr::Unary(place, op, Boxed::new(alloc, a)?))
}

pub(crate) fn postfix(alloc: Global, place: Place, op: PostfixOp, a: Expr) -> Result<Expr, Memory>
    ensures { IfOk result (λ t. t ≡ Expr.Postfix place op a) }
{
    Ok(Expr::Postfix(place, op, Boxed::new(alloc, a)?))
}

pub(crate) fn binary(
    alloc: Global,
    place: Place,
    op: BinaryOp,
    a: Expr,
    b: Expr,
) -> Result<Expr, Memory>
    ensures { IfOk result (λ t. t ≡ Expr.Binary place op a b) }
{
    let (a, b) = boxed_both(alloc, a, b)?;
    Ok(Expr::Binary(place, op, a, b))
}

pub(crate) fn assign(
    alloc: Global,
    place: Place,
    op: AssignOp,
    a: Expr,
    b: Expr,
) -> Result<Expr, Memory>
    ensures { IfOk result (λ t. t ≡ Expr.Assign place op a b) }
{
    let (a, b) = boxed_both(alloc, a, b)?;
    Ok(Expr::Assign(place, op, a, b))
}

pub(crate) fn conditional(
    alloc: Global,
    place: Place,
    a: Expr,
    b: Expr,
    c: Expr,
) -> Result<Expr, Memory>
    ensures { IfOk result (λ t. t ≡ Expr.Conditional place a b c) }
{
    let (both, a) = with(boxed_both(alloc, b, c), a)?;
    let (a, (b, c)) = with(Boxed::new(alloc, a), both)?;
    Ok(Expr::Conditional(place, a, b, c))
}

/// An expression with its indexes.
#[tactic(auto, using(crate::proofs::Indexes::none_more, crate::proofs::Indexes::open_more, crate::proofs::Indexes::sized_more))]
pub(crate) fn index_all(alloc: Global, first: Expr, dims: Dims) -> Result<Expr, Memory>
    ensures { IfOk result (λ t. t ≡ spec.index_all first dims) }
{
    let mut dims = dims;
    match dims.pop() {
        None => Ok(first),
        Some(Dim::Open(_)) => index_all(alloc, first, dims),
        Some(Dim::Sized(place, size)) => {
            let inner = index_all(alloc, first, dims)?;
            Ok(Expr::Index(place, Boxed::new(alloc, inner)?, size))
        }
    }
}

pub(crate) fn sequence(
    alloc: Global,
    first: Expr,
    further: List<(Place, Expr)>,
) -> Result<Expr, Memory>
    ensures { IfOk result (λ t. t ≡ spec.sequence_of first further) }
{
    if further.is_empty() {
        drop(further);
        return Ok(first);
    }
    let (first, further) = with(Boxed::new(alloc, first), further)?;
    Ok(Expr::Sequence(first, further))
}

/// Whether the word `void` and a closing parenthesis stand next.
#[tactic(auto, unfolding(crate::specs::Expressions::void_alone), using(crate::proofs::Behind::closes))]
pub fn void_alone(tokens: &Cursor<'_>) -> bool
    ensures { result ≡ spec.void_alone tokens.now.left }
{
    tokens.sees_key(Key::Void) && tokens.sees_behind(Punct::RightParen)
}

/// A name with its brackets, be they those of a type or indexes.
pub(crate) fn named(name: Name, dims: Dims, mode: Mode) -> Head
    ensures { result ≡ spec.named name dims mode }
{
    let Name { place, text } = name;
    let base = Base::Named(text);
    Head {
        place,
        base,
        dims,
        mode,
    }
}

/// A type keyword with its brackets.
pub(crate) fn keyword(place: Place, basic: Basic, dims: Dims) -> Head
    ensures { result ≡ spec.keyword place basic dims }
{
    Head {
        place,
        base: Base::Basic(basic),
        dims,
        mode: Mode::Type,
    }
}

//! Expressions and types in words: an operator stands before its operands, in brackets.

use crate::spelling::{assign, basic, binary, postfix, unary};
use crate::text::{Done, Outline};
use gsl_base::Place;
use gsl_syntax::{Dim, Expr, TypeSpec};

/// How deep the trees that are printed are at most.
pub const DEPTH: u32 = 600;

#[cycle(expr)]
fn exprs(out: &mut Outline, trees: &[Expr], depth: u32) -> Done {
    for tree in trees {
        out.put(" ")?;
        expr_within(out, tree, depth)?;
    }
    Ok(())
}

#[cycle(expr)]
fn further(out: &mut Outline, trees: &[(Place, Expr)], depth: u32) -> Done {
    for (place, tree) in trees {
        out.put(" ")?;
        out.node(",", *place)?;
        out.put(" ")?;
        expr_within(out, tree, depth)?;
    }
    Ok(())
}

#[cycle(expr)]
fn dims_within(out: &mut Outline, dims: &[Dim], depth: u32) -> Done {
    for dim in dims {
        match dim {
            Dim::Open(place) => out.node("[]", *place)?,
            Dim::Sized(place, size) => {
                out.put("[")?;
                expr_within(out, size.get(), depth)?;
                out.node("]", *place)?;
            }
        }
    }
    Ok(())
}

#[cycle(expr)]
fn type_within(out: &mut Outline, tree: &TypeSpec, depth: u32) -> Done {
    match tree {
        TypeSpec::Basic(place, ty, dims) => {
            out.node(basic(*ty), *place)?;
            dims_within(out, dims.as_slice(), depth)
        }
        TypeSpec::Named(place, name, dims) => {
            out.node(name.as_str(), *place)?;
            dims_within(out, dims.as_slice(), depth)
        }
    }
}

#[cycle(expr)]
fn one(out: &mut Outline, word: &str, place: Place, a: &Expr, depth: u32) -> Done {
    out.put("(")?;
    out.node(word, place)?;
    out.put(" ")?;
    expr_within(out, a, depth)?;
    out.put(")")
}

#[cycle(expr)]
fn two(out: &mut Outline, word: &str, place: Place, a: &Expr, b: &Expr, depth: u32) -> Done {
    out.put("(")?;
    out.node(word, place)?;
    out.put(" ")?;
    expr_within(out, a, depth)?;
    out.put(" ")?;
    expr_within(out, b, depth)?;
    out.put(")")
}

#[cycle(expr)]
fn choice(out: &mut Outline, place: Place, test: &Expr, a: &Expr, b: &Expr, depth: u32) -> Done {
    out.put("(")?;
    out.node("?", place)?;
    out.put(" ")?;
    expr_within(out, test, depth)?;
    out.put(" ")?;
    expr_within(out, a, depth)?;
    out.put(" ")?;
    expr_within(out, b, depth)?;
    out.put(")")
}

#[cycle(expr)]
fn member(
    out: &mut Outline,
    place: Place,
    a: &Expr,
    name: &str,
    brackets: &str,
    depth: u32,
) -> Done {
    out.put("(.")?;
    out.put(name)?;
    out.node(brackets, place)?;
    out.put(" ")?;
    expr_within(out, a, depth)?;
    out.put(")")
}

#[cycle(expr)]
fn call(out: &mut Outline, callee: &TypeSpec, items: &[Expr], depth: u32) -> Done {
    out.put("(call ")?;
    type_within(out, callee, depth)?;
    exprs(out, items, depth)?;
    out.put(")")
}

fn literal(out: &mut Outline, word: u32, suffix: &str, place: Place) -> Done {
    out.number(u64::from(word))?;
    out.node(suffix, place)
}

#[cycle(expr)]
fn expr_within(out: &mut Outline, tree: &Expr, depth: u32) -> Done {
    if depth == 0 {
        return out.put("..");
    }
    let less = depth - 1;
    match tree {
        Expr::Name(place, name) => out.node(name.as_str(), *place),
        Expr::Signed(place, word) => literal(out, *word, "", *place),
        Expr::Unsigned(place, word) => literal(out, *word, "u", *place),
        Expr::Bool(place, true) => out.node("true", *place),
        Expr::Bool(place, false) => out.node("false", *place),
        Expr::Paren(place, a) => one(out, "paren", *place, a.get(), less),
        Expr::CallVoid(callee) => {
            out.put("(call ")?;
            type_within(out, callee.get(), less)?;
            out.put(" void)")
        }
        Expr::Call(callee, items) => call(out, callee.get(), items.as_slice(), less),
        Expr::Index(place, a, b) => two(out, "index", *place, a.get(), b.get(), less),
        Expr::Member(place, a, name) => member(out, *place, a.get(), name.as_str(), "", less),
        Expr::Method(place, a, name) => member(out, *place, a.get(), name.as_str(), "()", less),
        Expr::Postfix(place, op, a) => one(out, postfix(*op), *place, a.get(), less),
        Expr::Unary(place, op, a) => one(out, unary(*op), *place, a.get(), less),
        Expr::Binary(place, op, a, b) => two(out, binary(*op), *place, a.get(), b.get(), less),
        Expr::Conditional(place, a, b, c) => choice(out, *place, a.get(), b.get(), c.get(), less),
        Expr::Assign(place, op, a, b) => two(out, assign(*op), *place, a.get(), b.get(), less),
        Expr::Sequence(a, found) => {
            out.put("(")?;
            expr_within(out, a.get(), less)?;
            further(out, found.as_slice(), less)?;
            out.put(")")
        }
    }
}

pub fn expr(out: &mut Outline, tree: &Expr) -> Done {
    expr_within(out, tree, DEPTH)
}

pub fn dims(out: &mut Outline, trees: &[Dim]) -> Done {
    dims_within(out, trees, DEPTH)
}

pub fn type_spec(out: &mut Outline, tree: &TypeSpec) -> Done {
    type_within(out, tree, DEPTH)
}

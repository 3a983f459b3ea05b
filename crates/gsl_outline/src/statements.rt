//! Statements and units in words: one line each, what is within further to the right.

use crate::declarations::{decl, name, quals};
use crate::expressions::{DEPTH, dims, expr, type_spec};
use crate::text::{Done, Outline};
use gsl_base::Place;
use gsl_syntax::{Body, Decl, Expr, ForInit, Function, Global, Param, Params, Stmt, Unit};

/// A part of a `for` header that may be missing.
fn optional(out: &mut Outline, tree: &Option<Expr>) -> Done {
    match tree {
        Some(tree) => expr(out, tree),
        None => out.put("none"),
    }
}

fn for_init(out: &mut Outline, tree: &ForInit) -> Done {
    match tree {
        ForInit::Empty(place) => out.node("none", *place),
        ForInit::Expr(tree) => expr(out, tree),
        ForInit::Decl(tree) => decl(out, tree),
    }
}

/// A line of one word.
fn line(out: &mut Outline, word: &str, place: Place, at: u32) -> Done {
    out.indent(at)?;
    out.node(word, place)?;
    out.end_line()
}

/// A line of a word and an expression.
fn line_with(out: &mut Outline, word: &str, place: Place, tree: &Expr, at: u32) -> Done {
    out.indent(at)?;
    out.node(word, place)?;
    out.put(" ")?;
    expr(out, tree)?;
    out.end_line()
}

fn line_of(out: &mut Outline, tree: &Expr, at: u32) -> Done {
    out.indent(at)?;
    expr(out, tree)?;
    out.end_line()
}

fn decl_line(out: &mut Outline, tree: &Decl, at: u32) -> Done {
    out.indent(at)?;
    decl(out, tree)?;
    out.end_line()
}

fn for_line(
    out: &mut Outline,
    place: Place,
    first: &ForInit,
    test: &Option<Expr>,
    step: &Option<Expr>,
    at: u32,
) -> Done {
    out.indent(at)?;
    out.node("for", place)?;
    out.put(" ")?;
    for_init(out, first)?;
    out.put("; ")?;
    optional(out, test)?;
    out.put("; ")?;
    optional(out, step)?;
    out.end_line()
}

#[cycle(stmt)]
fn stmts(out: &mut Outline, trees: &[Stmt], at: u32) -> Done {
    for tree in trees {
        stmt(out, tree, at)?;
    }
    Ok(())
}

#[cycle(stmt)]
fn stmt(out: &mut Outline, tree: &Stmt, at: u32) -> Done {
    if at >= DEPTH {
        return out.put("..\n");
    }
    let within = at + 1;
    match tree {
        Stmt::Empty(place) => line(out, ";", *place, at),
        Stmt::Block(place, found) => {
            line(out, "block", *place, at)?;
            stmts(out, found.as_slice(), within)
        }
        Stmt::Decl(tree) => decl_line(out, tree, at),
        Stmt::Expr(tree) => line_of(out, tree, at),
        Stmt::If(place, test, then) => {
            line_with(out, "if", *place, test, at)?;
            stmt(out, then.get(), within)
        }
        Stmt::IfElse(place, test, then, other) => {
            line_with(out, "if", *place, test, at)?;
            stmt(out, then.get(), within)?;
            out.indent(at)?;
            out.put("else\n")?;
            stmt(out, other.get(), within)
        }
        Stmt::Switch(place, test, found) => {
            line_with(out, "switch", *place, test, at)?;
            stmts(out, found.as_slice(), within)
        }
        Stmt::Case(place, label) => line_with(out, "case", *place, label, at),
        Stmt::Default(place) => line(out, "default", *place, at),
        Stmt::While(place, test, body) => {
            line_with(out, "while", *place, test, at)?;
            stmt(out, body.get(), within)
        }
        Stmt::Do(place, body, test) => {
            line_with(out, "do while", *place, test, at)?;
            stmt(out, body.get(), within)
        }
        Stmt::For(place, first, test, step, body) => {
            for_line(out, *place, first, test, step, at)?;
            stmt(out, body.get(), within)
        }
        Stmt::Break(place) => line(out, "break", *place, at),
        Stmt::Continue(place) => line(out, "continue", *place, at),
        Stmt::Discard(place) => line(out, "discard", *place, at),
        Stmt::Return(place) => line(out, "return", *place, at),
        Stmt::ReturnValue(place, value) => line_with(out, "return", *place, value, at),
    }
}

fn param(out: &mut Outline, tree: &Param) -> Done {
    match tree {
        Param::Unnamed(found, ty) => {
            quals(out, found.as_slice())?;
            type_spec(out, ty)
        }
        Param::Named(found, ty, named, brackets) => {
            quals(out, found.as_slice())?;
            type_spec(out, ty)?;
            out.put(" ")?;
            name(out, named)?;
            dims(out, brackets.as_slice())
        }
    }
}

fn params(out: &mut Outline, tree: &Params) -> Done {
    match tree {
        Params::Void(place) => out.node("void", *place),
        Params::Items(found) => {
            let mut separator = "";
            for item in found.as_slice() {
                out.put(separator)?;
                separator = ", ";
                param(out, item)?;
            }
            Ok(())
        }
    }
}

fn function(out: &mut Outline, tree: &Function) -> Done {
    out.put("function ")?;
    quals(out, tree.quals.as_slice())?;
    type_spec(out, &tree.ty)?;
    out.put(" ")?;
    name(out, &tree.name)?;
    out.put("(")?;
    params(out, &tree.params)?;
    out.put(") ")?;
    match &tree.body {
        Body::Prototype(place) => line(out, ";", *place, 0),
        Body::Block(place, found) => {
            line(out, "body", *place, 0)?;
            stmts(out, found.as_slice(), 1)
        }
    }
}

/// A whole unit.
pub fn unit(out: &mut Outline, tree: &Unit) -> Done {
    for item in tree.as_slice() {
        match item {
            Global::Empty(place) => line(out, ";", *place, 0)?,
            Global::Decl(tree) => decl_line(out, tree, 0)?,
            Global::Function(tree) => function(out, tree)?,
        }
    }
    Ok(())
}

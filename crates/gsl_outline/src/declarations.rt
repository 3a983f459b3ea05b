//! Declarations in words, each part behind the one before it.

use crate::expressions::{DEPTH, dims, expr, type_spec};
use crate::text::{Done, Outline};
use gsl_syntax::{Decl, Declarator, Declared, Init, Lay, Member, Name, Qual, Struct, StructMember};

pub fn name(out: &mut Outline, tree: &Name) -> Done {
    out.node(tree.text.as_str(), tree.place)
}

fn lays(out: &mut Outline, items: &[Lay]) -> Done {
    out.put("(")?;
    let mut separator = "";
    for item in items {
        out.put(separator)?;
        separator = ", ";
        match item {
            Lay::Flag(flag) => name(out, flag)?,
            Lay::Value(named, value) => {
                name(out, named)?;
                out.put(" = ")?;
                expr(out, value)?;
            }
        }
    }
    out.put(")")
}

fn qual(out: &mut Outline, tree: &Qual) -> Done {
    match tree {
        Qual::Const(place) => out.node("const", *place),
        Qual::In(place) => out.node("in", *place),
        Qual::Out(place) => out.node("out", *place),
        Qual::Inout(place) => out.node("inout", *place),
        Qual::Uniform(place) => out.node("uniform", *place),
        Qual::Buffer(place) => out.node("buffer", *place),
        Qual::Flat(place) => out.node("flat", *place),
        Qual::Coherent(place) => out.node("coherent", *place),
        Qual::Volatile(place) => out.node("volatile", *place),
        Qual::Restrict(place) => out.node("restrict", *place),
        Qual::Readonly(place) => out.node("readonly", *place),
        Qual::Writeonly(place) => out.node("writeonly", *place),
        Qual::Layout(place, items) => {
            out.node("layout", *place)?;
            lays(out, items.as_slice())
        }
    }
}

/// The qualifiers, with a blank behind each.
pub fn quals(out: &mut Outline, trees: &[Qual]) -> Done {
    for tree in trees {
        qual(out, tree)?;
        out.put(" ")?;
    }
    Ok(())
}

fn declared(out: &mut Outline, trees: &[Declared]) -> Done {
    let mut separator = " ";
    for tree in trees {
        out.put(separator)?;
        separator = ", ";
        name(out, &tree.name)?;
        dims(out, tree.dims.as_slice())?;
    }
    Ok(())
}

#[cycle(init)]
fn inits(out: &mut Outline, trees: &[Init], depth: u32) -> Done {
    for tree in trees {
        out.put(" ")?;
        init(out, tree, depth)?;
    }
    Ok(())
}

#[cycle(init)]
fn init(out: &mut Outline, tree: &Init, depth: u32) -> Done {
    if depth == 0 {
        return out.put("..");
    }
    match tree {
        Init::Expr(value) => expr(out, value),
        Init::Braces(place, items) => {
            out.put("(")?;
            out.node("braces", *place)?;
            inits(out, items.as_slice(), depth - 1)?;
            out.put(")")
        }
    }
}

fn declarator(out: &mut Outline, tree: &Declarator) -> Done {
    match tree {
        Declarator::Plain(named, brackets) => {
            name(out, named)?;
            dims(out, brackets.as_slice())
        }
        Declarator::Initialised(named, brackets, value) => {
            name(out, named)?;
            dims(out, brackets.as_slice())?;
            out.put(" = ")?;
            init(out, value, DEPTH)
        }
    }
}

fn declarators(out: &mut Outline, trees: &[Declarator]) -> Done {
    let mut separator = " ";
    for tree in trees {
        out.put(separator)?;
        separator = ", ";
        declarator(out, tree)?;
    }
    Ok(())
}

fn struct_members(out: &mut Outline, trees: &[StructMember]) -> Done {
    out.put(" {")?;
    for tree in trees {
        out.put(" ")?;
        type_spec(out, &tree.ty)?;
        declared(out, tree.names.as_slice())?;
        out.put(";")?;
    }
    out.put(" }")
}

fn members(out: &mut Outline, trees: &[Member]) -> Done {
    out.put(" {")?;
    for tree in trees {
        out.put(" ")?;
        quals(out, tree.quals.as_slice())?;
        type_spec(out, &tree.ty)?;
        declared(out, tree.names.as_slice())?;
        out.put(";")?;
    }
    out.put(" }")
}

fn structure(out: &mut Outline, tree: &Struct) -> Done {
    out.node("struct", tree.place)?;
    out.put(" ")?;
    name(out, &tree.name)?;
    struct_members(out, tree.members.as_slice())
}

fn instance(out: &mut Outline, found: &Option<Name>) -> Done {
    match found {
        Some(found) => {
            out.put(" ")?;
            name(out, found)
        }
        None => Ok(()),
    }
}

pub fn decl(out: &mut Outline, tree: &Decl) -> Done {
    match tree {
        Decl::Variables(found, ty, names) => {
            out.put("variables ")?;
            quals(out, found.as_slice())?;
            type_spec(out, ty)?;
            declarators(out, names.as_slice())
        }
        Decl::Struct(found, shape, names) => {
            out.put("struct ")?;
            quals(out, found.as_slice())?;
            structure(out, shape)?;
            declarators(out, names.as_slice())
        }
        Decl::Block(found, named, inner, last) => {
            out.put("block ")?;
            quals(out, found.as_slice())?;
            name(out, named)?;
            members(out, inner.as_slice())?;
            instance(out, last)
        }
        Decl::Quals(found) => {
            out.put("qualifiers")?;
            for tree in found.as_slice() {
                out.put(" ")?;
                qual(out, tree)?;
            }
            Ok(())
        }
    }
}

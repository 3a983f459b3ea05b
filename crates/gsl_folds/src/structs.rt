//! Types of members, structs and blocks, as their layouts need them.

ghost use Rattle.std.specs.Prelude.{◌≡◌, IfOk, IsTrue, length};
ghost use Rattle.std.specs.List.{AllByRecursion};
ghost use Rattle.gsl_types.specs.Known.{AreStructs, IsSound};
ghost use Rattle.gsl_types.specs.declared.ty.Ty.TheVariants as ty;
ghost use Rattle.gsl_layout.specs.Extents.{AreMembers, ArePlain, may_be_last, plain};

use crate::misread::Misread;
use crate::types::{number, plain};
use gsl_base::{Boxed, Memory, Text};
use gsl_types::{Member, Members, Structs, Ty, next_struct};
use std::alloc::Global;

/// A scalar, a vector, or the struct of a number.
fn base(structs: &Structs, name: &str) -> Result<Ty, Misread>
    ensures sound { IfOk result (λ t. IsSound (length structs.now) t) }
    ensures plain { IfOk result (λ t. IsTrue (plain t)) }
{
    if let Some(ty) = plain(name) {
        return Ok(ty);
    }
    let number = number(name)?;
    if (number as usize) < structs.len() {
        Ok(Ty::Struct(number))
    } else {
        Err(Misread::Form)
    }
}

fn array(alloc: Global, element: Ty, count: u32) -> Result<Ty, Memory>
    ensures { IfOk result (λ t. t ≡ ty.Array element count) }
{
    Ok(Ty::Array(Boxed::new(alloc, element)?, count))
}

fn runtime(alloc: Global, element: Ty) -> Result<Ty, Memory>
    ensures { IfOk result (λ t. t ≡ ty.Runtime element) }
{
    Ok(Ty::Runtime(Boxed::new(alloc, element)?))
}

/// A type of a member: `BASE[N][N]..`, the inner arrays first.
fn member_type(alloc: Global, structs: &Structs, text: &str) -> Result<Ty, Misread>
    ensures sound { IfOk result (λ t. IsSound (length structs.now) t) }
    ensures plain { IfOk result (λ t. IsTrue (plain t)) }
{
    let (name, counts) = text.split_once('[').unwrap_or((text, ""));
    let mut ty = base(structs, name)?;
    for count in counts.split('[') {
        if !count.is_empty() {
            ty = array_of(alloc, structs, ty, count)?;
        }
    }
    Ok(ty)
}

/// An array of so many, as it is written behind its bracket.
fn array_of(alloc: Global, structs: &Structs, element: Ty, count: &str) -> Result<Ty, Misread>
    requires sound { IsSound (length structs.now) element }
    requires plain { IsTrue (plain element) }
    ensures sound { IfOk result (λ t. IsSound (length structs.now) t) }
    ensures plain { IfOk result (λ t. IsTrue (plain t)) }
{
    let count = number(count.trim_end_matches(']'))?;
    if count == 0 {
        return Err(Misread::Form);
    }
    let ty = array(alloc, element, count)?;
    Ok(ty)
}

/// The type of a block's last member, which may be a runtime array: `TYPE[]`.
fn last_type(alloc: Global, structs: &Structs, text: &str) -> Result<Ty, Misread>
    ensures sound { IfOk result (λ t. IsSound (length structs.now) t) }
    ensures last { IfOk result (λ t. IsTrue (may_be_last t)) }
{
    match text.strip_suffix("[]") {
        Some(element) => {
            let element = member_type(alloc, structs, element)?;
            let ty = runtime(alloc, element)?;
            Ok(ty)
        }
        None => member_type(alloc, structs, text),
    }
}

/// Any type over structs.
pub fn any_type(alloc: Global, structs: &Structs, text: &str) -> Result<Ty, Misread>
    ensures { IfOk result (λ t. IsSound (length structs.now) t) }
{
    if text == "void" {
        return Ok(Ty::Void);
    }
    last_type(alloc, structs, text)
}

fn member(alloc: Global, name: &str, ty: Ty) -> Result<Member, Memory>
    ensures { IfOk result (λ m. m.ty ≡ ty) }
{
    Ok(Member {
        name: Text::from_str(alloc, name)?,
        ty,
    })
}

/// A member of a struct: `NAME:TYPE`.
fn plain_member(alloc: Global, structs: &Structs, word: &str) -> Result<Member, Misread>
    ensures sound { IfOk result (λ m. IsSound (length structs.now) m.ty) }
    ensures plain { IfOk result (λ m. IsTrue (plain m.ty)) }
{
    let (name, ty) = word.split_once(':').unwrap_or((word, ""));
    let ty = member_type(alloc, structs, ty)?;
    let member = member(alloc, name, ty)?;
    Ok(member)
}

/// A block's last member: `NAME:TYPE`.
fn last_member(alloc: Global, structs: &Structs, word: &str) -> Result<Member, Misread>
    ensures sound { IfOk result (λ m. IsSound (length structs.now) m.ty) }
    ensures last { IfOk result (λ m. IsTrue (may_be_last m.ty)) }
{
    let (name, ty) = word.split_once(':').unwrap_or((word, ""));
    let ty = last_type(alloc, structs, ty)?;
    let member = member(alloc, name, ty)?;
    Ok(member)
}

/// The members of a struct over structs.
fn plain_members(alloc: Global, structs: &Structs, text: &str) -> Result<Members, Misread>
    ensures sound { IfOk result (λ ms. AllByRecursion (λ m. IsSound (length structs.now) m.ty) ms) }
    ensures plain { IfOk result (λ ms. AllByRecursion (λ m. IsTrue (plain m.ty)) ms) }
{
    let mut members = Members::new(alloc);
    for word in text.split_whitespace() {
        let member = plain_member(alloc, structs, word)?;
        members.push(member)?;
    }
    Ok(members)
}

/// The members of a block over structs.
pub fn read_members(alloc: Global, structs: &Structs, text: &str) -> Result<Members, Misread>
    ensures sound { IfOk result (λ ms. AllByRecursion (λ m. IsSound (length structs.now) m.ty) ms) }
    ensures members { IfOk result AreMembers }
{
    let (front, last) = text.rsplit_once(' ').unwrap_or(("", text));
    let last = last_member(alloc, structs, last)?;
    let mut members = plain_members(alloc, structs, front)?;
    members.push(last)?;
    Ok(members)
}

/// The structs with one more: its name, and its members.
fn declared(alloc: Global, mut structs: Structs, text: &str) -> Result<Structs, Misread>
    requires known { AreStructs structs }
    requires plain { ArePlain structs }
    ensures known { IfOk result AreStructs }
    ensures plain { IfOk result ArePlain }
{
    let (name, members) = text.split_once(' ').unwrap_or((text, ""));
    let name = Text::from_str(alloc, name)?;
    let members = plain_members(alloc, &structs, members)?;
    if members.is_empty() {
        return Err(Misread::Form);
    }
    let next = next_struct(&structs, name, members);
    structs.push(next)?;
    Ok(structs)
}

/// Structs with `;` between them.
pub fn read_structs(alloc: Global, text: &str) -> Result<Structs, Misread>
    ensures known { IfOk result AreStructs }
    ensures plain { IfOk result ArePlain }
{
    let mut structs = Structs::new(alloc);
    for part in text.split(';') {
        let part = part.trim();
        if !part.is_empty() {
            structs = declared(alloc, structs, part)?;
        }
    }
    Ok(structs)
}

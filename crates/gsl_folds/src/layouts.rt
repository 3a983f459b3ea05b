//! What is told of types, and where members lie.

ghost use Rattle.std.specs.Prelude.{◌<◌, ◌^◌, length};
ghost use Rattle.std.specs.List.{AllByRecursion};
ghost use Rattle.gsl_types.specs.Known.{AreStructs, IsSound};
ghost use Rattle.gsl_layout.specs.Extents.{AreMembers, ArePlain};

use crate::misread::Misread;
use crate::structs::{any_type, read_members, read_structs};
use crate::types::number;
use gsl_base::{Bytes, Memory};
use gsl_layout::{
    Laid, LayRefusal, PlaceRefusal, Placing, Placings, Rules, Std140, Std430, lay, lay_placed,
};
use gsl_types::{Members, Structs, components, converts, leaves, same};
use std::alloc::Global;

/// What stands before the mark and behind it.
fn halves<'a>(text: &'a str, mark: &str) -> (&'a str, &'a str) {
    let (left, right) = text.split_once(mark).unwrap_or((text, ""));
    (left.trim(), right.trim())
}

/// Prints how many leaves a type has: `STRUCTS <- TYPE`.
pub fn put_leaves(alloc: Global, out: &mut Bytes, rest: &str) -> Result<(), Misread> {
    let (structs, ty) = halves(rest, "<-");
    let structs = read_structs(alloc, structs)?;
    let ty = any_type(alloc, &structs, ty)?;
    let leaves = leaves(&structs, &ty);
    let text = format!(in alloc; "{leaves}\n")?;
    out.extend_from_slice(text.as_bytes())?;
    Ok(())
}

/// Prints whether two types are the same: `STRUCTS <- TYPE TYPE`.
pub fn put_same(alloc: Global, out: &mut Bytes, rest: &str) -> Result<(), Misread> {
    let (structs, types) = halves(rest, "<-");
    let (a, b) = halves(types, " ");
    let structs = read_structs(alloc, structs)?;
    let a = any_type(alloc, &structs, a)?;
    let b = any_type(alloc, &structs, b)?;
    put_answer(out, same(&structs, &a, &b))?;
    Ok(())
}

/// Prints whether a type converts to another: `STRUCTS <- TYPE TYPE`.
pub fn put_converts(alloc: Global, out: &mut Bytes, rest: &str) -> Result<(), Misread> {
    let (structs, types) = halves(rest, "<-");
    let (from, to) = halves(types, " ");
    let structs = read_structs(alloc, structs)?;
    let from = any_type(alloc, &structs, from)?;
    let to = any_type(alloc, &structs, to)?;
    put_answer(out, converts(&from, &to))?;
    Ok(())
}

/// Prints how many components a type has: `STRUCTS <- TYPE`.
pub fn put_components(alloc: Global, out: &mut Bytes, rest: &str) -> Result<(), Misread> {
    let (structs, ty) = halves(rest, "<-");
    let structs = read_structs(alloc, structs)?;
    let ty = any_type(alloc, &structs, ty)?;
    let components = components(&ty);
    let text = format!(in alloc; "{components}\n")?;
    out.extend_from_slice(text.as_bytes())?;
    Ok(())
}

fn put_answer(out: &mut Bytes, answer: bool) -> Result<(), Memory> {
    out.extend_from_slice(if answer { b"yes\n" } else { b"no\n" })
}

/// Prints where the members of a block lie: `RULES STRUCTS <- MEMBERS`, and what is said of their places behind `/`.
pub fn put_layout(alloc: Global, out: &mut Bytes, rest: &str) -> Result<(), Misread> {
    let (rules, rest) = halves(rest, " ");
    let (structs, block) = halves(rest, "<-");
    let structs = read_structs(alloc, structs)?;
    let laid = match rules {
        "std140" => laid(alloc, &Std140, &structs, block)?,
        "std430" => laid(alloc, &Std430, &structs, block)?,
        _ => return Err(Misread::Form),
    };
    put_laid(alloc, out, laid)
}

/// The layout of a block, or its refusal.
fn laid<R: Rules>(
    alloc: Global,
    rules: &R,
    structs: &Structs,
    block: &str,
) -> Result<Result<Laid, PlaceRefusal>, Misread>
    requires known { AreStructs structs.now }
    requires plain { ArePlain structs.now }
{
    let (members, places) = halves(block, "/");
    let members = read_members(alloc, structs, members)?;
    if places.is_empty() {
        return Ok(free(alloc, rules, structs, &members));
    }
    let placings = placings(alloc, places)?;
    if members.len() > 1000 {
        return Err(Misread::Form);
    }
    Ok(lay_placed(alloc, rules, structs, &members, &placings))
}

fn free<R: Rules>(
    alloc: Global,
    rules: &R,
    structs: &Structs,
    members: &Members,
) -> Result<Laid, PlaceRefusal>
    requires known { AreStructs structs.now }
    requires plain { ArePlain structs.now }
    requires sound { AllByRecursion (λ member. IsSound (length structs.now) member.ty) members.now }
    requires members { AreMembers members.now }
{
    lay(alloc, rules, structs, members).map_err(|refusal| match refusal {
        LayRefusal::TooLarge => PlaceRefusal::TooLarge,
        LayRefusal::Memory => PlaceRefusal::Memory,
    })
}

/// What is said of places: `OFFSET,ALIGN ..`, with `-` for what is not said.
fn placings(alloc: Global, text: &str) -> Result<Placings, Misread> {
    let mut placings = Placings::new(alloc);
    for word in text.split_whitespace() {
        let (offset, align) = word.split_once(',').unwrap_or((word, ""));
        placings.push(Placing {
            offset: said(offset)?,
            align: said(align)?,
        })?;
    }
    Ok(placings)
}

fn said(digits: &str) -> Result<Option<u32>, Misread> {
    if digits == "-" {
        return Ok(None);
    }
    Ok(Some(number(digits)?))
}

fn put_laid(
    alloc: Global,
    out: &mut Bytes,
    laid: Result<Laid, PlaceRefusal>,
) -> Result<(), Misread> {
    let text = match laid {
        Ok(laid) => laid_text(alloc, &laid)?,
        Err(PlaceRefusal::Misplaced(number)) => format!(in alloc; "misplaced {number}\n")?,
        Err(PlaceRefusal::TooLarge) => format!(in alloc; "too large\n")?,
        Err(PlaceRefusal::Memory) => return Err(Misread::Memory),
    };
    out.extend_from_slice(text.as_bytes())?;
    Ok(())
}

fn laid_text(alloc: Global, laid: &Laid) -> Result<String, Misread> {
    let (size, need) = (laid.size(), laid.need());
    let text = format!(in alloc; "{laid:?} size {size} need {need}\n")?;
    Ok(text)
}

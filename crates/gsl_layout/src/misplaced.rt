//! Which member may not stand where its placing says.

ghost use Rattle.std.specs.Prelude.{◌≡◌, ◌<◌, ◌≤◌, ◌+◌, ◌^◌, [], ℕ, IfOk, Some, length, min};
ghost use Rattle.std.specs.List.{AllByRecursion};
ghost use Rattle.gsl_types.specs.Known.{AreStructs, IsSound};
ghost use Rattle.gsl_layout.specs.Measures.{arrayed, block, measure, misplaced_in, run};
ghost use Rattle.gsl_layout.specs.Outlines.{AreOutlined, EndsPlaced, most_told, outline};
ghost use Rattle.gsl_layout.specs.Placings.{misplaced, offset_behind, wrong_align, wrong_offset};
ghost use Rattle.gsl_layout.specs.Rules.{IsAlignment};
ghost use Rattle.gsl_layout.specs.declared.measured.Measured.{Measured};

use crate::gathered::{offset_behind, placing_at, round_up};
use crate::measured::components_align;
use crate::outline::{Outline, Outlines};
use crate::placing::{Placing, Placings};
use crate::rules::Rules;
use gsl_base::Memory;
use gsl_types::{Members, Structs, Ty};
use std::alloc::Global;

/// A size of so many bytes or more counts as this: no `offset` is past it.
const MOST_TOLD: u64 = 4_294_967_296;

/// Nothing is said of a member's place.
const FREE: Placing = Placing {
    offset: None,
    align: None,
};

/// The outline of so many scalar components in a row.
fn outline_run(count: u32) -> Outline
    requires most { count ≤ 4 }
    ensures { result ≡ outline (run count) }
{
    Outline {
        align: components_align(count),
        size: 4 * count as u64,
    }
}

/// The outline of an array.
fn array_outline<R: Rules>(rules: &R, element: Outline, count: u32) -> Outline
    requires align { IsAlignment element.align }
    requires size { element.size ≤ most_told }
    requires some { 1 ≤ count }
    ensures { (m : Measured) → element ≡ outline m → result ≡ outline (arrayed (R.raised rules.now) m (Some count)) }
{
    let align = rules.raise(element.align);
    let stride = round_up(element.size, align).min(MOST_TOLD);
    Outline {
        align,
        size: (stride * count as u64).min(MOST_TOLD),
    }
}

/// The end of a member that stands behind an end.
fn end_behind(end: u64, placing: Placing, member: Outline) -> u64
    requires align { IsAlignment member.align }
    requires size { member.size ≤ most_told }
    requires end { end ≤ most_told }
    ensures { (before : ℕ) (m : Measured) → end ≡ min before most_told → member ≡ outline m → result ≡ min (offset_behind before (placing, m) + m.size) most_told }
{
    (offset_behind(end, placing, member.align) + member.size).min(MOST_TOLD)
}

/// Whether an `align` is no power of two.
fn wrong_align(align: Option<u32>) -> bool
    ensures { result ≡ wrong_align align }
{
    match align {
        Some(align) => !align.is_power_of_two(),
        None => false,
    }
}

/// Whether an `offset` is no multiple of the base alignment, or below an end.
fn wrong_offset(offset: Option<u32>, base: u32, end: u64) -> bool
    requires base { 1 ≤ base }
    ensures { (before : ℕ) → end ≡ min before most_told → result ≡ wrong_offset offset base before }
{
    match offset {
        Some(offset) => offset % base != 0 || (offset as u64) < end,
        None => false,
    }
}

/// Whether a member may not stand behind an end.
fn is_misplaced(end: u64, placing: Placing, member: Outline) -> bool
    requires align { IsAlignment member.align }
    ensures { (before : ℕ) (m : Measured) → end ≡ min before most_told → member ≡ outline m → result ≡ misplaced before (placing, m) }
{
    wrong_align(placing.align) || wrong_offset(placing.offset, member.align, end)
}

/// The outline of a type.
fn outline_type<R: Rules>(rules: &R, structs: &Structs, outlines: &Outlines, ty: &Ty) -> Outline
    requires outlined { AreOutlined (R.raised rules.now) structs.now outlines.now }
    requires sound { IsSound (length outlines.now) ty.now }
    ensures { result ≡ outline (measure (R.raised rules.now) structs.now ty.now) }
{
    match ty {
        Ty::One(_) | Ty::Void => outline_run(1),
        Ty::Vector(_, count) => outline_run(*count),
        Ty::Array(element, count) => {
            let element = outline_type(rules, structs, outlines, element.get());
            array_outline(rules, element, *count)
        }
        Ty::Runtime(element) => Outline {
            align: rules.raise(outline_type(rules, structs, outlines, element.get()).align),
            size: 0,
        },
        Ty::Struct(number) => outlines[*number as usize],
    }
}

/// The outline of a struct of members.
fn outline_members<R: Rules>(
    rules: &R,
    structs: &Structs,
    outlines: &Outlines,
    members: &Members,
) -> Outline
    requires outlined { AreOutlined (R.raised rules.now) structs.now outlines.now }
    requires sound { AllByRecursion (λ member. IsSound (length outlines.now) member.ty) members.now }
    ensures { result ≡ outline (block (R.raised rules.now) structs.now members.now []) }
{
    let mut end: u64 = 0;
    let mut base: u32 = 4;
    for k in 0..members.len() {
        let member = outline_type(rules, structs, outlines, &members[k].ty);
        end = end_behind(end, FREE, member);
        base = base.max(member.align);
    }
    let align = base.max(rules.raise(base));
    Outline {
        align,
        size: round_up(end, align).min(MOST_TOLD),
    }
}

/// The outlines of all structs.
pub fn outline_structs<R: Rules>(
    alloc: Global,
    rules: &R,
    structs: &Structs,
) -> Result<Outlines, Memory>
    requires known { AreStructs structs.now }
    ensures outlined { IfOk result (AreOutlined (R.raised rules.now) structs.now) }
    ensures all { IfOk result (λ outlines. length outlines ≡ length structs.now) }
{
    let mut outlines = Outlines::new(alloc);
    for k in 0..structs.len() {
        let next = outline_members(rules, structs, &outlines, &structs[k].members);
        outlines.push(next)?;
    }
    Ok(outlines)
}

/// The end of a member of the type that stands behind an end, or `None` where it may not stand there (GLSL 4.50, 4.4.5). An end of 2^32
/// bytes or more counts as 2^32.
pub fn end_of_placed<R: Rules>(
    rules: &R,
    structs: &Structs,
    outlines: &Outlines,
    end: u64,
    placing: Placing,
    ty: &Ty,
) -> Option<u64>
    requires outlined { AreOutlined (R.raised rules.now) structs.now outlines.now }
    requires sound { IsSound (length outlines.now) ty.now }
    requires end { end ≤ most_told }
    ensures { (before : ℕ) → end ≡ min before most_told → EndsPlaced result before (placing, measure (R.raised rules.now) structs.now ty.now) }
{
    let member = outline_type(rules, structs, outlines, ty);
    if is_misplaced(end, placing, member) {
        return None;
    }
    Some(end_behind(end, placing, member))
}

/// The number of the first member that may not stand where its placing says.
pub(crate) fn first_misplaced<R: Rules>(
    alloc: Global,
    rules: &R,
    structs: &Structs,
    members: &Members,
    placings: &Placings,
) -> Result<Option<u32>, Memory>
    requires known { AreStructs structs.now }
    requires sound { AllByRecursion (λ member. IsSound (length structs.now) member.ty) members.now }
    requires few { length members.now < 2 ^ 32 }
    ensures { IfOk result (λ found. found ≡ misplaced_in (R.raised rules.now) structs.now members.now placings.now) }
{
    let outlines = outline_structs(alloc, rules, structs)?;
    let mut end: u64 = 0;
    for k in 0..members.len() {
        let placing = placing_at(placings, k);
        match end_of_placed(rules, structs, &outlines, end, placing, &members[k].ty) {
            Some(next) => end = next,
            None => return Ok(Some(k as u32)),
        }
    }
    Ok(None)
}

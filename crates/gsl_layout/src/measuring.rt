ghost use Rattle.std.specs.Prelude.{◌≡◌, ◌<◌, ◌≤◌, ◌^◌, [], None, ℕ, IfOk, IsTrue, MatchOption, Option, Some, length, ⊤};
ghost use Rattle.std.specs.List.{AllByRecursion};
ghost use Rattle.gsl_types.specs.Known.{AreStructs, IsSound};
ghost use Rattle.gsl_layout.specs.Extents.{AreMembers, ArePlain, most_bytes, may_be_last, plain};
ghost use Rattle.gsl_layout.specs.Gathers.{IsMeasured, IsShut, LaysOut, Measures, Places};
ghost use Rattle.gsl_layout.specs.Layout.{closed, may_end};
ghost use Rattle.gsl_layout.specs.Measures.{arrayed, block, measure, misplaced_in, run};
ghost use Rattle.gsl_layout.specs.Parts.{parts_of};
ghost use Rattle.gsl_layout.specs.Rules.{IsAlignment, least_multiple};

use crate::gathered::{Gathered, MOST_BYTES, placing_at, round_up};
use crate::laid::Laid;
use crate::measured::{Measured, components_align};
use crate::misplaced::first_misplaced;
use crate::placing::Placings;
use crate::refusal::{LayRefusal, PlaceRefusal};
use crate::rules::Rules;
use gsl_types::{Members, Structs, Ty};
use std::alloc::Global;

/// So many scalar components in a row, one to four.
fn run_of(count: u32) -> Measured
    requires some { 1 ≤ count }
    requires most { count ≤ 4 }
    ensures run { result ≡ run count }
    ensures measured { IsMeasured result }
{
    Measured {
        align: components_align(count),
        size: 4 * count,
        laid: Laid::leaf(count),
    }
}

/// An array of elements, or a runtime array where there is no count.
fn array_of<R: Rules>(
    alloc: Global,
    rules: &R,
    element: Measured,
    count: Option<u32>,
) -> Result<Measured, LayRefusal>
    requires measured { IsMeasured element }
    requires align { IsAlignment element.align }
    requires closed { IsTrue (closed element.laid) }
    requires size { 4 ≤ element.size }
    requires some { MatchOption count ⊤ (λ n. 1 ≤ n) }
    ensures { Measures result (arrayed (R.raised rules.now) element count) }
{
    let align = rules.raise(element.align);
    let stride = round_up(element.size as u64, align);
    let size = match count {
        Some(count) => stride * count as u64,
        None => 0,
    };
    if size > MOST_BYTES as u64 {
        return Err(LayRefusal::TooLarge);
    }
    let laid = Laid::array(alloc, stride as u32, count, element.laid)?;
    Ok(Measured {
        align,
        size: size as u32,
        laid,
    })
}

/// The alignment, size and layout of a type.
#[cycle(lay)]
fn lay_type<R: Rules>(
    alloc: Global,
    rules: &R,
    structs: &Structs,
    ty: &Ty,
) -> Result<Measured, LayRefusal>
    requires known { AreStructs structs.now }
    requires plain { ArePlain structs.now }
    requires sound { IsSound (length structs.now) ty.now }
    requires last { IsTrue (may_be_last ty.now) }
    ensures measure { Measures result (measure (R.raised rules.now) structs.now ty.now) }
    ensures ends { IfOk result (λ m. IsTrue (may_end m.laid)) }
    ensures shut { IsTrue (plain ty.now) → IfOk result IsShut }
{
    match ty {
        Ty::One(_) => Ok(run_of(1)),
        Ty::Vector(_, count) => Ok(run_of(*count)),
        Ty::Array(element, count) => {
            let element = lay_type(alloc, rules, structs, element.get())?;
            array_of(alloc, rules, element, Some(*count))
        }
        Ty::Runtime(element) => {
            let element = lay_type(alloc, rules, structs, element.get())?;
            array_of(alloc, rules, element, None)
        }
        Ty::Struct(number) => {
            let members = &structs[*number as usize].members;
            let free = Placings::new(alloc);
            lay_members(alloc, rules, structs, members, &free)
        }
        Ty::Void => unreachable!(),
    }
}

/// The alignment, size and layout of members together.
#[cycle(lay)]
fn lay_members<R: Rules>(
    alloc: Global,
    rules: &R,
    structs: &Structs,
    members: &Members,
    placings: &Placings,
) -> Result<Measured, LayRefusal>
    requires known { AreStructs structs.now }
    requires plain { ArePlain structs.now }
    requires sound { AllByRecursion (λ member. IsSound (length structs.now) member.ty) members.now }
    requires members { AreMembers members.now }
    requires placed { misplaced_in (R.raised rules.now) structs.now members.now placings.now ≡ None }
    ensures measure { Measures result (block (R.raised rules.now) structs.now members.now placings.now) }
    ensures shut { AllByRecursion (λ member. IsTrue (plain member.ty)) members.now → IfOk result IsShut }
{
    let mut gathered = Gathered::new(alloc);
    for k in 0..members.len() {
        let measured = lay_type(alloc, rules, structs, &members[k].ty)?;
        gathered.add(placing_at(placings, k), measured)?;
    }
    gathered.close(rules)
}

/// Where the members of a block lie by a layout rule (GLSL 4.50, 4.4.5; OpenGL 4.5, 7.6.2.2).
/// `TooLarge` comes exactly where the block, a runtime array counting no bytes, or the stride of its
/// runtime array has more than 16,777,216 bytes.
pub fn lay<R: Rules>(
    alloc: Global,
    rules: &R,
    structs: &Structs,
    members: &Members,
) -> Result<Laid, LayRefusal>
    requires known { AreStructs structs.now }
    requires plain { ArePlain structs.now }
    requires sound { AllByRecursion (λ member. IsSound (length structs.now) member.ty) members.now }
    requires members { AreMembers members.now }
    ensures { LaysOut result (block (R.raised rules.now) structs.now members.now []) }
{
    let free = Placings::new(alloc);
    let block = lay_members(alloc, rules, structs, members, &free)?;
    Ok(block.laid)
}

/// Where the members of a block lie by a layout rule and by what is said of their places, in their order; nothing is said of
/// those that are left (GLSL 4.50, 4.4.5). `Misplaced` comes exactly where an `align` is no power of two, or an `offset` is no
/// multiple of the member's base alignment or below the end of the member before it, with the number of the first such
/// member; `TooLarge` exactly where there is none and `lay` would answer it.
pub fn lay_placed<R: Rules>(
    alloc: Global,
    rules: &R,
    structs: &Structs,
    members: &Members,
    placings: &Placings,
) -> Result<Laid, PlaceRefusal>
    requires known { AreStructs structs.now }
    requires plain { ArePlain structs.now }
    requires sound { AllByRecursion (λ member. IsSound (length structs.now) member.ty) members.now }
    requires members { AreMembers members.now }
    requires few { length members.now < 2 ^ 32 }
    ensures { Places result (misplaced_in (R.raised rules.now) structs.now members.now placings.now) (block (R.raised rules.now) structs.now members.now placings.now) }
{
    if let Some(number) = first_misplaced(alloc, rules, structs, members, placings)? {
        return Err(PlaceRefusal::Misplaced(number));
    }
    match lay_members(alloc, rules, structs, members, placings) {
        Ok(block) => Ok(block.laid),
        Err(LayRefusal::TooLarge) => Err(PlaceRefusal::TooLarge),
        Err(LayRefusal::Memory) => Err(PlaceRefusal::Memory),
    }
}

//! The program that units make, or their first fault.

ghost use Rattle.std.specs.Prelude.{◌≡◌, ◌++◌, IfOk, OnOk};
ghost use Rattle.std.specs.List.{AllByRecursion};
ghost use Rattle.gsl_base.specs.Checked.{Gives};
ghost use Rattle.gsl_types.specs.Known.{AreStructs};
ghost use Rattle.gsl_layout.specs.Extents.{ArePlain};
ghost use Rattle.gsl_link_units.specs.Declarations.{sides_of};
ghost use Rattle.gsl_link_units.specs.Structs.{joined_structs};
ghost use Rattle.gsl_link_names.specs.Earlier.{AreTypedBlocks};
ghost use Rattle.gsl_link_numbers.specs.Numbering.{numberings, sizes_in};
ghost use Rattle.gsl_link.specs.Joined as spec;
ghost use Rattle.gsl_link.specs.Left as left;
ghost use Rattle.gsl_link.specs.Rows as rows;
ghost use Rattle.gsl_link.specs.Units.{AreKnown};

use crate::program_rows::{
    large_function, no_main, recursion, second_definition, size_disagreement, too_deep, too_heavy,
};
use crate::side_rows::{disagreement, undefined_call, used_twice};
use crate::variables::large_globals;
use gsl_base::{Code, Fault, List, Memory, Place, Refusal, Stage};
use gsl_link_numbers::{WholeProgram, whole};
use gsl_link_whole::{Numbering, Side, join_units};
use gsl_tree::{LocalSize, LocalSizes, Program, TypedUnits};
use gsl_types::Structs;
use std::alloc::Global;

/// The program that units of a stage make, or their first fault. `Memory` where memory was wanting.
#[tactic(auto, unfolding(crate::specs::Joined::joined))]
pub fn link(alloc: Global, stage: Stage, units: TypedUnits) -> Result<Program, Refusal>
    requires known { AreKnown (joined_structs units) (sides_of units) }
    ensures { Gives result (spec.joined stage units) }
{
    let mut structs = Structs::new(alloc);
    let sides = join_units(alloc, &mut structs, units)?;
    let sizes = sizes_of(alloc, sides.as_slice())?;
    let w = whole(alloc, stage, structs, sides.as_slice())?;
    let fault = first_fault(alloc, sizes.as_slice(), sides.as_slice(), &w)?;
    unless_faulty(w, fault)
}

fn unless_faulty(w: WholeProgram, fault: Option<Fault>) -> Result<Program, Refusal>
    ensures { Gives result (spec.unless_faulty w.program fault) }
{
    match fault {
        None => Ok(w.program),
        Some(fault) => Err(Refusal::Source(fault)),
    }
}

// ---- the sizes of work groups

fn add_sizes(all: &mut LocalSizes, sizes: &[LocalSize]) -> Result<(), Memory>
    ensures { OnOk result (all.new ≡ all.old ++ sizes.now) }
{
    for k in 0..sizes.len() {
        all.push(LocalSize {
            parts: sizes[k].parts,
            place: sizes[k].place,
        })?;
    }
    Ok(())
}

/// The sizes that units state, in their order.
fn sizes_of(alloc: Global, sides: &[Side]) -> Result<LocalSizes, Memory>
    ensures { IfOk result (λ sizes. sizes ≡ sizes_in sides.now) }
{
    let mut all = List::new(alloc);
    for k in 0..sides.len() {
        let side = &sides[k];
        add_sizes(&mut all, side.unit.local_sizes.as_slice())?;
    }
    Ok(all)
}

// ---- the rows in their order

/// Answers a fault of a code at a place, where there is one.
macro_rules! unless_at {
    ($code:ident, $place:expr) => {
        match $place {
            Some(place) => {
                return Ok(Some(Fault {
                    place,
                    code: Code::$code,
                }));
            }
            None => {}
        }
    };
}

/// The fault of the first row that applies.
fn first_fault(
    alloc: Global,
    sizes: &[LocalSize],
    sides: &[Side],
    w: &WholeProgram,
) -> Result<Option<Fault>, Memory>
    requires numbers { w.now.numbers ≡ numberings sides.now }
    requires known { AreStructs w.now.program.structs }
    requires plain { ArePlain w.now.program.structs }
    requires typed { AllByRecursion (AreTypedBlocks w.now.program.structs) sides.now }
    ensures { IfOk result (λ fault. fault ≡ left.from_first sizes.now sides.now w.now.program) }
{
    let p = &w.program;
    let other = disagreement(alloc, &p.structs, sides)?;
    unless_at!(E0804, other);
    let second = second_definition(alloc, p)?;
    unless_at!(E0802, second);
    unless_at!(E0801, no_main(p));
    from_calls(alloc, sizes, sides, p, w.numbers.as_slice())
}

/// The same from calls without a definition on.
fn from_calls(
    alloc: Global,
    sizes: &[LocalSize],
    sides: &[Side],
    p: &Program,
    numbers: &[Numbering],
) -> Result<Option<Fault>, Memory>
    requires numbers { numbers.now ≡ numberings sides.now }
    requires known { AreStructs p.now.structs }
    ensures { IfOk result (λ fault. fault ≡ left.from_calls sizes.now sides.now p.now) }
{
    let undefined = undefined_call(alloc, p, numbers, sides)?;
    unless_at!(E0803, undefined);
    let round = recursion(alloc, p)?;
    unless_at!(E0805, round);
    unless_at!(E0806, size_disagreement(p.stage, sizes));
    from_slots(alloc, sizes, sides, p)
}

fn too_many_leaves(alloc: Global, p: &Program, sides: &[Side]) -> Result<Option<Place>, Memory>
    requires known { AreStructs p.now.structs }
    ensures { IfOk result (λ place. place ≡ rows.too_many_leaves p.now sides.now) }
{
    match large_function(p) {
        Some(place) => Ok(Some(place)),
        None => large_globals(alloc, p, sides),
    }
}

/// The same from locations that are used twice on.
fn from_slots(
    alloc: Global,
    sizes: &[LocalSize],
    sides: &[Side],
    p: &Program,
) -> Result<Option<Fault>, Memory>
    requires known { AreStructs p.now.structs }
    ensures { IfOk result (λ fault. fault ≡ left.from_slots sizes.now sides.now p.now) }
{
    let twice = used_twice(alloc, p, sides)?;
    unless_at!(E0807, twice);
    let many = too_many_leaves(alloc, p, sides)?;
    unless_at!(E0903, many);
    from_depth(alloc, sizes, sides, p)
}

/// The same from the depth of calls on.
fn from_depth(
    alloc: Global,
    sizes: &[LocalSize],
    sides: &[Side],
    p: &Program,
) -> Result<Option<Fault>, Memory>
    requires known { AreStructs p.now.structs }
    ensures { IfOk result (λ fault. fault ≡ left.from_depth sizes.now sides.now p.now) }
{
    let deep = too_deep(alloc, p)?;
    unless_at!(E0907, deep);
    unless_at!(E0906, too_heavy(p));
    Ok(None)
}

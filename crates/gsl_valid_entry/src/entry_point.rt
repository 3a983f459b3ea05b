//! The entry point, and the decorations that belong to it.

ghost use Rattle.std.specs.Prelude.{◌≡◌, ◌^◌, ◌<◌, ◌&&◌, length, take, IfOk};
ghost use Rattle.std.specs.Str.{bytes_eq};
ghost use Rattle.gsl_ids.specs.Pass.{first_failed};
ghost use Rattle.gsl_kinds.specs.Seen.{kind_seen, place_seen};
ghost use Rattle.gsl_valid.specs.EntryRules as spec;
ghost use Rattle.gsl_valid.specs.Placed.{count_of_words};
ghost use Rattle.gsl_valid.specs.Types.{defined_as};
ghost use Rattle.gsl_valid_entry.specs.Stages.{entry_at};

use crate::location::{is_built_in_of, may_have_location};
use crate::main_function::{is_main, is_main_name};
use crate::stage::Stage;
use gsl_base::Memory;
use gsl_decorations::Decorations;
use gsl_ids::Each;
use gsl_instr::enumerant::decoration;
use gsl_kinds::{Kind, Place, kind_at, kind_if};
use std::alloc::Global;

/// The place of the first instruction that breaks V9: an entry point that is not as it must be, or a location or a built-in number that a
/// variable may not have.
pub fn entry(alloc: Global, decorations: &Decorations<'_>) -> Result<Option<u32>, Memory>
    requires length { length decorations.now.instrs < 2 ^ 32 }
    requires words { count_of_words decorations.now < 2 ^ 32 }
    ensures { IfOk result (λ place. place ≡ spec.entry decorations.now) }
{
    let stage = Stage::new(alloc, decorations)?;
    let place = first_unkept(alloc, &stage, Each::new(decorations.definitions().module()))?;
    Ok(place)
}

/// The same, among instructions, of which the first is the first of all.
#[tactic(auto, unfolding(gsl_ids::specs::Pass::first_failed))]
fn first_unkept(alloc: Global, stage: &Stage<'_>, each: Each<'_>) -> Result<Option<u32>, Memory>
    requires { length each < 2 ^ 32 }
    ensures { IfOk result (λ place. place ≡ first_failed entry_at (λ m at i. m) stage.now 0 each.entry) }
{
    let mut each = each;
    let mut at = 0;
    while let Some((place, op, args)) = each.next() {
        if !is_kept(alloc, stage, at, kind_at(op, args))? {
            return Ok(Some(place));
        }
        at += 1;
    }
    Ok(None)
}

/// Whether an instruction of a number keeps V9.
fn is_kept(alloc: Global, stage: &Stage<'_>, at: u32, kind: Kind<'_>) -> Result<bool, Memory>
    ensures { IfOk result (λ kept. kept ≡ spec.entry_of stage.now (take at stage.now.instrs) (kind_seen kind.entry)) }
{
    match kind {
        Kind::Enters {
            model,
            function,
            name,
            interface,
        } => enters(alloc, stage, model, function, name, interface),
        Kind::Decorates(decoration) => Ok(is_mark_kept(
            stage,
            at,
            decoration.kind,
            decoration.literals,
            decoration.place,
        )),
        _ => Ok(true),
    }
}

/// Whether an entry point is as it must be.
fn enters(
    alloc: Global,
    stage: &Stage<'_>,
    model: u32,
    function: u32,
    name: &[u32],
    interface: &[u32],
) -> Result<bool, Memory>
    ensures { IfOk result (λ kept. kept ≡ (bytes_eq name.now spec.main_words && spec.is_main stage.now (defined_as stage.now function) && spec.is_uncalled stage.now function && spec.lists_each (spec.interface_of stage.now) interface.now && spec.are_modes model function (spec.modes_of stage.now))) }
{
    let listed = stage.is_listed(alloc, interface)?;
    Ok(
        is_main_name(name)
            && is_main(stage.definitions(), function)
            && !stage.is_called(function)
            && listed
            && stage.has_modes(model, function),
    )
}

/// Whether a decoration of such a place and kind gives a variable a location or a built-in number that it may have, or neither.
fn is_mark_kept(stage: &Stage<'_>, at: u32, kind: u32, literals: &[u32], place: Place) -> bool
    ensures { result ≡ spec.mark_kept stage.now (take at stage.now.instrs) kind literals.now (place_seen place) }
{
    match place {
        Place::On { target } => {
            if kind == decoration::LOCATION {
                may_have_location(stage, at, target, literals)
            } else if kind == decoration::BUILT_IN {
                is_built_in_of(stage, literals, kind_if(stage.definitions().get(target)))
            } else {
                true
            }
        }
        Place::OnMember { .. } => true,
    }
}

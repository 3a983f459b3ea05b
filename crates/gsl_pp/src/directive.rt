//! Directives.

ghost use Rattle.std.specs.Prelude.{◌≡◌, Some};
ghost use Rattle.std.specs.Option.{option_map};
ghost use Rattle.gsl_macros.specs.Steps as steps;
ghost use Rattle.gsl_pp.specs.Directives as spec;

use crate::definition::{define, one_name, undef};
use crate::extension::extension;
use crate::group::Group;
use crate::line::line;
use crate::state::State;
use crate::word::{Conditional, Other, conditional_of, other_of, word};
use gsl_base::{Code, Place, Raw, Refusal, Text};
use gsl_conditions::holds;
use gsl_macros::fault;
use std::alloc::Global;

fn group(place: Place, live: bool) -> Group
    ensures { result ≡ spec.group place live }
{
    Group {
        place,
        live,
        taken: live,
        last: false,
    }
}

fn skipped_group(place: Place) -> Group
    ensures { result ≡ spec.skipped_group place }
{
    Group {
        place,
        live: false,
        taken: true,
        last: false,
    }
}

fn open_if(alloc: Global, state: &mut State, place: Place, raws: &[Raw]) -> Result<(), Refusal>
    ensures { steps.Leaves result (λ _. state.new) (spec.open_if state.old place raws.now) }
{
    if !state.groups.is_live() {
        state.groups.push(skipped_group(place))?;
        return Ok(());
    }
    let live = holds(alloc, &state.macros, place, raws, &mut state.left)?;
    state.groups.push(group(place, live))?;
    Ok(())
}

/// `#ifdef` and `#ifndef`.
fn open_by(state: &mut State, place: Place, raws: &[Raw], wanted: bool) -> Result<(), Refusal>
    ensures { steps.Leaves result (λ _. state.new) (spec.open_by state.old place raws.now wanted) }
{
    if !state.groups.is_live() {
        state.groups.push(skipped_group(place))?;
        return Ok(());
    }
    let name = one_name(place, raws)?;
    let known = state.macros.table.find(name).is_some();
    let live = if wanted { known } else { !known };
    state.groups.push(group(place, live))?;
    Ok(())
}

fn elif(alloc: Global, state: &mut State, place: Place, raws: &[Raw]) -> Result<(), Refusal>
    ensures { steps.Leaves result (λ _. state.new) (spec.elif_on state.old place raws.now state.old.groups) }
{
    let Some(top) = state.groups.pop() else {
        return Err(fault(place, Code::E0202));
    };
    if top.last {
        return Err(fault(place, Code::E0202));
    }
    if top.taken {
        state.groups.push(turned(top, false, true))?;
        return Ok(());
    }
    let live = holds(alloc, &state.macros, place, raws, &mut state.left)?;
    state.groups.push(turned(top, live, live))?;
    Ok(())
}

fn turned(group: Group, live: bool, taken: bool) -> Group
    ensures { result ≡ spec.turned group live taken }
{
    Group {
        place: group.place,
        live,
        taken,
        last: false,
    }
}

fn else_group(state: &mut State, place: Place) -> Result<(), Refusal>
    ensures { steps.Leaves result (λ _. state.new) (spec.else_on state.old place state.old.groups) }
{
    let Some(top) = state.groups.pop() else {
        return Err(fault(place, Code::E0202));
    };
    if top.last {
        return Err(fault(place, Code::E0202));
    }
    state.groups.push(Group {
        place: top.place,
        live: !top.taken,
        taken: true,
        last: true,
    })?;
    Ok(())
}

fn endif(state: &mut State, place: Place) -> Result<(), Refusal>
    ensures { steps.Leaves result (λ _. state.new) (spec.endif_on state.old place state.old.groups) }
{
    match state.groups.pop() {
        Some(_) => Ok(()),
        None => Err(fault(place, Code::E0202)),
    }
}

fn grouped(
    alloc: Global,
    state: &mut State,
    place: Place,
    raws: &[Raw],
    conditional: Conditional,
) -> Result<(), Refusal>
    ensures { steps.Leaves result (λ _. state.new) (spec.grouped state.old place raws.now conditional) }
{
    match conditional {
        Conditional::If => open_if(alloc, state, place, raws),
        Conditional::Ifdef => open_by(state, place, raws, true),
        Conditional::Ifndef => open_by(state, place, raws, false),
        Conditional::Elif => elif(alloc, state, place, raws),
        Conditional::Else => {
            if !raws.is_empty() {
                return Err(fault(place, Code::E0201));
            }
            else_group(state, place)
        }
        Conditional::Endif => {
            if !raws.is_empty() {
                return Err(fault(place, Code::E0201));
            }
            endif(state, place)
        }
    }
}

fn other(
    alloc: Global,
    state: &mut State,
    place: Place,
    raws: &[Raw],
    other: Option<Other>,
) -> Result<(), Refusal>
    ensures { steps.Leaves result (λ _. state.new) (spec.other state.old place raws.now other) }
{
    match other {
        None => Err(fault(place, Code::E0201)),
        Some(Other::Define) => define(alloc, place, &mut state.macros.table, raws),
        Some(Other::Undef) => undef(place, &mut state.macros.table, raws),
        Some(Other::Error) => Err(fault(place, Code::E0213)),
        Some(Other::Pragma) => Ok(()),
        Some(Other::Extension) => extension(place, raws),
        Some(Other::Version) => Err(fault(place, Code::E0211)),
        Some(Other::Line) => line(alloc, state, place, raws),
    }
}

/// A directive by its word.
fn named(
    alloc: Global,
    state: &mut State,
    place: Place,
    raws: &[Raw],
    word: &Text,
) -> Result<(), Refusal>
    ensures { steps.Leaves result (λ _. state.new) (spec.directed_by state.old place raws.now (Some word.now)) }
{
    if let Some(conditional) = conditional_of(word) {
        return grouped(alloc, state, place, raws, conditional);
    }
    if state.groups.is_live() {
        other(alloc, state, place, raws, other_of(word))
    } else {
        Ok(())
    }
}

/// Does what the directive says whose `#` stands at a place; this stands behind it.
#[tactic(auto, unfolding(crate::specs::Directives::directed))]
pub(crate) fn direct(
    alloc: Global,
    state: &mut State,
    place: Place,
    raws: &[Raw],
) -> Result<(), Refusal>
    ensures { steps.Leaves result (λ _. state.new) (spec.directed state.old place raws.now) }
{
    let [first, more @ ..] = raws else {
        return Ok(());
    };
    match word(first) {
        Some(word) => named(alloc, state, place, more, word),
        None => {
            if state.groups.is_live() {
                Err(fault(place, Code::E0201))
            } else {
                Ok(())
            }
        }
    }
}

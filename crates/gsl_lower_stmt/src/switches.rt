//! The blocks of a `switch`.

ghost use Rattle.std.specs.Prelude.{◌≡◌, ◌<◌, ◌++◌, ◌∷◌, IfOk, OnOk, Some, drop, length, map, slice_get};
ghost use Rattle.gsl_lower_holders.specs.Flow.{Does, each, flow_of, fresh};
ghost use Rattle.gsl_lower_stmt.specs.Parts as spec;
ghost use Rattle.gsl_lower_stmt.specs.Coming as coming;

use crate::ends::fresh_id;
use crate::exits::Exits;
use crate::labels::SwitchLabels;
use gsl_base::{List, Memory};
use gsl_instr::op;
use gsl_lower_holders::{FlowPlace, Ids};
use gsl_spv::{BuildRefusal, Builder};
use gsl_tree::{Arm, Arms, Labels};
use gsl_words::Args;
use std::alloc::Global;

/// An arm by its place.
fn arm_at(arms: &Arms, k: usize) -> &Arm
    requires { k < length arms.now }
    ensures { slice_get arms.now k ≡ Some result.now }
{
    &arms[k]
}

/// A label by its place.
pub(crate) fn label_at(labels: &[u32], k: usize) -> &u32
    requires { k < length labels.now }
    ensures { slice_get labels.now k ≡ Some result.now }
{
    &labels[k]
}

fn word_at(words: &Labels, k: usize) -> &u32
    requires { k < length words.now }
    ensures { slice_get words.now k ≡ Some result.now }
{
    &words[k]
}

fn is_default(arm: &Arm) -> bool
    ensures { result ≡ coming.default_in arm.now }
{
    arm.is_default
}

/// A label for each arm.
fn arm_labels(
    alloc: Global,
    b: &mut Builder,
    p: &FlowPlace,
    arms: &Arms,
) -> Result<Ids, BuildRefusal>
    ensures { Does result b.new p.now (each (λ one. fresh) (map coming.words_in arms.now) (flow_of b.old p.now)) }
{
    let mut labels = List::new(alloc);
    for k in 0..arms.len() {
        let _arm = arm_at(arms, k);
        labels.push(fresh_id(b, p)?)?;
    }
    Ok(labels)
}

/// Where a `switch` leads with no literal.
fn default_of(arms: &Arms, labels: &[u32], end: u32) -> Result<u32, Memory>
    ensures { IfOk result (λ d. d ≡ spec.default_of (map coming.default_in arms.now) labels.now end) }
{
    for k in 0..arms.len() {
        if k >= labels.len() {
            return Err(Memory);
        }
        let label = label_at(labels, k);
        let arm = arm_at(arms, k);
        if is_default(arm) {
            return Ok(*label);
        }
    }
    Ok(end)
}

/// Literals, each with a label.
fn put_pairs(args: &mut Args, words: &Labels, label: u32) -> Result<(), Memory>
    ensures { OnOk result (args.new ≡ args.old ++ spec.pairs label words.now) }
{
    for k in 0..words.len() {
        let word = word_at(words, k);
        args.extend_from_slice(&[*word, label])?;
    }
    Ok(())
}

/// The operands of a `switch`.
fn operands(
    alloc: Global,
    arms: &Arms,
    labels: &[u32],
    x: u32,
    default: u32,
) -> Result<Args, Memory>
    ensures { IfOk result (λ l. l ≡ x ∷ default ∷ spec.targets (map coming.words_in arms.now) labels.now) }
{
    let mut args = List::from_slice(alloc, &[x, default])?;
    for k in 0..arms.len() {
        if k >= labels.len() {
            return Err(Memory);
        }
        let label = label_at(labels, k);
        let arm = arm_at(arms, k);
        put_pairs(&mut args, &arm.labels, *label)?;
    }
    Ok(args)
}

/// A `switch` begins.
#[tactic(auto, unfolding(crate::specs::Coming::begins_switch, crate::specs::Parts::begin_switch))]
pub(crate) fn begin_switch(
    alloc: Global,
    b: &mut Builder,
    p: &FlowPlace,
    arms: &Arms,
    x: u32,
) -> Result<SwitchLabels, BuildRefusal>
    ensures { Does result b.new p.now (coming.begins_switch arms.now x (flow_of b.old p.now)) }
{
    let labels = arm_labels(alloc, b, p, arms)?;
    let end = b.id()?;
    b.put(op::SELECTION_MERGE, &[end, 0])?;
    let default = default_of(arms, labels.as_slice(), end)?;
    let args = operands(alloc, arms, labels.as_slice(), x, default)?;
    b.put(op::SWITCH, args.as_slice())?;
    Ok(SwitchLabels { arms: labels, end })
}

/// Where jumps lead in an arm.
pub(crate) fn in_switch(end: u32, exits: Exits) -> Exits
    ensures { result ≡ spec.in_switch end exits }
{
    Exits {
        break_to: Some(end),
        continue_to: exits.continue_to,
    }
}

/// The label of the arm behind one, or the end.
pub(crate) fn next_or(labels: &[u32], k: usize, end: u32) -> u32
    ensures { result ≡ spec.next_or end (drop k labels.now) }
{
    if k >= labels.len() {
        return end;
    }
    labels[k]
}

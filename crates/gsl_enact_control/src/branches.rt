//! Labels and branches.

ghost use Rattle.std.specs.Prelude.{◌≡◌, ◌==◌, if◌then◌else◌, IfOk};
ghost use Rattle.gsl_enact_state.specs.Seen.{state_seen};
ghost use Rattle.gsl_enact_steps.specs.Outcomes.{outcome_seen};
ghost use Rattle.gsl_machine.specs.State.{Going, on_whole};
ghost use Rattle.gsl_machine.specs.Steps as spec;
ghost use Rattle.gsl_tree.specs.Values.{word_in as word_of};
ghost use Rattle.gsl_words.specs.declared.module.Module.{Module};

use gsl_base::Memory;
use gsl_compute::word_in;
use gsl_enact_functions::label_at;
use gsl_enact_state::{Globals, State, begin_block};
use gsl_enact_steps::Step;
use gsl_values::Value;
use std::alloc::Global;

/// A block begins at its label.
pub fn label(alloc: Global, state: &mut State<'_>) -> Step
    ensures { (m : Module) → outcome_seen m state.new result ≡ Going (spec.in_new_block (state_seen m state.old)) }
{
    begin_block(alloc, state);
    Step::Going
}

/// A branch to a label of the function.
pub fn branch(alloc: Global, state: &mut State<'_>, label: u32) -> Step
    ensures { (m : Module) → outcome_seen m state.new result ≡ spec.branching (state_seen m state.old) label }
{
    match label_at(&state.body, label) {
        None => Step::Stuck,
        Some(code) => {
            state.rest = code;
            begin_block(alloc, state);
            Step::Going
        }
    }
}

/// A branch by a word: to the second label where it is zero, else to the first.
fn branch_by(alloc: Global, state: &mut State<'_>, word: u32, on_true: u32, on_false: u32) -> Step
    ensures { (m : Module) → outcome_seen m state.new result ≡ (if word == 0 then spec.branching (state_seen m state.old) on_false else spec.branching (state_seen m state.old) on_true) }
{
    if word == 0 {
        branch(alloc, state, on_false)
    } else {
        branch(alloc, state, on_true)
    }
}

/// A branch to one of two labels, by the value of an id.
pub fn branch_if(
    alloc: Global,
    globals: &Globals<'_>,
    state: &mut State<'_>,
    condition: u32,
    on_true: u32,
    on_false: u32,
) -> Result<Step, Memory>
    ensures { IfOk result (λ s. outcome_seen globals.now state.new s ≡ on_whole ((state_seen globals.now state.old).ids condition) (λ c. if word_of c == 0 then spec.branching (state_seen globals.now state.old) on_false else spec.branching (state_seen globals.now state.old) on_true)) }
{
    match globals.value(alloc, state, condition)? {
        None => Ok(Step::Stuck),
        Some(c) => {
            let step = branch_by(alloc, state, word_in(&c), on_true, on_false);
            Ok(step)
        }
    }
}

/// The label that a word is for, among literals with their labels.
fn label_for(word: u32, default: u32, targets: &[u32]) -> u32
    ensures { result ≡ spec.label_for word default targets.now }
{
    let mut rest = targets;
    while let [literal, more @ ..] = rest {
        match more {
            [] => return default,
            [label, others @ ..] => {
                if *literal == word {
                    return *label;
                }
                rest = others;
            }
        }
    }
    default
}

/// A branch to the label that a value is for.
fn switch_on(alloc: Global, state: &mut State<'_>, v: &Value, default: u32, targets: &[u32]) -> Step
    ensures { (m : Module) → outcome_seen m state.new result ≡ spec.branching (state_seen m state.old) (spec.label_for (word_of v.now) default targets.now) }
{
    let label = label_for(word_in(v), default, targets);
    branch(alloc, state, label)
}

/// A branch to the label for the value of an id.
pub fn switch(
    alloc: Global,
    globals: &Globals<'_>,
    state: &mut State<'_>,
    selector: u32,
    default: u32,
    targets: &[u32],
) -> Result<Step, Memory>
    ensures { IfOk result (λ s. outcome_seen globals.now state.new s ≡ on_whole ((state_seen globals.now state.old).ids selector) (λ v. spec.branching (state_seen globals.now state.old) (spec.label_for (word_of v) default targets.now))) }
{
    match globals.value(alloc, state, selector)? {
        None => Ok(Step::Stuck),
        Some(v) => {
            let step = switch_on(alloc, state, &v, default, targets);
            Ok(step)
        }
    }
}

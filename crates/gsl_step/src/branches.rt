//! Branches.

ghost use Rattle.std.specs.Prelude.{◌≡◌, ◌-◌, ◌<◌, ◌==◌, if◌then◌else◌, length, slice_index};
ghost use Rattle.gsl_ids.specs.Table.{number_of};
ghost use Rattle.gsl_instr.specs.declared.instruction.Instruction.TheVariants as instruction;
ghost use Rattle.gsl_machine.specs.Steps as steps;
ghost use Rattle.gsl_step.specs.Machine.{Does};

use crate::machine::Machine;
use gsl_operands::Operands;
use gsl_slots::Slots;

/// The word at a place among the slots.
pub fn word_at(slots: &Slots, at: u64) -> u32
    ensures { at < length slots.now → result ≡ slice_index slots.now at }
{
    if at < slots.len() as u64 {
        slots.word(at as usize)
    } else {
        0
    }
}

/// A branch to a label.
pub fn branch(operands: &Operands<'_>, machine: &mut Machine, target: u32)
    ensures does { Does operands.now (instruction.Branch target) machine.old machine.new }
    ensures at { machine.new ≡ record machine.old { standing = record machine.old.standing { at = number_of operands.now target - 1 } } }
{
    let number = operands.frames().leaves().definitions().number(target);
    machine.standing.at = number.saturating_sub(1);
}

/// The label for a condition.
fn chosen(word: u32, on_true: u32, on_false: u32) -> u32
    ensures { result ≡ if word == 0 then on_false else on_true }
{
    if word == 0 { on_false } else { on_true }
}

/// A branch by a condition.
pub fn branch_conditional(
    operands: &Operands<'_>,
    machine: &mut Machine,
    condition: u32,
    on_true: u32,
    on_false: u32,
)
    ensures { Does operands.now (instruction.BranchConditional condition on_true on_false) machine.old machine.new }
{
    let at = operands.stands(machine.standing.slots, condition);
    let word = word_at(&machine.slots, at);
    branch(operands, machine, chosen(word, on_true, on_false));
}

/// The label that a word is for, among literals with their labels.
fn label_for(word: u32, default: u32, targets: &[u32]) -> u32
    ensures { result ≡ steps.label_for word default targets.now }
{
    let mut rest = targets;
    while let [literal, more @ ..] = rest {
        match more {
            [] => return default,
            [label, others @ ..] => {
                if *literal == word {
                    return *label;
                }
                rest = others;
            }
        }
    }
    default
}

/// A branch to the label for the word of a selector.
pub fn switch(
    operands: &Operands<'_>,
    machine: &mut Machine,
    selector: u32,
    default: u32,
    targets: &[u32],
)
    ensures { Does operands.now (instruction.Switch selector default targets.now) machine.old machine.new }
{
    let at = operands.stands(machine.standing.slots, selector);
    let word = word_at(&machine.slots, at);
    branch(operands, machine, label_for(word, default, targets));
}

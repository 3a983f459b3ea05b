//! The runs that a block asks for.

ghost use Rattle.std.specs.Prelude.{◌≡◌, if◌then◌else◌, ◌+◌, ◌^◌, ◌<◌, ◌∷◌, OnOk, IfOk, MatchOption, Some, None};
ghost use Rattle.gsl_blocks.specs.Order as spec;
ghost use Rattle.gsl_blocks.specs.Reading as reading;
ghost use Rattle.gsl_blocks.specs.Targets.{all_differ, firsts};

use crate::around::{
    Around, Due, in_arm, in_body, in_case, in_continue, may_end, may_turn, needs_run,
};
use crate::block::{Block, End, Merge};
use crate::stack::Stack;
use crate::targets::{arms_of, literals_differ};
use gsl_base::{List, Memory};
use indexmap::IndexSet;
use std::alloc::Global;

/// Puts the arm of a selection on the stack, unless that is nothing.
fn push_arm(stack: &mut Stack, around: Around, merge: u32, label: u32) -> Result<(), Memory>
    requires { around.depth + 1 < 2 ^ 32 }
    ensures { OnOk result (stack.new ≡ spec.arm around merge label stack.old) }
{
    if !needs_run(around, merge, label) {
        return Ok(());
    }
    let around = in_arm(around, merge);
    stack.push(Due { label, around })
}

/// Puts what a branch to one of two asks for on the stack.
fn push_selection(
    stack: &mut Stack,
    around: Around,
    merge: u32,
    on_true: u32,
    on_false: u32,
) -> Result<(), Memory>
    requires { around.depth + 1 < 2 ^ 32 }
    ensures { OnOk result (stack.new ≡ spec.arm around merge on_true (spec.arm around merge on_false (spec.run merge around ∷ stack.old))) }
{
    stack.push(Due {
        label: merge,
        around,
    })?;
    push_arm(stack, around, merge, on_false)?;
    push_arm(stack, around, merge, on_true)
}

/// Puts a run for each of the targets of a switch on the stack.
fn push_cases(stack: &mut Stack, around: Around, merge: u32, arms: List<u32>) -> Result<(), Memory>
    requires { around.depth + 1 < 2 ^ 32 }
    ensures { OnOk result (stack.new ≡ spec.cases around merge merge arms stack.old) }
{
    let mut arms = arms;
    let mut next = merge;
    while let Some(label) = arms.pop() {
        let around = in_case(around, merge, next);
        stack.push(Due { label, around })?;
        next = label;
    }
    Ok(())
}

/// Puts what a loop asks for on the stack.
fn push_loop(
    stack: &mut Stack,
    around: Around,
    label: u32,
    merge: u32,
    continue_target: u32,
    body: u32,
) -> Result<(), Memory>
    requires { around.depth + 1 < 2 ^ 32 }
    ensures { OnOk result (stack.new ≡ spec.parts_of_loop around label merge continue_target body stack.old) }
{
    stack.push(Due {
        label: merge,
        around,
    })?;
    stack.push(Due {
        label: continue_target,
        around: in_continue(around, label, merge),
    })?;
    stack.push(Due {
        label: body,
        around: in_body(around, merge, continue_target),
    })
}

/// Puts what a switch asks for on the stack, if its literals differ.
fn push_switch(
    alloc: Global,
    stack: &mut Stack,
    labels: &IndexSet<u32>,
    around: Around,
    merge: u32,
    default: u32,
    targets: &[u32],
) -> Result<bool, Memory>
    requires { around.depth + 1 < 2 ^ 32 }
    ensures { IfOk result (λ differ. (if all_differ (firsts targets.now) then Some (spec.cases around merge merge (reading.arms_of labels.now.keys around merge default targets.now) (spec.run merge around ∷ stack.old)) else None) ≡ reading.if_so differ stack.new) }
{
    if !literals_differ(alloc, targets)? {
        return Ok(false);
    }
    let arms = arms_of(alloc, labels, around, merge, default, targets)?;
    stack.push(Due {
        label: merge,
        around,
    })?;
    push_cases(stack, around, merge, arms)?;
    Ok(true)
}

/// Whether two labels may be the targets of a selection.
fn may_fork(around: Around, merge: u32, on_true: u32, on_false: u32) -> bool
    ensures { result ≡ spec.may_fork around merge on_true on_false }
{
    on_true != on_false || !needs_run(around, merge, on_true)
}

/// Whether a block without a merge may be as it is; puts what it asks for on the stack.
fn enter_plain(stack: &mut Stack, around: Around, end: End<'_>) -> Result<bool, Memory>
    ensures { IfOk result (λ may. reading.asks_plain around end.entry stack.old ≡ reading.if_so may stack.new) }
{
    match end {
        End::Branch { target } => {
            if !may_end(around, target) {
                stack.push(Due {
                    label: target,
                    around,
                })?;
            }
            Ok(true)
        }
        End::Conditional { on_true, on_false } => Ok(may_turn(around, on_true, on_false)),
        End::Switch {
            default: _,
            targets: _,
        } => Ok(false),
        End::Leave => Ok(around.leaves),
    }
}

/// Whether a block with the merge of a selection may be as it is; puts what it asks for on the stack.
fn enter_selection(
    alloc: Global,
    stack: &mut Stack,
    labels: &IndexSet<u32>,
    around: Around,
    merge: u32,
    end: End<'_>,
) -> Result<bool, Memory>
    requires { around.depth + 1 < 2 ^ 32 }
    ensures { IfOk result (λ may. reading.asks_selection labels.now.keys around merge end.entry stack.old ≡ reading.if_so may stack.new) }
{
    match end {
        End::Branch { target: _ } => Ok(false),
        End::Conditional { on_true, on_false } => {
            if !may_fork(around, merge, on_true, on_false) {
                return Ok(false);
            }
            push_selection(stack, around, merge, on_true, on_false)?;
            Ok(true)
        }
        End::Switch { default, targets } => {
            let differ = push_switch(
                alloc,
                stack,
                labels,
                around,
                merge,
                default,
                targets.as_slice(),
            )?;
            Ok(differ)
        }
        End::Leave => Ok(false),
    }
}

/// Whether a block with the merge of a loop may be as it is; puts what it asks for on the stack.
fn enter_loop(
    stack: &mut Stack,
    first: u32,
    due: Due,
    merge: u32,
    continue_target: u32,
    end: End<'_>,
) -> Result<bool, Memory>
    requires { due.around.depth + 1 < 2 ^ 32 }
    ensures { IfOk result (λ may. reading.asks_loop first due.label due.around merge continue_target end.entry stack.old ≡ reading.if_so may stack.new) }
{
    match end {
        End::Branch { target } => {
            if due.label == first {
                return Ok(false);
            }
            push_loop(stack, due.around, due.label, merge, continue_target, target)?;
            Ok(true)
        }
        End::Conditional {
            on_true: _,
            on_false: _,
        } => Ok(false),
        End::Switch {
            default: _,
            targets: _,
        } => Ok(false),
        End::Leave => Ok(false),
    }
}

/// Whether a block with this merge and end may begin a run; puts what it asks for on the stack.
fn enter(
    alloc: Global,
    stack: &mut Stack,
    labels: &IndexSet<u32>,
    first: u32,
    due: Due,
    merge: Merge,
    end: End<'_>,
) -> Result<bool, Memory>
    requires { due.around.depth + 1 < 2 ^ 32 }
    ensures { IfOk result (λ may. reading.asks labels.now.keys first due.label due.around merge end.entry stack.old ≡ reading.if_so may stack.new) }
{
    match merge {
        Merge::Nothing => enter_plain(stack, due.around, end),
        Merge::Selection { merge } => enter_selection(alloc, stack, labels, due.around, merge, end),
        Merge::Loop {
            merge,
            continue_target,
        } => enter_loop(stack, first, due, merge, continue_target, end),
    }
}

/// How many constructs stand within each other at a block.
fn depth_at(around: Around, merge: Merge) -> u32
    requires { around.depth + 1 < 2 ^ 32 }
    ensures { result ≡ reading.depth_at around merge }
{
    match merge {
        Merge::Nothing => around.depth,
        Merge::Selection { merge: _ } => around.depth + 1,
        Merge::Loop {
            merge: _,
            continue_target: _,
        } => around.depth + 1,
    }
}

/// How many constructs stand within each other at a block, if it may stand at the top of the runs that are
/// due; puts what it asks for in the place of the first of them.
pub(crate) fn read_block(
    alloc: Global,
    stack: &mut Stack,
    labels: &IndexSet<u32>,
    first: u32,
    block: Block<'_>,
) -> Result<Option<u32>, Memory>
    requires { reading.IsShallow 1 stack.now }
    ensures { IfOk result (λ depth. MatchOption depth (reading.asks_on labels.now.keys first block.entry stack.old ≡ None) (λ n. (reading.asks_on labels.now.keys first block.entry stack.old ≡ Some stack.new) × (n ≡ reading.depth_on block.entry stack.old))) }
{
    let Some(due) = stack.pop() else {
        return Ok(None);
    };
    if block.label != due.label {
        return Ok(None);
    }
    let depth = depth_at(due.around, block.merge);
    let Block {
        label: _,
        merge,
        end,
    } = block;
    if enter(alloc, stack, labels, first, due, merge, end)? {
        Ok(Some(depth))
    } else {
        Ok(None)
    }
}

//! What an instruction does, by its class.

ghost use Rattle.std.specs.Prelude.{◌≡◌, ◌≤◌, IfOk};
ghost use Rattle.gsl_enact.specs.Turns.{turn};
ghost use Rattle.gsl_enact_state.specs.Seen.{state_seen};
ghost use Rattle.gsl_enact_steps.specs.Outcomes.{outcome_seen};
ghost use Rattle.gsl_machine.specs.Steps as machine;

use gsl_base::{Input, Memory};
use gsl_enact_control::{branch, branch_if, call, end, label, leave, leave_with, switch};
use gsl_enact_places::{chain, count, declare, load, store};
use gsl_enact_state::{Globals, State};
use gsl_enact_steps::{
    Step, bits_extracted, bits_inserted, construct, extended, on_two, on_unary, pick, put_part,
    selected, shuffle, take_part,
};
use gsl_enact_values::{arithmetic, comparison, logical, shift};
use gsl_instr::Instruction;
use gsl_kinds::Variable;
use std::alloc::Global;

/// What an instruction does that stands at a place, with the instructions behind it still to come.
pub(crate) fn act<'a>(
    alloc: Global,
    globals: &Globals<'a>,
    input: &Input,
    place: u32,
    state: &mut State<'a>,
    instruction: Instruction<'_>,
) -> Result<Step, Memory>
    ensures { IfOk result (λ s. outcome_seen globals.now state.new s ≡ machine.act globals.now input.now place (state_seen globals.now state.old) instruction.entry) }
{
    match instruction {
        Instruction::Load {
            result,
            pointer,
            ..
        } => load(alloc, globals, input, state, result, pointer),
        Instruction::Store { pointer, value } => {
            store(alloc, globals, input, state, pointer, value)
        }
        Instruction::AccessChain {
            result,
            base,
            indexes,
            ..
        } => chain(
            alloc,
            globals,
            input,
            place,
            state,
            result,
            base,
            indexes.as_slice(),
        ),
        Instruction::ArrayLength {
            result,
            pointer,
            member,
            ..
        } => count(alloc, globals, input, state, result, pointer, member),
        other => act_on_variables(alloc, globals, input, place, state, other),
    }
}

/// A variable where it stands in its function, and what others do.
fn act_on_variables<'a>(
    alloc: Global,
    globals: &Globals<'a>,
    input: &Input,
    place: u32,
    state: &mut State<'a>,
    instruction: Instruction<'_>,
) -> Result<Step, Memory>
    requires { 1 ≤ turn instruction }
    ensures { IfOk result (λ s. outcome_seen globals.now state.new s ≡ machine.act globals.now input.now place (state_seen globals.now state.old) instruction.entry) }
{
    match instruction {
        Instruction::Variable {
            type_,
            result,
            class,
            initialiser,
        } => {
            let v = Variable {
                type_,
                id: result,
                class,
                initialiser: initialiser.as_slice(),
            };
            declare(alloc, globals, input, state, &v)
        }
        other => branching(alloc, globals, input, place, state, other),
    }
}

/// Merges, labels and branches, and what others do.
fn branching<'a>(
    alloc: Global,
    globals: &Globals<'a>,
    input: &Input,
    place: u32,
    state: &mut State<'a>,
    instruction: Instruction<'_>,
) -> Result<Step, Memory>
    requires { 2 ≤ turn instruction }
    ensures { IfOk result (λ s. outcome_seen globals.now state.new s ≡ machine.act globals.now input.now place (state_seen globals.now state.old) instruction.entry) }
{
    match instruction {
        Instruction::LoopMerge { .. } | Instruction::SelectionMerge { .. } => Ok(Step::Going),
        Instruction::Label { .. } => Ok(label(alloc, state)),
        Instruction::Branch { target } => Ok(branch(alloc, state, target)),
        Instruction::BranchConditional {
            condition,
            on_true,
            on_false,
        } => branch_if(alloc, globals, state, condition, on_true, on_false),
        Instruction::Switch {
            selector,
            default,
            targets,
        } => switch(alloc, globals, state, selector, default, targets.as_slice()),
        other => calling(alloc, globals, input, place, state, other),
    }
}

/// Calls, returns and kills, and what others do.
fn calling<'a>(
    alloc: Global,
    globals: &Globals<'a>,
    input: &Input,
    place: u32,
    state: &mut State<'a>,
    instruction: Instruction<'_>,
) -> Result<Step, Memory>
    requires { 3 ≤ turn instruction }
    ensures { IfOk result (λ s. outcome_seen globals.now state.new s ≡ machine.act globals.now input.now place (state_seen globals.now state.old) instruction.entry) }
{
    match instruction {
        Instruction::FunctionCall {
            result,
            function,
            arguments,
            ..
        } => call(
            alloc,
            globals,
            state,
            result,
            function,
            arguments.as_slice(),
        ),
        Instruction::Kill => end(alloc, globals, true, state),
        Instruction::Return => leave(alloc, globals, state),
        Instruction::ReturnValue { value } => leave_with(alloc, globals, state, value),
        other => operating(alloc, globals, input, place, state, other),
    }
}

/// Operators on one and two values, and what others do.
fn operating<'a>(
    alloc: Global,
    globals: &Globals<'a>,
    input: &Input,
    place: u32,
    state: &mut State<'a>,
    instruction: Instruction<'_>,
) -> Result<Step, Memory>
    requires { 4 ≤ turn instruction }
    ensures { IfOk result (λ s. outcome_seen globals.now state.new s ≡ machine.act globals.now input.now place (state_seen globals.now state.old) instruction.entry) }
{
    match instruction {
        Instruction::Unary { op, result, a, .. } => on_unary(alloc, globals, state, op, result, a),
        Instruction::Arithmetic {
            op,
            result,
            a,
            b,
            ..
        } => on_two(alloc, globals, state, result, a, b, arithmetic(op)),
        Instruction::Shift {
            op,
            result,
            base,
            shift: amount,
            ..
        } => on_two(alloc, globals, state, result, base, amount, shift(op)),
        Instruction::Logical {
            op,
            result,
            a,
            b,
            ..
        } => on_two(alloc, globals, state, result, a, b, logical(op)),
        Instruction::Comparison {
            op,
            result,
            a,
            b,
            ..
        } => on_two(alloc, globals, state, result, a, b, comparison(op)),
        other => choosing(alloc, globals, input, place, state, other),
    }
}

/// Selections and bit fields, and what others do.
fn choosing<'a>(
    alloc: Global,
    globals: &Globals<'a>,
    input: &Input,
    place: u32,
    state: &mut State<'a>,
    instruction: Instruction<'_>,
) -> Result<Step, Memory>
    requires { 5 ≤ turn instruction }
    ensures { IfOk result (λ s. outcome_seen globals.now state.new s ≡ machine.act globals.now input.now place (state_seen globals.now state.old) instruction.entry) }
{
    match instruction {
        Instruction::Select {
            result,
            condition,
            a,
            b,
            ..
        } => selected(alloc, globals, state, result, condition, a, b),
        Instruction::BitFieldInsert {
            result,
            base,
            insert,
            offset,
            count,
            ..
        } => bits_inserted(alloc, globals, state, result, base, insert, offset, count),
        Instruction::BitFieldExtract {
            op,
            result,
            base,
            offset,
            count,
            ..
        } => bits_extracted(alloc, globals, state, op, result, base, offset, count),
        other => taking_parts(alloc, globals, input, place, state, other),
    }
}

/// Parts of composites, and what others do.
fn taking_parts<'a>(
    alloc: Global,
    globals: &Globals<'a>,
    input: &Input,
    place: u32,
    state: &mut State<'a>,
    instruction: Instruction<'_>,
) -> Result<Step, Memory>
    requires { 6 ≤ turn instruction }
    ensures { IfOk result (λ s. outcome_seen globals.now state.new s ≡ machine.act globals.now input.now place (state_seen globals.now state.old) instruction.entry) }
{
    match instruction {
        Instruction::CompositeExtract {
            result,
            composite,
            indexes,
            ..
        } => take_part(alloc, globals, state, result, composite, indexes.as_slice()),
        Instruction::CompositeInsert {
            result,
            part,
            composite,
            indexes,
            ..
        } => put_part(
            alloc,
            globals,
            state,
            result,
            part,
            composite,
            indexes.as_slice(),
        ),
        Instruction::VectorExtractDynamic {
            result,
            vector,
            index,
            ..
        } => pick(alloc, globals, state, place, result, vector, index),
        other => composing(alloc, globals, input, place, state, other),
    }
}

/// What makes values of several; all others stand outside blocks.
fn composing<'a>(
    alloc: Global,
    globals: &Globals<'a>,
    input: &Input,
    place: u32,
    state: &mut State<'a>,
    instruction: Instruction<'_>,
) -> Result<Step, Memory>
    requires { 7 ≤ turn instruction }
    ensures { IfOk result (λ s. outcome_seen globals.now state.new s ≡ machine.act globals.now input.now place (state_seen globals.now state.old) instruction.entry) }
{
    match instruction {
        Instruction::VectorShuffle {
            result,
            first,
            second,
            components,
            ..
        } => shuffle(
            alloc,
            globals,
            state,
            result,
            first,
            second,
            components.as_slice(),
        ),
        Instruction::CompositeConstruct {
            type_,
            result,
            parts,
        } => construct(alloc, globals, state, type_, result, parts.as_slice()),
        Instruction::ExtInst {
            result,
            number,
            operands,
            ..
        } => extended(alloc, globals, state, number, result, operands.as_slice()),
        _ => Ok(Step::Stuck),
    }
}

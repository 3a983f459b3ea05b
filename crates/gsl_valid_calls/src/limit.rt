//! The limits of a module.

ghost use Rattle.std.specs.Prelude.{◌≡◌, ◌^◌, ◌<◌, ◌&&◌, None, nat_le, length, IfOk};
ghost use Rattle.gsl_valid.specs.Instruction.{passes_if};
ghost use Rattle.gsl_ids.specs.Pass.{first_failed};
ghost use Rattle.gsl_valid.specs.IdsDefinedOnce.{ids_defined_once};
ghost use Rattle.gsl_valid.specs.LimitRules as spec;
ghost use Rattle.gsl_valid.specs.Placed.{count_of_words};
ghost use Rattle.gsl_valid_calls.specs.Heights as table;
ghost use Rattle.gsl_valid_calls.specs.Limits as kept;

use crate::heights::{highest_of, note};
use crate::table::byte_at;
use gsl_base::Memory;
use gsl_blocks::nesting;
use gsl_ids::Each;
use gsl_instr::{Instruction, read};
use gsl_words::Module;
use std::alloc::Global;

const MOST_MEMBERS: usize = 16383;

const MOST_PARAMETERS: usize = 255;

const MOST_PAIRS: usize = 16383;

const MOST_INDEXES: usize = 255;

const MOST_HEIGHT: u8 = 65;

const MOST_CONSTRUCTS: u32 = 1023;

/// The place of the first instruction that is beyond the limits of this product or of SPIR-V (1.0, 2.17), which breaks V18.
pub fn limits(alloc: Global, of: &Module) -> Result<Option<u32>, Memory>
    requires length { length of.now.instrs < 2 ^ 32 }
    requires words { count_of_words of.now < 2 ^ 32 }
    requires once { ids_defined_once of.now ≡ None }
    ensures { IfOk result (λ place. place ≡ spec.limits of.now) }
{
    let place = first_beyond(alloc, of, Each::new(of))?;
    Ok(place)
}

/// The same, among the instructions of a module. It takes a byte for each id below the bound.
#[tactic(auto, unfolding(gsl_ids::specs::Pass::first_failed))]
fn first_beyond(alloc: Global, of: &Module, each: Each<'_>) -> Result<Option<u32>, Memory>
    requires length { length of.now.instrs < 2 ^ 32 }
    requires whole { length each ≡ length of.now.instrs }
    ensures { IfOk result (λ place. place ≡ first_failed kept.passes kept.behind (kept.at_first of.now) 0 each.entry) }
{
    let mut at = 0;
    let mut each = each;
    let mut heights = vec![in alloc; 0; of.bound as usize]?;
    while let Some((place, op, args)) = each.next() {
        if !is_within(alloc, of, &heights, at, read(op, args))? {
            return Ok(Some(place));
        }
        note(&mut heights, op, args);
        at += 1;
    }
    Ok(None)
}

/// Whether the instruction of a number, if there is one, is within the limits, where these are the heights of the types before it.
fn is_within(
    alloc: Global,
    of: &Module,
    heights: &[u8],
    at: u32,
    instruction: Option<Instruction<'_>>,
) -> Result<bool, Memory>
    requires length { length of.now.instrs < 2 ^ 32 }
    ensures { IfOk result (λ passed. passed ≡ passes_if (kept.is_within of.now heights.now at) instruction.entry) }
{
    match instruction {
        Some(Instruction::Function { .. }) => nests_within(alloc, of, at),
        Some(instruction) => Ok(is_small(heights, instruction)),
        None => Ok(true),
    }
}

/// Whether constructs within each other, in the function that begins at an instruction, are within the limit.
fn nests_within(alloc: Global, of: &Module, at: u32) -> Result<bool, Memory>
    requires length { length of.now.instrs < 2 ^ 32 }
    ensures { IfOk result (λ passed. passed ≡ spec.nests_within (kept.nesting_at of.now at)) }
{
    let depth = nesting(alloc, &of.instrs, at)?;
    Ok(is_shallow(depth))
}

/// Whether so many constructs within each other are within the limit.
fn is_shallow(depth: Option<u32>) -> bool
    ensures { result ≡ spec.nests_within depth }
{
    match depth {
        Some(depth) => depth <= MOST_CONSTRUCTS,
        None => true,
    }
}

/// Whether an instruction, which begins no function, has few enough parts, and a type is low enough.
fn is_small(heights: &[u8], instruction: Instruction<'_>) -> bool
    ensures { result ≡ kept.is_small heights.now instruction.entry }
{
    match instruction {
        Instruction::TypeArray { element, .. } => byte_at(heights, element) < MOST_HEIGHT,
        Instruction::TypeRuntimeArray { element, .. } => byte_at(heights, element) < MOST_HEIGHT,
        Instruction::TypeStruct { members, .. } => is_struct_small(heights, members.as_slice()),
        Instruction::TypeFunction { parameters, .. } => parameters.as_slice().len()
            <= MOST_PARAMETERS,
        Instruction::AccessChain { indexes, .. } => indexes.as_slice().len() <= MOST_INDEXES,
        Instruction::CompositeExtract { indexes, .. } => indexes.as_slice().len() <= MOST_INDEXES,
        Instruction::CompositeInsert { indexes, .. } => indexes.as_slice().len() <= MOST_INDEXES,
        Instruction::Switch { targets, .. } => targets.as_slice().len() / 2 <= MOST_PAIRS,
        _ => true,
    }
}

/// Whether a struct of these members is within the limits.
fn is_struct_small(heights: &[u8], members: &[u32]) -> bool
    ensures { result ≡ (nat_le (length members.now) spec.most_members && table.is_low heights.now members.now) }
{
    members.len() <= MOST_MEMBERS && highest_of(heights, members) < MOST_HEIGHT
}

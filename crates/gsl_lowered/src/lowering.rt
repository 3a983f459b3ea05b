//! The module of a program, where it is valid.

ghost use Rattle.gsl_tree.specs.WellTyped.{IsProgram};
ghost use Rattle.gsl_lowered.specs.Sound as spec;

use crate::writable::is_writable;
use gsl_base::Memory;
use gsl_lower_flow::lower_for;
use gsl_spv::BuildRefusal;
use gsl_tree::Program;
use gsl_validate::{Invalid, Valid, validate};
use gsl_words::{Module, Target};
use std::alloc::Global;

/// A module where it is valid and has a file of fewer than 2^32 words.
fn judged(alloc: Global, of: Module) -> Result<Option<Valid>, Memory>
    ensures { spec.Judges of result }
{
    if !is_writable(alloc, &of)? {
        return Ok(None);
    }
    match validate(alloc, of) {
        Ok(valid) => Ok(Some(valid)),
        Err(Invalid::Broken(_, _)) => Ok(None),
        Err(Invalid::Memory) => Err(Memory),
    }
}

/// The module that a program is lowered to for a target, where it is valid: it keeps the rules V1 to V18 (SPIR-V 1.0, 2.16), and its file has
/// fewer than 2^32 words.
pub fn lowered(alloc: Global, target: Target, program: &Program) -> Result<Option<Valid>, Memory>
    requires { IsProgram program.now }
    ensures { spec.Answers target program.now result }
{
    match lower_for(alloc, target, program) {
        Ok(module) => judged(alloc, module),
        Err(BuildRefusal::TooManyIds) => Ok(None),
        Err(BuildRefusal::Memory) => Err(Memory),
    }
}

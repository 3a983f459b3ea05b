//! What came of a source.

use gsl_base::{Fault, Memory, Refusal, Stage};
use gsl_check::check;
use gsl_lex::lex;
use gsl_outline::{Done, Outline};
use gsl_parse::parse;
use gsl_pp::preprocess;
use gsl_tree::TypedUnit;
use std::alloc::Global;

/// The longest source that is looked at.
const MAX_BYTES: usize = 1_048_576;

/// The typed unit of a source.
fn typed(alloc: Global, stage: Stage, source: &[u8]) -> Result<TypedUnit, Refusal> {
    if source.len() > MAX_BYTES {
        return Err(Refusal::Memory);
    }
    let raws = lex(alloc, 0, source)?;
    let tokens = preprocess(alloc, 0, raws)?;
    let unit = parse(alloc, &tokens)?;
    check(alloc, stage, unit.as_slice())
}

/// Prints how many declarations of each kind a source has, or its first fault.
pub fn tell(alloc: Global, out: &mut Outline, stage: Stage, source: &[u8]) -> Done {
    match typed(alloc, stage, source) {
        Ok(unit) => counts(out, &unit),
        Err(Refusal::Source(fault)) => faulty(out, &fault),
        Err(Refusal::Memory) => Err(Memory),
    }
}

fn counts(out: &mut Outline, unit: &TypedUnit) -> Done {
    count(out, unit.structs.len(), " structs, ")?;
    count(out, unit.globals.len(), " variables, ")?;
    count(out, unit.blocks.len(), " blocks, ")?;
    count(out, unit.interfaces.len(), " inputs and outputs, ")?;
    count(out, unit.prototypes.len(), " heads, ")?;
    count(out, unit.functions.len(), " functions\n")
}

fn count(out: &mut Outline, count: usize, what: &str) -> Done {
    out.number(count as u64)?;
    out.put(what)
}

/// A fault's code and line.
fn faulty(out: &mut Outline, fault: &Fault) -> Done {
    out.code(fault.code)?;
    out.put(" line ")?;
    out.number(u64::from(fault.place.line))?;
    out.end_line()
}

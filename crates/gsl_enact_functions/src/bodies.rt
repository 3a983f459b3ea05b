//! What stands in functions.

ghost use Rattle.std.specs.Prelude.{◌≡◌, ◌++◌, ◌==◌, ◌&&◌, ℕ, IfOk, OnOk, List as Plain, if◌then◌else◌, map, [], None};
ghost use Rattle.std.specs.List.{cons_option};
ghost use Rattle.gsl_enact_fits.specs.Passes.{variable_if_seen};
ghost use Rattle.gsl_enact_functions.specs.Bodies as spec;
ghost use Rattle.gsl_instr.specs.declared.op.TheConstants as ops;
ghost use Rattle.gsl_kinds.specs.Seen.{variable_seen};
ghost use Rattle.gsl_machine.specs.Functions as machine;
ghost use Rattle.gsl_valid.specs.Ids.{result as result_of};
ghost use Rattle.gsl_valid.specs.Instruction.{read};
ghost use Rattle.gsl_valid.specs.Kinds.{Variable as Holder, variable_is};

use crate::labels::is_end;
use gsl_base::{List, Memory};
use gsl_enact_fits::variable_in;
use gsl_enact_state::Code;
use gsl_ids::defined_by;
use gsl_instr::op;
use gsl_kinds::{Variable, kind_at};
use std::alloc::Global;

/// The id of a parameter.
fn parameter_of(op: u16, args: &[u32]) -> Option<u32>
    ensures { result ≡ (if op == ops.FUNCTION_PARAMETER then result_of (read (record { op = op; args = args.now })) else None) }
{
    if op == op::FUNCTION_PARAMETER {
        defined_by(op, args)
    } else {
        None
    }
}

/// The variable that an instruction is.
fn variable_of(op: u16, args: &[u32]) -> Option<Variable<'_>>
    ensures { variable_if_seen result ≡ variable_is (read (record { op = op; args = args.now })) }
{
    variable_in(kind_at(op, args))
}

/// Notes an id, if there is one.
fn note_id(found: &mut List<u32>, id: Option<u32>) -> Result<(), Memory>
    ensures { OnOk result (found.new ≡ found.old ++ spec.one id) }
{
    if let Some(id) = id {
        found.push(id)?;
    }
    Ok(())
}

/// Notes a variable, if there is one.
fn note_variable<'a>(found: &mut List<Variable<'a>>, v: Option<Variable<'a>>) -> Result<(), Memory>
    ensures { OnOk result (map variable_seen found.new ≡ map variable_seen found.old ++ spec.one (variable_if_seen v.entry)) }
{
    if let Some(v) = v {
        found.push(v)?;
    }
    Ok(())
}

/// Gathers a parameter, and says whether others may come.
#[tactic(auto, using(crate::proofs::Cut::joined))]
fn gather_parameter(found: &mut List<u32>, op: u16, args: &[u32]) -> Result<bool, Memory>
    ensures { IfOk result (λ goes. (later : Plain ℕ) → found.old ++ cons_option (if op == ops.FUNCTION_PARAMETER then result_of (read (record { op = op; args = args.now })) else None) (if op == ops.FUNCTION_END then [] else later) ≡ found.new ++ spec.goes_on goes later) }
{
    note_id(found, parameter_of(op, args))?;
    Ok(!is_end(op))
}

/// Gathers a variable, and says whether others may come.
#[tactic(auto, using(crate::proofs::Cut::joined))]
fn gather_variable<'a>(
    found: &mut List<Variable<'a>>,
    op: u16,
    args: &'a [u32],
) -> Result<bool, Memory>
    ensures { IfOk result (λ goes. (later : Plain Holder) → map variable_seen found.old ++ cons_option (variable_is (read (record { op = op; args = args.now }))) (if op == ops.FUNCTION_END then [] else later) ≡ map variable_seen found.new ++ spec.goes_on goes later) }
{
    note_variable(found, variable_of(op, args))?;
    Ok(!is_end(op))
}

/// The ids of a function's parameters.
#[tactic(auto, using(crate::proofs::Cut::gathered_is))]
pub(crate) fn parameters_of(alloc: Global, body: &Code<'_>) -> Result<List<u32>, Memory>
    ensures { IfOk result (λ ids. ids ≡ machine.parameters_of (machine.up_to_end body.now)) }
{
    let found = parameters_from(alloc, body)?;
    Ok(found)
}

#[tactic(auto, unfolding(crate::specs::Bodies::gathered))]
fn parameters_from(alloc: Global, body: &Code<'_>) -> Result<List<u32>, Memory>
    ensures { IfOk result (λ ids. ids ≡ spec.gathered machine.parameter_of body.now) }
{
    let mut found = List::new(alloc);
    let mut rest = body.copied();
    while let Some((_, op, args)) = rest.next() {
        if !gather_parameter(&mut found, op, args)? {
            return Ok(found);
        }
    }
    Ok(found)
}

/// A function's variables.
#[tactic(auto, using(crate::proofs::Cut::gathered_is))]
pub(crate) fn variables_of<'a>(alloc: Global, body: &Code<'a>) -> Result<List<Variable<'a>>, Memory>
    ensures { IfOk result (λ found. map variable_seen found ≡ machine.variables_of (machine.up_to_end body.now)) }
{
    let found = variables_from(alloc, body)?;
    Ok(found)
}

#[tactic(auto, unfolding(crate::specs::Bodies::gathered))]
fn variables_from<'a>(alloc: Global, body: &Code<'a>) -> Result<List<Variable<'a>>, Memory>
    ensures { IfOk result (λ found. map variable_seen found ≡ spec.gathered spec.variable_at body.now) }
{
    let mut found = List::new(alloc);
    let mut rest = body.copied();
    while let Some((_, op, args)) = rest.next() {
        if !gather_variable(&mut found, op, args)? {
            return Ok(found);
        }
    }
    Ok(found)
}

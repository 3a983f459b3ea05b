//! The variables outside functions, and rows that point to variables.

ghost use Rattle.std.specs.Prelude.{◌≡◌, ◌++◌, ◌+◌, IfOk, OnOk, List as Plain, drop, map};
ghost use Rattle.gsl_enact_fits.specs.Passes.{variable_if_seen};
ghost use Rattle.gsl_enact_state.specs.Seen.{given};
ghost use Rattle.gsl_enact_state.specs.Variables as spec;
ghost use Rattle.gsl_kinds.specs.Seen.{kind_seen, variable_seen};
ghost use Rattle.gsl_machine.specs.Functions.{point_each};
ghost use Rattle.gsl_machine.specs.Interfaces.{point_blocks};
ghost use Rattle.gsl_machine.specs.State.{Ids};
ghost use Rattle.gsl_valid.specs.Kinds.{Variable as Holder, variable_in as variable_in_kind};
ghost use Rattle.gsl_valid.specs.Types.{is_block_class as is_block};

use crate::rows::push_row;
use crate::state::{Given, Held};
use gsl_base::{List, Memory};
use gsl_decorations::pointee;
use gsl_enact_fits::{begins, variable_in};
use gsl_enact_memory::Pointer;
use gsl_ids::Definitions;
use gsl_instr::enumerant::storage_class;
use gsl_kinds::{Kind, Variable, kind_at};
use std::alloc::Global;

/// Whether a class is that of a block's variable.
fn is_block_class(class: u32) -> bool
    ensures { result ≡ is_block class }
{
    class == storage_class::UNIFORM
        || class == storage_class::STORAGE_BUFFER
        || class == storage_class::PUSH_CONSTANT
}

/// The variable that an instruction is, if it is one of a block, or if it is none of a block.
fn holder(blocks: bool, kind: Kind<'_>) -> Option<Variable<'_>>
    ensures { variable_if_seen result ≡ spec.holds_if blocks (variable_in_kind (kind_seen kind.entry)) }
{
    match variable_in(kind) {
        None => None,
        Some(v) => {
            if is_block_class(v.class) == blocks {
                Some(v)
            } else {
                None
            }
        }
    }
}

/// Notes a variable, if there is one.
fn note<'a>(found: &mut List<Variable<'a>>, v: Option<Variable<'a>>) -> Result<(), Memory>
    ensures { OnOk result (map variable_seen found.new ≡ map variable_seen found.old ++ spec.one_if (variable_if_seen v.entry)) }
{
    if let Some(v) = v {
        found.push(v)?;
    }
    Ok(())
}

/// The variables outside functions: those of blocks, or those that hold values.
#[tactic(auto, using(crate::proofs::Gathered::gathered))]
pub fn variables_outside<'a>(
    alloc: Global,
    definitions: &Definitions<'a>,
    blocks: bool,
) -> Result<List<Variable<'a>>, Memory>
    ensures { IfOk result (λ found. map variable_seen found ≡ spec.variables_among blocks definitions.now) }
{
    let found = holders(alloc, definitions, blocks)?;
    Ok(found)
}

fn holders<'a>(
    alloc: Global,
    definitions: &Definitions<'a>,
    blocks: bool,
) -> Result<List<Variable<'a>>, Memory>
    ensures { IfOk result (λ found. map variable_seen found ≡ spec.holders blocks definitions.now.instrs) }
{
    let mut found = List::new(alloc);
    for at in 0..definitions.module().instrs.len() {
        if !gather_at(&mut found, definitions, blocks, at)? {
            return Ok(found);
        }
    }
    Ok(found)
}

/// Gathers the one of the instruction of a number, and says whether others may come.
#[tactic(auto, unfolding(crate::specs::Variables::holders))]
fn gather_at<'a>(
    found: &mut List<Variable<'a>>,
    definitions: &Definitions<'a>,
    blocks: bool,
    at: usize,
) -> Result<bool, Memory>
    ensures { IfOk result (λ goes. map variable_seen found.old ++ spec.holders blocks (drop at definitions.now.instrs) ≡ map variable_seen found.new ++ spec.goes_on goes (spec.holders blocks (drop (at + 1) definitions.now.instrs))) }
{
    match definitions.instr(at) {
        None => Ok(false),
        Some((op, args)) => gather(found, blocks, kind_at(op, args)),
    }
}

#[tactic(auto, using(crate::proofs::Gathered::joined))]
fn gather<'a>(found: &mut List<Variable<'a>>, blocks: bool, kind: Kind<'a>) -> Result<bool, Memory>
    ensures { IfOk result (λ goes. (later : Plain Holder) → map variable_seen found.old ++ spec.holder_before blocks (kind_seen kind.entry) later ≡ map variable_seen found.new ++ spec.goes_on goes later) }
{
    if begins(kind) {
        return Ok(false);
    }
    note(found, holder(blocks, kind))?;
    Ok(true)
}

/// Rows that point to variables, numbered from one on.
pub fn point_to_values(
    alloc: Global,
    rows: &mut List<Given>,
    first: usize,
    variables: &[Variable<'_>],
) -> Result<(), Memory>
    ensures { OnOk result ((ids : Ids) → given ids rows.new ≡ point_each (given ids rows.old) first (map variable_seen variables.now)) }
{
    let mut rest = variables;
    let mut number = first;
    while let [v, more @ ..] = rest {
        let path = List::new(alloc);
        push_row(
            rows,
            v.id,
            Held::Points(Pointer::InVariable { number, path }),
        )?;
        number = one_more(number)?;
        rest = more;
    }
    Ok(())
}

fn one_more(number: usize) -> Result<usize, Memory>
    ensures { IfOk result (λ n. n ≡ number + 1) }
{
    if number == usize::MAX {
        return Err(Memory);
    }
    Ok(number + 1)
}

/// Rows that point to the starts of blocks.
pub(crate) fn point_to_blocks(
    definitions: &Definitions<'_>,
    rows: &mut List<Given>,
    variables: &[Variable<'_>],
) -> Result<(), Memory>
    ensures { OnOk result ((ids : Ids) → given ids rows.new ≡ point_blocks definitions.now (given ids rows.old) (map variable_seen variables.now)) }
{
    let mut rest = variables;
    while let [v, more @ ..] = rest {
        let to = Pointer::InBlock {
            variable: v.id,
            offset: 0,
            pointee: pointee(definitions, v.type_),
        };
        push_row(rows, v.id, Held::Points(to))?;
        rest = more;
    }
    Ok(())
}

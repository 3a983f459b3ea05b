//! The stage of a module, the size of its work groups, and the numbers of an invocation.

ghost use Rattle.std.specs.Prelude.{◌≡◌, ◌-◌, ◌<◌, ◌&&◌, drop};
ghost use Rattle.std.specs.Option.{option_map};
ghost use Rattle.gsl_enact_fits.specs.Passes as spec;
ghost use Rattle.gsl_inputs.specs.Demands as demands;
ghost use Rattle.gsl_kinds.specs.Seen.{kind_seen};
ghost use Rattle.gsl_machine.specs.Fits as fits;
ghost use Rattle.gsl_machine.specs.Interfaces as interfaces;
ghost use Rattle.gsl_valid.specs.EntryRules as entry;

use crate::demands::all_below;
use gsl_base::{Input, InputRefusal};
use gsl_ids::Definitions;
use gsl_instr::enumerant::{execution_mode, execution_model};
use gsl_kinds::{Kind, kind_at};

/// The stage of the entry point.
pub fn model_of(definitions: &Definitions<'_>) -> u32
    ensures { result ≡ entry.model_of definitions.now.instrs }
{
    let mut model = execution_model::GL_COMPUTE;
    let mut at = definitions.module().instrs.len();
    while at > 0 {
        model = model_back(definitions, at, model);
        at -= 1;
    }
    model
}

fn model_back(definitions: &Definitions<'_>, now: usize, later: u32) -> u32
    requires { 0 < now }
    ensures { later ≡ spec.model_from (drop now definitions.now.instrs) → result ≡ spec.model_from (drop (now - 1) definitions.now.instrs) }
{
    match definitions.instr(now - 1) {
        None => later,
        Some((op, args)) => model_in(later, kind_at(op, args)),
    }
}

fn model_in(later: u32, kind: Kind<'_>) -> u32
    ensures { result ≡ entry.model_in later (kind_seen kind.entry) }
{
    match kind {
        Kind::Enters { model, .. } => model,
        _ => later,
    }
}

/// The size of the work groups, if a mode gives it.
pub fn local_size<'a>(definitions: &Definitions<'a>) -> Option<&'a [u32]>
    ensures { option_map (λ parts. parts.now) result ≡ spec.size_from definitions.now.instrs }
{
    let mut size = None;
    let mut at = definitions.module().instrs.len();
    while at > 0 {
        size = size_back(definitions, at, size);
        at -= 1;
    }
    size
}

fn size_back<'a>(
    definitions: &Definitions<'a>,
    now: usize,
    later: Option<&'a [u32]>,
) -> Option<&'a [u32]>
    requires { 0 < now }
    ensures { option_map (λ parts. parts.now) later.entry ≡ spec.size_from (drop now definitions.now.instrs) → option_map (λ parts. parts.now) result ≡ spec.size_from (drop (now - 1) definitions.now.instrs) }
{
    match definitions.instr(now - 1) {
        None => later,
        Some((op, args)) => size_step(kind_at(op, args), later),
    }
}

#[tactic(auto, unfolding(crate::specs::Passes::size_step))]
fn size_step<'a>(kind: Kind<'a>, later: Option<&'a [u32]>) -> Option<&'a [u32]>
    ensures { option_map (λ parts. parts.now) result ≡ spec.size_step (kind_seen kind.entry) (option_map (λ parts. parts.now) later.entry) }
{
    match kind {
        Kind::Modes { mode, parts, .. } => {
            if mode == execution_mode::LOCAL_SIZE {
                Some(parts)
            } else {
                later
            }
        }
        _ => later,
    }
}

/// Whether the numbers of an invocation are below the size of its work group.
fn is_in_group(local: &[u32], size: Option<&[u32]>) -> bool
    ensures { result ≡ demands.all_below local.now (spec.size_or (option_map (λ parts. parts.now) size.entry)) }
{
    match size {
        Some(size) => all_below(local, size),
        None => all_below(local, &[1, 1, 1]),
    }
}

/// The same, of the size that a module gives.
fn is_in_its_group(definitions: &Definitions<'_>, local: &[u32]) -> bool
    ensures { result ≡ demands.all_below local.now (interfaces.local_size definitions.now) }
{
    is_in_group(local, local_size(definitions))
}

/// Whether the invocation is one of its work group, and the work group one of those that are run.
fn are_below(definitions: &Definitions<'_>, input: &Input) -> bool
    ensures { result ≡ (demands.all_below input.now.local (interfaces.local_size definitions.now) && demands.all_below input.now.group input.now.groups) }
{
    is_in_its_group(definitions, &input.local) && all_below(&input.group, &input.groups)
}

/// The invocation is one of its work group, and the work group one of those that are run.
pub(crate) fn ids_met(definitions: &Definitions<'_>, input: &Input) -> Result<(), InputRefusal>
    ensures { result ≡ fits.ids_met definitions.now input.now }
{
    if model_of(definitions) != execution_model::GL_COMPUTE {
        return Ok(());
    }
    if are_below(definitions, input) {
        Ok(())
    } else {
        Err(InputRefusal::BadIds)
    }
}

//! The modes of the entry point.

ghost use Rattle.std.specs.Prelude.{◌≡◌, [], ◌∷◌, map, IfOk};
ghost use Rattle.std.specs.List.{list_all};
ghost use Rattle.gsl_kinds.specs.Seen.{kind_seen};
ghost use Rattle.gsl_valid.specs.EntryRules as spec;
ghost use Rattle.gsl_valid_entry.specs.Reading.{mode_seen, mode_if_seen, modes_from};

use gsl_base::Memory;
use gsl_ids::Each;
use gsl_instr::enumerant::{execution_mode, execution_model};
use gsl_kinds::{Kind, kind_at};
use std::alloc::Global;

/// The most that a part of LocalSize may be.
const MOST_SIZE: u32 = 1024;

/// A mode of a function.
#[derive(Clone, Copy)]
pub(crate) struct Mode<'a> {
    function: u32,
    mode: u32,
    parts: &'a [u32],
}

/// The modes that instructions give.
#[tactic(auto, unfolding(crate::specs::Reading::modes_from))]
pub(crate) fn modes_among<'a>(alloc: Global, each: Each<'a>) -> Result<Vec<Mode<'a>>, Memory>
    ensures { IfOk result (λ modes. map mode_seen modes.items ≡ modes_from each.entry) }
{
    let mut each = each;
    let mut modes = Vec::new(alloc);
    while let Some((_, op, args)) = each.next() {
        if let Some(mode) = mode_in(kind_at(op, args)) {
            modes.push(mode)?;
        }
    }
    Ok(modes)
}

/// The mode that an instruction gives.
fn mode_in(kind: Kind<'_>) -> Option<Mode<'_>>
    ensures { mode_if_seen result ≡ spec.mode_in (kind_seen kind.entry) }
{
    match kind {
        Kind::Modes {
            function,
            mode,
            parts,
        } => Some(Mode {
            function,
            mode,
            parts,
        }),
        _ => None,
    }
}

/// Whether the modes are those of a stage: one LocalSize for a compute shader, one OriginUpperLeft for a fragment shader, and none for a
/// vertex shader.
pub(crate) fn are_modes(model: u32, function: u32, modes: &[Mode<'_>]) -> bool
    ensures { result ≡ spec.are_modes model function (map mode_seen modes.now) }
{
    match modes {
        [] => model == execution_model::VERTEX,
        [mode] => is_mode(model, function, *mode),
        _ => false,
    }
}

/// Whether a mode is the one that a stage needs.
fn is_mode(model: u32, function: u32, mode: Mode<'_>) -> bool
    ensures { result ≡ spec.are_modes model function (mode_seen mode.entry ∷ []) }
{
    mode.function == function
        && (model == execution_model::GL_COMPUTE
            && mode.mode == execution_mode::LOCAL_SIZE
            && are_sizes(mode.parts)
            || model == execution_model::FRAGMENT && mode.mode == execution_mode::ORIGIN_UPPER_LEFT)
}

/// Whether the parts of LocalSize are such as they may be.
fn are_sizes(parts: &[u32]) -> bool
    ensures { result ≡ list_all spec.is_size parts.now }
{
    parts.iter().all(|part| 1 <= *part && *part <= MOST_SIZE)
}

//! The layouts of types.

ghost use Rattle.std.specs.Prelude.{◌≡◌, ◌+◌, ◌^◌, ◌<◌, ◌∷◌, None, length, drop, vec_len, IfOk};
ghost use Rattle.gsl_ids.specs.Pass.{first_failed};
ghost use Rattle.gsl_kinds.specs.Runtimes.{front};
ghost use Rattle.gsl_kinds.specs.Seen.{shape_seen};
ghost use Rattle.gsl_valid.specs.IdsDefinedOnce.{ids_defined_once};
ghost use Rattle.gsl_valid.specs.LayoutRules as spec;
ghost use Rattle.gsl_valid.specs.Placed.{count_of_words};
ghost use Rattle.gsl_valid.specs.Types as types;
ghost use Rattle.gsl_valid_layouts.specs.Layouts as kept;
ghost use Rattle.gsl_valid_layouts.specs.Sizes as sizes;

use crate::marks::Reached;
use crate::members::{END_LIMIT, are_laid, elements_laid};
use crate::sizes::{extent_of, need_of, put};
use gsl_base::Memory;
use gsl_decorations::Decorations;
use gsl_ids::{Each, defined_by};
use gsl_kinds::{Shape, kind_at, shape_in};
use std::alloc::Global;

/// The place of the first type which a variable of a block reaches and that is not laid as it may be, which breaks V8.
pub fn layouts(alloc: Global, decorations: &Decorations<'_>) -> Result<Option<u32>, Memory>
    requires length { length decorations.now.instrs < 2 ^ 32 }
    requires words { count_of_words decorations.now < 2 ^ 32 }
    requires once { ids_defined_once decorations.now ≡ None }
    ensures { IfOk result (λ place. place ≡ spec.layouts decorations.now) }
{
    let reached = Reached::new(alloc, decorations)?;
    let module = decorations.definitions().module();
    let place = first_unlaid(alloc, &reached, Each::new(module))?;
    Ok(place)
}

/// The same, among the instructions of a module. It takes sixteen bytes for each id below the bound.
#[tactic(auto, unfolding(gsl_ids::specs::Pass::first_failed))]
fn first_unlaid(alloc: Global, reached: &Reached<'_>, each: Each<'_>) -> Result<Option<u32>, Memory>
    requires length { length reached.now.instrs < 2 ^ 32 }
    requires words { count_of_words reached.now < 2 ^ 32 }
    requires once { ids_defined_once reached.now ≡ None }
    requires whole { kept.instrs_of each ≡ reached.now.instrs }
    ensures { IfOk result (λ place. place ≡ first_failed kept.passes kept.behind reached.now 0 each.entry) }
{
    let bound = reached.decorations().definitions().module().bound;
    let mut needs: Vec<u64> = vec![in alloc; 0; bound as usize]?;
    let mut extents: Vec<u64> = vec![in alloc; 0; bound as usize]?;
    let mut at = 0;
    let mut each = each;
    while let Some((place, op, args)) = each.next() {
        if !is_laid(reached, &needs, &extents, at, op, args) {
            return Ok(Some(place));
        }
        note(
            reached.decorations(),
            &mut needs,
            &mut extents,
            at,
            op,
            args,
        );
        at += 1;
    }
    Ok(None)
}

/// Whether the instruction of a number keeps V8, where the sizes of the types before it are known.
fn is_laid(
    reached: &Reached<'_>,
    needs: &[u64],
    extents: &[u64],
    at: u32,
    op: u16,
    args: &[u32],
) -> bool
    requires short { 1 + length args.now < 2 ^ 32 }
    requires needs { sizes.TellSizes needs.now (spec.need reached.now (front reached.now at)) }
    requires extents { sizes.TellSizes extents.now (spec.extent reached.now (front reached.now at)) }
    ensures { result ≡ spec.laid reached.now (front reached.now at) (record { op = op; args = args.now }) }
{
    match defined_by(op, args) {
        Some(id) => type_laid(reached, needs, extents, at, id, shape_in(kind_at(op, args)))
            || !reached.is_in_block(id),
        None => true,
    }
}

/// Whether a type that a block reaches is laid as it may be.
fn type_laid(
    reached: &Reached<'_>,
    needs: &[u64],
    extents: &[u64],
    at: u32,
    id: u32,
    shape: Shape<'_>,
) -> bool
    requires short { length (types.parts_in (shape_seen shape)) < 2 ^ 32 }
    requires needs { sizes.TellSizes needs.now (spec.need reached.now (front reached.now at)) }
    requires extents { sizes.TellSizes extents.now (spec.extent reached.now (front reached.now at)) }
    ensures { result ≡ spec.type_laid reached.now (front reached.now at) id (shape_seen shape.entry) }
{
    let decorations = reached.decorations();
    match shape {
        Shape::Array { element, .. } => elements_laid(decorations, needs, id, element)
            && extent_of(decorations, extents, id, shape) < END_LIMIT,
        Shape::RuntimeArray { element } => elements_laid(decorations, needs, id, element),
        Shape::Struct { id, members } => are_laid(reached, needs, extents, id, members),
        _ => true,
    }
}

/// Notes the sizes of the type that the instruction of a number declares, where those before it are known.
fn note(
    decorations: &Decorations<'_>,
    needs: &mut Vec<u64>,
    extents: &mut Vec<u64>,
    at: u32,
    op: u16,
    args: &[u32],
)
    requires once { ids_defined_once decorations.now ≡ None }
    requires here { drop at decorations.now.instrs ≡ record { op = op; args = args.now } ∷ drop (at + 1) decorations.now.instrs }
    requires short { 1 + length args.now < 2 ^ 32 }
    requires needs_room { vec_len needs.old ≡ decorations.now.bound }
    requires extents_room { vec_len extents.old ≡ decorations.now.bound }
    requires needs_before { sizes.TellSizes needs.old.items (spec.need decorations.now (front decorations.now at)) }
    requires extents_before { sizes.TellSizes extents.old.items (spec.extent decorations.now (front decorations.now at)) }
    ensures needs_room { vec_len needs.new ≡ decorations.now.bound }
    ensures extents_room { vec_len extents.new ≡ decorations.now.bound }
    ensures needs_behind { sizes.TellSizes needs.new.items (spec.need decorations.now (front decorations.now (at + 1))) }
    ensures extents_behind { sizes.TellSizes extents.new.items (spec.extent decorations.now (front decorations.now (at + 1))) }
{
    if let Some(id) = defined_by(op, args) {
        let shape = shape_in(kind_at(op, args));
        let need = need_of(decorations, needs, id, shape);
        let extent = extent_of(decorations, extents, id, shape);
        put(needs, id, need);
        put(extents, id, extent);
    }
}

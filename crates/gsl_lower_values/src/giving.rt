//! Instructions that give a value.

ghost use Rattle.std.specs.Prelude.{◌≡◌, ◌∷◌, IfOk};
ghost use Rattle.gsl_lower_values.specs.Building as spec;
ghost use Rattle.gsl_lower_values.specs.Building.{Does};

use gsl_base::{List, Memory};
use gsl_spv::{BuildRefusal, Builder};
use gsl_words::Args;
use std::alloc::Global;

/// The operands of an instruction that gives a value: its type and its id in front.
fn args_of(alloc: Global, ty: u32, id: u32, operands: &[u32]) -> Result<Args, Memory>
    ensures { IfOk result (λ args. args ≡ ty ∷ id ∷ operands.now) }
{
    let mut args = List::from_slice(alloc, &[ty, id])?;
    args.extend_from_slice(operands)?;
    Ok(args)
}

/// An instruction that gives a value of a type, by the id of that type: the new id of the value.
#[tactic(auto, unfolding(crate::specs::Building::giving))]
pub fn give(
    alloc: Global,
    b: &mut Builder,
    op: u16,
    operands: &[u32],
    ty: u32,
) -> Result<u32, BuildRefusal>
    ensures { Does result b.new (spec.giving op operands.now ty b.old) }
{
    let id = b.id()?;
    let args = args_of(alloc, ty, id, operands)?;
    b.put(op, args.as_slice())?;
    Ok(id)
}

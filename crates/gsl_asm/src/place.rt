//! Where the result of an instruction stands among its operands.

ghost use Rattle.std.specs.Prelude.{◌≡◌};
ghost use Rattle.gsl_instr.specs.Parts as parts;
ghost use Rattle.gsl_asm.specs.Instructions as spec;

use gsl_instr::Slot;

/// Where the result stands among the operands of a module.
#[derive(Clone, Copy, Debug)]
pub enum Place {
    Nowhere,
    First,
    /// Behind the id of its type.
    Second,
}

/// Where the result of a form stands.
pub fn place_of(slots: &[Slot]) -> Place
    ensures { result ≡ spec.place_of slots.now }
{
    match slots {
        [] => Place::Nowhere,
        [slot] => place_by(is_result(*slot), false),
        [slot, next, ..] => place_by(is_result(*slot), is_result(*next)),
    }
}

fn place_by(first: bool, second: bool) -> Place
    ensures { result ≡ spec.place_by first second }
{
    if first {
        Place::First
    } else if second {
        Place::Second
    } else {
        Place::Nowhere
    }
}

fn is_result(slot: Slot) -> bool
    ensures { result ≡ parts.is_result slot }
{
    match slot {
        Slot::Result => true,
        Slot::Id => false,
        Slot::Forward => false,
        Slot::Number => false,
        Slot::Named(_) => false,
        Slot::OfDecoration => false,
        Slot::Text => false,
    }
}

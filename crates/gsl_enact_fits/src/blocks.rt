//! What an input misses of the blocks of a module.

ghost use Rattle.std.specs.Prelude.{◌≡◌, ◌-◌, ◌^◌, ◌<◌, drop, unwrap_or};
ghost use Rattle.std.specs.Option.{option_map};
ghost use Rattle.gsl_enact_fits.specs.Passes as spec;
ghost use Rattle.gsl_kinds.specs.Seen.{kind_seen, variable_seen};
ghost use Rattle.gsl_machine.specs.Fits as fits;
ghost use Rattle.gsl_valid.specs.DecorationRules.{pointee};
ghost use Rattle.gsl_valid.specs.Decorations.{number_on};
ghost use Rattle.gsl_valid.specs.LayoutRules.{need};
ghost use Rattle.gsl_valid.specs.Placed.{count_of_words};
ghost use Rattle.gsl_valid.specs.Search.{whole};

use crate::code::{count, instr_at};
use crate::demands::{bytes_at, bytes_met};
use crate::missed::Missed;
use crate::needs::need_of;
use crate::variables::{begins, is_block_class, variable_in};
use gsl_base::{Bytes, Input, InputRefusal};
use gsl_decorations::Decorations;
use gsl_instr::enumerant::{decoration, storage_class};
use gsl_kinds::{Kind, Variable, kind_at};

/// The first buffer by set and binding that an input misses.
pub(crate) fn bounds_missed(decorations: &Decorations<'_>, input: &Input) -> Option<Missed>
    requires { count_of_words decorations.now < 2 ^ 32 }
    ensures { result ≡ spec.bounds_missed decorations.now input.now decorations.now.instrs }
{
    let mut found = None;
    let mut at = count(decorations);
    while at > 0 {
        found = bounds_back(decorations, input, at, found);
        at -= 1;
    }
    found
}

/// The first one from the instruction before a number on, where that from the number on is known.
fn bounds_back(
    decorations: &Decorations<'_>,
    input: &Input,
    now: usize,
    later: Option<Missed>,
) -> Option<Missed>
    requires some { 0 < now }
    requires words { count_of_words decorations.now < 2 ^ 32 }
    ensures { later ≡ spec.bounds_missed decorations.now input.now (drop now decorations.now.instrs) → result ≡ spec.bounds_missed decorations.now input.now (drop (now - 1) decorations.now.instrs) }
{
    match instr_at(decorations, now - 1) {
        None => later,
        Some((op, args)) => bounds_step(decorations, input, kind_at(op, args), later),
    }
}

#[tactic(auto, unfolding(crate::specs::Passes::bounds_step))]
fn bounds_step(
    decorations: &Decorations<'_>,
    input: &Input,
    kind: Kind<'_>,
    later: Option<Missed>,
) -> Option<Missed>
    requires { count_of_words decorations.now < 2 ^ 32 }
    ensures { result ≡ spec.bounds_step decorations.now input.now (kind_seen kind.entry) later }
{
    if begins(kind) {
        return None;
    }
    earlier(bound_missed(decorations, input, variable_in(kind)), later)
}

/// The earlier of two by set and binding, the second where they are the same.
fn earlier(first: Option<Missed>, later: Option<Missed>) -> Option<Missed>
    ensures { result ≡ spec.earlier first later }
{
    match first {
        None => later,
        Some(a) => match later {
            None => Some(a),
            Some(b) => if stands(&a, &b) { Some(a) } else { Some(b) },
        },
    }
}

/// Whether the one stands before the other.
fn stands(a: &Missed, b: &Missed) -> bool
    ensures { result ≡ spec.stands a.now b.now }
{
    a.set < b.set || a.set == b.set && a.binding < b.binding
}

/// What an input misses of a variable.
fn bound_missed(
    decorations: &Decorations<'_>,
    input: &Input,
    variable: Option<Variable<'_>>,
) -> Option<Missed>
    requires { count_of_words decorations.now < 2 ^ 32 }
    ensures { result ≡ spec.bound_missed decorations.now input.now (spec.variable_if_seen variable.entry) }
{
    match variable {
        None => None,
        Some(v) => {
            if !is_block_class(v.class) || v.class == storage_class::PUSH_CONSTANT {
                return None;
            }
            buffer_missed(decorations, input, v)
        }
    }
}

/// The number that a decoration of an id gives, 0 where there is none.
fn number_of(decorations: &Decorations<'_>, kind: u32, id: u32) -> u32
    ensures { result ≡ unwrap_or (number_on decorations.now kind id) 0 }
{
    match decorations.number_on(kind, id) {
        Some(number) => number,
        None => 0,
    }
}

/// What an input misses of a block with a buffer.
fn buffer_missed(decorations: &Decorations<'_>, input: &Input, v: Variable<'_>) -> Option<Missed>
    requires { count_of_words decorations.now < 2 ^ 32 }
    ensures { result ≡ spec.buffer_missed decorations.now input.now (variable_seen v.entry) }
{
    let set = number_of(decorations, decoration::DESCRIPTOR_SET, v.id);
    let binding = number_of(decorations, decoration::BINDING, v.id);
    missed_by(
        set,
        binding,
        buffer_met(decorations, input, set, binding, v.type_),
    )
}

/// Whether the buffer at a set and binding is there, and long enough for what a pointer type points to.
fn buffer_met(
    decorations: &Decorations<'_>,
    input: &Input,
    set: u32,
    binding: u32,
    type_: u32,
) -> Result<(), InputRefusal>
    requires { count_of_words decorations.now < 2 ^ 32 }
    ensures { result ≡ fits.bound_met input.now (record { set = set; binding = binding; need = need decorations.now (whole decorations.now) (pointee decorations.now type_) }) }
{
    bytes_met(
        InputRefusal::NoBuffer(set, binding),
        InputRefusal::TooShort(set, binding),
        need_of(decorations, type_),
        bytes_at(&input.buffers, set, binding),
    )
}

fn missed_by(set: u32, binding: u32, met: Result<(), InputRefusal>) -> Option<Missed>
    ensures { result ≡ spec.missed_at set binding met }
{
    match met {
        Ok(()) => None,
        Err(refusal) => Some(Missed {
            set,
            binding,
            refusal,
        }),
    }
}

/// Whether the push constants are there, and enough of them.
pub(crate) fn pushes_met(decorations: &Decorations<'_>, input: &Input) -> Result<(), InputRefusal>
    requires { count_of_words decorations.now < 2 ^ 32 }
    ensures { result ≡ spec.pushes_met decorations.now input.now decorations.now.instrs }
{
    let mut met = Ok(());
    let mut at = count(decorations);
    while at > 0 {
        met = pushes_back(decorations, input, at, met);
        at -= 1;
    }
    met
}

fn pushes_back(
    decorations: &Decorations<'_>,
    input: &Input,
    now: usize,
    later: Result<(), InputRefusal>,
) -> Result<(), InputRefusal>
    requires some { 0 < now }
    requires words { count_of_words decorations.now < 2 ^ 32 }
    ensures { later ≡ spec.pushes_met decorations.now input.now (drop now decorations.now.instrs) → result ≡ spec.pushes_met decorations.now input.now (drop (now - 1) decorations.now.instrs) }
{
    match instr_at(decorations, now - 1) {
        None => later,
        Some((op, args)) => pushes_step(decorations, input, kind_at(op, args), later),
    }
}

#[tactic(auto, unfolding(crate::specs::Passes::pushes_step))]
fn pushes_step(
    decorations: &Decorations<'_>,
    input: &Input,
    kind: Kind<'_>,
    later: Result<(), InputRefusal>,
) -> Result<(), InputRefusal>
    requires { count_of_words decorations.now < 2 ^ 32 }
    ensures { result ≡ spec.pushes_step decorations.now input.now (kind_seen kind.entry) later }
{
    if begins(kind) {
        return Ok(());
    }
    push_met(decorations, input, variable_in(kind))?;
    later
}

/// Whether the push constants are enough for a variable.
fn push_met(
    decorations: &Decorations<'_>,
    input: &Input,
    variable: Option<Variable<'_>>,
) -> Result<(), InputRefusal>
    requires { count_of_words decorations.now < 2 ^ 32 }
    ensures { result ≡ spec.push_met_by decorations.now input.now (spec.variable_if_seen variable.entry) }
{
    match variable {
        None => Ok(()),
        Some(v) => {
            if !is_block_class(v.class) || v.class != storage_class::PUSH_CONSTANT {
                return Ok(());
            }
            push_given(decorations, input, v)
        }
    }
}

/// The bytes of the push constants.
fn push_bytes(input: &Input) -> Option<&Bytes>
    ensures { option_map (λ b. b.now) result ≡ input.now.push }
{
    input.push.as_ref()
}

fn push_given(
    decorations: &Decorations<'_>,
    input: &Input,
    v: Variable<'_>,
) -> Result<(), InputRefusal>
    requires { count_of_words decorations.now < 2 ^ 32 }
    ensures { result ≡ fits.push_met input.now (fits.need_of decorations.now (variable_seen v.entry)) }
{
    bytes_met(
        InputRefusal::NoPush,
        InputRefusal::PushShort,
        need_of(decorations, v.type_),
        push_bytes(input),
    )
}

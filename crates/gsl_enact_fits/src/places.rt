//! What an input misses of the inputs of a module.

ghost use Rattle.std.specs.Prelude.{◌≡◌, ◌-◌, ◌<◌, drop};
ghost use Rattle.gsl_enact_fits.specs.Passes as spec;
ghost use Rattle.gsl_kinds.specs.Seen.{kind_seen, variable_seen};
ghost use Rattle.gsl_machine.specs.Fits as fits;

use crate::code::{count, instr_at};
use crate::demands::{has_words, words_at};
use crate::variables::{begins, is_block_class, lanes_size, variable_in};
use gsl_base::Input;
use gsl_decorations::{Decorations, pointee};
use gsl_instr::enumerant::{decoration, storage_class};
use gsl_kinds::{Kind, Variable, kind_at};

/// The lowest location of which an input misses the value.
pub(crate) fn places_missed(decorations: &Decorations<'_>, input: &Input) -> Option<u32>
    ensures { result ≡ spec.places_missed decorations.now input.now decorations.now.instrs }
{
    let mut found = None;
    let mut at = count(decorations);
    while at > 0 {
        found = places_back(decorations, input, at, found);
        at -= 1;
    }
    found
}

fn places_back(
    decorations: &Decorations<'_>,
    input: &Input,
    now: usize,
    later: Option<u32>,
) -> Option<u32>
    requires { 0 < now }
    ensures { later ≡ spec.places_missed decorations.now input.now (drop now decorations.now.instrs) → result ≡ spec.places_missed decorations.now input.now (drop (now - 1) decorations.now.instrs) }
{
    match instr_at(decorations, now - 1) {
        None => later,
        Some((op, args)) => places_step(decorations, input, kind_at(op, args), later),
    }
}

#[tactic(auto, unfolding(crate::specs::Passes::places_step))]
fn places_step(
    decorations: &Decorations<'_>,
    input: &Input,
    kind: Kind<'_>,
    later: Option<u32>,
) -> Option<u32>
    ensures { result ≡ spec.places_step decorations.now input.now (kind_seen kind.entry) later }
{
    if begins(kind) {
        return None;
    }
    lowest(place_missed(decorations, input, variable_in(kind)), later)
}

/// The lower of two locations.
fn lowest(first: Option<u32>, later: Option<u32>) -> Option<u32>
    ensures { result ≡ spec.lowest first later }
{
    match first {
        None => later,
        Some(a) => match later {
            None => Some(a),
            Some(b) => if a < b { Some(a) } else { Some(b) },
        },
    }
}

/// The location that an input misses of a variable.
fn place_missed(
    decorations: &Decorations<'_>,
    input: &Input,
    variable: Option<Variable<'_>>,
) -> Option<u32>
    ensures { result ≡ spec.place_missed decorations.now input.now (spec.variable_if_seen variable.entry) }
{
    match variable {
        None => None,
        Some(v) => {
            if is_block_class(v.class) || v.class != storage_class::INPUT {
                return None;
            }
            value_missed(
                decorations,
                input,
                v,
                decorations.number_on(decoration::LOCATION, v.id),
            )
        }
    }
}

fn value_missed(
    decorations: &Decorations<'_>,
    input: &Input,
    v: Variable<'_>,
    location: Option<u32>,
) -> Option<u32>
    ensures { result ≡ spec.place_missed_if input.now (fits.place_at decorations.now (variable_seen v.entry) location) }
{
    match location {
        None => None,
        Some(location) => {
            let definitions = decorations.definitions();
            let count = lanes_size(definitions, pointee(definitions, v.type_));
            if has_words(count, words_at(&input.ins, location)) {
                None
            } else {
                Some(location)
            }
        }
    }
}

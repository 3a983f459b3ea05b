//! What instructions take of a frame, as far as counts are told.

ghost use Rattle.std.specs.Prelude.{◌≡◌, ◌+◌, ◌<◌, max};
ghost use Rattle.gsl_frames.specs.Frames as spec;
ghost use Rattle.gsl_frames.specs.Taken as taking;
ghost use Rattle.gsl_kinds.specs.Seen as seen;
ghost use Rattle.gsl_leaves.specs.Table.{told};
ghost use Rattle.gsl_valid.specs.Types as types;

use gsl_decorations::pointee;
use gsl_instr::enumerant::storage_class;
use gsl_kinds::{Kind, Shape, Variable, shape_of};
use gsl_leaves::{Leaves, MOST};

/// What is taken of the frame of a function, in words: by its parameters, by these and what is given since its block began, by the most of that so far, and
/// by its variables.
#[derive(Clone, Copy)]
pub struct Taken {
    pub parameters: u64,
    pub top: u64,
    pub most: u64,
    pub variables: u64,
}

/// Nothing is taken yet.
pub(crate) fn nothing_taken() -> Taken
    ensures { result ≡ taking.nothing_taken }
{
    Taken {
        parameters: 0,
        top: 0,
        most: 0,
        variables: 0,
    }
}

/// The sum of two counts.
#[tactic(auto, using(crate::proofs::Told::sum_told))]
fn plus(a: u64, b: u64) -> u64
    ensures { result ≡ told (a + b) }
{
    a.saturating_add(b).min(MOST)
}

/// The greater of two counts.
fn greater(a: u64, b: u64) -> u64
    ensures { result ≡ max a b }
{
    if a < b { b } else { a }
}

/// How many words what an id of a type stands for has.
#[tactic(auto, unfolding(gsl_leaves::specs::Table::told))]
fn held_words(leaves: &Leaves<'_>, type_: u32) -> u64
    ensures { result ≡ told (spec.held_words leaves.now type_) }
{
    match shape_of(leaves.definitions(), type_) {
        Shape::Pointer { .. } => 3,
        _ => leaves.leaves(type_),
    }
}

/// How many words a variable holds.
#[tactic(auto, unfolding(gsl_leaves::specs::Table::told))]
fn variable_words(leaves: &Leaves<'_>, variable: Variable<'_>) -> u64
    ensures { result ≡ told (spec.variable_words leaves.now (seen.variable_seen variable.entry)) }
{
    if is_block_class(variable.class) {
        0
    } else {
        leaves.leaves(pointee(leaves.definitions(), variable.type_))
    }
}

/// Whether a class is that of a block's variable.
fn is_block_class(class: u32) -> bool
    ensures { result ≡ types.is_block_class class }
{
    class == storage_class::UNIFORM
        || class == storage_class::STORAGE_BUFFER
        || class == storage_class::PUSH_CONSTANT
}

/// With so many words more in the slots.
fn risen(words: u64, taken: Taken) -> Taken
    ensures { result ≡ taking.risen spec.plus_told words taken }
{
    let top = plus(taken.top, words);
    Taken {
        top,
        most: greater(taken.most, top),
        ..taken
    }
}

/// What is taken behind an instruction.
pub(crate) fn behind(leaves: &Leaves<'_>, kind: Kind<'_>, taken: Taken) -> Taken
    ensures { result ≡ spec.behind_told leaves.now (seen.kind_seen kind.entry) taken }
{
    match kind {
        Kind::Holds(variable) => Taken {
            variables: plus(taken.variables, variable_words(leaves, variable)),
            ..taken
        },
        Kind::Begins { .. } => nothing_taken(),
        Kind::Takes { type_ } => with_parameter(held_words(leaves, type_), taken),
        Kind::Calls { type_, .. } | Kind::Gives { type_ } => {
            risen(held_words(leaves, type_), taken)
        }
        Kind::Opens => Taken {
            top: taken.parameters,
            ..taken
        },
        _ => taken,
    }
}

/// With a parameter of so many words more.
fn with_parameter(words: u64, taken: Taken) -> Taken
    ensures { result ≡ taking.with_parameter spec.plus_told words taken }
{
    let risen = risen(words, taken);
    Taken {
        parameters: risen.top,
        ..risen
    }
}

/// What stands in front of what an instruction gives.
pub(crate) fn in_front(kind: Kind<'_>, taken: Taken) -> u64
    ensures { result ≡ taking.in_front (seen.kind_seen kind.entry) taken }
{
    match kind {
        Kind::Holds(_) => taken.variables,
        _ => taken.top,
    }
}

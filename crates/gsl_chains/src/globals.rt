//! The module's own variables.

ghost use Rattle.std.specs.Prelude.{◌≡◌, ◌+◌, ◌^◌, ◌<◌, [], length};
ghost use Rattle.std.specs.List.{cons_option, sum_by};
ghost use Rattle.gsl_chains.specs.Globals as spec;
ghost use Rattle.gsl_frames.specs.Frames.{variable_words};
ghost use Rattle.gsl_kinds.specs.Seen.{kind_seen, variable_seen};
ghost use Rattle.gsl_leaves.specs.Table.{told};
ghost use Rattle.gsl_valid.specs.Kinds.{variable_in};
ghost use Rattle.gsl_valid.specs.Types as types;

use crate::walking::{is_function, plus};
use gsl_decorations::pointee;
use gsl_frames::Frames;
use gsl_instr::enumerant::storage_class;
use gsl_kinds::{Kind, Variable, kind_at};
use gsl_leaves::Leaves;

/// How many words the variables outside functions hold, told like the words of types. They stand in front of those of all functions, each at its place
/// (`Frames::place`). It takes a step for each instruction outside functions.
pub fn global_words(frames: &Frames<'_>) -> u64
    requires few { length frames.now.instrs < 2 ^ 32 }
    ensures { result ≡ told (spec.global_words frames.now) }
{
    let leaves = frames.leaves();
    let of = leaves.definitions().module();
    let count = of.instrs.len() as u32;
    let mut words = 0;
    let mut at = 0;
    while at < count {
        let kind = kind_at(of.instrs.op(at), of.instrs.args(at));
        if is_function(kind) {
            return words;
        }
        words = with_variable(leaves, kind, words);
        at += 1;
    }
    words
}

/// With the words of a variable more, if an instruction is one.
#[tactic(auto, unfolding(gsl_leaves::specs::Table::told))]
fn with_variable(leaves: &Leaves<'_>, kind: Kind<'_>, words: u64) -> u64
    requires { words ≡ told words }
    ensures { result ≡ told (words + sum_by (variable_words leaves.now) (cons_option (variable_in (kind_seen kind.entry)) [])) }
{
    match kind {
        Kind::Holds(variable) => plus(words, words_of(leaves, variable)),
        _ => words,
    }
}

/// How many words a variable holds.
#[tactic(auto, unfolding(gsl_leaves::specs::Table::told))]
fn words_of(leaves: &Leaves<'_>, variable: Variable<'_>) -> u64
    ensures { result ≡ told (variable_words leaves.now (variable_seen variable.entry)) }
{
    if is_block_class(variable.class) {
        0
    } else {
        leaves.leaves(pointee(leaves.definitions(), variable.type_))
    }
}

/// Whether a class is that of a block's variable.
fn is_block_class(class: u32) -> bool
    ensures { result ≡ types.is_block_class class }
{
    class == storage_class::UNIFORM
        || class == storage_class::STORAGE_BUFFER
        || class == storage_class::PUSH_CONSTANT
}

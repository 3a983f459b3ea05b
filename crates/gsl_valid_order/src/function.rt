//! The shape of functions.

ghost use Rattle.std.specs.Prelude.{◌≡◌, ◌+◌, ◌^◌, ◌<◌, length, drop};
ghost use Rattle.gsl_kinds.specs.Seen.{kind_seen};
ghost use Rattle.gsl_valid.specs.FunctionRules as spec;
ghost use Rattle.gsl_valid.specs.Placed as placed;
ghost use Rattle.gsl_valid.specs.Types as types;
ghost use Rattle.gsl_valid.specs.Where as places;
ghost use Rattle.gsl_valid_order.specs.Seen.{standing_seen};
ghost use Rattle.gsl_words.specs.Instructions.{HasFile};

use crate::standing::{Standing, in_block, may_begin, may_take, stands_after};
use gsl_ids::{Definitions, Test, count_of_words, first_failed};
use gsl_instr::enumerant::storage_class;
use gsl_kinds::{Kind, Shape, Variable, initialises, kind_at, shape_of};
use std::marker::Model;

/// The place of the first instruction, or at the end, that breaks V10: the shape of functions and their blocks
/// (SPIR-V 1.0, 2.4 and 2.11), and the variables at their heads.
pub fn function_shape(definitions: &Definitions<'_>) -> Option<u32>
    requires length { length definitions.now.instrs < 2 ^ 32 }
    requires words { placed.count_of_words definitions.now < 2 ^ 32 }
    requires file { HasFile definitions.now }
    ensures { result ≡ spec.function_shape definitions.now }
{
    let mut test = FunctionTest {
        definitions,
        standing: Standing::Outside,
    };
    if let Some(place) = first_failed(&mut test, definitions.module()) {
        return Some(place);
    }
    if test.is_outside() {
        None
    } else {
        Some(count_of_words(definitions.module()))
    }
}

/// The test of V10, which knows where the code stands.
#[derive(Drop)]
pub(crate) struct FunctionTest<'a> {
    definitions: &'a Definitions<'a>,
    standing: Standing<'a>,
}

impl<'a> Model for FunctionTest<'a> {
    ghost use Rattle.gsl_valid_order.specs.Seen.{Reached, standing_seen};

    ghost Value = { Reached };

    ghost view = { λ test. record { of = test.definitions.now; standing = standing_seen test.standing } };
}

impl<'a> FunctionTest<'a> {
    ghost use Rattle.gsl_valid.specs.FunctionRules as spec;

    /// Whether the code stands outside functions.
    fn is_outside(&self) -> bool
        ensures { result ≡ spec.outside self.now.standing }
    {
        is_outside(self.standing)
    }
}

impl<'a> Test for FunctionTest<'a> {
    ghost use Rattle.std.specs.Prelude.{◌+◌, drop};
    ghost use Rattle.gsl_valid.specs.Instruction.{read};
    ghost use Rattle.gsl_valid.specs.Kinds.{kind};
    ghost use Rattle.gsl_valid.specs.FunctionRules.{may_stand_here};
    ghost use Rattle.gsl_valid.specs.Where.{stands_after as stands_behind};

    ghost passes = { λ s at i. may_stand_here s.of (drop (at + 1) s.of.instrs) s.standing (kind (read i)) };

    ghost behind = { λ s at i. record { of = s.of; standing = stands_behind s.of s.standing (kind (read i)) } };

    fn test(&mut self, at: u32, op: u16, args: &[u32]) -> bool {
        let kind = kind_at(op, args);
        let passed = may_stand_here(self.definitions, at, self.standing, kind);
        self.standing = stands_after(self.definitions, self.standing, kind);
        passed
    }
}

/// Whether an instruction of a number may stand where the code stands.
fn may_stand_here(
    definitions: &Definitions<'_>,
    at: u32,
    standing: Standing<'_>,
    kind: Kind<'_>,
) -> bool
    ensures { result ≡ spec.may_stand_here definitions.now (drop (at + 1) definitions.now.instrs) (standing_seen standing.entry) (kind_seen kind.entry) }
{
    match kind {
        Kind::Holds(variable) => may_be_variable(definitions, variable, standing),
        Kind::Begins {
            type_,
            function_type,
            ..
        } => is_outside(standing) && gives(definitions, type_, function_type),
        Kind::Takes { type_ } => may_take(type_, standing),
        Kind::Calls { .. } | Kind::Gives { .. } | Kind::Does | Kind::Leaves => in_block(standing),
        Kind::Opens => may_begin(standing),
        Kind::Merges => in_block(standing) && block_ends(definitions, at as usize + 1),
        Kind::Ended => is_behind(standing),
        _ => true,
    }
}

/// Whether the code stands outside functions.
fn is_outside(standing: Standing<'_>) -> bool
    ensures { result ≡ spec.outside (standing_seen standing.entry) }
{
    matches!(standing, Standing::Outside)
}

/// Whether the code stands behind a block.
fn is_behind(standing: Standing<'_>) -> bool
    ensures { result ≡ spec.behind (standing_seen standing.entry) }
{
    matches!(standing, Standing::Behind)
}

/// Whether a function type has this result type.
fn gives(definitions: &Definitions<'_>, type_: u32, function_type: u32) -> bool
    ensures { result ≡ spec.gives type_ (types.defined_as definitions.now function_type) }
{
    match shape_of(definitions, function_type) {
        Shape::Function { returned, .. } => returned == type_,
        _ => false,
    }
}

/// Whether code from an instruction on begins with the last one of a block, or there is no more code.
fn block_ends(definitions: &Definitions<'_>, at: usize) -> bool
    ensures { result ≡ spec.block_ends (drop at definitions.now.instrs) }
{
    match definitions.instr(at) {
        Some((op, args)) => leaves(kind_at(op, args)),
        None => true,
    }
}

/// Whether a block ends with an instruction.
fn leaves(kind: Kind<'_>) -> bool
    ensures { result ≡ places.leaves (kind_seen kind.entry) }
{
    matches!(kind, Kind::Leaves)
}

/// Whether a variable may stand here: anywhere outside functions, else of class Function at a function's head.
fn may_be_variable(
    definitions: &Definitions<'_>,
    variable: Variable<'_>,
    standing: Standing<'_>,
) -> bool
    ensures { result ≡ spec.may_be_variable definitions.now variable.entry.type_ variable.entry.class variable.entry.initialiser.now (standing_seen standing.entry) }
{
    match standing {
        Standing::Outside => true,
        Standing::AtHead => is_local(definitions, variable),
        _ => false,
    }
}

/// Whether a variable in a function has its pointer's class, which is Function, and its initialiser.
fn is_local(definitions: &Definitions<'_>, variable: Variable<'_>) -> bool
    ensures { result ≡ spec.is_local_of definitions.now variable.entry.class variable.entry.initialiser.now (types.target_of (types.defined_as definitions.now variable.entry.type_)) }
{
    match shape_of(definitions, variable.type_) {
        Shape::Pointer { class, pointee } => {
            class == variable.class
                && variable.class == storage_class::FUNCTION
                && initialises(definitions, pointee, variable.initialiser)
        }
        _ => false,
    }
}

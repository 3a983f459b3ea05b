//! Decorations, and those that variables need.

ghost use Rattle.std.specs.Prelude.{◌≡◌, ◌^◌, ◌<◌, length, take, IfOk};
ghost use Rattle.gsl_kinds.specs.Seen.{kind_seen, decoration_seen};
ghost use Rattle.gsl_valid.specs.DecorationRules as spec;
ghost use Rattle.gsl_valid.specs.Placed.{count_of_words};
ghost use Rattle.gsl_valid_blocks.specs.Decorated as decorated;

use crate::placing::{has_literals, may_stand};
use crate::variables::Variables;
use gsl_base::Memory;
use gsl_decorations::{Decorations, pointee};
use gsl_ids::{Test, first_failed};
use gsl_instr::enumerant::{decoration, storage_class};
use gsl_kinds::{Decoration, Kind, Variable, inside_after, kind_at};
use std::alloc::Global;

/// The place of the first instruction that breaks V7: a decoration that may not stand where it does, or a global variable that has not
/// those that it needs.
pub fn decorations(alloc: Global, marks: &Decorations<'_>) -> Result<Option<u32>, Memory>
    requires length { length marks.now.instrs < 2 ^ 32 }
    requires words { count_of_words marks.now < 2 ^ 32 }
    ensures { IfOk result (λ place. place ≡ spec.decorations marks.now) }
{
    let variables = Variables::new(alloc, marks)?;
    let place = first_undecorated(&variables);
    Ok(place)
}

/// The same, where the variables are known.
fn first_undecorated(variables: &Variables<'_>) -> Option<u32>
    requires length { length variables.now.instrs < 2 ^ 32 }
    requires words { count_of_words variables.now < 2 ^ 32 }
    ensures { result ≡ spec.decorations variables.now }
{
    let mut test = DecorationTest {
        variables,
        inside: false,
    };
    first_failed(&mut test, variables.decorations().definitions().module())
}

/// The test of V7, which knows whether it stands in a function.
#[derive(Drop)]
pub(crate) struct DecorationTest<'a> {
    variables: &'a Variables<'a>,
    inside: bool,
}

impl<'a> Test for DecorationTest<'a> {
    ghost use Rattle.gsl_valid.specs.Instruction.{read};
    ghost use Rattle.gsl_valid.specs.Where.{in_function_after};
    ghost use Rattle.gsl_valid_blocks.specs.Decorated.{decorated_at};

    ghost passes = { λ s at i. decorated_at s.variables.now at s.inside i };

    ghost behind = { λ s at i. record { variables = s.variables; inside = in_function_after s.inside (read i) } };

    fn test(&mut self, at: u32, op: u16, args: &[u32]) -> bool {
        let kind = kind_at(op, args);
        let passed = is_kept(self.variables, at, self.inside, kind);
        self.inside = inside_after(self.inside, kind);
        passed
    }
}

/// Whether an instruction of a number, in a function or outside, keeps V7.
fn is_kept(variables: &Variables<'_>, at: u32, inside: bool, kind: Kind<'_>) -> bool
    ensures { result ≡ decorated.kind_decorated variables.now (take at variables.now.instrs) inside (kind_seen kind.entry) }
{
    match kind {
        Kind::Decorates(decoration) => is_first_there(variables, at, decoration),
        Kind::Holds(variable) => inside || is_decorated(variables, at, variable),
        _ => true,
    }
}

/// Whether a decoration may stand where it does, with its literals and for the first time.
fn is_first_there(variables: &Variables<'_>, at: u32, decoration: Decoration<'_>) -> bool
    ensures { result ≡ spec.decoration_kept variables.now (take at variables.now.instrs) (decoration_seen decoration.entry) }
{
    may_stand(variables, decoration.kind, decoration.place)
        && has_literals(decoration.kind, decoration.literals)
        && !variables
            .decorations()
            .decorates_in(at, decoration.place, decoration.kind)
}

/// Whether a variable of a number and its struct have the decorations that its class needs.
fn is_decorated(variables: &Variables<'_>, at: u32, variable: Variable<'_>) -> bool
    ensures { result ≡ spec.is_decorated variables.now (take at variables.now.instrs) variable.entry.type_ variable.entry.id variable.entry.class }
{
    let decorations = variables.decorations();
    let pointee = pointee(decorations.definitions(), variable.type_);
    let class = variable.class;
    if class == storage_class::UNIFORM {
        differ(
            decorations.has(decoration::BLOCK, pointee),
            decorations.has(decoration::BUFFER_BLOCK, pointee),
        ) && is_bound(variables, at, variable.id)
    } else if class == storage_class::STORAGE_BUFFER {
        decorations.has(decoration::BLOCK, pointee) && is_bound(variables, at, variable.id)
    } else if class == storage_class::PUSH_CONSTANT {
        decorations.has(decoration::BLOCK, pointee) && !variables.has_class_in(at, class)
    } else if class == storage_class::INPUT || class == storage_class::OUTPUT {
        differ(
            decorations.has(decoration::LOCATION, variable.id),
            decorations.has(decoration::BUILT_IN, variable.id),
        )
    } else {
        true
    }
}

/// Whether exactly one of two holds.
fn differ(a: bool, b: bool) -> bool
    ensures { result ≡ spec.differ a b }
{
    if a { !b } else { b }
}

/// Whether a variable of a number has a set and a binding that no variable before it has.
fn is_bound(variables: &Variables<'_>, at: u32, id: u32) -> bool
    ensures { result ≡ spec.is_bound variables.now (take at variables.now.instrs) id }
{
    let decorations = variables.decorations();
    decorations.has(decoration::DESCRIPTOR_SET, id)
        && decorations.has(decoration::BINDING, id)
        && !variables.has_binding_in(
            at,
            decorations.number_on(decoration::DESCRIPTOR_SET, id),
            decorations.number_on(decoration::BINDING, id),
        )
}

//! What calls and locations are found by.

ghost use Rattle.std.specs.Prelude.{◌≡◌};
ghost use Rattle.gsl_kinds.specs.Seen.{kind_seen, place_seen};
ghost use Rattle.gsl_valid.specs.EntryRules as spec;
ghost use Rattle.gsl_valid.specs.Kinds as kinds;
ghost use Rattle.gsl_valid.specs.Types as types;
ghost use Rattle.gsl_valid_entry.specs.Stages as stages;

use gsl_decorations::Keyed;
use gsl_ids::Definitions;
use gsl_instr::enumerant::decoration;
use gsl_kinds::{Kind, Place, kind_at, kind_if};

/// Calls by their functions.
#[derive(Clone, Copy)]
pub(crate) struct Calls;

impl Keyed<u32> for Calls {
    ghost use Rattle.gsl_valid.specs.EntryRules.{is_call_of};
    ghost use Rattle.gsl_valid.specs.Instruction.{read};

    ghost has = { λ calls function i. is_call_of function (read i) };

    fn key(&self, op: u16, args: &[u32]) -> Option<u32> {
        match kind_at(op, args) {
            Kind::Calls { function, .. } => Some(function),
            _ => None,
        }
    }
}

/// Decorations that give locations, by the classes of their variables and the locations.
#[derive(Clone, Copy)]
pub(crate) struct Locations<'a> {
    pub(crate) definitions: &'a Definitions<'a>,
}

impl<'a> Keyed<(u32, u32)> for Locations<'a> {
    ghost use Rattle.std.specs.Prelude.{Some};
    ghost use Rattle.gsl_valid.specs.EntryRules.{gives_location};
    ghost use Rattle.gsl_valid.specs.Instruction.{read};

    ghost has = { λ locations l i. gives_location locations.definitions.now (Some l.0) l.1 (read i) };

    fn key(&self, op: u16, args: &[u32]) -> Option<(u32, u32)> {
        located_in(self.definitions, kind_at(op, args))
    }
}

/// The class and the location that an instruction gives a variable.
fn located_in(definitions: &Definitions<'_>, kind: Kind<'_>) -> Option<(u32, u32)>
    ensures { result ≡ stages.located_in definitions.now (kinds.decoration_in (kind_seen kind.entry)) }
{
    match kind {
        Kind::Decorates(decoration) => located_on(
            definitions,
            decoration.kind,
            decoration.literals,
            decoration.place,
        ),
        _ => None,
    }
}

/// The same of a decoration of such a place and kind.
fn located_on(
    definitions: &Definitions<'_>,
    kind: u32,
    literals: &[u32],
    place: Place,
) -> Option<(u32, u32)>
    ensures { result ≡ stages.located_on definitions.now kind literals.now (place_seen place) }
{
    match place {
        Place::On { target } => {
            if kind == decoration::LOCATION {
                located(class_of(definitions, target), literals)
            } else {
                None
            }
        }
        Place::OnMember { .. } => None,
    }
}

/// The class of a variable with the location that literals give it.
fn located(class: Option<u32>, literals: &[u32]) -> Option<(u32, u32)>
    ensures { result ≡ stages.located class literals.now }
{
    let class = class?;
    match literals {
        [] => None,
        [location, ..] => Some((class, *location)),
    }
}

/// The class of the variable that an id stands for.
pub(crate) fn class_of(definitions: &Definitions<'_>, id: u32) -> Option<u32>
    ensures { result ≡ spec.class_of (types.defined_as definitions.now id) }
{
    class_in(kind_if(definitions.get(id)))
}

/// The class of the variable that an instruction is.
fn class_in(kind: Kind<'_>) -> Option<u32>
    ensures { result ≡ spec.class_in (kinds.variable_in (kind_seen kind.entry)) }
{
    match kind {
        Kind::Holds(variable) => Some(variable.class),
        _ => None,
    }
}

//! What decorations are found by.

ghost use Rattle.std.specs.Prelude.{◌≡◌};
ghost use Rattle.gsl_decorations.specs.Marks as spec;
ghost use Rattle.gsl_kinds.specs.Seen.{place_seen, kind_seen};
ghost use Rattle.gsl_valid.specs.Kinds as kinds;

use crate::first::Keyed;
use gsl_kinds::{Decoration, Kind, Place, kind_at};

/// A kind of decoration with what it stands on: an id, or a member of one.
#[derive(Clone, Copy, PartialEq, Eq, Hash)]
pub(crate) struct Mark {
    kind: u32,
    target: u32,
    member: Option<u32>,
}

/// A kind of decoration with a place.
pub(crate) fn mark_on(place: Place, kind: u32) -> Mark
    ensures { result ≡ spec.mark_on (place_seen place) kind }
{
    match place {
        Place::On { target } => Mark {
            kind,
            target,
            member: None,
        },
        Place::OnMember { target, member } => Mark {
            kind,
            target,
            member: Some(member),
        },
    }
}

/// The decoration that an instruction is.
pub(crate) fn decoration_in(kind: Kind<'_>) -> Option<Decoration<'_>>
    ensures { spec.decoration_if_seen result ≡ kinds.decoration_in (kind_seen kind.entry) }
{
    match kind {
        Kind::Decorates(decoration) => Some(decoration),
        _ => None,
    }
}

/// Decorations by their kinds and places.
#[derive(Clone, Copy)]
pub(crate) struct Marks;

impl Keyed<Mark> for Marks {
    ghost use Rattle.gsl_decorations.specs.Marks as spec;

    ghost has = { λ marks. spec.has_mark };

    fn key(&self, op: u16, args: &[u32]) -> Option<Mark> {
        match decoration_in(kind_at(op, args)) {
            Some(decoration) => Some(mark_on(decoration.place, decoration.kind)),
            None => None,
        }
    }
}

//! The decorations of a module.

ghost use Rattle.std.specs.Prelude.{◌≡◌, ◌^◌, ◌<◌, length, take, IfOk};
ghost use Rattle.gsl_decorations.specs.Firsts as firsts;
ghost use Rattle.gsl_decorations.specs.Marks as marks;
ghost use Rattle.gsl_kinds.specs.Seen.{place_seen};
ghost use Rattle.gsl_valid.specs.Decorations as spec;
ghost use Rattle.gsl_valid.specs.DecorationRules.{decorates};

use crate::first::{firsts, is_below};
use crate::mark::{Mark, Marks, decoration_in, mark_on};
use gsl_base::Memory;
use gsl_ids::Definitions;
use gsl_kinds::{Place, kind_at};
use gsl_words::Module;
use indexmap::IndexMap;
use std::alloc::Global;
use std::marker::Model;

/// The decorations of a module, found by what they stand on. Contracts see the module.
#[derive(Drop)]
pub struct Decorations<'a> {
    definitions: &'a Definitions<'a>,
    rows: IndexMap<Mark, u32>,
}

impl<'a> Model for Decorations<'a> {
    ghost use Rattle.std.specs.Prelude.{◌≡◌, ◌^◌, ◌<◌, length};
    ghost use Rattle.gsl_words.specs.declared.module.Module.{Module as OneModule};
    ghost use Rattle.gsl_decorations.specs.Marks.{Tells};

    ghost Value = { OneModule };

    ghost view = { λ decorations. decorations.definitions.now };

    ghost invariant = { λ decorations. (length decorations.definitions.now.instrs < 2 ^ 32) × Tells decorations.rows decorations.definitions.now.instrs };
}

impl<'a> Decorations<'a> {
    /// The decorations of a module.
    pub fn new(alloc: Global, definitions: &'a Definitions<'a>) -> Result<Decorations<'a>, Memory>
        requires { length definitions.now.instrs < 2 ^ 32 }
        ensures { IfOk result (λ decorations. decorations ≡ definitions.now) }
    {
        let rows = firsts(alloc, definitions.module(), &Marks)?;
        Ok(Decorations { definitions, rows })
    }

    /// The definitions of the module.
    pub fn definitions(&self) -> &'a Definitions<'a>
        ensures { result.now ≡ self.now }
    {
        self.definitions
    }

    /// The literals of the first decoration of a kind on a place.
    pub fn literals_on(&self, place: Place, kind: u32) -> Option<&'a [u32]>
        ensures { marks.literals_seen result ≡ spec.literals_on self.now.instrs (place_seen place) kind }
    {
        literals_numbered(self.definitions.module(), self.first(mark_on(place, kind)))
    }

    /// The number of the first decoration of a kind on a place.
    fn first(&self, mark: Mark) -> Option<u32>
        ensures { result ≡ firsts.first_from (marks.has_mark mark) 0 self.now.instrs }
    {
        self.rows.get(&mark).copied()
    }

    /// Whether a place has a decoration of a kind among so many instructions at the front of the module.
    pub fn decorates_in(&self, count: u32, place: Place, kind: u32) -> bool
        ensures { result ≡ decorates (take count self.now.instrs) (place_seen place) kind }
    {
        is_below(count, self.first(mark_on(place, kind)))
    }

    /// Whether an id has a decoration.
    pub fn has(&self, kind: u32, id: u32) -> bool
        ensures { result ≡ spec.has self.now kind id }
    {
        self.literals_on(Place::On { target: id }, kind).is_some()
    }

    /// The number that a decoration of an id gives.
    pub fn number_on(&self, kind: u32, id: u32) -> Option<u32>
        ensures { result ≡ spec.number_on self.now kind id }
    {
        number_in(self.literals_on(Place::On { target: id }, kind))
    }

    /// Whether a member of a struct has a decoration.
    pub fn member_has(&self, kind: u32, id: u32, member: u32) -> bool
        ensures { result ≡ spec.member_has self.now kind id member }
    {
        self.literals_on(Place::OnMember { target: id, member }, kind)
            .is_some()
    }

    /// The number that a decoration of a member gives.
    pub fn number_on_member(&self, kind: u32, id: u32, member: u32) -> Option<u32>
        ensures { result ≡ spec.number_on_member self.now kind id member }
    {
        number_in(self.literals_on(Place::OnMember { target: id, member }, kind))
    }
}

/// The first literal.
fn number_in(literals: Option<&[u32]>) -> Option<u32>
    ensures { result ≡ spec.number_in (marks.literals_seen literals.entry) }
{
    match literals {
        Some(literals) => literals.first().copied(),
        None => None,
    }
}

/// The literals of the decoration of a number, if there is one.
fn literals_numbered(of: &Module, number: Option<u32>) -> Option<&[u32]>
    ensures { marks.literals_seen result ≡ marks.literals_numbered of.now.instrs number }
{
    let number = number?;
    if (number as usize) >= of.instrs.len() {
        return None;
    }
    match decoration_in(kind_at(of.instrs.op(number), of.instrs.args(number))) {
        Some(decoration) => Some(decoration.literals),
        None => None,
    }
}

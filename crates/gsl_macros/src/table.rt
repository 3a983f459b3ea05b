//! Macros by their names.

ghost use Rattle.std.specs.Prelude.{◌≡◌, [], ◌∷◌, IfOk, OnOk, OnErr, MatchOption, map};
ghost use Rattle.std.specs.Option.{option_map};
ghost use Rattle.std.specs.Str.{bytes_eq};
ghost use Rattle.indexmap.specs.IndexMap.{insert_entry, swap_remove_entry};
ghost use Rattle.gsl_macros.specs.Tables as spec;

use crate::spelled::copied;
use gsl_base::{List, Memory, Raw, RawKind, Text};
use indexmap::IndexMap;
use std::alloc::Global;
use std::marker::Model;
use std::rc::Rc;

/// The tokens that a macro is replaced by. Contracts see how they are spelled.
#[derive(Drop)]
pub struct Body {
    kinds: List<Rc<RawKind>>,
}

impl Model for Body {
    ghost use Rattle.std.specs.Prelude.{List as Plain, map};
    ghost use Rattle.gsl_base.specs.declared.token.RawKind.{RawKind as OneKind};

    ghost Value = { Plain OneKind };

    ghost view = { λ b. map (λ k. k.value) b.kinds };
}

impl Body {
    /// The tokens of a part of a line.
    pub fn of(alloc: Global, raws: &[Raw]) -> Result<Body, Memory>
        ensures { IfOk result (λ body. body ≡ map (λ r. r.kind) raws.now) }
    {
        let mut kinds = List::new(alloc);
        let mut rest = raws;
        while let [raw, more @ ..] = rest {
            kinds.push(Rc::new(alloc, copied(alloc, &raw.kind)?)?)?;
            rest = more;
        }
        Ok(Body { kinds })
    }

    /// The tokens, which are shared with those that a use puts.
    pub fn kinds(&self) -> &[Rc<RawKind>]
        ensures { map (λ k. k.value) result.now ≡ self.now }
    {
        self.kinds.as_slice()
    }
}

/// What a name is replaced by.
#[derive(Drop)]
pub enum Macro {
    /// The number of its line.
    Line,
    /// The number of its file.
    File,
    Number(u32),
    Object(Body),
    /// With the names of its parameters.
    Function(List<Text>, Body),
}

/// What `#line` says: the line behind the physical line `after` has this number, and the file.
#[derive(Clone, Copy, Debug, PartialEq, Eq)]
pub struct Shift {
    pub after: u32,
    pub number: u32,
    pub file: u32,
}

impl Shift {
    /// The number of a physical line.
    pub fn shown(self, line: u32) -> u32
        ensures { result ≡ spec.line_shown self line }
    {
        self.number
            .wrapping_add(line.saturating_sub(self.after).saturating_sub(1))
    }
}

/// The macros of a unit by their names. Contracts see the list of names and macros.
#[derive(Drop)]
pub struct Table {
    map: IndexMap<Text, Macro>,
}

impl Model for Table {
    ghost use Rattle.std.specs.Prelude.{List as Plain, ℕ};
    ghost use Rattle.gsl_macros.specs.declared.table.Macro.{Macro as OneMacro};

    ghost Value = { Plain (Plain ℕ × OneMacro) };

    ghost view = { λ t. t.map.entries };
}

impl Table {
    /// No macro, which takes no memory.
    pub fn new(alloc: Global) -> Table
        ensures { result ≡ [] }
    {
        Table {
            map: IndexMap::new(alloc),
        }
    }

    /// The macro of a name, with its number.
    pub fn find(&self, name: &Text) -> Option<(usize, &Macro)>
        ensures { option_map (λ p. (p.0, p.1.now)) result ≡ spec.found self.now name.now }
    {
        let (number, _, found) = self.map.get_full(name)?;
        Some((number, found))
    }

    /// Gives a name a macro, in the place of the one that it has, or as the last.
    pub fn set(&mut self, name: Text, meaning: Macro) -> Result<(), Memory>
        ensures { OnOk result (self.new ≡ insert_entry bytes_eq self.old name meaning) }
    {
        self.map.insert(name, meaning)?;
        Ok(())
    }

    /// Takes the macro of a name away; the last one takes its place.
    pub fn remove(&mut self, name: &Text)
        ensures { self.new ≡ swap_remove_entry (bytes_eq name.now) self.old }
    {
        self.map.swap_remove(name);
    }
}

/// All that a replacement depends on.
#[derive(Drop)]
pub struct Macros {
    pub table: Table,
    pub shift: Shift,
}

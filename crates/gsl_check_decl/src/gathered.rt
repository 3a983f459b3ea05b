//! Members that were declared so far.

ghost use Rattle.std.specs.Prelude.{◌≡◌, ◌++◌, ◌∷◌, [], OnOk};
ghost use Rattle.gsl_check_decl.specs.Structs as spec;

use gsl_base::{List, Memory, Text};
use gsl_names::{Entry, Names};
use gsl_types::{Member, Members};
use std::alloc::Global;
use std::marker::Model;
use std::mem::replace;

/// Members, with a table of their names. Contracts see the members.
#[derive(Drop)]
pub struct Gathered {
    members: Members,
    names: Names,
}

impl Model for Gathered {
    ghost use Rattle.std.specs.Prelude.{◌≡◌, ◌∷◌, [], List as Plain};
    ghost use Rattle.std.specs.Coded.{coded_list};
    ghost use Rattle.gsl_types.specs.contracts.ty.Member.{the_row};
    ghost use Rattle.gsl_types.specs.declared.ty.Member.{Member as OneMember};
    ghost use Rattle.gsl_check_decl.specs.Tables.{members_above};

    ghost Value = { Plain OneMember };

    ghost coded = { coded_list the_row.coded };

    ghost view = { λ g. g.members };

    ghost invariant = { λ g. g.names ≡ members_above [] g.members ∷ [] };
}

impl Gathered {
    /// No member.
    #[tactic(auto, unfolding(crate::specs::Tables::members_above))]
    pub fn new(alloc: Global) -> Gathered
        ensures { result ≡ [] }
    {
        Gathered {
            members: List::new(alloc),
            names: Names::new(alloc),
        }
    }

    /// Whether one of the members has a name.
    pub fn has(&self, name: &Text) -> bool
        ensures { result ≡ spec.has_member self.now name.now }
    {
        self.names.find(name).is_some()
    }

    /// Puts a member behind the others. For want of memory all are given up.
    #[tactic(auto, using(crate::proofs::Tabled::member_behind), unfolding(crate::specs::Tables::members_above))]
    pub fn push(&mut self, alloc: Global, next: Member) -> Result<(), Memory>
        ensures { OnOk result (self.new ≡ self.old ++ next ∷ []) }
    {
        let name = Text::from_str(alloc, next.name.as_str())?;
        self.members.push(next)?;
        let names = replace(&mut self.names, Names::new(alloc));
        match names.with(alloc, name, Entry::Size) {
            Ok(names) => {
                self.names = names;
                Ok(())
            }
            Err(Memory) => {
                self.members = List::new(alloc);
                Err(Memory)
            }
        }
    }

    /// The members.
    pub fn into_members(self) -> Members
        ensures { result ≡ self }
    {
        let Gathered { members, .. } = self;
        members
    }
}
